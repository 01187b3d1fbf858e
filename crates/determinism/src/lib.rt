//! A play of a script is a function of its setup, its lines and the saves that are to fail, where no memory is refused and
//! no save fails: functions that do nothing, whose contracts say it.
#![tactic(auto)]

ghost use Rattle.std.specs.Prelude.{◌≡◌, false, List, Result};
ghost use Rattle.pvp_types.specs.declared.setup.Setup.{Setup};
ghost use Rattle.pvp_types.specs.declared.step.Step.{Step};
ghost use Rattle.pvp_types.specs.Setup.{faults};
ghost use Rattle.pvp_text.specs.declared.script.Line.{Line};
ghost use Rattle.pvp_world.specs.World.{ShownWorld, IsAt};
ghost use Rattle.pvp_world.specs.Steps.{Applies};
ghost use Rattle.pvp_world.specs.declared.fault.WorldFault.{WorldFault};
ghost use Rattle.pvp_world.specs.declared.report.Report.{Report};
ghost use Rattle.pvp_play.specs.declared.cells.Fail.{Fail};
ghost use Rattle.pvp_play.specs.declared.notes.Telling.{Telling};
ghost use Rattle.pvp_world.specs.Refusals.{bank_refuses};
ghost use Rattle.determinism.specs.Unhindered.{is_hindered, refused_as};
ghost use Rattle.determinism.specs.Twins.{AreTwins};
ghost use Rattle.determinism.specs.Plays.{FreePlay};

use vr_types::BootCell;

/// A step that nothing hinders has one outcome: it is refused just where and why the bank refuses it, and of two worlds
/// that came the same way it makes two that came the same way, with one report.
pub fn one_outcome<C: BootCell>()
    ensures refused { (old new : ShownWorld C) (at : IsAt C.held old) (step : Step)
        (result : Result Report WorldFault) →
        Applies C.held old new step result → is_hindered result ≡ false →
        refused_as result ≡ bank_refuses old.setup (faults old.setup) at.list.bank step }
    ensures result { (a b : ShownWorld C) → AreTwins C.held a b →
        (c d : ShownWorld C) (step : Step) (one other : Result Report WorldFault) →
        Applies C.held a c step one → Applies C.held b d step other → is_hindered one ≡ false →
        is_hindered other ≡ false →
        (one ≡ other) × AreTwins C.held c d }
{}

/// Two plays of one setup and the same lines, which nothing hinders, print one text, and their worlds have one trail.
pub fn one_text()
    ensures text { (setup : Setup) (fails : List Fail) (telling : Telling) (lines : List Line)
        (a b : FreePlay setup fails telling lines) →
        a.text ≡ b.text }
    ensures trail { (setup : Setup) (fails : List Fail) (telling : Telling) (lines : List Line)
        (a b : FreePlay setup fails telling lines) →
        a.end.world.trail ≡ b.end.world.trail }
{}
