//! What holds of verdicts, and of histories that are filled in: functions that do nothing, whose contracts say it.
ghost use Rattle.std.specs.Prelude.{List, ◌≡◌};
ghost use Rattle.pvp_rooms.specs.Runs.{AreInOrder};
ghost use Rattle.pvp_audit.specs.Judged.{HasOneVerdict, HasOneVerdictOfRun, Left};
ghost use Rattle.pvp_parties.specs.Parties.{PartyState};
ghost use Rattle.pvp_journal.specs.Spelling.{Entry};
ghost use Rattle.pvp_journal.specs.Summaries.{Taken};
ghost use Rattle.pvp_audit.specs.Filled.{AreEventsOf, AreFilledIn};

/// What the verdict of actors says, but that memory was refused, is a function of what they left; and so is that of
/// histories alone.
pub fn one_verdict()
    ensures of_actors { (closed : List Left) → AreInOrder closed → HasOneVerdict closed }
    ensures of_histories { (closed : List Left) → AreInOrder closed → HasOneVerdictOfRun closed }
{}

/// From the entries of a journal, in a state in which its actor opens, one history alone is filled in.
pub fn one_history()
    ensures { (x : PartyState) (entries : List Entry) (history other : List Taken) →
        AreEventsOf entries history → AreFilledIn x entries history →
        AreEventsOf entries other → AreFilledIn x entries other → history ≡ other }
{}
