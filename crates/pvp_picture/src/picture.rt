//! A script played in a new world, and the picture of what happened.

ghost use Rattle.std.specs.Prelude.{◌≡◌};
ghost use Rattle.pvp_types.specs.Setup.{IsValid};
ghost use Rattle.pvp_text.specs.declared.script.Kind.TheVariants as kinds;
ghost use Rattle.pvp_text.specs.Script.{script_where};
ghost use Rattle.pvp_picture.specs.Picture.{PictureEnds};

use crate::draw::picture_of;
use crate::executed::Executions;
use crate::frame::Frame;
use crate::plays::{Play, new_world, play_all};
use crate::replay::snapshots;
use crate::scene::Scene;
use crate::staging::{Run, stage};
use pvp_play::Fail;
use pvp_text::book::{read_lines, write_text};
use pvp_text::{Kind, Line, RunFault};
use pvp_types::Setup;
use std::alloc::{AllocError, Global};
use std::io::Write;

/// How many steps are shown where no last one is named.
const MOST_SHOWN: usize = 60;

/// Which steps are shown, by their numbers from 1.
#[derive(Clone, Copy, Debug, PartialEq, Eq)]
pub struct Steps {
    /// The first.
    pub from: u32,
    /// The last; where none is named, 60 are shown at most.
    pub to: Option<u32>,
}

impl Steps {
    /// How many steps stand before those that are shown.
    fn first(self) -> usize {
        (self.from as usize).saturating_sub(1)
    }

    /// How many stand before the last that is shown, and it.
    fn end(self) -> usize {
        match self.to {
            Some(last) => last as usize,
            None => self.first().saturating_add(MOST_SHOWN),
        }
    }
}

/// Plays a script as `trace` does, and in place of its text writes one picture of the steps and actors that are to be shown: an
/// SVG that stands alone. What the picture shows is not proved.
///
/// The script is read whole first, so that a faulty one writes nothing, and its first faulty line is told, or that memory
/// was refused to keep a line before that. Where memory is refused nothing is written: it is refused too where the run,
/// taken once more for where the sites stand, wants memory at another step. How much was written where the writer fails
/// is not said.
pub fn picture<W: Write>(
    alloc: Global,
    setup: &Setup,
    fails: &[Fail],
    script: &[u8],
    steps: Steps,
    frame: &Frame<'_>,
    writer: &mut W,
) -> Result<(), RunFault>
    requires { IsValid setup.now }
    ensures { PictureEnds W.contents
        (λ refused. script_where refused kinds.Play setup.now script.now)
        result writer.old writer.new }
{
    let lines = read_lines(alloc, setup, Kind::Play, script)?;
    let scene = scene_of(alloc, setup, fails, lines.as_slice(), steps, frame)?;
    let text = picture_of(alloc, &scene, frame.title)?;
    write_text(writer, text.as_str())
}

/// What happens where lines are played, at the steps that are to be shown.
fn scene_of(
    alloc: Global,
    setup: &Setup,
    fails: &[Fail],
    lines: &[Line],
    steps: Steps,
    frame: &Frame<'_>,
) -> Result<Scene, AllocError>
    requires { IsValid setup.now }
{
    let Play { player, apart } = play_all(alloc, new_world(alloc, setup, fails)?, lines)?;
    let mut executions = Executions::new(alloc, setup)?;
    let again = new_world(alloc, setup, fails)?;
    let snapshots = snapshots(alloc, again, player.notes(), &mut executions)?;
    let run = Run {
        world: player.world(),
        noted: player.notes(),
        snapshots: snapshots.as_slice(),
        executions: &executions,
        apart: &apart,
        frame,
    };
    stage(alloc, &run, steps.first(), steps.end())
}
