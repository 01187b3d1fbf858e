//! A script played in a new world, with each step noted.

ghost use Rattle.std.specs.Prelude.{◌≡◌, [], IfOk};
ghost use Rattle.pvp_types.specs.Setup.{IsValid};

use crate::apart::Apart;
use pvp_play::cells::new_cells;
use pvp_play::{Fail, Player, do_line};
use pvp_text::Line;
use pvp_types::Setup;
use pvp_world::World;
use std::alloc::{AllocError, Global};
use vr_types::MemCell;

/// A new world of a setup, over new cells some of whose saves are to fail.
pub fn new_world(alloc: Global, setup: &Setup, fails: &[Fail]) -> Result<World<MemCell>, AllocError>
    requires { IsValid setup.now }
    ensures setup { IfOk result (λ world. world.setup ≡ setup.now) }
    ensures trail { IfOk result (λ world. world.trail ≡ []) }
{
    let cells = new_cells(alloc, 2 * setup.faults() + 1, fails)?;
    World::new(alloc, setup, cells)
}

/// A play of all its lines: its player, who noted each step that they try, and what they did apart from steps.
#[derive(Drop)]
pub struct Play {
    pub player: Player<MemCell>,
    pub apart: Apart,
}

/// Plays all lines in a world. `Err` where memory is refused.
pub fn play_all(alloc: Global, world: World<MemCell>, lines: &[Line]) -> Result<Play, AllocError> {
    let mut player = Player::with_record(alloc, world);
    let mut apart = Apart::new(alloc);
    for line in lines {
        let from = player.cursor();
        if do_line(alloc, &mut player, line.statement)?.is_none() {
            apart.note(alloc, &player, line.statement, from)?;
        }
    }
    Ok(Play { player, apart })
}
