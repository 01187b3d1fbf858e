//! One pass of all events through one world.
ghost use Rattle.std.specs.Prelude.{◌≡◌, ◌+◌, ◌*◌, IfOk, length, map};
ghost use Rattle.pvp_types.specs.Setup.{IsValid, faults};
ghost use Rattle.vr_types.specs.MemoryCell.{held_by, IsReliable};
ghost use Rattle.pvp_rooms.specs.Runs.{AreInOrder};
ghost use Rattle.pvp_rooms.specs.Verdicts.{ClocksRise};
ghost use Rattle.pvp_audit.specs.Banked.{AreOfBank, OpensInOrder, AllAre};
ghost use Rattle.pvp_audit.specs.Judged.{openings};
ghost use Rattle.pvp_audit.specs.Passed.{PassesSo};

use crate::coming::comes_so;
use crate::numbers::Numbers;
use pvp_parties::Party;
use pvp_rooms::merge::next_actor;
use pvp_rooms::receipts::zeros;
use pvp_rooms::sent::is_named;
use pvp_rooms::{AuditTest, Closed};
use pvp_types::Setup;
use pvp_world::World;
use std::alloc::{AllocError, Global};
use vr_types::MemCell;

/// What became of the events of all actors.
#[derive(Drop)]
pub enum Passed {
    /// Each could come so; the world that went through them.
    All(World<MemCell>),
    /// This event of this actor could not, counted from 1.
    Failed {
        actor: u16,
        event: usize,
        why: AuditTest,
    },
}

/// Takes the events of all actors in one new world, by clock and then by actor number, up to the first that could not come
/// so: what it delivers was not sent as its stamp says, or it does not come out as it is recorded. `Err` where memory is
/// refused.
pub fn pass(
    alloc: Global,
    setup: &Setup,
    closed: &[Closed<Party>],
    cells: Vec<MemCell>,
) -> Result<Passed, AllocError>
    requires valid { IsValid setup.now }
    requires sites { length cells.items ≡ 2 * faults setup.now + 1 }
    requires held { map held_by cells.items ≡ openings closed.now }
    requires reliable { AllAre IsReliable cells.items }
    requires order { AreInOrder closed.now }
    requires bank { AreOfBank setup.now closed.now }
    requires opened { OpensInOrder closed.now }
    requires clocks { ClocksRise closed.now }
    ensures { IfOk result (PassesSo setup.now closed.now) }
{
    headline::one_bank();
    let mut at = zeros(alloc, closed.len())?;
    let mut numbers = Numbers::new(alloc, closed.len())?;
    let mut world = World::new(alloc, setup, cells)?;
    loop {
        let Some(k) = next_actor(closed, at.as_slice()) else {
            return Ok(Passed::All(world));
        };
        let one = &closed[k];
        let place = at[k];
        let taken = &one.history.as_slice()[place];
        let event = place + 1;
        if !is_named(closed, at.as_slice(), &one.end, taken) {
            return Ok(failure_at(one.number, event, AuditTest::Stamped));
        }
        let number = numbers.find(closed, taken.stamp);
        numbers.note(k, world.post_len() + 1)?;
        if !comes_so(alloc, &mut world, one, taken, number)? {
            return Ok(failure_at(one.number, event, AuditTest::Answered));
        }
        at[k] = event;
    }
}

/// What is said where an event of an actor fails a test.
fn failure_at(actor: u16, event: usize, why: AuditTest) -> Passed
    ensures { result ≡ Passed.Failed actor event why }
{
    Passed::Failed { actor, event, why }
}
