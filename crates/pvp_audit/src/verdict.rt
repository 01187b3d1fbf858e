//! What the audit of a whole bank says.
ghost use Rattle.std.specs.Prelude.{◌≡◌, IfOk, IfErr};
ghost use Rattle.pvp_types.specs.Setup.{IsValid};
ghost use Rattle.pvp_rooms.specs.Verdicts.{ClocksRise, IsOfRun, IsOfTest};
ghost use Rattle.pvp_audit.specs.Banked.{IsTheBank};
ghost use Rattle.pvp_audit.specs.Judged.{Judges, JudgesRun, TellsWhy};
ghost use Rattle.pvp_audit.specs.Passed.{EndsSo, PassesSo};

use crate::fitting::{cells_of, is_the_bank};
use crate::pass::{Passed, pass};
use crate::reading::first_unlike;
use pvp_parties::Party;
use pvp_rooms::{AuditTest, Closed, first_alone, first_clock};
use pvp_types::Setup;
use pvp_world::World;
use std::alloc::{AllocError, Global};
use vr_types::MemCell;

/// What the audit says of all that the actors of a bank left.
#[derive(Drop)]
pub enum Verdict {
    /// It is one run. This world went through it, and is where the histories lead.
    Yes(World<MemCell>),
    /// This test fails at this event of this actor, counted from 1, or at 0 where it is of no event.
    No {
        actor: u16,
        event: usize,
        why: AuditTest,
    },
}

/// These are not the actors of the bank, each of its setup and once, in order of their numbers, the sites alone over what
/// their cells held.
#[derive(Clone, Copy, Debug, PartialEq, Eq)]
pub struct NotTheBank;

/// Judges what all actors of a bank left, in order of their numbers: whether it is one run of them all, with a receipt
/// of each event, or which test fails first (`pvp_rooms` has their order). All events go through one new world, and of
/// a run that world is handed out, of which the headline holds. `No` with `NoMemory` where `verdict_of` answers
/// `Err`; and `Err` where these are not the bank's actors.
pub fn audit(alloc: Global, setup: &Setup, closed: &[Closed<Party>]) -> Result<Verdict, NotTheBank>
    requires { IsValid setup.now }
    ensures verdict { IfOk result (Judges setup.now closed.now) }
    ensures bank { IfOk result (λ _. IsTheBank setup.now closed.now) }
    ensures stranger { IfErr result (λ _. IsTheBank setup.now closed.now → ⊥) }
{
    if !is_the_bank(setup, closed) {
        return Err(NotTheBank);
    }
    match verdict_of(alloc, setup, closed) {
        Ok(verdict) => Ok(verdict),
        Err(_) => Ok(no_memory()),
    }
}

/// What `audit` says of the bank's actors, and never `NoMemory`: `Err` where memory is refused.
pub fn verdict_of(
    alloc: Global,
    setup: &Setup,
    closed: &[Closed<Party>],
) -> Result<Verdict, AllocError>
    requires valid { IsValid setup.now }
    requires bank { IsTheBank setup.now closed.now }
    ensures judges { IfOk result (Judges setup.now closed.now) }
    ensures tests { IfOk result (TellsWhy IsOfTest) }
{
    if let Some((actor, event, why)) = first_alone(alloc, closed)? {
        return Ok(Verdict::No { actor, event, why });
    }
    match one_pass(alloc, setup, closed)? {
        Passed::Failed { actor, event, why } => Ok(Verdict::No { actor, event, why }),
        Passed::All(world) => Ok(verdict_at_end(closed, world)),
    }
}

/// What is said of the histories of the bank's actors, whatever receipts and ends there are: whether they are one run, or
/// which of A1 to A3 fails first. `Err` where memory is refused.
pub fn audit_run(
    alloc: Global,
    setup: &Setup,
    closed: &[Closed<Party>],
) -> Result<Verdict, AllocError>
    requires valid { IsValid setup.now }
    requires bank { IsTheBank setup.now closed.now }
    ensures judges { IfOk result (JudgesRun setup.now closed.now) }
    ensures tests { IfOk result (TellsWhy IsOfRun) }
{
    if let Some((actor, event)) = first_clock(closed) {
        return Ok(Verdict::No {
            actor,
            event,
            why: AuditTest::Clock,
        });
    }
    match one_pass(alloc, setup, closed)? {
        Passed::Failed { actor, event, why } => Ok(Verdict::No { actor, event, why }),
        Passed::All(world) => {
            world.is_proved();
            Ok(Verdict::Yes(world))
        }
    }
}

/// The pass of all events through one new world, over what the sites opened over. `Err` where memory is refused.
fn one_pass(alloc: Global, setup: &Setup, closed: &[Closed<Party>]) -> Result<Passed, AllocError>
    requires valid { IsValid setup.now }
    requires bank { IsTheBank setup.now closed.now }
    requires clocks { ClocksRise closed.now }
    ensures { IfOk result (PassesSo setup.now closed.now) }
{
    let cells = cells_of(alloc, closed)?;
    pass(alloc, setup, closed, cells)
}

/// What is said where all events passed through a world: whether each end reads like that world's actor.
fn verdict_at_end(closed: &[Closed<Party>], world: World<MemCell>) -> Verdict
    ensures { EndsSo closed.now world result }
{
    world.is_proved();
    match first_unlike(&world, closed) {
        None => Verdict::Yes(world),
        Some(place) => Verdict::No {
            actor: closed[place].number,
            event: 0,
            why: AuditTest::End,
        },
    }
}

/// What is said where memory is refused.
fn no_memory() -> Verdict
    ensures { result ≡ Verdict.No 0 0 AuditTest.NoMemory }
{
    Verdict::No {
        actor: 0,
        event: 0,
        why: AuditTest::NoMemory,
    }
}
