//! What a world does with a step, where memory is not refused.
ghost use Rattle.std.specs.Prelude.{◌≡◌, ◌↔◌, ◌<◌, ◌≤◌, ◌-◌, ◌++◌, List, IsTrue, Some, false, length, slice_get, IfOk, OnOk, IfErr};
ghost use Rattle.vr_types.specs.MemoryCell.{held_by};
ghost use Rattle.rtgs_node.specs.Node.{Envelope as AnyEnvelope};
ghost use Rattle.headline.specs.declared.step.Move.TheVariants.{Takes, Falls};
ghost use Rattle.pvp_types.specs.Setup.{faults};
ghost use Rattle.pvp_world.specs.World.{IsProved, OfTrail};
ghost use Rattle.pvp_world.specs.Steps.{Applies, AreReliable, Moves};
ghost use Rattle.pvp_world.specs.Refusals.{bank_refuses, hinders, wants, wants_fall};
ghost use Rattle.pvp_parties.specs.Made.{memory};
ghost use Rattle.pvp_audit.specs.Coming.{StepsSo, FallsSo};

use pvp_book::Book;
use pvp_types::Step;
use pvp_world::{FallFault, Report, World, WorldFault};
use rtgs_node::NodeFault;
use std::alloc::{AllocError, Global};
use vr_types::{Boot, Envelope, MemCell, SiteFault, Why, is_same_envelope, is_same_why};

/// Takes a step, and says whether the world sends this by it, and drops the event for this reason. After a no the world
/// may only be dropped; so after `Err`, where memory is refused.
pub fn takes_so(
    alloc: Global,
    world: &mut World<MemCell>,
    step: Step,
    sent: &[Envelope<Book>],
    dropped: Option<Why>,
) -> Result<bool, AllocError>
    requires reliable { AreReliable memory world.old }
    ensures so { IfOk result (λ can. OfTrail world.old (λ list.
        IsTrue can ↔ StepsSo list step sent.now dropped)) }
    ensures moves { IfOk result (λ can. IsTrue can →
        Moves held_by world.old world.new (Takes step)) }
    ensures proved { OnOk result (IsProved held_by world.new) }
    ensures reliable { OnOk result (AreReliable memory world.new) }
{
    headline::one_bank();
    let many = world.post_len();
    match world_answer(alloc, world, step)? {
        Err(_) => Ok(false),
        Ok(report) => Ok(is_same_why(report.dropped, dropped) && is_posted(world, many, sent)),
    }
}

/// Lets a site fall in place of a step, over a cell that holds this, and says whether it can. After a no the world may only
/// be dropped; so after `Err`, where memory is refused.
pub fn falls_so(
    alloc: Global,
    world: &mut World<MemCell>,
    step: Step,
    cell: Boot,
) -> Result<bool, AllocError>
    requires reliable { AreReliable memory world.old }
    ensures so { IfOk result (λ can. OfTrail world.old (λ list.
        IsTrue can ↔ FallsSo list step cell)) }
    ensures moves { IfOk result (λ can. IsTrue can →
        Moves held_by world.old world.new (Falls step cell)) }
    ensures proved { OnOk result (IsProved held_by world.new) }
    ensures reliable { OnOk result (AreReliable memory world.new) }
{
    headline::one_bank();
    world.is_proved();
    match world.fall(alloc, step, cell) {
        Ok(()) => Ok(true),
        Err(fault) => {
            if is_want_in_fall(fault) {
                return Err(AllocError);
            }
            Ok(false)
        }
    }
}

/// Says whether an actor refuses a step for this. After a no the world may only be dropped; after a yes it is as it was.
/// `Err` where memory is refused.
pub fn refuses_so(
    alloc: Global,
    world: &mut World<MemCell>,
    step: Step,
    fault: WorldFault,
) -> Result<bool, AllocError>
    requires reliable { AreReliable memory world.old }
    ensures so { IfOk result (λ can. OfTrail world.old (λ list.
        IsTrue can ↔ (bank_refuses world.old.setup (faults world.old.setup) list.bank step
        ≡ Some fault))) }
    ensures stays { IfOk result (λ can. IsTrue can → world.new ≡ world.old) }
    ensures proved { OnOk result (IsProved held_by world.new) }
    ensures reliable { OnOk result (AreReliable memory world.new) }
{
    headline::one_bank();
    match world_answer(alloc, world, step)? {
        Err(found) => Ok(is_same_fault(found, fault)),
        Ok(_) => Ok(false),
    }
}

/// What a world answers to a step. `Err` where memory is refused.
fn world_answer(
    alloc: Global,
    world: &mut World<MemCell>,
    step: Step,
) -> Result<Result<Report, WorldFault>, AllocError>
    requires reliable { AreReliable memory world.old }
    ensures applies { IfOk result (λ told. Applies held_by world.old world.new step told) }
    ensures free { IfOk result (λ told. IfErr told (λ fault. hinders fault ≡ false)) }
    ensures first { IsProved held_by world.old }
    ensures proved { OnOk result (IsProved held_by world.new) }
    ensures reliable { OnOk result (AreReliable memory world.new) }
{
    world.is_proved();
    match world.apply(alloc, step) {
        Ok(report) => Ok(Ok(report)),
        Err(fault) => {
            if is_want(fault) {
                return Err(AllocError);
            }
            Ok(Err(fault))
        }
    }
}

/// Whether this is lack of memory.
fn is_want(fault: WorldFault) -> bool
    ensures { result ≡ wants fault }
{
    match fault {
        WorldFault::NoMemory => true,
        WorldFault::Site(SiteFault::NoMemory) => true,
        WorldFault::Node(NodeFault::NoMemory) => true,
        _ => false,
    }
}

/// Whether a fall was not taken for lack of memory.
fn is_want_in_fall(fault: FallFault) -> bool
    ensures { result ≡ wants_fall fault }
{
    match fault {
        FallFault::Step(fault) => is_want(fault),
        FallFault::Elsewhere => false,
    }
}

/// Whether two faults of a world are the same.
fn is_same_fault(a: WorldFault, b: WorldFault) -> bool
    ensures { IsTrue result ↔ (a ≡ b) }
{
    a == b
}

/// Whether a world's post has just these envelopes after the first `many`.
fn is_posted(world: &World<MemCell>, many: usize, sent: &[Envelope<Book>]) -> bool
    requires { many ≤ length world.now.post }
    ensures { (before more : List AnyEnvelope) →
        world.now.post ≡ before ++ more → length before ≡ many →
        IsTrue result ↔ (more ≡ sent.now) }
{
    if world.post_len() - many != sent.len() {
        return false;
    }
    for i in 0..sent.len() {
        if !has_there(world, many + i + 1, &sent[i]) {
            return false;
        }
    }
    true
}

/// Whether a world's envelope of a number is this one.
fn has_there(world: &World<MemCell>, number: usize, sent: &Envelope<Book>) -> bool
    requires { 0 < number }
    ensures { IsTrue result ↔ (slice_get world.now.post (number - 1) ≡ Some sent.now) }
{
    match world.envelope(number) {
        None => false,
        Some(found) => is_same_envelope::<Book>(found, sent),
    }
}
