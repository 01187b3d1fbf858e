//! An actor of the bank behind a lock of its own, with its seats.
ghost use Rattle.std.specs.Prelude.{◌≡◌, ◌*◌, ◌<◌, ◌≤◌, length, IfOk};
ghost use Rattle.pvp_types.specs.Setup.{IsValid, faults};
ghost use Rattle.pvp_book.specs.Ledger.{node_of};
ghost use Rattle.vr_types.specs.Group.{actor_of};
ghost use Rattle.pvp_rooms.specs.Closing.{fresh_seats};

use crate::party::{PartyEvent, PartyOf, PartyOutcome};
use pvp_rooms::{ActorCell, Seat};
use pvp_types::Setup;
use std::alloc::{AllocError, Global};
use vr_types::{BootCell, MemCell};

/// An actor of the bank behind a lock of its own, over a boot cell of this kind where it has one.
pub type PartyCellOf<C> = ActorCell<PartyOf<C>>;

/// An actor of the bank behind a lock of its own.
pub type PartyCell = PartyCellOf<MemCell>;

/// A seat at an actor of the bank.
pub type PartySeat = Seat<PartyEvent, PartyOutcome>;

/// The site of this place in its group, over a cell, and its seats. It shares nothing with any other. `Err` where memory
/// is refused.
pub fn site_cell<C: BootCell>(
    alloc: Global,
    setup: &Setup,
    me: u16,
    cell: C,
    seats: u16,
) -> Result<(PartyCellOf<C>, Vec<PartySeat>), AllocError>
    requires valid { IsValid setup.now }
    requires known { me ≤ 2 * faults setup.now }
    ensures place { IfOk result (λ made. made.0 ≡ record { number = actor_of me; seats = seats }) }
    ensures seats { IfOk result (λ made. made.1.items ≡ fresh_seats seats (actor_of me)) }
{
    let opening = Some(cell.load());
    let party = PartyOf::<C>::site(alloc, setup, me, cell)?;
    ActorCell::around(alloc, party.number(), opening, party, seats)
}

/// The node of a currency, and its seats. It shares nothing with any other. `Err` where memory is refused.
pub fn node_cell<C: BootCell>(
    alloc: Global,
    setup: &Setup,
    ccy: u8,
    seats: u16,
) -> Result<(PartyCellOf<C>, Vec<PartySeat>), AllocError>
    requires valid { IsValid setup.now }
    requires known { ccy < length setup.now.currencies }
    ensures place { IfOk result (λ made. made.0 ≡ record { number = node_of ccy; seats = seats }) }
    ensures seats { IfOk result (λ made. made.1.items ≡ fresh_seats seats (node_of ccy)) }
{
    let party = PartyOf::<C>::node(alloc, setup, ccy)?;
    ActorCell::around(alloc, party.number(), None, party, seats)
}

/// The client of this number, 0 for the operator or a member's, and its seats. It shares nothing with any other. `Err`
/// where memory is refused.
pub fn client_cell<C: BootCell>(
    alloc: Global,
    setup: &Setup,
    number: u16,
    seats: u16,
) -> Result<(PartyCellOf<C>, Vec<PartySeat>), AllocError>
    requires valid { IsValid setup.now }
    requires known { number ≤ length setup.now.members }
    ensures place { IfOk result (λ made. made.0 ≡ record { number = number; seats = seats }) }
    ensures seats { IfOk result (λ made. made.1.items ≡ fresh_seats seats number) }
{
    let party = PartyOf::<C>::client(setup, number)?;
    ActorCell::around(alloc, party.number(), None, party, seats)
}
