//! An actor that has a history.
ghost use Rattle.std.specs.Prelude.{◌≡◌, true, IfOk};
ghost use Rattle.pvp_types.specs.Setup.{IsValid};
ghost use Rattle.vr_types.specs.Actors.{id_of};
ghost use Rattle.pvp_parties.specs.Made.{memory};
ghost use Rattle.pvp_parties.specs.Parties.{PartyState, Opens, Shows};
ghost use Rattle.pvp_audit.specs.Banked.{IsActorOf, IsOfBank};
ghost use Rattle.pvp_audit.specs.Gathered.{is_actor};
ghost use Rattle.pvp_audit.specs.Histories.{IsLeftBy};

use crate::filled::fill_in;
use crate::history::History;
use pvp_parties::Party;
use pvp_parties::made::{ClientParty, NodeParty, SiteParty};
use pvp_rooms::Closed;
use pvp_types::Setup;
use std::alloc::{AllocError, Global};
use vr_types::{Boot, FIRST_NODE, FIRST_SITE, MemCell};

/// What an actor of the bank left that has this history, which is filled in: it has no seats, and stands where it opened.
pub fn closed_of(
    alloc: Global,
    setup: &Setup,
    history: History,
) -> Result<Closed<Party>, AllocError>
    requires valid { IsValid setup.now }
    requires known { is_actor setup.now (id_of history.actor) history.opening ≡ true }
    ensures left { IfOk result (λ closed. IsLeftBy closed history) }
    ensures bank { IfOk result (IsOfBank setup.now) }
{
    let end = open_actor(alloc, setup, history.actor, history.opening)?;
    let again = open_actor(alloc, setup, history.actor, history.opening)?;
    let History {
        actor,
        opening,
        entries,
    } = history;
    Ok(Closed {
        number: actor,
        opening,
        history: fill_in(alloc, again, entries)?,
        seats: Vec::new(alloc),
        end,
    })
}

/// The bank's actor of a number, as it opens over this: a site alone over a cell. `Err` where memory is refused.
fn open_actor(
    alloc: Global,
    setup: &Setup,
    actor: u16,
    opening: Option<Boot>,
) -> Result<Party, AllocError>
    requires valid { IsValid setup.now }
    requires known { is_actor setup.now (id_of actor) opening ≡ true }
    ensures bank { IfOk result (IsActorOf setup.now actor opening) }
    ensures opens { IfOk result (λ party. (x : PartyState) → Opens party opening x →
        Shows memory party x) }
{
    match opening {
        Some(boot) => {
            let cell = MemCell::of(boot);
            Ok(Party::Site(SiteParty::<MemCell>::new(alloc, setup, actor - FIRST_SITE, cell)?))
        }
        None if actor >= FIRST_NODE => {
            let ccy = (actor - FIRST_NODE) as u8;
            Ok(Party::Node(NodeParty::new(alloc, setup, ccy)?))
        }
        None => Ok(Party::Client(ClientParty::new(setup, actor)?)),
    }
}
