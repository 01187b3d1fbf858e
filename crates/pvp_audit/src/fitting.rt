//! Whether actors are those of a bank, and the cells over which its sites opened.
ghost use Rattle.std.specs.Prelude.{◌≡◌, ◌≤◌, ◌↔◌, IsTrue, IfOk, map};
ghost use Rattle.pvp_types.specs.Setup.{IsValid};
ghost use Rattle.vr_types.specs.Group.{actor_of};
ghost use Rattle.vr_types.specs.MemoryCell.{held_by, IsReliable};
ghost use Rattle.pvp_audit.specs.Judged.{openings};
ghost use Rattle.pvp_audit.specs.Banked.{actor_count, AreOfBank, IsOfBank, OpenedOver, HasPlace, HasItsSites, AllAre, IsTheBank};

use crate::setups::same_setup;
use pvp_parties::{Party, are_in_order};
use pvp_rooms::Closed;
use pvp_types::Setup;
use std::alloc::{AllocError, Global};
use vr_types::{Boot, FIRST_NODE, FIRST_SITE, MemCell};

/// Whether these are what all actors of a bank left: as many as it has, in order of their numbers, each of its setup under its
/// own number, and all of its sites, which alone opened over what their cells held.
pub fn is_the_bank(setup: &Setup, closed: &[Closed<Party>]) -> bool
    requires { IsValid setup.now }
    ensures { IsTrue result ↔ IsTheBank setup.now closed.now }
{
    if closed.len() != actor_count(setup) || !are_in_order(closed) || !are_of_bank(setup, closed) {
        return false;
    }
    sites_are_numbered(setup, closed)
}

/// How many actors a bank has: the operator, the members, the nodes and the sites.
pub fn actor_count(setup: &Setup) -> usize
    requires { IsValid setup.now }
    ensures count { result ≡ actor_count setup.now }
    ensures few { result ≤ 80 }
{
    let clients = usize::from(setup.member_count()) + 1;
    let nodes = usize::from(setup.currency_count());
    let sites = usize::from(2 * setup.faults() + 1);
    clients + nodes + sites
}

/// Whether each of these is what an actor of this bank left, under its number.
fn are_of_bank(setup: &Setup, closed: &[Closed<Party>]) -> bool
    requires { IsValid setup.now }
    ensures { IsTrue result ↔ AreOfBank setup.now closed.now }
{
    for k in 0..closed.len() {
        if !is_of_bank(setup, &closed[k]) {
            return false;
        }
    }
    true
}

/// Whether this is what an actor of this bank left, under its number.
fn is_of_bank(setup: &Setup, one: &Closed<Party>) -> bool
    requires { IsValid setup.now }
    ensures { IsTrue result ↔ IsOfBank setup.now one.now }
{
    one.number == one.end.number()
        && same_setup(one.end.setup(), setup)
        && is_opened(&one.end, one.opening)
        && has_place(setup, &one.end)
}

/// Whether a site opened over what its cell held, and a node or a client over nothing.
fn is_opened(end: &Party, opening: Option<Boot>) -> bool
    ensures { IsTrue result ↔ OpenedOver end.now opening }
{
    match (end, opening) {
        (Party::Site(_), Some(_)) => true,
        (Party::Node(_), None) => true,
        (Party::Client(_), None) => true,
        _ => false,
    }
}

/// Whether a bank has such an actor.
fn has_place(setup: &Setup, end: &Party) -> bool
    requires { IsValid setup.now }
    ensures { IsTrue result ↔ HasPlace setup.now end.now }
{
    match end {
        Party::Site(site) => site.number() <= FIRST_SITE + 2 * setup.faults(),
        Party::Node(node) => node.number() < FIRST_NODE + u16::from(setup.currency_count()),
        Party::Client(client) => client.number() <= setup.member_count(),
    }
}

/// Whether all sites of a bank are there, numbered from 200 without a gap.
fn sites_are_numbered(setup: &Setup, closed: &[Closed<Party>]) -> bool
    requires { IsValid setup.now }
    ensures { IsTrue result ↔ HasItsSites setup.now closed.now }
{
    let mut sites = 0;
    for k in 0..closed.len() {
        let one = &closed[k];
        let Some(_boot) = one.opening else {
            continue;
        };
        if !is_site(one.number, sites) {
            return false;
        }
        sites += 1;
    }
    sites == usize::from(2 * setup.faults() + 1)
}

/// Whether a number is this site's.
fn is_site(number: u16, site: usize) -> bool
    ensures { IsTrue result ↔ (number ≡ actor_of site) }
{
    number >= FIRST_SITE && usize::from(number - FIRST_SITE) == site
}

/// A cell for each site, which holds what that site opened over, and no save of which fails. `Err` where memory is refused.
pub fn cells_of(alloc: Global, closed: &[Closed<Party>]) -> Result<Vec<MemCell>, AllocError>
    ensures held { IfOk result (λ cells. map held_by cells.items ≡ openings closed.now) }
    ensures reliable { IfOk result (λ cells. AllAre IsReliable cells.items) }
{
    let mut cells = Vec::new(alloc);
    for k in 0..closed.len() {
        let one = &closed[k];
        let Some(boot) = one.opening else {
            continue;
        };
        cells.push(MemCell::of(boot))?;
    }
    Ok(cells)
}
