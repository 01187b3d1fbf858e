//! A list of steps of the whole bank, taken by one call. What each step does and reports: `.ci/texts`.
use fixtures::setup::three_currencies;
use pvp_types::Step;
use pvp_world::{World, WorldFault};
use std::alloc::Global;
use std::process::Abort;
use std::test::Fail;
use vr_types::{MemCell, SiteFault};

/// ALFA pays in 1200 at the node of USD, and the primary executes it.
pub const PAID_IN: [Step; 4] = [
    Step::PayIn {
        ccy: 1,
        member: 1,
        amt: 1200,
    },
    Step::Deliver(1),
    Step::Deliver(4),
    Step::Deliver(6),
];

/// ALFA pays in 5 at the node of USD. The three messages of it are lost; the node's next beat says it again, the primary
/// executes it, and its beat has the backups execute it.
const LOST_ONCE: [Step; 13] = [
    Step::PayIn {
        ccy: 1,
        member: 1,
        amt: 5,
    },
    Step::Beat(102),
    Step::Deliver(4),
    Step::Deliver(5),
    Step::Deliver(6),
    Step::Deliver(7),
    Step::Deliver(8),
    Step::Deliver(9),
    Step::Deliver(10),
    Step::Deliver(11),
    Step::Beat(200),
    Step::Deliver(12),
    Step::Deliver(13),
];

/// Site 1's timer is refused, as it is down.
const REFUSED: [Step; 3] = [Step::Crash(1), Step::Timer(1), Step::Crash(2)];

/// How many rows a site has executed.
fn done_at(world: &World<MemCell>, site: u16) -> Option<usize> {
    Some(world.site(site)?.done())
}

/// How many steps were taken, how many envelopes sent, and how many rows site 0 has executed.
fn stands(world: &World<MemCell>) -> (usize, usize, Option<usize>) {
    (world.trail().len(), world.post_len(), done_at(world, 0))
}

/// A run of these steps ends so.
pub fn run(
    rt: &impl Abort,
    alloc: Global,
    world: &mut World<MemCell>,
    steps: &[Step],
    ends: Result<(), WorldFault>,
) {
    assert!(rt; world.run(alloc, steps) == ends);
}

/// How many steps were taken, how many envelopes sent, and that site 0 has executed one row.
fn has(rt: &impl Abort, world: &World<MemCell>, taken: usize, sent: usize) {
    assert!(rt; stands(world) == (taken, sent, Some(1)));
}

/// A run of which each step is taken, and one that stops at the second step, with the third not taken.
fn runs(rt: &impl Abort, alloc: Global, world: &mut World<MemCell>) {
    run(rt, alloc, world, &PAID_IN, Ok(()));
    has(rt, world, 4, 7);
    let fault = WorldFault::Site(SiteFault::NotUp);
    run(rt, alloc, world, &REFUSED, Err(fault));
    has(rt, world, 5, 7);
}

/// Two of three sites crash, and each is restarted before the next one goes: never are two down at once, but a site that
/// recovers does not run.
const TWO_RECOVER: [Step; 3] = [Step::Restart(2), Step::Crash(1), Step::Restart(1)];

/// Whether the bank can go on.
fn can_go_on(rt: &impl Abort, world: &World<MemCell>, can: bool) {
    assert!(rt; world.can_go_on() == can);
}

/// A bank can go on with one site of three down, and not with two that recover.
fn goes_on(rt: &impl Abort, alloc: Global, world: &mut World<MemCell>) {
    can_go_on(rt, world, true);
    run(rt, alloc, world, &[Step::Crash(2)], Ok(()));
    can_go_on(rt, world, true);
    run(rt, alloc, world, &TWO_RECOVER, Ok(()));
    can_go_on(rt, world, false);
}

/// The bank's figure in USD, by the book of a site.
fn figure_at(world: &World<MemCell>, site: u16) -> Option<i64> {
    let book = world.site(site)?.machine()?;
    Some(book.figure(1))
}

/// The bank's figure in USD is 5 by the book of each site.
fn has_5_at_each_site(rt: &impl Abort, world: &World<MemCell>) {
    for site in 0..3 {
        assert!(rt; figure_at(world, site) == Some(5), "site {site}");
    }
}

/// After a loss each site has executed the one row, and its book has the 5.
fn loses_once(rt: &impl Abort, alloc: Global, world: &mut World<MemCell>) {
    run(rt, alloc, world, &LOST_ONCE, Ok(()));
    has(rt, world, 13, 13);
    has_5_at_each_site(rt, world);
}

/// Three sites over new cells.
pub fn world(alloc: Global) -> Result<World<MemCell>, Fail> {
    world_with(alloc, MemCell::new())
}

/// Three sites, the last over this cell and the others over new ones.
pub fn world_with(alloc: Global, last: MemCell) -> Result<World<MemCell>, Fail> {
    let mut cells = Vec::new(alloc);
    cells.push(MemCell::new())?;
    cells.push(MemCell::new())?;
    cells.push(last)?;
    Ok(World::new(alloc, &three_currencies(alloc)?, cells)?)
}

#[test]
fn a_run_stops_at_the_first_refusal(rt: HostRuntime) -> Result<(), Fail> {
    let alloc = rt.alloc();
    let mut world = world(alloc)?;
    runs(&rt, alloc, &mut world);
    Ok(())
}

#[test]
fn what_was_lost_is_said_again(rt: HostRuntime) -> Result<(), Fail> {
    let alloc = rt.alloc();
    let mut world = world(alloc)?;
    loses_once(&rt, alloc, &mut world);
    Ok(())
}

#[test]
fn a_bank_goes_on_while_most_sites_run(rt: HostRuntime) -> Result<(), Fail> {
    let alloc = rt.alloc();
    let mut world = world(alloc)?;
    goes_on(&rt, alloc, &mut world);
    Ok(())
}
