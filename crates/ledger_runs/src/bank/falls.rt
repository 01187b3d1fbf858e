//! Falls of sites that a world is asked for, each in place of a step and over a value of its cell:
//! what is answered, and what the world then shows.
use self::Ends::{Elsewhere, Falls, Meets, Refused};
use crate::bank::world::{PAID_IN, run, world_with};
use pvp_types::{Cmd, Step};
use pvp_world::{FallFault, Move, World, WorldFault};
use std::alloc::Global;
use std::process::Abort;
use std::test::Fail;
use vr_types::{Boot, MemCell, SiteFault, Status};

/// A fall in place of a step, over a cell that is to count so many restarts, and how that ends.
#[derive(Clone, Copy)]
struct Asked(Step, u32, Ends);

/// How it ends.
#[derive(Clone, Copy)]
enum Ends {
    /// It is taken: this site is down, over that cell.
    Falls(u16),
    /// G6: this site is down, over a cell that counts so many restarts.
    Elsewhere(u16, u32),
    /// The same, where the site met this fault.
    Meets(SiteFault, u16, u32),
    /// Its step has no fall: the world is as it was.
    Refused(WorldFault),
}

/// What a world shows.
#[derive(Clone, Copy, PartialEq, Eq)]
struct WorldReading {
    moves: usize,
    last: Option<Move>,
    sent: usize,
    sites: [Option<SiteReading>; 3],
    /// What the node of USD holds, and how many of its notices are not answered.
    node: Option<(u64, usize)>,
    /// The number of ALFA's last request.
    alfa: Option<u32>,
}

/// The status of a site, how many restarts its cell counts, how many rows it has, and how many of
/// them are executed.
type SiteReading = (Status, u32, usize, usize);

fn site_shown(world: &World<MemCell>, site: u16) -> Option<SiteReading> {
    let site = world.site(site)?;
    Some((
        site.status(),
        site.boot().boots,
        site.log_len(),
        site.done(),
    ))
}

fn shown(world: &World<MemCell>) -> WorldReading {
    WorldReading {
        moves: world.trail().len(),
        last: world.trail().last(),
        sent: world.post_len(),
        sites: [
            site_shown(world, 0),
            site_shown(world, 1),
            site_shown(world, 2),
        ],
        node: world
            .node(1)
            .map(|node| (node.account(), node.unanswered_count())),
        alfa: world.client(1).map(|client| client.number()),
    }
}

/// What a world shows once this site fell in place of a step, over a cell that counts so many
/// restarts.
fn fallen(before: WorldReading, step: Step, site: u16, boots: u32) -> WorldReading {
    let mut after = before;
    after.moves = before.moves.saturating_add(1);
    after.last = Some(Move::Falls(step, Boot { boots }));
    if let Some(place) = after.sites.get_mut(usize::from(site)) {
        *place = Some((Status::Down, boots, 0, 0));
    }
    after
}

/// What is to be answered, and what the world is to show then.
fn wanted(before: WorldReading, asked: Asked) -> (Result<(), FallFault>, WorldReading) {
    let Asked(step, boots, ends) = asked;
    match ends {
        Falls(site) => (Ok(()), fallen(before, step, site, boots)),
        Elsewhere(site, held) => (Err(FallFault::Elsewhere), fallen(before, step, site, held)),
        Meets(fault, site, held) => (
            Err(FallFault::Step(WorldFault::Site(fault))),
            fallen(before, step, site, held),
        ),
        Refused(fault) => (Err(FallFault::Step(fault)), before),
    }
}

/// A world is asked for falls in turn, each of which ends as it says.
fn ask(rt: &impl Abort, alloc: Global, world: &mut World<MemCell>, rows: &[Asked]) {
    for (at, asked) in rows.iter().enumerate() {
        let (said, wanted) = answer(alloc, world, *asked);
        assert!(rt; (said, shown(world)) == wanted, "row {at}");
    }
}

/// Asks a world for a fall: what it answers, and what it is to answer and to show.
fn answer(
    alloc: Global,
    world: &mut World<MemCell>,
    asked: Asked,
) -> (Result<(), FallFault>, (Result<(), FallFault>, WorldReading)) {
    let wanted = wanted(shown(world), asked);
    let Asked(step, boots, _) = asked;
    (world.fall(alloc, step, Boot { boots }), wanted)
}

/// A world in which ALFA has paid in is asked for falls. The first save of its last site fails.
fn ask_anew<R: Abort + AllocGlobal>(rt: &R, rows: &[Asked]) -> Result<(), Fail> {
    let alloc = rt.alloc();
    let mut world = world_with(alloc, MemCell::failing(1, false))?;
    run(rt, alloc, &mut world, &PAID_IN, Ok(()));
    ask(rt, alloc, &mut world, rows);
    Ok(())
}

/// A fall in place of a restart is over the old value or the new one, and any other over the old
/// one, since only a restart saves.
#[test]
fn a_fall_is_over_what_the_cell_holds(rt: HostRuntime) -> Result<(), Fail> {
    const ROWS: &[Asked] = &[
        Asked(Step::Beat(200), 0, Falls(0)),
        Asked(Step::Timer(1), 1, Elsewhere(1, 0)),
        Asked(Step::Deliver(5), 0, Falls(2)),
        Asked(Step::Restart(0), 0, Falls(0)),
        Asked(Step::Restart(0), 1, Falls(0)),
        Asked(Step::Restart(0), 0, Elsewhere(0, 2)),
        Asked(Step::Restart(0), 4, Elsewhere(0, 3)),
        Asked(Step::Restart(2), 1, Meets(SiteFault::CellFault, 2, 0)),
        Asked(Step::Restart(2), 1, Falls(2)),
    ];
    ask_anew(&rt, ROWS)
}

/// Steps of USD's node, and one of ALFA's client.
const PAYS: Step = Step::PayIn {
    ccy: 1,
    member: 1,
    amt: 5,
};

const CLOSES: Step = Step::Close { ccy: 1, member: 1 };

const ASKS: Step = Step::Submit {
    client: 1,
    cmd: Cmd::PayOut { ccy: 1, amt: 5 },
};

/// There is no such envelope or actor, the step is a node's or a client's, or the site refuses it.
/// Nothing is done then.
#[test]
fn a_step_without_a_fall_leaves_the_world(rt: HostRuntime) -> Result<(), Fail> {
    const ROWS: &[Asked] = &[
        Asked(Step::Deliver(0), 0, Refused(WorldFault::NoSuchEnvelope)),
        Asked(Step::Deliver(8), 0, Refused(WorldFault::NoSuchEnvelope)),
        Asked(Step::Timer(3), 0, Refused(WorldFault::NoSuchActor)),
        Asked(Step::Beat(203), 0, Refused(WorldFault::NoSuchActor)),
        Asked(Step::Beat(102), 0, Refused(WorldFault::NoSuchActor)),
        Asked(Step::Deliver(7), 0, Refused(WorldFault::NoSuchActor)),
        Asked(PAYS, 0, Refused(WorldFault::NoSuchActor)),
        Asked(CLOSES, 0, Refused(WorldFault::NoSuchActor)),
        Asked(Step::Beat(1), 0, Refused(WorldFault::NoSuchActor)),
        Asked(ASKS, 0, Refused(WorldFault::NoSuchActor)),
        Asked(
            Step::Restart(1),
            1,
            Refused(WorldFault::Site(SiteFault::AlreadyUp)),
        ),
        Asked(Step::Crash(0), 0, Falls(0)),
        Asked(
            Step::Beat(200),
            0,
            Refused(WorldFault::Site(SiteFault::NotUp)),
        ),
    ];
    ask_anew(&rt, ROWS)
}
