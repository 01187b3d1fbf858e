//! A run once more, step by step, for where the sites stood after each.

ghost use Rattle.std.specs.Prelude.{◌≡◌, ◌++◌, [], map, IfOk, OnOk};
ghost use Rattle.std.specs.List.{cons_option};
ghost use Rattle.pvp_picture.specs.Replay.{ComesAgain, snapshot_at, snapshots_of, StandAlong};

use crate::executed::Executions;
use crate::scene::Snapshot;
use pvp_trace::{Attempt, try_step};
use pvp_world::World;
use std::alloc::{AllocError, Global};
use vr_types::{MemCell, Status};

/// Where the sites of a world stand before the steps of a run, and after each of them; what they execute is noted. `Err`
/// where memory is refused, and
/// where it was refused to one of the two runs and not to the other, so that a step came out otherwise.
pub fn snapshots(
    alloc: Global,
    mut world: World<MemCell>,
    noted: &[Attempt],
    executions: &mut Executions,
) -> Result<Vec<Vec<Snapshot>>, AllocError>
    ensures { IfOk result (λ all. StandAlong world noted.now
        (map (λ snapshots. snapshots.items) all.items)) }
{
    let mut all = Vec::new(alloc);
    executions.note(&world)?;
    all.push(snapshots_of(alloc, &world)?)?;
    for attempt in noted {
        take_again(alloc, &mut world, *attempt)?;
        executions.note(&world)?;
        all.push(snapshots_of(alloc, &world)?)?;
    }
    Ok(all)
}

/// Takes a step that was noted once more. `Err` where it comes out otherwise.
fn take_again(alloc: Global, world: &mut World<MemCell>, noted: Attempt) -> Result<(), AllocError>
    ensures { OnOk result (ComesAgain world.old world.new noted) }
{
    let again = try_step(alloc, world, noted.step);
    if again == noted {
        Ok(())
    } else {
        Err(AllocError)
    }
}

/// Where each site of a world stands.
fn snapshots_of(alloc: Global, world: &World<MemCell>) -> Result<Vec<Snapshot>, AllocError>
    ensures { IfOk result (λ all. all.items ≡ snapshots_of world.now) }
{
    let mut all = Vec::new(alloc);
    for number in 0..2 * world.setup().faults() + 1 {
        push_found(&mut all, snapshot(world, number))?;
    }
    Ok(all)
}

/// Adds what is found, if anything is.
fn push_found(all: &mut Vec<Snapshot>, found: Option<Snapshot>) -> Result<(), AllocError>
    ensures { OnOk result (all.new.items ≡ all.old.items ++ cons_option found []) }
{
    if let Some(snapshot) = found {
        all.push(snapshot)?;
    }
    Ok(())
}

/// Where a site of a world stands, if it is there.
fn snapshot(world: &World<MemCell>, number: u16) -> Option<Snapshot>
    ensures { result ≡ snapshot_at world.now number }
{
    let site = world.site(number)?;
    let sites = 2 * world.setup().faults() + 1;
    let status = site.status();
    let view = site.view();
    Some(Snapshot {
        status,
        view,
        leads: status == Status::Normal && view % u32::from(sites) == u32::from(number),
        done: site.done(),
        boots: site.boot().boots,
    })
}
