//! Falls that are given by their step and by what the cell then holds, as a record of a run has them.
ghost use Rattle.std.specs.Prelude.{◌≡◌, ◌≢◌, ◌<◌, true, Some, Ok, length, IfOk};
ghost use Rattle.pvp_types.specs.declared.setup.Setup.{Setup as AnySetup};
ghost use Rattle.vr_types.specs.declared.event.EventOf.TheVariants.{Restart};
ghost use Rattle.vr_types.specs.declared.event.SiteFault.TheVariants.{CellFault};
ghost use Rattle.pvp_world.specs.Serving.{GoesDown, HoldsSaved};
ghost use Rattle.pvp_world.specs.Falling.{is_miss};
ghost use Rattle.pvp_world.specs.declared.fault.WorldFault.TheVariants.{Site as OfSiteFault};
ghost use Rattle.pvp_world.specs.declared.fault.FallFault.TheVariants.{Step as OfStep, Elsewhere};

use crate::fault::{FallFault, WorldFault};
use crate::post::is_fall;
use crate::world::World;
use headline::{Move, Turn};
use pvp_book::Book;
use pvp_types::Step;
use std::alloc::Global;
use vr_site::Replica;
use vr_types::{Boot, BootCell, Event, EventOf, SiteFault};

impl<C: BootCell> World<C> {
    ghost use Rattle.headline.specs.declared.step.Turn.TheVariants.{OfSite};
    ghost use Rattle.headline.specs.Bank.{turn};
    ghost use Rattle.pvp_world.specs.World.{IsProved};
    ghost use Rattle.pvp_world.specs.Falling.{FallsTo, KeepsReliable};

    /// Takes a fall: the site that the step is for falls in place of it, and its cell then holds `cell`, which is the
    /// old value or what the step saves. The fall is then on the trail. `NoSuchEnvelope` and `NoSuchActor` are tested
    /// first, the latter also where the step is a node's or a client's; then memory for the trail, then whether the
    /// site refuses the step: after these the world is as it was. If its cell comes to hold another value than `cell`,
    /// the site is down, and the trail has its fall with the value that its cell holds. The fault is then the site's
    /// `NoMemory` or `CellFault` if it met one, and else `Elsewhere`: then the value is what the step saves. Where no
    /// save fails there is no `CellFault`.
    pub fn fall(&mut self, alloc: Global, step: Step, cell: Boot) -> Result<(), FallFault>
        ensures falls { FallsTo C.held self.old self.new step cell result }
        ensures headline { IsProved C.held self.new }
        ensures reliable { KeepsReliable C.BootCell self.old self.new result }
    {
        let result = self.take_fall(alloc, step, cell);
        self.is_proved();
        result
    }

    /// Takes a fall.
    fn take_fall(&mut self, alloc: Global, step: Step, cell: Boot) -> Result<(), FallFault>
        ensures falls { FallsTo C.held self.old self.new step cell result }
        ensures reliable { KeepsReliable C.BootCell self.old self.new result }
    {
        match self.turn(alloc, step) {
            Err(fault) => Err(FallFault::Step(fault)),
            Ok(Turn::OfSite(site, event)) => self.site_falls(alloc, step, site, event, cell),
            Ok(Turn::OfNode(_, _)) => Err(FallFault::Step(WorldFault::NoSuchActor)),
            Ok(Turn::OfClient(_, _)) => Err(FallFault::Step(WorldFault::NoSuchActor)),
        }
    }

    /// A site falls in its turn. Room is made on the trail before the site is asked.
    fn site_falls(
        &mut self,
        alloc: Global,
        step: Step,
        site: u16,
        event: Event<Book>,
        cell: Boot,
    ) -> Result<(), FallFault>
        requires turn { turn self.old.post step ≡ Some (OfSite site event) }
        requires there { site < length self.old.sites }
        ensures falls { FallsTo C.held self.old self.new step cell result }
        ensures reliable { KeepsReliable C.BootCell self.old self.new result }
    {
        let Ok(()) = self.trail.reserve() else {
            return Err(FallFault::Step(WorldFault::NoMemory));
        };
        let site = &mut self.sites[usize::from(site)];
        let missed = match go_down(alloc, site, event, cell) {
            Ok(missed) => missed,
            Err(fault) => return Err(FallFault::Step(WorldFault::Site(fault))),
        };
        let held = site.boot();
        self.trail.push(Move::Falls(step, held));
        if held != cell {
            return Err(missed);
        }
        Ok(())
    }
}

/// A site goes down in place of an event, unless it refuses it: over its cell as it is, if that holds this value, and
/// else as the event leaves it. Answers the fault for the case that the cell then holds another value: the site's
/// `NoMemory` or `CellFault` if it met one, and else `Elsewhere`, where the value is what the event saves.
fn go_down<C: BootCell>(
    alloc: Global,
    site: &mut Replica<Book, C>,
    event: Event<Book>,
    cell: Boot,
) -> Result<FallFault, SiteFault>
    ensures down { (setup : AnySetup) (i : _) →
        GoesDown C.held setup i site.old site.new event result }
    ensures miss { IfOk result (λ missed. is_miss missed ≡ true) }
    ensures holds { C.held site.old.cell ≡ cell → C.held site.new.cell ≡ cell }
    ensures saved { result ≡ Ok Elsewhere → C.held site.new.cell ≢ cell →
        (setup : AnySetup) (i : _) → HoldsSaved C.held setup i site.old site.new event }
    ensures reliable { C.is_reliable site.old.cell →
        C.is_reliable site.new.cell × (result ≢ Ok (OfStep (OfSiteFault CellFault))) }
{
    // A restart saves a new value at once, so it is not begun where the old one is to stay.
    if matches!(event, EventOf::Restart) && site.boot() == cell {
        return stay_down(site);
    }
    let fault = match site.handle(alloc, event) {
        Ok(_) => {
            site.fall();
            return Ok(FallFault::Elsewhere);
        }
        Err(fault) => fault,
    };
    if is_fall(fault) {
        return Ok(FallFault::Step(WorldFault::Site(fault)));
    }
    Err(fault)
}

/// A site falls in place of its restart, before it saves, unless it refuses to restart.
fn stay_down<C: BootCell>(site: &mut Replica<Book, C>) -> Result<FallFault, SiteFault>
    ensures down { (setup : AnySetup) (i : _) →
        GoesDown C.held setup i site.old site.new Restart result }
    ensures miss { IfOk result (λ missed. missed ≡ Elsewhere) }
    ensures cell { site.new.cell ≡ site.old.cell }
{
    match site.refuses(&EventOf::Restart) {
        Some(fault) => Err(fault),
        None => {
            site.fall();
            Ok(FallFault::Elsewhere)
        }
    }
}
