//! A site as an actor.
ghost use Rattle.std.specs.Prelude.{◌≡◌, ◌+◌, [], IfOk, IsOk, OnErr};
ghost use Rattle.vr_types.specs.Group.{actor_of};
ghost use Rattle.pvp_rooms.specs.Closing.{fresh_seats};
ghost use Rattle.pvp_rooms.specs.Sites.{HasSent, SiteState, Opens, Shows};

use crate::actor::Actor;
use crate::cell::ActorCell;
use crate::message::Copies;
use crate::seat::Seat;
use std::alloc::{AllocError, Global};
use vr_site::Replica;
use vr_types::{
    Boot, BootCell, Config, Event, EventOf, FIRST_SITE, Machine, Sent, SentOf, SiteFault, Why,
};

/// How an event came out at a site.
#[derive(Drop)]
pub enum CameOf<C, R, O> {
    /// The site took its step: what it sent, or why it dropped the event.
    Did {
        sent: SentOf<C, R, O>,
        dropped: Option<Why>,
    },
    /// The site refused the event, and is unchanged.
    Refused(SiteFault),
    /// The site fell, for lack of memory or as a save failed; its cell then held this.
    Fell {
        why: SiteFault,
        cell: Boot,
    },
}

/// How an event came out at a site of a machine.
pub type Came<M> = CameOf<<M as Machine>::Cmd, <M as Machine>::Reply, <M as Machine>::Order>;

impl<M: Machine, C: BootCell> Actor for Replica<M, C> {
    ghost use Rattle.pvp_rooms.specs.Sites.{Comes, Reads, Tells, Brings, after};

    /// What its cell held.
    type Opening = Boot;

    type Event = Event<M>;

    type Outcome = Came<M>;

    ghost State = { SiteState M M.Cmd };

    ghost opens = { λ v boot x. Opens M.Machine v boot x };

    ghost shows = { λ v x. Shows M.Machine C.BootCell v x };

    ghost comes = { λ x event came. Comes M.Machine x event came };

    ghost after = { λ x event came. after x event came };

    ghost reads = { λ v x. Reads C.BootCell v x };

    ghost tells = { λ old new event came. Tells M.Machine C.BootCell old new event came };

    ghost brings = { λ event. Brings event };

    fn take(&mut self, alloc: Global, event: Event<M>) -> Came<M> {
        if let Some(why) = self.refuses(&event) {
            return CameOf::Refused(why);
        }
        match self.handle(alloc, event) {
            Err(why) => CameOf::Fell {
                why,
                cell: self.boot(),
            },
            Ok(out) => CameOf::Did {
                dropped: out.dropped,
                sent: SentOf::new(out.sent),
            },
        }
    }

    /// Where a copy of what the site sent is refused after its step, the site falls.
    fn take_copied(
        &mut self,
        alloc: Global,
        event: Event<M>,
    ) -> Result<Copies<Came<M>>, AllocError> {
        let came = Actor::take(self, alloc, event);
        match came_copies::<M>(alloc, came) {
            Ok(copies) => Ok(copies),
            Err(_) => {
                self.fall();
                Ok(fall_copies::<M>(SiteFault::NoMemory, self.boot()))
            }
        }
    }

    fn copy_event(alloc: Global, event: &Event<M>) -> Result<Event<M>, AllocError> {
        Ok(match event {
            EventOf::Deliver(envelope) => EventOf::Deliver(envelope.copy(alloc)?),
            EventOf::Timer => EventOf::Timer,
            EventOf::Beat => EventOf::Beat,
            EventOf::Crash => EventOf::Crash,
            EventOf::Restart => EventOf::Restart,
        })
    }
}

/// A site behind a lock of its own.
pub type SiteCell<M, C> = ActorCell<Replica<M, C>>;

/// A seat at a machine's site.
pub type SiteSeat<M> = Seat<Event<M>, Came<M>>;

impl<M: Machine, C: BootCell> ActorCell<Replica<M, C>> {
    /// The site of this place in its group, over a cell, and its seats. It shares nothing with any other. `Err` where
    /// memory is refused.
    pub fn new(
        alloc: Global,
        config: Config,
        setup: M::Setup,
        cell: C,
        seats: u16,
    ) -> Result<(Self, Vec<SiteSeat<M>>), AllocError>
        requires { M.admits setup }
        ensures place { IfOk result (λ made.
            made.0 ≡ record { number = actor_of config.me; seats = seats }) }
        ensures seats { IfOk result (λ made. made.1.items
            ≡ fresh_seats seats (actor_of config.me)) }
    {
        let opening = cell.load();
        let site = Replica::new(alloc, config, setup, cell)?;
        let number = FIRST_SITE + config.me;
        let (cell, all) = ActorCell::around(alloc, number, opening, site, seats)?;
        Ok((cell, all))
    }
}

/// How an event came out, for answer, history and receipt. `Err` where memory is refused, which is asked for only where
/// something was sent.
fn came_copies<M: Machine>(alloc: Global, came: Came<M>) -> Result<Copies<Came<M>>, AllocError>
    ensures answered { IfOk result (λ copies. copies.answered ≡ came) }
    ensures recorded { IfOk result (λ copies. copies.recorded ≡ came) }
    ensures receipted { IfOk result (λ copies. copies.receipted ≡ came) }
    ensures err { OnErr result (HasSent came) }
{
    let recorded = copy_came::<M>(alloc, &came)?;
    let receipted = copy_came::<M>(alloc, &came)?;
    Ok(Copies {
        answered: came,
        recorded,
        receipted,
    })
}

/// A copy of how an event came out. `Err` where memory is refused, which is asked for only where something was sent.
fn copy_came<M: Machine>(alloc: Global, came: &Came<M>) -> Result<Came<M>, AllocError>
    ensures copy { IfOk result (λ copy. copy ≡ came.now) }
    ensures err { OnErr result (HasSent came.now) }
{
    Ok(match came {
        CameOf::Did { sent, dropped } => CameOf::Did {
            sent: copy_of::<M>(alloc, sent)?,
            dropped: *dropped,
        },
        CameOf::Refused(why) => CameOf::Refused(*why),
        CameOf::Fell { why, cell } => CameOf::Fell {
            why: *why,
            cell: *cell,
        },
    })
}

/// A copy of what was sent. `Err` where memory is refused; none is taken where nothing was sent.
fn copy_of<M: Machine>(alloc: Global, sent: &Sent<M>) -> Result<Sent<M>, AllocError>
    ensures copy { IfOk result (λ copy. copy ≡ sent.now) }
    ensures nothing { sent.now ≡ [] → IsOk result }
{
    if sent.is_empty() {
        return Ok(SentOf::new(Vec::new(alloc)));
    }
    sent.copy(alloc)
}

/// A fall, for answer, history and receipt.
fn fall_copies<M: Machine>(why: SiteFault, cell: Boot) -> Copies<Came<M>>
    ensures answered { result.answered ≡ CameOf.Fell why cell }
    ensures recorded { result.recorded ≡ result.answered }
    ensures receipted { result.receipted ≡ result.answered }
{
    Copies {
        answered: CameOf::Fell { why, cell },
        recorded: CameOf::Fell { why, cell },
        receipted: CameOf::Fell { why, cell },
    }
}
