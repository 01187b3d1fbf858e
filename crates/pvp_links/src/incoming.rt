//! One incoming stream of a system.
use crate::writers::{Outlet, Writers};
use crate::{PeerEnd, Served, serve_peer};
use pvp_rooms::{Actor, ActorCell, Gate, Seat};
use std::alloc::Global;
use std::io::Read;
use std::sync::Wait;

/// An incoming stream of an actor, and the seat from which its frames are posted.
#[derive(Drop)]
pub struct Peer<'a, A: Actor, R, G> {
    /// The actor.
    pub cell: &'a ActorCell<A>,
    pub seat: Seat<A::Event, A::Outcome>,
    pub reader: R,
    /// What hears of the steps for its frames.
    pub gate: G,
    /// How the stream ended, once it has been served.
    pub end: Option<PeerEnd>,
}

impl<A: Served, R: Read, G: Gate> Peer<'_, A, R, G> {
    ghost use Rattle.pvp_links.specs.Serving.{IsPeerServed, IsPeerHeard};

    /// Serves the stream to its end.
    pub(crate) fn serve<T: Wait>(&mut self, rt: &T, alloc: Global, out: &Writers)
        ensures served { IsPeerServed A.Served.delivery (λ r. R.remaining r) self.old self.new }
        ensures heard { IsPeerHeard (λ x. G.heard x) self.old self.new }
    {
        let mut outlet = Outlet { writers: out };
        let end = serve_peer(
            rt,
            alloc,
            self.cell,
            &mut self.seat,
            &mut self.reader,
            &mut self.gate,
            &mut outlet,
        );
        self.end = Some(end);
    }
}
