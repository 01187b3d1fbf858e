//! All workers of a system at once.
ghost use Rattle.std.specs.Fork.{AcceptsEach};
ghost use Rattle.pvp_links.specs.Serving.{AllChanged, AreServed, AreHeard, IsPeerServed, IsPeerHeard, HasPlayed};

use crate::Served;
use crate::incoming::Peer;
use crate::player::Player;
use crate::writer::Writer;
use crate::writers::{Outlet, Writers};
use pvp_rooms::Gate;
use std::alloc::Global;
use std::io::{Read, Write};
use std::sync::Wait;
use std::thread::{self, Threads};

/// Serves a whole system of actors: a worker for each incoming stream, one that writes for each
/// actor, and the player, who runs on the calling thread. When the player has returned the writers
/// are stopped; they write what they were given before, and close their streams. It returns when
/// all have ended. A worker for which no thread can be made runs later, on the thread that was to
/// start it; a writer then comes before any reader, and the player before them all.
pub fn serve_streams<A, R, W, G, P, T>(
    rt: &T,
    alloc: Global,
    peers: &mut [Peer<'_, A, R, G>],
    writers: &mut [Writer<W>],
    out: &Writers,
    player: &mut P,
)
where
    A: Served + Send,
    A::Opening: Send,
    A::Event: Send,
    A::Outcome: Send,
    R: Read + Send,
    W: Write + Send + Drop,
    G: Gate + Send,
    P: Player,
    T: Threads + Wait + Sync,
    ensures served { AreServed A.Served.delivery (λ r. R.remaining r) peers.old peers.new }
    ensures heard { AreHeard (λ x. G.heard x) peers.old peers.new }
    ensures played { HasPlayed P.plays player.old player.new }
{
    let write = &mut || write_all(rt, out, player, writers);
    each_beside(
        rt,
        &|_, peer: &mut Peer<'_, A, R, G>|
            ensures served { IsPeerServed A.Served.delivery (λ r. R.remaining r) peer.old peer.new }
            ensures heard { IsPeerHeard (λ x. G.heard x) peer.old peer.new }
        { peer.serve(rt, alloc, out) },
        write,
        peers,
    );
}

/// Calls a function at each of these, in a thread of its own where one can be made, and another in this thread.
fn each_beside<X: Send, F: Fn(usize, &mut X) + Sync, H: FnMut(), T: Threads + Sync>(
    rt: &T,
    f: &F,
    other: &mut H,
    items: &mut [X],
)
    requires each { AcceptsEach F.Fn f.now items.old }
    requires other { H.pre other.old }
    ensures each { AllChanged F.Fn f.now items.old items.new }
    ensures other { H.step other.old tt other.new }
{
    let mut work = ||
        requires { AcceptsEach F.Fn f.now items.now }
        ensures { AllChanged F.Fn f.entry.now items.entry.now items.exit.now }
    { each(rt, f, items) };
    thread::join_mut(rt, &mut work, other);
}

/// Calls a function at each of these, in a thread of its own where one can be made.
fn each<X: Send, F: Fn(usize, &mut X) + Sync, T: Threads + Sync>(rt: &T, f: &F, items: &mut [X])
    requires { AcceptsEach F.Fn f.now items.old }
    ensures { AllChanged F.Fn f.now items.old items.new }
{
    let threads = items.len().max(1);
    thread::for_each_mut(rt, items, threads, f);
}

/// Runs the player beside the writers, and then stops these.
fn write_all<W, P, T>(rt: &T, out: &Writers, player: &mut P, writers: &mut [Writer<W>])
where
    W: Write + Send + Drop,
    P: Player,
    T: Threads + Wait + Sync,
    ensures { HasPlayed P.plays player.old player.new }
{
    thread::join_mut(
        rt,
        &mut || run_all(rt, out, writers),
        &mut || play(rt, out, player),
    );
}

/// Runs each writer, in a thread of its own where one can be made.
fn run_all<W, T>(rt: &T, out: &Writers, writers: &mut [Writer<W>])
where
    W: Write + Send + Drop,
    T: Threads + Wait + Sync,
{
    let threads = writers.len().max(1);
    thread::for_each_mut(rt, writers, threads, &|_, writer| writer.run(rt, out));
}

/// Runs the player, and then stops the writers.
fn play<P: Player, T: Wait>(rt: &T, out: &Writers, player: &mut P)
    ensures { HasPlayed P.plays player.old player.new }
{
    let mut outlet = Outlet { writers: out };
    player.play(&mut outlet);
    out.stop(rt);
}
