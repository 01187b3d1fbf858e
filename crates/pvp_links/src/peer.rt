//! One stream of frames for one actor.
ghost use Rattle.std.specs.Prelude.{◌≡◌};
ghost use Rattle.pvp_links.specs.Peers.{IsPosted, HasRead, IsServed, why_of};
ghost use Rattle.pvp_links.specs.Puts.{HandsOn, HasPosted, HasPassed};

use crate::outbox::Outbox;
use crate::served::Served;
use pvp_rooms::{ActorCell, Answer, Gate, Input, Seat};
use pvp_wire::{Feeder, Stamped, WireFault};
use std::alloc::Global;
use std::io::Read;
use std::sync::Wait;

/// Why a stream is served no longer.
#[derive(Clone, Copy, Debug, PartialEq, Eq)]
pub enum StreamEnd {
    /// The input ended behind a whole frame.
    End,
    /// The input ended with so many bytes left over, and no fault among them.
    Cut(usize),
    /// A read failed.
    Read,
    /// F2 to F6: what was read is no frame.
    Wire(WireFault),
    /// Memory was refused.
    Memory,
    /// There is no greater clock at the actor.
    Clock,
}

/// How many frames the actor took, and why the stream is served no longer.
#[derive(Clone, Copy, Debug, PartialEq, Eq)]
pub struct PeerEnd {
    pub frames: usize,
    pub why: StreamEnd,
}

/// Reads a stream to its end and posts each frame at the actor, with its stamp. The seat has a receipt of each that was
/// taken: of the first `frames` frames of the bytes that were read, in order. It ends where the input ends, a read
/// fails, what was read is no frame, memory is refused, or the actor's clock is spent. What the actor sent in each step is
/// put into the outbox, which may lose it.
pub fn serve_peer<A: Served, R: Read, G: Gate, O: Outbox, T: Wait>(
    rt: &T,
    alloc: Global,
    cell: &ActorCell<A>,
    seat: &mut Seat<A::Event, A::Outcome>,
    reader: &mut R,
    gate: &mut G,
    outbox: &mut O,
) -> PeerEnd
    ensures served { IsServed A.Served.delivery (R.remaining reader.old)
        (R.remaining reader.new) seat.old seat.new result }
    ensures handed { HandsOn O.got A.Served.sent cell.now.number seat.old
        seat.new outbox.old outbox.new }
    ensures passed { HasPassed G.heard cell.now.number seat.old seat.new
        gate.old gate.new result.why }
{
    let before = seat.receipts().len();
    let why = read_all::<A, R, G, O, T>(rt, alloc, cell, seat, reader, gate, outbox);
    PeerEnd {
        frames: seat.receipts().len() - before,
        why,
    }
}

/// Reads a stream to its end and posts each frame. An empty piece is fed too, so that a fault that
/// waits is returned.
fn read_all<A: Served, R: Read, G: Gate, O: Outbox, T: Wait>(
    rt: &T,
    alloc: Global,
    cell: &ActorCell<A>,
    seat: &mut Seat<A::Event, A::Outcome>,
    reader: &mut R,
    gate: &mut G,
    outbox: &mut O,
) -> StreamEnd
    ensures read { HasRead A.Served.delivery (R.remaining reader.old)
        (R.remaining reader.new) seat.old seat.new result }
    ensures handed { HandsOn O.got A.Served.sent cell.now.number seat.old
        seat.new outbox.old outbox.new }
    ensures passed { HasPassed G.heard cell.now.number seat.old seat.new gate.old gate.new result }
{
    let mut feeder = Feeder::new(alloc);
    let mut buffer = [0u8; 4096];
    for _ in rt.forever() {
        let Ok(got) = reader.read(&mut buffer) else {
            return StreamEnd::Read;
        };
        match feeder.feed(&buffer[..got]) {
            Err(fault) => return why_of(fault),
            Ok(frames) => {
                if let Some(why) = post_all::<A, G, O, T>(
                    rt, alloc, cell, seat, frames, gate, outbox,
                ) {
                    return why;
                }
            }
        }
        if got == 0 {
            let left = feeder.held();
            if left == 0 {
                return StreamEnd::End;
            }
            return StreamEnd::Cut(left);
        }
    }
    unreachable!()
}

/// Posts frames, up to the first that is not taken, and puts what the actor sent at each into the outbox.
fn post_all<A: Served, G: Gate, O: Outbox, T: Wait>(
    rt: &T,
    alloc: Global,
    cell: &ActorCell<A>,
    seat: &mut Seat<A::Event, A::Outcome>,
    frames: Vec<Stamped>,
    gate: &mut G,
    outbox: &mut O,
) -> Option<StreamEnd>
    ensures posted { IsPosted A.Served.delivery frames.items seat.old seat.new result }
    ensures handed { HandsOn O.got A.Served.sent cell.now.number seat.old
        seat.new outbox.old outbox.new }
    ensures passed { HasPosted G.heard cell.now.number seat.old seat.new gate.old gate.new result }
{
    for frame in frames {
        let input = Input {
            event: A::deliver(frame.envelope),
            stamp: Some(frame.stamp),
        };
        match cell.post(rt, alloc, seat, input, gate) {
            Answer::Done { clock, outcome } => {
                outbox.put(rt, alloc, cell.number(), clock, A::sent_envelopes(&outcome));
            }
            Answer::NoMemory => return Some(StreamEnd::Memory),
            Answer::ClockSpent => return Some(StreamEnd::Clock),
        }
    }
    None
}

/// Why a stream is served no longer at a fault of its feeder.
fn why_of(fault: WireFault) -> StreamEnd
    ensures { result ≡ why_of fault }
{
    match fault {
        WireFault::NoMemory => StreamEnd::Memory,
        fault => StreamEnd::Wire(fault),
    }
}
