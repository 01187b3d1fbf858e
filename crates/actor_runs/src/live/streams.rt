//! Streams that end anywhere, that fail, and whose bytes were altered, each posted at a new actor.
//! What a site took of them is audited: its bank is one run just where it took no frame but those
//! that the bank sent it, though some may be lost and some repeated.
use crate::live::common::{Lost, Open};
use crate::live::frames::{
    ANSWER, COMMIT, ORDER, Pieces, SENT, SENT_SIZES, SIZES, STRANGE, commit_with, is_sent, joined,
    whole_frames,
};
use crate::parties::bank::unheard;
use crate::parties::common::{Place, bank_around, close, is_judged_whole, put_in_place};
use fixtures::setup::three_currencies;
use pvp_links::{PeerEnd, Served, StreamEnd, serve_peer};
use pvp_parties::Party;
use pvp_rooms::{ActorCell, AuditTest, ClientCell, Closed, Finding, NodeCell, Recorded, Seat};
use pvp_wire::{Stamp, WireFault, decode};
use std::alloc::Global;
use std::process::Abort;
use std::sync::Wait;
use std::test::Fail;

/// A stream ends so at a new site 1, whose only seat has a receipt of each frame, with the stamps
/// in front. What it left is audited in its bank.
fn ends<R: Abort + Wait + AllocGlobal>(
    rt: &R,
    bank: &mut [Closed<Party>],
    stream: Pieces<'_>,
    want: PeerEnd,
    front: &Front,
) -> Result<(), Fail> {
    let site = Place::<Party>::site(rt.alloc(), 1)?;
    let left = left_by(rt, site, stream, want, front.stamps.as_slice())?;
    put_in_place(bank, left);
    is_judged_whole(rt, bank, found_of(front, want.frames))
}

/// What an actor leaves at whose first seat a stream ends so.
fn left_by<A: Served, R: Abort + Wait + AllocGlobal>(
    rt: &R,
    place: Place<A>,
    stream: Pieces<'_>,
    want: PeerEnd,
    stamps: &[Option<Stamp>],
) -> Result<Closed<A>, Fail> {
    let (cell, mut seats) = place.apart();
    ends_at_first(rt, &cell, seats.as_mut_slice(), stream, want, stamps)?;
    close(cell, seats)
}

/// A stream ends so at the first of these seats, which has a receipt of each frame, with these
/// stamps in front.
fn ends_at_first<A: Served, R: Abort + Wait + AllocGlobal>(
    rt: &R,
    cell: &ActorCell<A>,
    seats: &mut [Seat<A::Event, A::Outcome>],
    stream: Pieces<'_>,
    want: PeerEnd,
    stamps: &[Option<Stamp>],
) -> Result<(), Fail> {
    let Some(seat) = seats.get_mut(0) else {
        return Err(Fail::new("a seat"));
    };
    assert_eq!(rt; served_at(rt, cell, seat, stream), want);
    have_stamps(rt, seat.receipts(), want.frames, stamps);
    Ok(())
}

/// There are so many receipts, with these stamps in front.
fn have_stamps<E, O>(
    rt: &impl Abort,
    receipts: &[Recorded<E, O>],
    count: usize,
    stamps: &[Option<Stamp>],
) {
    assert_eq!(rt; receipts.len(), count);
    for (receipt, stamp) in receipts.iter().zip(stamps) {
        assert!(rt; receipt.stamp == *stamp);
    }
}

/// How a stream ends at an actor, whose envelopes are lost.
fn served_at<A: Served, R: Wait + AllocGlobal>(
    rt: &R,
    cell: &ActorCell<A>,
    seat: &mut Seat<A::Event, A::Outcome>,
    mut stream: Pieces<'_>,
) -> PeerEnd {
    let alloc = rt.alloc();
    serve_peer(rt, alloc, cell, seat, &mut stream, &mut Open, &mut Lost)
}

/// The stamp of the frame at the front, and how many bytes the frame has.
fn first_stamp(alloc: Global, bytes: &[u8]) -> Result<(Stamp, usize), WireFault> {
    let (frame, size) = decode(alloc, bytes)?;
    Ok((frame.stamp, size))
}

/// What is at the front of a stream.
#[derive(Drop)]
struct Front {
    /// The stamps of its frames.
    stamps: Vec<Option<Stamp>>,
    /// The first of them that the bank did not send, counted from 1.
    strange: Option<usize>,
}

impl Front {
    /// Takes one more frame.
    fn take(&mut self, stamp: Stamp, frame: &[u8]) -> Result<(), Fail> {
        self.stamps.push(Some(stamp))?;
        if self.strange.is_none() && !is_sent(frame) {
            self.strange = Some(self.stamps.len());
        }
        Ok(())
    }

    /// Takes the frames at the front of a stream, and says why there are no more.
    fn take_all(&mut self, alloc: Global, bytes: &[u8]) -> Result<StreamEnd, Fail> {
        let mut rest = bytes;
        for _ in 0..bytes.len() {
            if rest.is_empty() {
                break;
            }
            match first_stamp(alloc, rest) {
                Ok((stamp, size)) => {
                    self.take(stamp, rest.get(..size).unwrap_or(&[]))?;
                    rest = rest.get(size..).unwrap_or(&[]);
                }
                Err(WireFault::Short) => return Ok(StreamEnd::Cut(rest.len())),
                Err(fault) => return Ok(StreamEnd::Wire(fault)),
            }
        }
        Ok(StreamEnd::End)
    }
}

/// What is at the front of a stream, and why there are no more frames.
fn read(alloc: Global, bytes: &[u8]) -> Result<(Front, StreamEnd), Fail> {
    let mut front = Front {
        stamps: Vec::new(alloc),
        strange: None,
    };
    let why = front.take_all(alloc, bytes)?;
    Ok((front, why))
}

/// What the audit is to say of a bank whose site 1 took so many frames of a stream, and no more.
fn found_of(front: &Front, frames: usize) -> Finding {
    match front.strange {
        Some(event) if event <= frames => Finding::No {
            actor: 201,
            event,
            why: AuditTest::Stamped,
        },
        _ => Finding::Yes,
    }
}

/// A stream ends so in pieces of each of these sizes.
fn ends_in_pieces<R: Abort + Wait + AllocGlobal>(
    rt: &R,
    bank: &mut [Closed<Party>],
    bytes: &[u8],
    sizes: &[usize],
    want: PeerEnd,
    front: &Front,
) -> Result<(), Fail> {
    for size in sizes {
        let stream = Pieces {
            left: bytes,
            size: *size,
            good: None,
        };
        ends(rt, bank, stream, want, front)?;
    }
    Ok(())
}

/// The same with what is at the front of the stream.
fn ends_at_sizes<R: Abort + Wait + AllocGlobal>(
    rt: &R,
    bank: &mut [Closed<Party>],
    bytes: &[u8],
    sizes: &[usize],
    frames: usize,
    why: StreamEnd,
) -> Result<(), Fail> {
    let (front, _) = read(rt.alloc(), bytes)?;
    ends_in_pieces(rt, bank, bytes, sizes, PeerEnd { frames, why }, &front)
}

/// A short stream ends so in pieces of each size.
fn ends_short<R: Abort + Wait + AllocGlobal>(
    rt: &R,
    bank: &mut [Closed<Party>],
    bytes: &[u8],
    frames: usize,
    why: StreamEnd,
) -> Result<(), Fail> {
    ends_at_sizes(rt, bank, bytes, &[4096, 28, 5, 1], frames, why)
}

/// The COMMIT and another frame behind it.
fn commit_and(frame: &[u8; 28]) -> [u8; 56] {
    let mut both = [0u8; 56];
    both[..28].copy_from_slice(&COMMIT);
    both[28..].copy_from_slice(frame);
    both
}

fn end_as_worked<R: Abort + Wait + AllocGlobal>(
    rt: &R,
    bank: &mut [Closed<Party>],
) -> Result<(), Fail> {
    let twice = commit_and(&COMMIT);
    let version = commit_and(&commit_with(4, &[9]));
    let spent = commit_with(8, &[255; 8]);
    let cut = twice.get(..40).unwrap_or(&[]);
    ends_short(rt, bank, cut, 1, StreamEnd::Cut(12))?;
    ends_short(rt, bank, &twice, 2, StreamEnd::End)?;
    ends_short(rt, bank, &[], 0, StreamEnd::End)?;
    ends_short(rt, bank, &version, 1, StreamEnd::Wire(WireFault::Version))?;
    ends_short(rt, bank, &spent, 0, StreamEnd::Clock)
}

/// What the actors of a bank left whose site 1 took nothing of what it was sent.
fn bank<R: Wait + AllocGlobal>(rt: &R) -> Result<Vec<Closed<Party>>, Fail> {
    bank_around(rt.alloc(), unheard(rt))
}

/// The rows of short streams: part of a second frame, nothing, a frame of another version, and a clock that has no
/// greater one.
#[test]
fn worked_ends(rt: HostRuntime) -> Result<(), Fail> {
    end_as_worked(&rt, bank(&rt)?.as_mut_slice())
}

/// So many COMMITs.
fn commits(alloc: Global, count: usize) -> Result<Vec<u8>, Fail> {
    let mut bytes = Vec::new(alloc);
    for _ in 0..count {
        bytes.extend_from_slice(&COMMIT)?;
    }
    Ok(bytes)
}

/// A stream of 112,000 bytes, which no few reads can hold, is read to its end.
#[test]
fn a_long_stream_is_read_to_its_end(rt: HostRuntime) -> Result<(), Fail> {
    let bytes = commits(rt.alloc(), 4_000)?;
    let mut bank = bank(&rt)?;
    ends_at_sizes(
        &rt,
        bank.as_mut_slice(),
        bytes.as_slice(),
        &[4096],
        4_000,
        StreamEnd::End,
    )
}

/// A stream of ten frames of these sizes, and what is at its front.
#[derive(Drop)]
struct Ten<'a> {
    sizes: &'a [usize],
    bytes: Vec<u8>,
    front: Front,
}

fn ten_of<'a>(alloc: Global, frames: &[&[u8]], sizes: &'a [usize]) -> Result<Ten<'a>, Fail> {
    let bytes = joined(alloc, frames)?;
    let (front, _) = read(alloc, bytes.as_slice())?;
    Ok(Ten {
        sizes,
        bytes,
        front,
    })
}

/// The ten that the bank sends.
fn ten_sent(alloc: Global) -> Result<Ten<'static>, Fail> {
    ten_of(alloc, &SENT, &SENT_SIZES)
}

/// The ten that it does not send.
fn ten_strange(alloc: Global) -> Result<Ten<'static>, Fail> {
    ten_of(alloc, &STRANGE, &SIZES)
}

/// The front of ten frames ends in pieces of each size as it is cut.
fn is_cut<R: Abort + Wait + AllocGlobal>(
    rt: &R,
    bank: &mut [Closed<Party>],
    ten: &Ten<'_>,
    bytes: &[u8],
) -> Result<(), Fail> {
    let (frames, left) = whole_frames(ten.sizes, bytes.len());
    let why = if left == 0 {
        StreamEnd::End
    } else {
        StreamEnd::Cut(left)
    };
    let want = PeerEnd { frames, why };
    ends_in_pieces(rt, bank, bytes, &[4096, 11, 1], want, &ten.front)
}

fn is_cut_at_each<R: Abort + Wait + AllocGlobal>(
    rt: &R,
    bank: &mut [Closed<Party>],
    ten: &Ten<'_>,
) -> Result<(), Fail> {
    assert_eq!(rt; ten.front.stamps.len(), 10);
    let bytes = ten.bytes.as_slice();
    for at in 0..bytes.len() + 1 {
        is_cut(rt, bank, ten, &bytes[..at])?;
    }
    Ok(())
}

#[test]
fn a_stream_is_cut_at_each_byte(rt: HostRuntime) -> Result<(), Fail> {
    let mut bank = bank(&rt)?;
    is_cut_at_each(&rt, bank.as_mut_slice(), &ten_sent(rt.alloc())?)?;
    is_cut_at_each(&rt, bank.as_mut_slice(), &ten_strange(rt.alloc())?)
}

/// A reader of ten frames, byte by byte, fails after so many reads.
fn fails_after<R: Abort + Wait + AllocGlobal>(
    rt: &R,
    bank: &mut [Closed<Party>],
    ten: &Ten<'_>,
    good: usize,
) -> Result<(), Fail> {
    let (frames, _) = whole_frames(ten.sizes, good);
    let stream = Pieces {
        left: ten.bytes.as_slice(),
        size: 1,
        good: Some(good),
    };
    let want = PeerEnd {
        frames,
        why: StreamEnd::Read,
    };
    ends(rt, bank, stream, want, &ten.front)
}

fn fails_after_each<R: Abort + Wait + AllocGlobal>(
    rt: &R,
    bank: &mut [Closed<Party>],
    ten: &Ten<'_>,
) -> Result<(), Fail> {
    assert_eq!(rt; ten.front.stamps.len(), 10);
    let bytes = ten.bytes.as_slice();
    for good in 0..bytes.len() + 1 {
        fails_after(rt, bank, ten, good)?;
    }
    Ok(())
}

/// The read that would find the end fails too.
#[test]
fn a_reader_fails_at_each_read(rt: HostRuntime) -> Result<(), Fail> {
    let mut bank = bank(&rt)?;
    fails_after_each(&rt, bank.as_mut_slice(), &ten_sent(rt.alloc())?)?;
    fails_after_each(&rt, bank.as_mut_slice(), &ten_strange(rt.alloc())?)
}

/// Whether only bytes can lead to this end.
fn is_of_bytes(why: StreamEnd) -> bool {
    match why {
        StreamEnd::End | StreamEnd::Cut(_) => true,
        StreamEnd::Wire(fault) => fault != WireFault::Short && fault != WireFault::NoMemory,
        StreamEnd::Read | StreamEnd::Memory | StreamEnd::Clock => false,
    }
}

/// What comes of bytes is the frames at the front of them, and an end that only bytes can lead to.
fn come_to_their_frames<R: Abort + Wait + AllocGlobal>(
    rt: &R,
    bank: &mut [Closed<Party>],
    bytes: &[u8],
) -> Result<(), Fail> {
    let (front, why) = read(rt.alloc(), bytes)?;
    assert!(rt; is_of_bytes(why));
    let want = PeerEnd {
        frames: front.stamps.len(),
        why,
    };
    ends(rt, bank, Pieces::whole(bytes), want, &front)
}

/// The same, where the byte at a place has become each of these.
fn come_altered<R: Abort + Wait + AllocGlobal>(
    rt: &R,
    bank: &mut [Closed<Party>],
    bytes: &mut [u8],
    at: usize,
    others: &[u8],
) -> Result<(), Fail> {
    for other in others {
        if let Some(place) = bytes.get_mut(at) {
            *place = *other;
        }
        come_to_their_frames(rt, bank, bytes)?;
    }
    Ok(())
}

/// The same of a copy of bytes, where the one at a place has become another in each way.
fn are_altered_at<R: Abort + Wait + AllocGlobal>(
    rt: &R,
    bank: &mut [Closed<Party>],
    bytes: &[u8],
    at: usize,
    byte: u8,
) -> Result<(), Fail> {
    let mut altered = Vec::from_slice(rt.alloc(), bytes)?;
    come_altered(rt, bank, altered.as_mut_slice(), at, &[0, 255, byte ^ 1])
}

fn are_altered<R: Abort + Wait + AllocGlobal>(
    rt: &R,
    bank: &mut [Closed<Party>],
    bytes: &[u8],
) -> Result<(), Fail> {
    for (at, byte) in bytes.iter().copied().enumerate() {
        are_altered_at(rt, bank, bytes, at, byte)?;
    }
    Ok(())
}

/// One byte of the stream becomes another. What comes of it is the frames at the front of what the bytes then are, and an
/// end that only bytes can lead to.
#[test]
fn each_byte_is_altered(rt: HostRuntime) -> Result<(), Fail> {
    let mut bank = bank(&rt)?;
    are_altered(
        &rt,
        bank.as_mut_slice(),
        joined(rt.alloc(), &SENT)?.as_slice(),
    )?;
    are_altered(
        &rt,
        bank.as_mut_slice(),
        joined(rt.alloc(), &STRANGE)?.as_slice(),
    )
}

/// An actor takes the only frame of a stream, from each of its seats.
fn takes_one<A: Served, R: Abort + Wait + AllocGlobal>(
    rt: &R,
    cell: &ActorCell<A>,
    seats: Vec<Seat<A::Event, A::Outcome>>,
    frame: &[u8],
) {
    let want = PeerEnd {
        frames: 1,
        why: StreamEnd::End,
    };
    for mut seat in seats {
        let end = served_at(rt, cell, &mut seat, Pieces::whole(frame));
        assert_eq!(rt; end, want);
    }
}

fn node_takes_one<R: Abort + Wait + AllocGlobal>(rt: &R) -> Result<(), Fail> {
    let setup = three_currencies(rt.alloc())?;
    let (node, seats) = NodeCell::new(rt.alloc(), &setup, 1, 1)?;
    takes_one(rt, &node, seats, &ORDER);
    Ok(())
}

fn client_takes_one<R: Abort + Wait + AllocGlobal>(rt: &R) -> Result<(), Fail> {
    let setup = three_currencies(rt.alloc())?;
    let (client, seats) = ClientCell::new(rt.alloc(), &setup, 1, 1)?;
    takes_one(rt, &client, seats, &ANSWER);
    Ok(())
}

#[test]
fn a_node_and_a_client_are_served(rt: HostRuntime) -> Result<(), Fail> {
    node_takes_one(&rt)?;
    client_takes_one(&rt)
}
