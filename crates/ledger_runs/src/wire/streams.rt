//! Streams of frames in pieces.

use crate::wire::sent::write;
use fixtures::frames::{ANSWER, CHANGE, COMMIT, ORDER, REGAINED, VOTE, commit_with};
use pvp_wire::{Feeder, Stamped, WireFault};
use std::alloc::{AllocError, Global};
use std::process::Abort;
use std::test::Fail;

/// A stream that comes in pieces, and its frames as they are written again, one after the other.
#[derive(Drop)]
struct Stream {
    feeder: Feeder,
    written: Vec<u8>,
}

impl Stream {
    fn new(alloc: Global) -> Self {
        Stream {
            feeder: Feeder::new(alloc),
            written: Vec::new(alloc),
        }
    }

    /// Takes a piece: how many frames are whole by it, and how many bytes are held after it.
    fn take(&mut self, piece: &[u8]) -> Result<(usize, usize), Fail> {
        let frames = self.feeder.feed(piece)?;
        write_all(frames.as_slice(), &mut self.written)?;
        Ok((frames.len(), self.feeder.held()))
    }

    /// The fault that is reported at a piece.
    fn fault(&mut self, piece: &[u8]) -> Option<WireFault> {
        self.feeder.feed(piece).err()
    }

    /// Whether two pieces give one frame, which is these bytes: by the first piece, or by the second, which the first
    /// waits for.
    fn is_whole(&mut self, front: &[u8], back: &[u8], bytes: &[u8]) -> Result<bool, Fail> {
        let pieces = (self.take(front)?, self.take(back)?);
        let gives_one = pieces == ((1, 0), (0, 0)) || pieces == ((0, front.len()), (1, 0));
        Ok(gives_one && self.written.as_slice() == bytes)
    }
}

/// Writes frames, one after the other.
fn write_all(frames: &[Stamped], written: &mut Vec<u8>) -> Result<(), Fail> {
    for stamped in frames {
        write(stamped, written)?;
    }
    Ok(())
}

/// Whether a frame in two pieces is one, and is these bytes.
fn is_whole(alloc: Global, front: &[u8], back: &[u8], bytes: &[u8]) -> Result<bool, Fail> {
    Stream::new(alloc).is_whole(front, back, bytes)
}

/// A frame comes whole, wherever it is cut.
fn comes_whole<R: Abort + AllocGlobal>(rt: &R, bytes: &[u8]) -> Result<(), Fail> {
    for at in 0..bytes.len() + 1 {
        let (front, back) = bytes.split_at(at);
        assert!(rt; is_whole(rt.alloc(), front, back, bytes)?, "cut at {at}");
    }
    Ok(())
}

#[test]
fn cuts_do_not_matter(rt: HostRuntime) -> Result<(), Fail> {
    for bytes in [
        ORDER.as_slice(),
        ANSWER.as_slice(),
        CHANGE.as_slice(),
        VOTE.as_slice(),
        REGAINED.as_slice(),
    ] {
        comes_whole(&rt, bytes)?;
    }
    Ok(())
}

/// Pieces as one.
fn joined(alloc: Global, pieces: &[&[u8]]) -> Result<Vec<u8>, AllocError> {
    let mut bytes = Vec::new(alloc);
    for piece in pieces {
        bytes.extend_from_slice(piece)?;
    }
    Ok(bytes)
}

/// A piece has three frames and 9 bytes of an answer, which waits for the others.
fn has_many_frames(rt: &impl Abort, stream: &mut Stream, piece: &[u8]) -> Result<(), Fail> {
    assert!(rt; stream.take(piece)? == (3, 9));
    let written = stream.written.as_slice();
    assert!(rt; written.len() == COMMIT.len() + CHANGE.len() + ORDER.len());
    assert!(rt; piece.starts_with(written));
    assert!(rt; stream.take(&[])? == (0, 9));
    assert!(rt; stream.take(&ANSWER[9..])? == (1, 0));
    Ok(())
}

#[test]
fn one_piece_may_have_many_frames(rt: HostRuntime) -> Result<(), Fail> {
    let piece = joined(rt.alloc(), &[&COMMIT, &CHANGE, &ORDER, &ANSWER[..9]])?;
    has_many_frames(&rt, &mut Stream::new(rt.alloc()), piece.as_slice())
}

/// A piece has one frame, and a fault behind it: that is reported at the next piece, and at each
/// one after it.
fn tells_its_fault_later(rt: &impl Abort, stream: &mut Stream, piece: &[u8]) -> Result<(), Fail> {
    let (frames, _) = stream.take(piece)?;
    assert!(rt; frames == 1);
    for later in [[].as_slice(), COMMIT.as_slice()] {
        assert!(rt; stream.fault(later) == Some(WireFault::Kind));
    }
    Ok(())
}

#[test]
fn a_fault_is_told_after_the_frames_before_it(rt: HostRuntime) -> Result<(), Fail> {
    let piece = joined(rt.alloc(), &[&COMMIT, &commit_with(5, &[0])])?;
    tells_its_fault_later(&rt, &mut Stream::new(rt.alloc()), piece.as_slice())
}

/// The fault that is reported at the first piece of a stream.
fn first_fault(alloc: Global, piece: &[u8]) -> Option<WireFault> {
    Stream::new(alloc).fault(piece)
}

#[test]
fn a_fault_in_front_is_told_at_once(rt: HostRuntime) -> Result<(), Fail> {
    for (front, want) in [
        ([0, 0, 0, 17], WireFault::Length),
        ([255, 255, 255, 255], WireFault::TooLong),
    ] {
        assert!(rt; first_fault(rt.alloc(), &front) == Some(want));
    }
    Ok(())
}
