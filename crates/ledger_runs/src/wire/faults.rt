//! Bytes that are no frame, and envelopes that have none.

use crate::wire::sent::{comes_back, known, row, stamped};
use fixtures::frames::{CHANGE, COMMIT, REGAINED, REQUEST, VOTE, commit_with};
use pvp_wire::{Message, WireFault, decode, encode, wireable};
use std::alloc::{AllocError, Global};
use std::io::{self, Write};
use std::process::Abort;
use std::test::Fail;
use vr_types::{Commit, MsgOf, PrepareOf, StartViewChange};

/// What `decode` makes of bytes: the size of the frame, or the fault.
fn read(alloc: Global, bytes: &[u8]) -> Result<usize, WireFault> {
    let (_, size) = decode(alloc, bytes)?;
    Ok(size)
}

/// The STARTVIEWCHANGE with another count of sites.
fn of_sites(count: u8) -> [u8; 39] {
    let mut bytes = CHANGE;
    bytes[26] = count;
    bytes
}

/// Fronts of frames, and the fault of each.
const FRONTS: [(&[u8], WireFault); 4] = [
    (&[], WireFault::Short),
    (&[0, 64, 0, 0], WireFault::Short),
    (&[0, 64, 0, 1], WireFault::TooLong),
    (&[0, 0, 0, 17], WireFault::Length),
];

/// A place of the COMMIT, the byte that is put there, and what is made of that.
const ALTERED: [(usize, u8, Result<usize, WireFault>); 6] = [
    (4, 1, Err(WireFault::Version)),
    (4, 3, Err(WireFault::Version)),
    (5, 0, Err(WireFault::Kind)),
    (7, 99, Err(WireFault::Field)),
    (21, 0, Ok(28)),
    (3, 23, Err(WireFault::Length)),
];

fn tells_of_fronts<R: Abort + AllocGlobal>(rt: &R) {
    for (bytes, want) in FRONTS {
        assert!(rt; read(rt.alloc(), bytes) == Err(want));
    }
}

fn tells_of_altered<R: Abort + AllocGlobal>(rt: &R) {
    for (at, byte, want) in ALTERED {
        assert!(rt;
            read(rt.alloc(), &commit_with(at, &[byte])) == want,
            "{byte} at {at}"
        );
    }
}

#[test]
fn tells_each_fault(rt: HostRuntime) -> Result<(), Fail> {
    tells_of_fronts(&rt);
    tells_of_altered(&rt);
    Ok(())
}

/// Boots of 1 to 7 sites are sent; the frame ends where its length says, whatever their count is.
#[test]
fn counts_the_sites_of_boots(rt: HostRuntime) -> Result<(), Fail> {
    let alloc = rt.alloc();
    for (count, want) in [
        (0, Err(WireFault::Field)),
        (2, Err(WireFault::Length)),
        (3, Ok(39)),
        (4, Err(WireFault::Length)),
        (7, Err(WireFault::Length)),
        (8, Err(WireFault::Field)),
        (255, Err(WireFault::Field)),
    ] {
        assert!(rt; read(alloc, &of_sites(count)) == want, "at {count}");
    }
    Ok(())
}

#[test]
fn bytes_after_the_body_are_a_fault(rt: HostRuntime) -> Result<(), Fail> {
    let alloc = rt.alloc();
    let mut bytes = Vec::from_slice(alloc, &commit_with(3, &[25]))?;
    bytes.push(0)?;
    assert!(rt; read(alloc, bytes.as_slice()) == Err(WireFault::Length));
    Ok(())
}

#[test]
fn a_front_of_a_frame_is_short(rt: HostRuntime) -> Result<(), Fail> {
    for bytes in [
        REQUEST.as_slice(),
        CHANGE.as_slice(),
        VOTE.as_slice(),
        REGAINED.as_slice(),
    ] {
        for end in 0..bytes.len() {
            assert!(rt; read(rt.alloc(), &bytes[..end]) == Err(WireFault::Short));
        }
    }
    Ok(())
}

/// Whether bytes are a fault, or one frame, which is written as it is read.
fn is_sound(alloc: Global, bytes: &[u8]) -> Result<bool, Fail> {
    Ok(read(alloc, bytes).is_err() || comes_back(alloc, bytes)?)
}

#[test]
fn an_altered_frame_is_another_or_a_fault(rt: HostRuntime) -> Result<(), Fail> {
    for at in 0..28 {
        for other in [0, 255, COMMIT[at] ^ 1] {
            assert!(rt;
                is_sound(rt.alloc(), &commit_with(at, &[other]))?,
                "{other} at {at}"
            );
        }
    }
    Ok(())
}

/// Whether a message of site 0 to this actor has a frame.
fn has_frame(to: u16, msg: Message) -> bool {
    wireable(&stamped(200, 1, 0, to, msg))
}

#[test]
fn a_stranger_is_not_wireable(rt: HostRuntime) -> Result<(), Fail> {
    let mut other = row();
    other.client = 109;
    let prepare = PrepareOf {
        view: 0,
        place: 1,
        done: 0,
        row: other,
    };
    let commit = Commit { view: 0, done: 0 };
    assert!(rt; !has_frame(201, MsgOf::Prepare(prepare)));
    assert!(rt; !has_frame(207, MsgOf::Commit(commit)));
    Ok(())
}

/// A STARTVIEWCHANGE with so many boots.
fn change(boots: &[u32]) -> Message {
    MsgOf::StartViewChange(StartViewChange {
        view: 1,
        known: known(boots),
    })
}

#[test]
fn boots_of_1_to_7_sites_are_wireable(rt: HostRuntime) -> Result<(), Fail> {
    let boots = [0, 1, 2, 3, 4, 5, 6];
    for count in 0..8 {
        let has_frame = has_frame(201, change(&boots[..count]));
        assert!(rt; has_frame == (1 <= count), "of {count}");
    }
    Ok(())
}

/// A writer that takes some writes, and fails from then on.
#[derive(Drop)]
struct Failing {
    left: u32,
}

impl Write for Failing {
    fn write(&mut self, buf: &[u8]) -> io::Result<usize> {
        if self.left == 0 {
            return Err(io::Error::from(io::ErrorKind::Other));
        }
        self.left -= 1;
        Ok(buf.len())
    }

    fn flush(&mut self) -> io::Result<()> {
        Ok(())
    }
}

/// Whether a COMMIT is written to a writer that takes so many writes.
fn is_written(left: u32) -> Result<bool, Fail> {
    let commit = stamped(200, 5, 0, 201, MsgOf::Commit(Commit { view: 0, done: 1 }));
    if !wireable(&commit) {
        return Err(Fail::new("it has no spelling"));
    }
    Ok(encode(&commit, &mut Failing { left }).is_ok())
}

/// A writer that fails at its first write or in the middle of a frame is reported; one that takes
/// all writes is not.
#[test]
fn a_failing_writer_is_told(rt: HostRuntime) -> Result<(), Fail> {
    for (left, want) in [(0, false), (1, false), (2, true)] {
        assert!(rt; is_written(left)? == want, "after {left} writes");
    }
    Ok(())
}
