//! Journals that were worked by hand from the format, byte by byte, with checksums of another program's SHA-256.

use crate::journals::again::{comes_back, is_written_as};
use crate::journals::sealed::{Answer, reads_as};
use pvp_journal::{Head, Left, Version, read_journal, write_head};
use std::alloc::Global;
use std::process::Abort;
use std::test::Fail;
use vr_types::Boot;

/// Site 0, opened over 3 boots; at clock 6 a timer fired and nothing was sent, as its status does not take part.
const ONE_TIMER: [u8; 72] = [
    80, 86, 80, 74, 2, 0, 200, 1, 0, 0, 0, 3, 7, 7, 7, 7, 7, 7, 7, 7, 7, 7, 7, 7, 7, 7, 7, 7, 7, 7,
    7, 7, 7, 7, 7, 7, 7, 7, 7, 7, 7, 7, 7, 7, 0, 0, 0, 12, 255, 255, 255, 243, 0, 0, 0, 0, 0, 0, 0,
    6, 2, 9, 0, 1, 239, 36, 141, 102, 192, 189, 142, 120,
];

/// The same in version 1.
const OLD_TIMER: [u8; 75] = [
    80, 86, 80, 74, 1, 0, 200, 1, 0, 0, 0, 3, 7, 7, 7, 7, 7, 7, 7, 7, 7, 7, 7, 7, 7, 7, 7, 7, 7, 7,
    7, 7, 7, 7, 7, 7, 7, 7, 7, 7, 7, 7, 7, 7, 0, 0, 0, 15, 255, 255, 255, 240, 0, 0, 0, 0, 0, 0, 0,
    6, 2, 1, 0, 0, 0, 0, 1, 240, 10, 36, 50, 82, 126, 247, 222,
];

/// USD's node, which opens over nothing.
const OF_NODE: [u8; 40] = [
    80, 86, 80, 74, 2, 0, 102, 0, 0, 1, 2, 3, 4, 5, 6, 7, 8, 9, 10, 11, 12, 13, 14, 15, 16, 17, 18,
    19, 20, 21, 22, 23, 24, 25, 26, 27, 28, 29, 30, 31,
];

#[test]
fn a_record_is_spelled_so(rt: HostRuntime) -> Result<(), Fail> {
    assert!(rt; comes_back(rt.alloc(), &ONE_TIMER, 1)?);
    reads_as(&rt, &OF_NODE, Answer::Read(0, Left::Nothing));
    Ok(())
}

#[test]
fn an_old_record_is_read_so(rt: HostRuntime) -> Result<(), Fail> {
    reads_as(&rt, &OLD_TIMER, Answer::Read(1, Left::Nothing));
    assert!(rt; is_written_as(rt.alloc(), &OLD_TIMER, &ONE_TIMER, 1)?);
    Ok(())
}

/// What a head without records reads as: the version, the actor, the opening, and the checksum.
fn head_of(alloc: Global, bytes: &[u8]) -> Option<(Head, u64)> {
    match read_journal(alloc, bytes) {
        Ok(journal) => Some((journal.head, journal.sum)),
        Err(_) => None,
    }
}

/// Writing a head at the end of no bytes answers this checksum, and gives these.
fn is_written<R: Abort + AllocGlobal>(
    rt: &R,
    head: &Head,
    sum: u64,
    bytes: &mut Vec<u8>,
    want: &[u8],
) {
    assert_eq!(rt; write_head(rt.alloc(), head, bytes), Ok(sum));
    assert_eq!(rt; bytes.as_slice(), want);
}

/// These bytes are read as a head with this checksum.
fn is_read<R: Abort + AllocGlobal>(rt: &R, bytes: &[u8], head: Head, sum: u64) {
    assert_eq!(rt; head_of(rt.alloc(), bytes), Some((head, sum)));
}

/// The head of site 0, opened over 3 boots, is spelled as these bytes, with this checksum.
fn is_spelled<R: Abort + AllocGlobal>(rt: &R, version: Version, sum: [u8; 8], want: &[u8]) {
    let head = Head {
        version,
        actor: 200,
        opening: Some(Boot { boots: 3 }),
        bank: [7; 32],
    };
    let sum = u64::from_be_bytes(sum);
    let mut bytes = Vec::new(rt.alloc());
    is_written(rt, &head, sum, &mut bytes, want);
    is_read(rt, bytes.as_slice(), head, sum);
}

#[test]
fn a_head_is_spelled_so(rt: HostRuntime) -> Result<(), Fail> {
    let sum = [228, 62, 131, 176, 164, 23, 236, 146];
    is_spelled(&rt, Version::Two, sum, &ONE_TIMER[..44]);
    let sum = [72, 33, 182, 97, 127, 46, 237, 91];
    is_spelled(&rt, Version::One, sum, &OLD_TIMER[..44]);
    Ok(())
}
