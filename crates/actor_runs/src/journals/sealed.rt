//! Journals put together from the format alone, and what is made of them.

use pvp_journal::{JournalFault, JournalWhy, Left, read_journal};
use sha2::{Digest, Sha256};
use std::alloc::Global;
use std::process::Abort;
use std::test::Fail;

/// The head of site 0, opened over 3 boots, of a bank whose id is 32 sevens.
pub const HEAD: [u8; 44] = [
    80, 86, 80, 74, 2, 0, 200, 1, 0, 0, 0, 3, 7, 7, 7, 7, 7, 7, 7, 7, 7, 7, 7, 7, 7, 7, 7, 7, 7, 7,
    7, 7, 7, 7, 7, 7, 7, 7, 7, 7, 7, 7, 7, 7,
];

/// The same in version 1.
pub const OLD_HEAD: [u8; 44] = [
    80, 86, 80, 74, 1, 0, 200, 1, 0, 0, 0, 3, 7, 7, 7, 7, 7, 7, 7, 7, 7, 7, 7, 7, 7, 7, 7, 7, 7, 7,
    7, 7, 7, 7, 7, 7, 7, 7, 7, 7, 7, 7, 7, 7,
];

/// A checksum: the first eight bytes of the SHA-256 of the one before and the bytes.
pub fn sum_of(before: u64, bytes: &[u8]) -> u64 {
    let mut hasher = Sha256::new();
    hasher.update(&before.to_be_bytes());
    hasher.update(bytes);
    let [a, b, c, d, e, f, g, h, ..] = hasher.finalize();
    u64::from_be_bytes([a, b, c, d, e, f, g, h])
}

/// Puts how many bytes a record says, the complement of that, and those bytes at the end of others.
fn put_front(body: &[u8], out: &mut Vec<u8>) -> Result<(), Fail> {
    let Ok(length) = u32::try_from(body.len()) else {
        return Err(Fail::new("it is too long"));
    };
    out.extend_from_slice(&length.to_be_bytes())?;
    out.extend_from_slice(&(!length).to_be_bytes())?;
    out.extend_from_slice(body)?;
    Ok(())
}

/// Puts a record that says these bytes at the end of others, and answers its checksum.
pub fn seal(alloc: Global, before: u64, body: &[u8], out: &mut Vec<u8>) -> Result<u64, Fail> {
    let mut front = Vec::new(alloc);
    put_front(body, &mut front)?;
    let sum = sum_of(before, front.as_slice());
    out.extend_from_slice(front.as_slice())?;
    out.extend_from_slice(&sum.to_be_bytes())?;
    Ok(sum)
}

/// The journal of site 0, with records that say these bytes.
pub fn journal_of(alloc: Global, bodies: &[&[u8]]) -> Result<Vec<u8>, Fail> {
    journal_behind(alloc, &HEAD, bodies)
}

/// The journal of this head, with records that say these bytes.
pub fn journal_behind(alloc: Global, head: &[u8], bodies: &[&[u8]]) -> Result<Vec<u8>, Fail> {
    let mut out = Vec::from_slice(alloc, head)?;
    let mut sum = sum_of(0, head);
    for body in bodies {
        sum = seal(alloc, sum, *body, &mut out)?;
    }
    Ok(out)
}

/// What reading returns: how many records, and what is left; or the fault.
#[derive(Clone, Copy, Debug, PartialEq, Eq)]
pub enum Answer {
    Read(usize, Left),
    Fault(JournalWhy, usize),
}

/// What reading these bytes returns.
pub fn told(alloc: Global, bytes: &[u8]) -> Answer {
    match read_journal(alloc, bytes) {
        Ok(journal) => Answer::Read(journal.history.len(), journal.left),
        Err(JournalFault { why, at }) => Answer::Fault(why, at),
    }
}

/// These bytes read so.
pub fn reads_as<R: Abort + AllocGlobal>(rt: &R, bytes: &[u8], want: Answer) {
    assert_eq!(rt; told(rt.alloc(), bytes), want);
}
