//! A journal that was cut off at each byte, and one that was altered at each byte.

use crate::journals::kinds::{DELIVERED, TIMER};
use crate::journals::sealed::{Answer, HEAD, journal_of, reads_as, told};
use pvp_journal::{JournalWhy, Left};
use std::process::Abort;
use std::test::Fail;

/// How many bytes it has: its head, and three records.
const SIZE: usize = 184;

/// What the records say.
const BODIES: [&[u8]; 3] = [&DELIVERED, &TIMER, &DELIVERED];

/// What is reported of the head where it is cut off behind so many bytes.
fn told_of_head(size: usize) -> Answer {
    let why = match size {
        0..=3 => JournalWhy::Magic,
        4 => JournalWhy::Version,
        _ => JournalWhy::Head,
    };
    Answer::Fault(why, 0)
}

/// How many whole records so many bytes have, and where the next one begins.
fn whole_in(size: usize) -> (usize, usize) {
    match size {
        0..=99 => (0, 44),
        100..=127 => (1, 100),
        128..=183 => (2, 128),
        _ => (3, 184),
    }
}

/// What is reported of the journal where it is cut off behind so many bytes.
fn told_of_front(size: usize) -> Answer {
    if size < HEAD.len() {
        return told_of_head(size);
    }
    let (count, start) = whole_in(size);
    if start == size {
        Answer::Read(count, Left::Nothing)
    } else {
        Answer::Read(count, Left::Torn(start))
    }
}

/// Of these bytes, which were altered or cut at this place, this is reported.
fn is_told<R: Abort + AllocGlobal>(rt: &R, bytes: &[u8], want: Answer, at: usize) {
    assert_eq!(rt; told(rt.alloc(), bytes), want, "at {at}");
}

/// The journal in these bytes is reported as it should be where it is cut off at each of them.
fn is_told_at_each_cut<R: Abort + AllocGlobal>(rt: &R, bytes: &[u8]) {
    for size in 0..=bytes.len() {
        is_told(rt, &bytes[..size], told_of_front(size), size);
    }
}

#[test]
fn is_cut_at_each_byte(rt: HostRuntime) -> Result<(), Fail> {
    let bytes = journal_of(rt.alloc(), &BODIES)?;
    assert_eq!(rt; bytes.len(), SIZE);
    is_told_at_each_cut(&rt, bytes.as_slice());
    Ok(())
}

/// What is reported of the journal where one byte of it has another highest bit. The flag of the
/// opening is then none; what else of the head is altered shows in the checksum of the first
/// record.
fn told_of_altered(at: usize) -> Answer {
    match at {
        0..=3 => Answer::Fault(JournalWhy::Magic, 0),
        4 => Answer::Fault(JournalWhy::Version, 0),
        7 => Answer::Fault(JournalWhy::Head, 0),
        44..=51 | 100..=107 | 128..=135 => Answer::Fault(JournalWhy::Length, whole_in(at).1),
        _ => Answer::Fault(JournalWhy::Checksum, whole_in(at).1),
    }
}

/// The journal in these bytes is reported as it should be where each of them is altered.
fn is_told_at_each_byte<R: Abort + AllocGlobal>(rt: &R, bytes: &mut [u8]) {
    for at in 0..bytes.len() {
        let byte = bytes[at];
        bytes[at] = byte ^ 128;
        is_told(rt, bytes, told_of_altered(at), at);
        bytes[at] = byte;
    }
}

/// Puts this byte at a place, where there is one.
fn put_at(bytes: &mut [u8], at: usize, byte: u8) {
    if let Some(place) = bytes.get_mut(at) {
        *place = byte;
    }
}

#[test]
fn is_altered_at_each_byte(rt: HostRuntime) -> Result<(), Fail> {
    let mut bytes = journal_of(rt.alloc(), &BODIES)?;
    is_told_at_each_byte(&rt, bytes.as_mut_slice());
    reads_as(&rt, bytes.as_slice(), Answer::Read(3, Left::Nothing));
    Ok(())
}

/// The version is in the checksum too.
#[test]
fn is_called_one_of_version_1(rt: HostRuntime) -> Result<(), Fail> {
    let mut bytes = journal_of(rt.alloc(), &BODIES)?;
    put_at(bytes.as_mut_slice(), 4, 1);
    reads_as(
        &rt,
        bytes.as_slice(),
        Answer::Fault(JournalWhy::Checksum, 44),
    );
    Ok(())
}

/// What is reported of the journal where it ends with this byte, which has another highest bit:
/// what has come of a complement or of a checksum is damaged, and what else is altered cannot be
/// known before they come.
fn told_of_altered_end(at: usize) -> Answer {
    let (count, start) = whole_in(at);
    match at {
        48..=51 | 104..=107 | 132..=135 => Answer::Fault(JournalWhy::Length, start),
        92..=99 | 120..=127 | 176..=183 => Answer::Fault(JournalWhy::Checksum, start),
        _ => Answer::Read(count, Left::Torn(start)),
    }
}

/// The journal in these bytes is reported as it should be where it ends with each of them, altered.
fn is_told_at_each_end<R: Abort + AllocGlobal>(rt: &R, bytes: &mut [u8]) {
    for at in HEAD.len()..bytes.len() {
        let byte = bytes[at];
        bytes[at] = byte ^ 128;
        is_told(rt, &bytes[..=at], told_of_altered_end(at), at);
        bytes[at] = byte;
    }
}

#[test]
fn is_altered_at_its_end(rt: HostRuntime) -> Result<(), Fail> {
    let mut bytes = journal_of(rt.alloc(), &BODIES)?;
    is_told_at_each_end(&rt, bytes.as_mut_slice());
    Ok(())
}
