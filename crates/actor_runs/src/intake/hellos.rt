//! Hellos, whole, cut and wrong.

use crate::intake::worked::{BANK, HELLO, HELLO_TAG, KEY, NONCE, link};
use pvp_links::{Intake, Link, LinkFault};
use std::alloc::Global;
use std::process::Abort;
use std::test::Fail;

/// An intake of these two pieces of a stream.
fn intake_of(alloc: Global, front: &[u8], back: &[u8]) -> Result<Intake, Fail> {
    let mut intake = Intake::new(alloc);
    intake.push(front)?;
    intake.push(back)?;
    Ok(intake)
}

/// Who opens the stream that begins so.
fn caller(
    alloc: Global,
    bytes: &[u8],
    bank: &[u8; 32],
) -> Result<Result<Option<u16>, LinkFault>, Fail> {
    Ok(intake_of(alloc, bytes, &[])?.caller(bank))
}

/// Whether the hello of a link is taken off the front of such a stream.
fn taken(
    alloc: Global,
    front: &[u8],
    back: &[u8],
    link: &Link,
) -> Result<Result<bool, LinkFault>, Fail> {
    let mut intake = intake_of(alloc, front, back)?;
    Ok(intake.take_hello(link))
}

/// The stream that begins so is opened by this one, or has this fault.
fn is_called<R: Abort + AllocGlobal>(
    rt: &R,
    bytes: &[u8],
    bank: &[u8; 32],
    want: Result<Option<u16>, LinkFault>,
) -> Result<(), Fail> {
    assert_eq!(rt; caller(rt.alloc(), bytes, bank)?, want);
    Ok(())
}

/// The hello of a link is taken off the front of such a stream, or is waited for, or has this
/// fault.
fn is_taken<R: Abort + AllocGlobal>(
    rt: &R,
    front: &[u8],
    back: &[u8],
    link: &Link,
    want: Result<bool, LinkFault>,
) -> Result<(), Fail> {
    assert_eq!(rt; taken(rt.alloc(), front, back, link)?, want);
    Ok(())
}

#[test]
fn a_caller_is_named(rt: HostRuntime) -> Result<(), Fail> {
    is_called(&rt, &HELLO, &BANK, Ok(Some(200)))?;
    is_called(&rt, &HELLO, &[2; 32], Err(LinkFault::Hello))?;
    is_called(&rt, &[0, 0, 0, 34], &BANK, Err(LinkFault::Hello))?;
    is_called(&rt, &[0, 0, 0, 0], &BANK, Err(LinkFault::Hello))
}

/// The bank's id counts to its last byte.
#[test]
fn another_bank_is_told(rt: HostRuntime) -> Result<(), Fail> {
    let mut bank = BANK;
    bank[31] = 2;
    is_called(&rt, &HELLO, &bank, Err(LinkFault::Hello))
}

/// A hello that is cut is waited for: nobody is named, and nothing is taken.
fn is_waited_for<R: Abort + AllocGlobal>(rt: &R, front: &[u8], link: &Link) -> Result<(), Fail> {
    is_called(rt, front, &BANK, Ok(None))?;
    is_taken(rt, front, &[], link, Ok(false))
}

/// A tag that is cut, behind a whole hello, is waited for.
fn a_cut_tag_is_waited_for<R: Abort + AllocGlobal>(rt: &R, link: &Link) -> Result<(), Fail> {
    for end in 0..16 {
        is_taken(rt, &HELLO, &HELLO_TAG[..end], link, Ok(false))?;
    }
    Ok(())
}

#[test]
fn a_cut_hello_is_waited_for(rt: HostRuntime) -> Result<(), Fail> {
    let link = link(201, 200, KEY)?;
    for end in 0..54 {
        is_waited_for(&rt, &HELLO[..end], &link)?;
    }
    a_cut_tag_is_waited_for(&rt, &link)
}

#[test]
fn a_hello_is_taken(rt: HostRuntime) -> Result<(), Fail> {
    is_taken(&rt, &HELLO, &HELLO_TAG, &link(201, 200, KEY)?, Ok(true))?;
    is_taken(&rt, &HELLO, &[], &link(201, 200, None)?, Ok(true))
}

#[test]
fn a_hello_of_another_is_told(rt: HostRuntime) -> Result<(), Fail> {
    let other = link(201, 202, KEY)?;
    is_taken(&rt, &HELLO, &[], &other, Err(LinkFault::Hello))?;
    let mut tag = HELLO_TAG;
    tag[0] ^= 128;
    let link = link(201, 200, KEY)?;
    is_taken(&rt, &HELLO, &tag, &link, Err(LinkFault::Tag))
}

/// A call has no tag: it is taken as it is, with what its actor drew.
#[test]
fn a_call_is_taken(rt: HostRuntime) -> Result<(), Fail> {
    let mut intake = intake_of(rt.alloc(), &HELLO, &[9])?;
    assert!(rt; is_taken_as_a_call(&mut intake));
    assert_eq!(rt; intake.bytes_left(), 1);
    Ok(())
}

/// Whether a call of site 0 stands at the front. Where it does it is taken.
fn is_taken_as_a_call(intake: &mut Intake) -> bool {
    let Ok(Some(200)) = intake.caller(&BANK) else {
        return false;
    };
    let nonce = intake.nonce();
    intake.take_call();
    nonce == NONCE
}
