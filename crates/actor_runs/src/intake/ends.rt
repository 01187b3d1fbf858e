//! The two ends of a link: what the one puts is as it was worked by hand, and the other takes it.

use crate::intake::pieces::{Heard, is_next};
use crate::intake::worked::{
    BANK, COMMIT, HELLO, HELLO_TAG, KEY, NONCE, PING, SECOND_PING_TAG, THIRD_COMMIT_TAG, link,
};
use pvp_links::{Intake, Link, put_call, put_frame, put_hello, put_ping};
use std::alloc::Global;
use std::process::Abort;
use std::test::Fail;

/// Puts a hello, a ping and a frame at the end of these bytes.
fn put_all(link: &Link, out: &mut Vec<u8>) -> Result<(), Fail> {
    let mut link = *link;
    put_hello(&link, &NONCE, out)?;
    link.advance();
    put_ping(&link, out)?;
    link.advance();
    put_frame(&link, &COMMIT, out)?;
    Ok(())
}

/// A hello, a ping and a frame, as they are put.
fn put(alloc: Global, link: &Link) -> Result<Vec<u8>, Fail> {
    let mut out = Vec::new(alloc);
    put_all(link, &mut out)?;
    Ok(out)
}

/// These texts, one after the other.
fn joined(alloc: Global, texts: &[&[u8]]) -> Result<Vec<u8>, Fail> {
    let mut out = Vec::new(alloc);
    for text in texts {
        out.extend_from_slice(*text)?;
    }
    Ok(out)
}

/// With this key, a hello, a ping and a frame are put as these texts.
fn are_put<R: Abort + AllocGlobal>(
    rt: &R,
    key: Option<[u8; 32]>,
    texts: &[&[u8]],
) -> Result<(), Fail> {
    let link = link(200, 201, key)?;
    let want = joined(rt.alloc(), texts)?;
    let out = put(rt.alloc(), &link)?;
    assert_eq!(rt; out.as_slice(), want.as_slice());
    Ok(())
}

#[test]
fn tagged_texts_are_put(rt: HostRuntime) -> Result<(), Fail> {
    let texts: [&[u8]; 6] = [
        &HELLO,
        &HELLO_TAG,
        &PING,
        &SECOND_PING_TAG,
        &COMMIT,
        &THIRD_COMMIT_TAG,
    ];
    are_put(&rt, KEY, &texts)
}

#[test]
fn texts_without_a_key_are_put(rt: HostRuntime) -> Result<(), Fail> {
    are_put(&rt, None, &[&HELLO, &PING, &COMMIT])
}

/// What comes to site 1, as site 0 puts it.
fn come(alloc: Global) -> Result<Intake, Fail> {
    let out = put(alloc, &link(200, 201, KEY)?)?;
    let mut intake = Intake::new(alloc);
    intake.push(out.as_slice())?;
    Ok(intake)
}

/// Site 0 opens this stream, whose hello is then taken.
fn is_opened<R: Abort>(rt: &R, intake: &mut Intake, link: &Link) {
    assert_eq!(rt; intake.caller(&BANK), Ok(Some(200)));
    assert_eq!(rt; intake.take_hello(link), Ok(true));
}

/// What one end puts the other takes.
#[test]
fn the_other_end_takes_all(rt: HostRuntime) -> Result<(), Fail> {
    let mut link = link(201, 200, KEY)?;
    let mut intake = come(rt.alloc())?;
    is_opened(&rt, &mut intake, &link);
    link.advance();
    is_next(&rt, &mut intake, &link, Heard::Ping);
    link.advance();
    is_next(&rt, &mut intake, &link, Heard::Frame(5));
    is_next(&rt, &mut intake, &link, Heard::Nothing);
    Ok(())
}

/// A call is the hello without a tag, whatever the key.
#[test]
fn a_call_is_put(rt: HostRuntime) -> Result<(), Fail> {
    let mut out = Vec::new(rt.alloc());
    put_call(&link(200, 201, KEY)?, &NONCE, &mut out)?;
    assert_eq!(rt; out.as_slice(), HELLO.as_slice());
    Ok(())
}

/// Whether there is a link of two actors.
fn talk(me: u16, peer: u16) -> bool {
    Link::new(me, peer, BANK, None).is_some()
}

/// There is a link of two actors, or there is none.
fn have_link<R: Abort>(rt: &R, me: u16, peer: u16, want: bool) {
    assert_eq!(rt; talk(me, peer), want, "of {me} and {peer}");
}

/// A site has a link with any other actor, and two members have none.
#[test]
fn strangers_have_no_link(rt: HostRuntime) -> Result<(), Fail> {
    have_link(&rt, 201, 200, true);
    have_link(&rt, 200, 1, true);
    have_link(&rt, 102, 200, true);
    have_link(&rt, 1, 2, false);
    have_link(&rt, 102, 1, false);
    have_link(&rt, 200, 200, false);
    Ok(())
}
