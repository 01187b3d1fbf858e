//! Who is at the other end of a stream, now. Each end draws bytes for the stream, and takes nothing of the other before a tag
//! over both came. So what was recorded of an earlier stream means nothing, whichever end plays it again.
ghost use Rattle.std.specs.Prelude.{◌≡◌, ◌++◌, ◌+◌, ◌≤◌, length, IfOk, Ok, Some};
ghost use Rattle.pvp_links.specs.Fronts.{caller_at};
ghost use Rattle.pvp_links.specs.Sealing.{hello_length, next};
ghost use Rattle.pvp_serve.specs.Doors.{IsAnswered, IsKnown, IsLetIn, Shows};

use crate::host::Wires;
use crate::listening::Door;
use pvp_links::{Intake, Link, LinkFault, put_call, put_hello};
use std::io::{self, Read, Write};
use std::net::TcpStream;
use std::time::Duration;

/// How many bytes each end draws for a stream.
const NONCE_BYTES: usize = 16;

/// How many seconds the other end has to show who it is.
const HELLO_SECONDS: u64 = 5;

/// How many bytes a hello has at most, with its tag.
const HELLO_BYTES: usize = 70;

/// How many reads it may take: more than it has bytes.
const MOST_READS: usize = 128;

/// Hears who calls over a stream that was opened to a site, and has it show that it is there now. Answers the link; what came
/// behind is still in the intake. `own` is what this end drew for the stream. `Err` where that is no actor that may talk to this
/// one, or it does not show itself in time; `said` is then whom it said to be, if it did.
pub fn answer<R: Wires>(
    rt: R,
    stream: &mut TcpStream,
    intake: &mut Intake,
    door: &Door,
    own: &[u8; NONCE_BYTES],
    said: &mut Option<u16>,
) -> Result<Link, LinkFault>
    ensures { IfOk result (λ link. IsLetIn door.now own.now link intake.new) }
{
    let began = begin(rt, stream)?;
    let caller = hear(rt, stream, intake, &door.bank, began)?;
    *said = Some(caller);
    let pair = link_of(door, caller)?;
    let link = pair.over(&joined(&intake.nonce(), own));
    intake.take_call();
    say(rt, stream, &link, own)?;
    shown(rt, stream, intake, link, began)
}

/// Says over a stream to a site who calls, and has the site show that it is there now. Answers the link; what came behind is
/// still in the intake. `own` is what this end drew for the stream. `Err` where the site is another, or does not show itself in
/// time.
pub fn call<R: Wires>(
    rt: R,
    stream: &mut TcpStream,
    intake: &mut Intake,
    pair: &Link,
    own: &[u8; NONCE_BYTES],
) -> Result<Link, LinkFault>
    ensures { IfOk result (λ link. IsAnswered pair.now own.now link intake.new) }
{
    let began = begin(rt, stream)?;
    let mut called = Vec::new(rt.alloc());
    if put_call(pair, own, &mut called).is_err() {
        return Err(LinkFault::NoMemory);
    }
    write(stream, &called)?;
    let _site = hear(rt, stream, intake, pair.bank(), began)?;
    let link = pair.over(&joined(own, &intake.nonce()));
    // it shows itself before it looks at the site's tag, so that a site can report a key that differs
    say(rt, stream, &link, own)?;
    shown(rt, stream, intake, link, began)
}

/// The link that a caller opens, if it may and where frames are tagged has a key.
fn link_of(door: &Door, caller: u16) -> Result<Link, LinkFault>
    ensures { IfOk result (λ link. IsKnown door.now caller link) }
{
    let key = match &door.keys {
        None => None,
        Some(keys) => match keys.with(caller) {
            None => return Err(LinkFault::Stranger),
            key => key,
        },
    };
    match Link::new(door.me, caller, door.bank, key) {
        None => Err(LinkFault::Stranger),
        Some(link) => Ok(link),
    }
}

/// Has reads end when the other end's time is up, and answers when that began.
fn begin<R: Wires>(rt: R, stream: &TcpStream) -> Result<Duration, LinkFault> {
    let wait = Some(Duration::from_secs(HELLO_SECONDS));
    match (stream.set_read_timeout(wait), rt.monotonic()) {
        (Ok(()), Ok(began)) => Ok(began),
        _ => Err(LinkFault::Hello),
    }
}

/// What this end draws for a stream. Where the machine has nothing to draw from, that is want of memory.
pub fn draw<R: Wires>(rt: R) -> Result<[u8; NONCE_BYTES], LinkFault> {
    let mut nonce = [0; NONCE_BYTES];
    match rt.fill_bytes(&mut nonce) {
        Ok(()) => Ok(nonce),
        Err(_) => Err(LinkFault::NoMemory),
    }
}

/// What the opener drew, and behind it what the other drew.
fn joined(opener: &[u8; NONCE_BYTES], other: &[u8; NONCE_BYTES]) -> [u8; 32]
    ensures { result ≡ opener.now ++ other.now }
{
    let mut drawn = [0; 32];
    drawn[..NONCE_BYTES].copy_from_slice(opener.as_slice());
    drawn[NONCE_BYTES..].copy_from_slice(other.as_slice());
    drawn
}

/// Reads until a hello of this bank stands at the front, and answers whose it is.
fn hear<R: Wires>(
    rt: R,
    stream: &mut TcpStream,
    intake: &mut Intake,
    bank: &[u8; 32],
    began: Duration,
) -> Result<u16, LinkFault>
    ensures said { IfOk result (λ actor. caller_at bank.now intake.new ≡ Ok (Some actor)) }
    ensures whole { IfOk result (λ _. 4 + hello_length ≤ length intake.new) }
{
    for _ in 0..MOST_READS {
        if let Some(actor) = intake.caller(bank)? {
            return Ok(actor);
        }
        read_more(rt, stream, intake, began)?;
    }
    Err(LinkFault::Hello)
}

/// Reads until the peer's hello came with its tag, takes it, and answers the link behind it.
fn shown<R: Wires>(
    rt: R,
    stream: &mut TcpStream,
    intake: &mut Intake,
    link: Link,
    began: Duration,
) -> Result<Link, LinkFault>
    ensures { IfOk result (λ shown. Shows link shown intake.new) }
{
    for _ in 0..MOST_READS {
        if intake.take_hello(&link)? {
            let _forever = stream.set_read_timeout(None);
            return Ok(behind_hello(link));
        }
        read_more(rt, stream, intake, began)?;
    }
    Err(LinkFault::Hello)
}

/// A link over which each end has said its hello.
fn behind_hello(link: Link) -> Link
    ensures { result ≡ next link }
{
    let mut link = link;
    link.advance();
    link
}

/// Says this end's hello, with its tag.
fn say<R: Wires>(
    rt: R,
    stream: &mut TcpStream,
    link: &Link,
    nonce: &[u8; NONCE_BYTES],
) -> Result<(), LinkFault> {
    let mut hello = Vec::new(rt.alloc());
    if put_hello(link, nonce, &mut hello).is_err() {
        return Err(LinkFault::NoMemory);
    }
    write(stream, &hello)
}

fn write(stream: &mut TcpStream, bytes: &Vec<u8>) -> Result<(), LinkFault> {
    match stream.write_all(bytes.as_slice()) {
        Ok(()) => Ok(()),
        Err(_) => Err(LinkFault::Hello),
    }
}

/// Reads once. `Err` where nothing comes, or not in time.
fn read_more<R: Wires>(
    rt: R,
    stream: &mut TcpStream,
    intake: &mut Intake,
    began: Duration,
) -> Result<(), LinkFault> {
    let mut buffer = [0u8; HELLO_BYTES];
    let got = match stream.read(&mut buffer) {
        Ok(got) if got > 0 => got,
        _ => return Err(LinkFault::Hello),
    };
    if is_late(rt.monotonic(), began) {
        return Err(LinkFault::Hello);
    }
    match intake.push(&buffer[..got]) {
        Ok(()) => Ok(()),
        Err(_) => Err(LinkFault::NoMemory),
    }
}

/// Whether the other end has had its time.
fn is_late(now: io::Result<Duration>, began: Duration) -> bool {
    match now {
        Ok(now) => now.saturating_sub(began).as_secs() >= HELLO_SECONDS,
        Err(_) => true,
    }
}
