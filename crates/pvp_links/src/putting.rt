//! What is written to a stream.
ghost use Rattle.std.specs.Prelude.{◌≡◌, ◌++◌, OnOk, OnErr};
ghost use Rattle.pvp_wire.specs.Spelling.{number};
ghost use Rattle.pvp_links.specs.Sealing.{hello_length, hello_text, ping_text, sealed_text};

use crate::hello::{HELLO_BYTES, HELLO_LENGTH, NONCE_AT};
use crate::link::Link;
use byteorder::{BigEndian, ByteOrder};
use std::alloc::AllocError;

/// Puts behind `out` the hello with which this end opens a stream, before there is a key for it: without a tag. `Err` where
/// memory is refused: then `out` is as it was.
pub fn put_call(link: &Link, nonce: &[u8; 16], out: &mut Vec<u8>) -> Result<(), AllocError>
    ensures put { OnOk result (out.new.items ≡ out.old.items
        ++ hello_text link.now.me link.now.bank nonce.now) }
    ensures refused { OnErr result (out.new.items ≡ out.old.items) }
{
    out.extend_from_slice(&hello_text(link.me(), link.bank(), nonce))
}

/// Puts behind `out` the hello with which this end shows who it is, with its tag. `Err` where memory is refused: then `out`
/// is as it was.
pub fn put_hello(link: &Link, nonce: &[u8; 16], out: &mut Vec<u8>) -> Result<(), AllocError>
    ensures put { OnOk result (out.new.items ≡ out.old.items
        ++ sealed_text link.now (hello_text link.now.me link.now.bank nonce.now)) }
    ensures refused { OnErr result (out.new.items ≡ out.old.items) }
{
    put_sealed(link, &hello_text(link.me(), link.bank(), nonce), out)
}

/// Puts a ping behind `out`, with its tag. `Err` where memory is refused: then `out` is as it was.
#[tactic(auto, unfolding(pvp_wire::specs::Spelling::number))]
pub fn put_ping(link: &Link, out: &mut Vec<u8>) -> Result<(), AllocError>
    ensures put { OnOk result (out.new.items ≡ out.old.items ++ sealed_text link.now ping_text) }
    ensures refused { OnErr result (out.new.items ≡ out.old.items) }
{
    put_sealed(link, &[0; 4], out)
}

/// Puts a frame that is spelled already behind `out`, with its tag. `Err` where memory is refused: then `out` is as it
/// was.
pub fn put_frame(link: &Link, frame: &[u8], out: &mut Vec<u8>) -> Result<(), AllocError>
    ensures put { OnOk result (out.new.items ≡ out.old.items ++ sealed_text link.now frame.now) }
    ensures refused { OnErr result (out.new.items ≡ out.old.items) }
{
    put_sealed(link, frame, out)
}

/// Puts bytes behind `out`, with their tag.
fn put_sealed(link: &Link, bytes: &[u8], out: &mut Vec<u8>) -> Result<(), AllocError>
    ensures put { OnOk result (out.new.items ≡ out.old.items ++ sealed_text link.now bytes.now) }
    ensures refused { OnErr result (out.new.items ≡ out.old.items) }
{
    let before = out.len();
    out.extend_from_slice(bytes)?;
    let Some(tag) = link.tag(link.me(), bytes) else {
        return Ok(());
    };
    let put = out.extend_from_slice(&tag);
    if put.is_err() {
        out.truncate(before);
    }
    put
}

/// The hello of an actor of a bank.
fn hello_text(actor: u16, bank: &[u8; 32], nonce: &[u8; 16]) -> [u8; HELLO_BYTES]
    ensures { result ≡ hello_text actor bank.now nonce.now }
{
    let mut text = [0; HELLO_BYTES];
    text[..NONCE_AT].copy_from_slice(&caller_text(actor, bank));
    text[NONCE_AT..].copy_from_slice(nonce.as_slice());
    text
}

/// What stands in it before what was drawn.
#[tactic(auto, unfolding(pvp_wire::specs::Spelling::number))]
fn caller_text(actor: u16, bank: &[u8; 32]) -> [u8; NONCE_AT]
    ensures { result ≡ number 4 hello_length ++ number 2 actor ++ bank.now }
{
    let mut text = [0; NONCE_AT];
    BigEndian::write_u32(&mut text[..4], HELLO_LENGTH);
    BigEndian::write_u16(&mut text[4..6], actor);
    text[6..].copy_from_slice(bank.as_slice());
    text
}
