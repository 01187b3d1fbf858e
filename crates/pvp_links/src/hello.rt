//! The hello with which a stream begins: who speaks, of which bank, and what it drew for this stream.
ghost use Rattle.std.specs.Prelude.{◌≡◌, ◌≤◌, ◌+◌, length, true, IfOk, IfSome};
ghost use Rattle.pvp_links.specs.Sealing.{tag_size, hello_length};
ghost use Rattle.pvp_links.specs.Fronts.{caller_at, hello_at};

use crate::fault::LinkFault;
use crate::link::Link;
use crate::seal::sealed_at;
use byteorder::{BigEndian, ByteOrder};

/// How many bytes the length of a hello counts: an actor's number, a bank's id and what was drawn.
pub(crate) const HELLO_LENGTH: u32 = 50;

/// How many bytes a hello has with its length.
pub(crate) const HELLO_BYTES: usize = 54;

/// Where in it stands what was drawn.
pub(crate) const NONCE_AT: usize = 38;

/// Who speaks, by the hello at the front of these bytes.
#[tactic(auto, unfolding(crate::specs::Fronts::caller_at))]
pub(crate) fn caller_at(bytes: &[u8], bank: &[u8; 32]) -> Result<Option<u16>, LinkFault>
    ensures exact { result ≡ caller_at bank.now bytes.now }
    ensures within { IfOk result (λ caller. IfSome caller (λ _.
        4 + hello_length ≤ length bytes.now)) }
{
    if bytes.len() < 4 {
        return Ok(None);
    }
    if BigEndian::read_u32(bytes) != HELLO_LENGTH {
        return Err(LinkFault::Hello);
    }
    if bytes.len() < HELLO_BYTES {
        return Ok(None);
    }
    if &bytes[6..NONCE_AT] != bank.as_slice() {
        return Err(LinkFault::Hello);
    }
    Ok(Some(BigEndian::read_u16(&bytes[4..])))
}

/// Whether the hello of this link's peer stands at the front of these bytes, with its tag; false where more bytes are
/// wanted.
pub(crate) fn hello_at(bytes: &[u8], link: &Link) -> Result<bool, LinkFault>
    ensures exact { result ≡ hello_at link.now bytes.now }
    ensures within { IfOk result (λ there. there ≡ true →
        4 + hello_length + tag_size link.now ≤ length bytes.now) }
{
    match caller_at(bytes, link.bank())? {
        None => Ok(false),
        Some(actor) if actor != link.peer() => Err(LinkFault::Hello),
        Some(_) => sealed_at(bytes, HELLO_BYTES, link),
    }
}
