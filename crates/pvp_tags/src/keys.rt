//! Keys that two actors share, and tags by them.
ghost use Rattle.std.specs.Prelude.{◌≡◌, ◌++◌, []};
ghost use Rattle.pvp_tags.specs.Keys.{key_of, pair_text, stream_key, tag_of};

use crate::code::hmac;
use byteorder::{BigEndian, ByteOrder};

/// How many bytes a tag has.
pub const TAG_BYTES: usize = 16;

/// The key that two actors of a bank share, by the bank's secret: the same whichever is named first.
pub fn key_of(secret: &[u8], one: u16, other: u16) -> [u8; 32]
    ensures { result ≡ key_of secret.now one other }
{
    hmac(secret, &pair_text(one, other), &[])
}

/// The numbers of two actors, the lower one first.
fn pair_text(one: u16, other: u16) -> [u8; 4]
    ensures { result ≡ pair_text one other }
{
    let mut text = [0; 4];
    BigEndian::write_u16(&mut text[..2], one.min(other));
    BigEndian::write_u16(&mut text[2..], one.max(other));
    text
}

/// The key of one stream between two actors who share a key, in this life of their bank: over the 16 bytes that its opener
/// drew for it, and the 16 that the other drew behind them. So nothing that went over a stream means anything on another.
pub fn stream_key(key: &[u8; 32], bank: &[u8; 32], drawn: &[u8; 32]) -> [u8; 32]
    ensures { result ≡ stream_key key.now bank.now drawn.now }
{
    hmac(key.as_slice(), bank.as_slice(), drawn.as_slice())
}

/// The tag of a text under the key of a stream: half of the HMAC over a head, which says where the text stands, and the text.
pub fn tag_of(key: &[u8; 32], head: &[u8], text: &[u8]) -> [u8; TAG_BYTES]
    ensures { result ≡ tag_of key.now head.now text.now }
{
    let whole = hmac(key.as_slice(), head, text);
    let mut tag = [0; TAG_BYTES];
    tag.copy_from_slice(&whole[..TAG_BYTES]);
    tag
}
