//! Texts with their tags.
ghost use Rattle.std.specs.Prelude.{◌≡◌, ◌≤◌, ◌+◌, length, true, IfOk};
ghost use Rattle.std.specs.Str.{bytes_eq};
ghost use Rattle.pvp_wire.specs.Reading.{most_length};
ghost use Rattle.pvp_links.specs.Sealing.{head_of, tag, tag_size};
ghost use Rattle.pvp_links.specs.Fronts.{sealed_at};

use crate::fault::LinkFault;
use crate::link::Link;
use byteorder::{BigEndian, ByteOrder};

/// How many bytes are tagged before a text.
const HEAD_BYTES: usize = 10;

/// Whether a text of so many bytes stands at the front of these, with its tag; false where more bytes are wanted.
#[tactic(auto, unfolding(crate::specs::Fronts::sealed_at))]
pub(crate) fn sealed_at(bytes: &[u8], size: usize, link: &Link) -> Result<bool, LinkFault>
    requires { size ≤ 4 + most_length }
    ensures exact { result ≡ sealed_at link.now size bytes.now }
    ensures within { IfOk result (λ there. there ≡ true →
        size + tag_size link.now ≤ length bytes.now) }
{
    let whole = size + link.tag_size();
    if bytes.len() < whole {
        return Ok(false);
    }
    if !is_tagged(link, &bytes[..size], &bytes[size..whole]) {
        return Err(LinkFault::Tag);
    }
    Ok(true)
}

/// Whether the next text of a link's peer has this tag; without a key it has none.
fn is_tagged(link: &Link, text: &[u8], found: &[u8]) -> bool
    requires { length found.now ≡ tag_size link.now }
    ensures { result ≡ bytes_eq (tag link.now.peer link.now text.now) found.now }
{
    match link.tag(link.peer(), text) {
        Some(wanted) => are_same(&wanted, found),
        None => found.is_empty(),
    }
}

/// Whether two texts of the same length are the same. It takes as long wherever they differ, so that nobody learns a tag
/// byte by byte.
fn are_same(one: &[u8], other: &[u8]) -> bool
    requires { length one.now ≡ length other.now }
    ensures { result ≡ bytes_eq one.now other.now }
{
    let mut differences = 0;
    for at in 0..one.len() {
        differences |= one[at] ^ other[at];
    }
    differences == 0
}

/// What is tagged before a text: who sends it, and how many went the same way before it.
#[tactic(auto, unfolding(pvp_wire::specs::Spelling::number))]
pub(crate) fn head_of(sender: u16, count: u64) -> [u8; HEAD_BYTES]
    ensures { result ≡ head_of sender count }
{
    let mut head = [0; HEAD_BYTES];
    BigEndian::write_u16(&mut head[..2], sender);
    BigEndian::write_u64(&mut head[2..], count);
    head
}
