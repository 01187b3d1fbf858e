//! What is at the front of the bytes from a link.
ghost use Rattle.std.specs.Prelude.{◌≡◌, ◌≤◌, ◌+◌, length, IfOk, IfSome};
ghost use Rattle.pvp_links.specs.Sealing.{tag_size};
ghost use Rattle.pvp_wire.specs.Reading.{Finds};
ghost use Rattle.pvp_links.specs.Fronts.{Gives, front_where, size_at, is_length, said_in, of_wire, addressed_envelope};
ghost use Rattle.pvp_links.specs.Intakes.{said_with_size, said_by};

use crate::arrival::{Arrival, Piece};
use crate::fault::LinkFault;
use crate::link::Link;
use crate::seal::sealed_at;
use byteorder::{BigEndian, ByteOrder};
use pvp_wire::{Stamped, WireFault, decode};
use std::alloc::Global;

/// The shortest frame, after its length.
const LEAST_LENGTH: usize = 18;

/// The longest frame, after its length.
const MOST_LENGTH: usize = 4_194_304;

/// What stands at the front of these bytes, and how many it takes with its tag.
#[tactic(auto, unfolding(crate::specs::Fronts::front_where))]
pub(crate) fn piece_at(
    alloc: Global,
    bytes: &[u8],
    link: &Link,
) -> Result<Option<(Piece, usize)>, LinkFault>
    ensures exact { Gives said_with_size result (λ refused.
        front_where refused link.now bytes.now) }
    ensures within { IfOk result (λ found. IfSome found (λ x. x.1 ≤ length bytes.now)) }
{
    let Some(size) = size_at(bytes, link)? else {
        return Ok(None);
    };
    let piece = piece_in(alloc, &bytes[..size], link)?;
    Ok(Some((piece, size + link.tag_size())))
}

/// How many bytes the frame or ping has that stands at the front of these with its tag, without that.
#[tactic(auto, unfolding(crate::specs::Fronts::size_at))]
fn size_at(bytes: &[u8], link: &Link) -> Result<Option<usize>, LinkFault>
    ensures exact { result ≡ size_at link.now bytes.now }
    ensures within { IfOk result (λ found. IfSome found (λ size.
        size + tag_size link.now ≤ length bytes.now)) }
{
    if bytes.len() < 4 {
        return Ok(None);
    }
    let length = BigEndian::read_u32(bytes) as usize;
    if !is_length(length) {
        return Err(LinkFault::Length);
    }
    let size = 4 + length;
    if !sealed_at(bytes, size, link)? {
        return Ok(None);
    }
    Ok(Some(size))
}

/// Whether a frame or a ping has this length.
fn is_length(length: usize) -> bool
    ensures { result ≡ is_length length }
{
    length == 0 || (LEAST_LENGTH <= length && length <= MOST_LENGTH)
}

/// What a text says whose tag is right.
#[tactic(auto, unfolding(crate::specs::Fronts::said_in))]
fn piece_in(alloc: Global, text: &[u8], link: &Link) -> Result<Piece, LinkFault>
    ensures { Gives said_by result (λ refused. said_in refused link.now text.now) }
{
    if text.len() == 4 {
        return Ok(Piece::Ping);
    }
    match decode(alloc, text) {
        Ok((stamped, _)) => addressed_envelope(stamped, link),
        Err(fault) => Err(of_wire(fault)),
    }
}

/// What a fault of the wire is where no more bytes are wanted.
fn of_wire(fault: WireFault) -> LinkFault
    ensures { result ≡ of_wire fault }
{
    match fault {
        WireFault::NoMemory => LinkFault::NoMemory,
        _ => LinkFault::Wire(fault),
    }
}

/// An envelope that came over this link, where it is from its peer and to this end.
fn addressed_envelope(stamped: Stamped, link: &Link) -> Result<Piece, LinkFault>
    ensures { Finds said_by result (addressed_envelope link.now stamped) }
{
    if stamped.envelope.from != link.peer() {
        return Err(LinkFault::Sender);
    }
    if stamped.envelope.to != link.me() {
        return Err(LinkFault::Receiver);
    }
    Ok(Piece::Frame(Arrival::new(stamped, link)))
}
