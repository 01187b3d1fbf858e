//! How a frame is read: its length, version and kind, and the envelope in it.
ghost use Rattle.pvp_wire.specs.Reading.{Gives, envelope_at, counted_at, frame_where};

use crate::fault::WireFault;
use crate::fields::{actor_at, stamp_at};
use crate::messages::message_at;
use crate::stamped::Stamped;
use byteorder::{BigEndian, ByteOrder};
use std::alloc::Global;
use vr_types::EnvelopeOf;

/// The version of the formats.
pub const VERSION: u8 = 2;

/// The longest frame, after its length.
const MOST_LENGTH: usize = 4_194_304;

/// The shortest frame, after its length: one without a body.
const LEAST_LENGTH: usize = 18;

/// Reads the frame at the front of the bytes: the stamped envelope that it spells, and how many bytes it takes.
///
/// Of several faults the first is returned: F1 fewer than 4 bytes; F2 a length above 4,194,304; F6 a length below 18;
/// F1 fewer bytes than the length says; F3 the version; F4 the kind; then the fields in their order, F6 where the
/// frame's end cuts one off and F5 where it has a value that it may not have; F6 bytes after the body.
///
/// Memory is taken only for rows, for each after it was read. So F7 comes only from a DOVIEWCHANGE, STARTVIEW,
/// NEWSTATE or RECOVERYRESPONSE of which at least the first row was read, in place of the envelope or of a fault
/// behind that row.
#[tactic(auto, unfolding(crate::specs::Reading::frame_where))]
pub fn decode(alloc: Global, bytes: &[u8]) -> Result<(Stamped, usize), WireFault>
    ensures { Gives (λ x. x) result (λ refused. frame_where refused bytes.now) }
{
    if bytes.len() < 4 {
        return Err(WireFault::Short);
    }
    let length = BigEndian::read_u32(bytes) as usize;
    if length > MOST_LENGTH {
        return Err(WireFault::TooLong);
    }
    if length < LEAST_LENGTH {
        return Err(WireFault::Length);
    }
    if bytes.len() < 4 + length {
        return Err(WireFault::Short);
    }
    let stamped = counted_at(alloc, &bytes[4..4 + length])?;
    Ok((stamped, 4 + length))
}

/// The envelope in the bytes that a frame's length counts.
#[tactic(auto, unfolding(crate::specs::Reading::counted_at))]
fn counted_at(alloc: Global, bytes: &[u8]) -> Result<Stamped, WireFault>
    ensures { Gives (λ x. x) result (λ refused. counted_at refused bytes.now) }
{
    let [version, kind, rest @ ..] = bytes else {
        return Err(WireFault::Length);
    };
    if *version != VERSION {
        return Err(WireFault::Version);
    }
    if !(1..=13).contains(kind) {
        return Err(WireFault::Kind);
    }
    let (stamped, rest) = envelope_at(alloc, *kind, rest)?;
    if !rest.is_empty() {
        return Err(WireFault::Length);
    }
    Ok(stamped)
}

/// The stamp, the receiver, and the message.
#[tactic(auto, unfolding(crate::specs::Reading::envelope_at))]
fn envelope_at(alloc: Global, kind: u8, bytes: &[u8]) -> Result<(Stamped, &[u8]), WireFault>
    ensures { Gives (λ x. (x.0, x.1.now)) result (λ refused. envelope_at refused kind bytes.now) }
{
    let (stamp, rest) = stamp_at(bytes)?;
    let (to, rest) = actor_at(rest)?;
    let (msg, rest) = message_at(alloc, kind, rest)?;
    let envelope = EnvelopeOf {
        from: stamp.actor,
        to,
        msg,
    };
    Ok((Stamped { stamp, envelope }, rest))
}
