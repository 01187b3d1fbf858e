//! Frames in a record: of what was delivered, and of what was sent.
ghost use Rattle.std.specs.Prelude.{◌≡◌, ◌++◌, ◌∷◌, [], OnOk};
ghost use Rattle.pvp_journal.specs.Reading.{Tells, is_of, stamped_at, sent_at, frames_from, all_sent_at};

use pvp_types::{Cmd, PayOrder, Reply};
use pvp_wire::{Stamp, Stamped, WireFault, decode, u32_at};
use std::alloc::{AllocError, Global};
use vr_types::{EnvelopeOf, SentOf};

/// An envelope of the bank's actors.
pub(crate) type BankEnvelope = EnvelopeOf<Cmd, Reply, PayOrder>;

/// What was sent at a step.
pub(crate) type BankSent = SentOf<Cmd, Reply, PayOrder>;

/// The frame in front.
#[tactic(auto, unfolding(crate::specs::Reading::stamped_at))]
pub(crate) fn stamped_at(alloc: Global, bytes: &[u8]) -> Result<(Stamped, &[u8]), WireFault>
    ensures { Tells (λ x. (x.0, x.1.now)) result (stamped_at bytes.now) }
{
    let (stamped, size) = decode(alloc, bytes)?;
    Ok((stamped, &bytes[size..]))
}

/// The frame of what an actor sent at a clock, at this place among those that it sent then.
#[tactic(auto, unfolding(crate::specs::Reading::sent_at))]
pub(crate) fn sent_at(
    alloc: Global,
    me: u16,
    clock: u64,
    place: u32,
    bytes: &[u8],
) -> Result<(BankEnvelope, &[u8]), WireFault>
    ensures { Tells (λ x. (x.0, x.1.now)) result (sent_at me clock place bytes.now) }
{
    let (stamped, rest) = stamped_at(alloc, bytes)?;
    let Stamped { stamp, envelope } = stamped;
    if !is_of(stamp, me, clock, place) {
        return Err(WireFault::Field);
    }
    Ok((envelope, rest))
}

/// Whether a stamp is this actor's, of this clock and place.
fn is_of(stamp: Stamp, me: u16, clock: u64, place: u32) -> bool
    ensures { result ≡ is_of me clock place stamp }
{
    stamp.actor == me && stamp.clock == clock && stamp.index == place
}

/// How many frames of what an actor sent at a clock, and the frames.
#[tactic(auto, unfolding(crate::specs::Reading::all_sent_at))]
pub(crate) fn all_sent_at(
    alloc: Global,
    me: u16,
    clock: u64,
    bytes: &[u8],
) -> Result<(BankSent, &[u8]), WireFault>
    ensures { Tells (λ x. (x.0, x.1.now)) result (all_sent_at me clock bytes.now) }
{
    let (count, rest) = u32_at(bytes)?;
    frames_from(alloc, me, clock, count, rest)
}

/// So many frames.
fn frames_from(
    alloc: Global,
    me: u16,
    clock: u64,
    count: u32,
    bytes: &[u8],
) -> Result<(BankSent, &[u8]), WireFault>
    ensures { Tells (λ x. (x.0, x.1.now)) result (frames_from me clock count 0 bytes.now) }
{
    let mut sent = Vec::new(alloc);
    let mut rest = bytes;
    for place in 0..count {
        let (envelope, after) = sent_at(alloc, me, clock, place, rest)?;
        keep(&mut sent, envelope)?;
        rest = after;
    }
    sent.shrink_to_fit();
    Ok((SentOf::new(sent), rest))
}

/// Keeps one more envelope.
fn keep(sent: &mut Vec<BankEnvelope>, envelope: BankEnvelope) -> Result<(), AllocError>
    ensures { OnOk result (sent.new.items ≡ sent.old.items ++ envelope ∷ []) }
{
    match sent.push(envelope) {
        Ok(()) => Ok(()),
        Err(_) => Err(AllocError),
    }
}
