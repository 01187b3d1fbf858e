//! The head of a journal.
ghost use Rattle.std.specs.Prelude.{◌≡◌, Ok, Err, IfOk, OnErr};
ghost use Rattle.pvp_wire.specs.Reading.{Finds};
ghost use Rattle.pvp_journal.specs.declared.fault.JournalWhy.TheVariants.{Head as BadHead};
ghost use Rattle.pvp_journal.specs.Reading.{opening_at, bank_at, fields_at, versioned_at, head_at};

use crate::fault::JournalWhy;
use byteorder::{BigEndian, ByteOrder};
use pvp_wire::{WireFault, u16_at, u32_at};
use vr_types::Boot;

/// The letters PVPJ, with which a journal begins.
pub(crate) const MAGIC: u32 = 0x5056_504a;

/// The version of the format.
#[derive(Clone, Copy, Debug, PartialEq, Eq)]
pub enum Version {
    /// Each record has all that its event sent. It is read, and no longer written.
    One,
    /// What an event sent is summed up.
    Two,
}

/// Whose journal it is.
#[derive(Clone, Copy, Debug, PartialEq, Eq)]
pub struct Head {
    pub version: Version,
    /// The number of the actor.
    pub actor: u16,
    /// What it opened over: at a site what its cell held.
    pub opening: Option<Boot>,
    /// Which bank it is of.
    pub bank: [u8; 32],
}

/// Reads the head at the front of the bytes, and answers the bytes after it. It takes no memory.
///
/// Of several faults the first is returned: M1 fewer than four bytes, or others than PVPJ; M2 no
/// version, or another than 1 and 2; M3 the bytes end within the head, or its opening has another flag
/// than 0 and 1.
#[tactic(auto, unfolding(crate::specs::Reading::head_at))]
pub(crate) fn head_at(bytes: &[u8]) -> Result<(Head, &[u8]), JournalWhy>
    ensures { Finds (λ x. (x.0, x.1.now)) result (head_at bytes.now) }
{
    if bytes.len() < 4 || BigEndian::read_u32(bytes) != MAGIC {
        return Err(JournalWhy::Magic);
    }
    versioned_at(&bytes[4..])
}

/// The version, and what stands behind it.
#[tactic(auto, unfolding(crate::specs::Reading::versioned_at))]
fn versioned_at(bytes: &[u8]) -> Result<(Head, &[u8]), JournalWhy>
    ensures { Finds (λ x. (x.0, x.1.now)) result (versioned_at bytes.now) }
{
    match bytes {
        [1, rest @ ..] => in_head(fields_at(Version::One, rest)),
        [2, rest @ ..] => in_head(fields_at(Version::Two, rest)),
        _ => Err(JournalWhy::Version),
    }
}

/// What was found in a head, or a fault within it.
fn in_head<T>(found: Result<T, WireFault>) -> Result<T, JournalWhy>
    ensures ok { IfOk found (λ x. result ≡ Ok x) }
    ensures err { OnErr found (result ≡ Err BadHead) }
{
    match found {
        Ok(found) => Ok(found),
        Err(_) => Err(JournalWhy::Head),
    }
}

/// What stands behind the version.
#[tactic(auto, unfolding(crate::specs::Reading::fields_at))]
fn fields_at(version: Version, bytes: &[u8]) -> Result<(Head, &[u8]), WireFault>
    ensures { Finds (λ x. (x.0, x.1.now)) result (fields_at version bytes.now) }
{
    let (actor, rest) = u16_at(bytes)?;
    let (opening, rest) = opening_at(rest)?;
    let (bank, rest) = bank_at(rest)?;
    let head = Head {
        version,
        actor,
        opening,
        bank,
    };
    Ok((head, rest))
}

/// A flag, and where it is 1 the boots that a site's cell held.
#[tactic(auto, unfolding(crate::specs::Reading::opening_at))]
fn opening_at(bytes: &[u8]) -> Result<(Option<Boot>, &[u8]), WireFault>
    ensures { Finds (λ x. (x.0, x.1.now)) result (opening_at bytes.now) }
{
    match bytes {
        [] => Err(WireFault::Length),
        [0, rest @ ..] => Ok((None, rest)),
        [1, rest @ ..] => {
            let (boots, rest) = u32_at(rest)?;
            Ok((Some(Boot { boots }), rest))
        }
        [_, ..] => Err(WireFault::Field),
    }
}

/// The bank's id.
fn bank_at(bytes: &[u8]) -> Result<([u8; 32], &[u8]), WireFault>
    ensures { Finds (λ x. (x.0, x.1.now)) result (bank_at bytes.now) }
{
    if bytes.len() < 32 {
        return Err(WireFault::Length);
    }
    let (front, rest) = bytes.split_at(32);
    let mut bank = [0; 32];
    bank.copy_from_slice(front);
    Ok((bank, rest))
}
