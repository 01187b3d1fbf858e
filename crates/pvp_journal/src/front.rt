//! What stands at the front of a journal's bytes behind its last record.
ghost use Rattle.std.specs.Prelude.{◌≡◌};
ghost use Rattle.pvp_journal.specs.Journals.{IsFront, agree};

use crate::fault::JournalWhy;
use crate::sums::checksum;
use byteorder::{BigEndian, ByteOrder};

/// What stands there.
#[derive(Clone, Copy)]
pub(crate) enum Front<'a> {
    /// No bytes.
    Empty,
    /// A record that the end of the bytes cuts off.
    Torn,
    /// A whole record with its checksum.
    Whole(Piece<'a>),
}

/// A whole record.
#[derive(Clone, Copy)]
pub(crate) struct Piece<'a> {
    /// What it says.
    pub body: &'a [u8],
    /// Its checksum.
    pub sum: u64,
    /// The bytes behind it.
    pub after: &'a [u8],
}

/// What stands at the front of these bytes, behind a record with this checksum.
#[tactic(auto, unfolding(crate::specs::Journals::front_at, pvp_wire::specs::Spelling::number))]
pub(crate) fn front_at(before: u64, bytes: &[u8]) -> Result<Front<'_>, JournalWhy>
    ensures { IsFront before bytes.now result }
{
    if bytes.is_empty() {
        return Ok(Front::Empty);
    }
    if bytes.len() < 4 {
        return Ok(Front::Torn);
    }
    let length = BigEndian::read_u32(bytes);
    if !agree(&(u32::MAX - length).to_be_bytes(), &bytes[4..]) {
        return Err(JournalWhy::Length);
    }
    let upto = 8 + length as usize;
    if bytes.len() < upto {
        return Ok(Front::Torn);
    }
    let sum = checksum(before, &bytes[..upto]);
    if !agree(&sum.to_be_bytes(), &bytes[upto..]) {
        return Err(JournalWhy::Checksum);
    }
    if bytes.len() < upto + 8 {
        return Ok(Front::Torn);
    }
    Ok(Front::Whole(Piece {
        body: &bytes[8..upto],
        sum,
        after: &bytes[upto + 8..],
    }))
}

/// Whether the bytes are this text, as far as both go.
fn agree(text: &[u8], bytes: &[u8]) -> bool
    ensures { result ≡ agree text.now bytes.now }
{
    text.iter().zip(bytes).all(|(a, b)| *a == *b)
}
