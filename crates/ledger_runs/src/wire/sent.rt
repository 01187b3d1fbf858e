//! What the tests send, and the frames of it.

use pvp_types::{Cmd, Instruction};
use pvp_wire::{Message, Stamp, Stamped, decode, encode, wireable};
use std::alloc::{AllocError, Global};
use std::io::Write;
use std::test::Fail;
use vr_types::{EnvelopeOf, Known, MOST_SITES, RowOf, RowsOf};

/// An envelope with its stamp.
pub fn stamped(from: u16, clock: u64, index: u32, to: u16, msg: Message) -> Stamped {
    Stamped {
        stamp: Stamp {
            actor: from,
            clock,
            index,
        },
        envelope: EnvelopeOf { from, to, msg },
    }
}

/// Writes the frame of a stamped envelope.
pub fn write<W: Write>(stamped: &Stamped, writer: &mut W) -> Result<(), Fail> {
    if !wireable(stamped) {
        return Err(Fail::new("it has no spelling"));
    }
    encode(stamped, writer)?;
    Ok(())
}

/// The frame of a stamped envelope.
pub fn frame(alloc: Global, stamped: &Stamped) -> Result<Vec<u8>, Fail> {
    let mut out = Vec::new(alloc);
    write(stamped, &mut out)?;
    Ok(out)
}

/// Whether bytes are the frame of a stamped envelope, all of this size.
pub fn is_frame(alloc: Global, stamped: &Stamped, size: usize, bytes: &[u8]) -> Result<bool, Fail> {
    let written = frame(alloc, stamped)?;
    Ok(size == bytes.len() && written.as_slice() == bytes)
}

/// Whether bytes are one frame, which is written as it is read.
pub fn comes_back(alloc: Global, bytes: &[u8]) -> Result<bool, Fail> {
    let (read, size) = decode(alloc, bytes)?;
    is_frame(alloc, &read, size, bytes)
}

/// What is known of boots, a number for each site: of seven at most.
pub fn known(boots: &[u32]) -> Known {
    let mut known = Known::new();
    for boot in boots {
        if known.len() < usize::from(MOST_SITES) {
            known.push(*boot);
        }
    }
    known
}

/// A row with the greatest numbers, which takes as many bytes as a row may.
pub fn row() -> RowOf<Cmd> {
    RowOf {
        client: 108,
        number: u32::MAX,
        cmd: Cmd::Instruct(Instruction {
            reference: u32::MAX,
            other: u16::MAX,
            sell: u8::MAX,
            sell_amt: u64::MAX,
            buy: 0,
            buy_amt: 0,
        }),
    }
}

/// A row that asks for 8 pairs to be settled.
pub fn settle() -> RowOf<Cmd> {
    RowOf {
        client: 0,
        number: 1,
        cmd: Cmd::Settle { most: 8 },
    }
}

/// So many rows, all the same, and no more than a log has.
pub fn rows(alloc: Global, row: RowOf<Cmd>, count: usize) -> Result<RowsOf<Cmd>, AllocError> {
    let mut rows = RowsOf::new(alloc);
    for _ in 0..count {
        if rows.len() < 65_535 {
            rows.push(RowOf {
                client: row.client,
                number: row.number,
                cmd: row.cmd,
            })?;
        }
    }
    Ok(rows)
}
