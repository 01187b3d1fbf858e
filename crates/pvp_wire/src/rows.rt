//! Rows of a log, and the state that a primary answers with.
ghost use Rattle.std.specs.Prelude.{◌≡◌, false};
ghost use Rattle.pvp_wire.specs.Shape.{items_from};
ghost use Rattle.pvp_wire.specs.Layout as layout;
ghost use Rattle.pvp_wire.specs.Layout.{option_at};
ghost use Rattle.pvp_wire.specs.Reading.{Gives};

use crate::fault::WireFault;
use crate::fields::{row_at, u16_at};
use pvp_types::Cmd;
use std::alloc::Global;
use vr_types::{RowsOf, StateOf};

/// `count` rows.
fn rows_from(alloc: Global, count: u16, bytes: &[u8]) -> Result<(RowsOf<Cmd>, &[u8]), WireFault>
    ensures { Gives (λ x. (x.0, x.1.now)) result (λ refused.
        items_from (layout.row.read false) refused count bytes.now) }
{
    let mut rows = RowsOf::new(alloc);
    let mut rest = bytes;
    for _ in 0..count {
        let (row, after) = row_at(rest)?;
        rows.push(row)?;
        rest = after;
    }
    Ok((rows, rest))
}

/// A count, and that many rows.
#[tactic(auto, unfolding(crate::specs::Layout::rows))]
pub fn rows_at(alloc: Global, bytes: &[u8]) -> Result<(RowsOf<Cmd>, &[u8]), WireFault>
    ensures { Gives (λ x. (x.0, x.1.now)) result (λ refused. layout.rows.read refused bytes.now) }
{
    let (count, rest) = u16_at(bytes)?;
    rows_from(alloc, count, rest)
}

/// A state: how many rows are executed, and the rows.
#[tactic(auto, unfolding(crate::specs::Layout::state))]
fn state_at(alloc: Global, bytes: &[u8]) -> Result<(StateOf<Cmd>, &[u8]), WireFault>
    ensures { Gives (λ x. (x.0, x.1.now)) result (λ refused. layout.state.read refused bytes.now) }
{
    let (done, rest) = u16_at(bytes)?;
    let (rows, rest) = rows_at(alloc, rest)?;
    Ok((StateOf { done, rows }, rest))
}

/// A flag, and the state if the flag is 1.
#[tactic(auto, unfolding(crate::specs::Layout::option_at))]
pub fn option_at(alloc: Global, bytes: &[u8]) -> Result<(Option<StateOf<Cmd>>, &[u8]), WireFault>
    ensures { Gives (λ x. (x.0, x.1.now)) result (λ refused. option_at refused bytes.now) }
{
    match bytes {
        [] => Err(WireFault::Length),
        [0, rest @ ..] => Ok((None, rest)),
        [1, rest @ ..] => {
            let (state, rest) = state_at(alloc, rest)?;
            Ok((Some(state), rest))
        }
        [_, ..] => Err(WireFault::Field),
    }
}
