//! The cells of a new world, and which of their saves are to fail.
ghost use Rattle.std.specs.Prelude.{◌≡◌, ◌<◌, Some, length, map, replicate, slice_get, IfOk};
ghost use Rattle.vr_types.specs.declared.cell.MemCell.{MemCell as AnyCell};
ghost use Rattle.vr_types.specs.Cell.{new_cell};
ghost use Rattle.vr_types.specs.MemoryCell.{held_by};
ghost use Rattle.pvp_play.specs.Cells.{fail_of, IsArmed};

use std::alloc::{AllocError, Global};
use vr_types::MemCell;

/// A save that is to fail: of this site's cell the one of this number, counted from 1; at 0 none does. The cell then holds
/// the new value where `keep`, and else the old one.
#[derive(Clone, Copy, Debug, PartialEq, Eq)]
pub struct Fail {
    pub site: u16,
    pub at: u16,
    pub keep: bool,
}

/// So many new cells, one for each site, armed where a save is to fail.
pub fn new_cells(alloc: Global, count: u16, fails: &[Fail]) -> Result<Vec<MemCell>, AllocError>
    ensures new { IfOk result (λ cells. map held_by cells.items ≡ replicate count new_cell) }
    ensures count { IfOk result (λ cells. length cells.items ≡ count) }
    ensures armed { IfOk result (λ cells. (i : _) (cell : AnyCell) →
        slice_get cells.items i ≡ Some cell → IsArmed fails.now i cell) }
{
    let mut cells = Vec::new(alloc);
    for site in 0..count {
        cells.push(new_cell(fails, site))?;
    }
    Ok(cells)
}

/// A new cell of a site, armed where a save of it is to fail.
fn new_cell(fails: &[Fail], site: u16) -> MemCell
    ensures { IsArmed fails.now site result }
{
    match fail_of(fails, site) {
        Some(fail) => MemCell::failing(u64::from(fail.at), fail.keep),
        None => MemCell::new(),
    }
}

/// What is to fail of a site, if anything is.
fn fail_of(fails: &[Fail], site: u16) -> Option<Fail>
    ensures { result ≡ fail_of fails.now site }
{
    fails.iter().copied().find(|fail| fail.site == site)
}
