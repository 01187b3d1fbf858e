//! Actors whose sites have boot cells of any kind, as they are judged.
ghost use Rattle.std.specs.Prelude.{IfOk};
ghost use Rattle.pvp_audit.specs.Cells.{IsInMemory, AreInMemory};

use pvp_parties::{Party, PartyOf};
use pvp_rooms::Closed;
use std::alloc::{AllocError, Global};
use vr_types::{BootCell, MemCell};

/// What actors left over boot cells of any kind, as `audit` takes it: each site stands over a cell in memory, which holds
/// what its own does, and all else is as it was left. `Err` where memory is refused.
pub fn in_memory<C: BootCell>(
    alloc: Global,
    closed: Vec<Closed<PartyOf<C>>>,
) -> Result<Vec<Closed<Party>>, AllocError>
    ensures { IfOk result (λ read. AreInMemory C.BootCell closed.items read.items) }
{
    let mut read = Vec::with_capacity(alloc, closed.len())?;
    for one in closed {
        read.push(one_in_memory(one))?;
    }
    Ok(read)
}

/// What one actor left, over a cell in memory.
fn one_in_memory<C: BootCell>(closed: Closed<PartyOf<C>>) -> Closed<Party>
    ensures { IsInMemory C.BootCell closed result }
{
    let Closed {
        number,
        opening,
        history,
        seats,
        end,
    } = closed;
    let cell = match end.held_boot() {
        Some(boot) => MemCell::of(boot),
        None => MemCell::new(),
    };
    Closed {
        number,
        opening,
        history,
        seats,
        end: end.over(cell),
    }
}
