//! Why a boot cell is not opened or not made, printed as its code.

use crate::store::StoreFault;
use std::fmt;

/// Why a cell is not opened, or not made.
#[derive(Clone, Copy, Debug, PartialEq, Eq)]
pub enum OpenFault {
    /// U1: no cell is there.
    Lost,
    /// U2: what is there has not the length of a cell.
    Length,
    /// U3: the count and its complement do not fit each other.
    Damaged,
    /// U4: a cell that is to be made is there already.
    Present,
    /// U5: the store failed.
    Store,
    /// U6: memory was refused.
    NoMemory,
}

/// Prints the code.
impl fmt::Display for OpenFault {
    ghost use Rattle.std.specs.Prelude.{Some};
    ghost use Rattle.pvp_cell.specs.Fault.{fault_code_text};

    ghost output = { λ fault. Some (fault_code_text fault) };

    fn fmt<W: fmt::Write>(&self, f: &mut fmt::Formatter<W>) -> fmt::Result {
        f.write_str(match self {
            OpenFault::Lost => "U1",
            OpenFault::Length => "U2",
            OpenFault::Damaged => "U3",
            OpenFault::Present => "U4",
            OpenFault::Store => "U5",
            OpenFault::NoMemory => "U6",
        })
    }
}

impl From<StoreFault> for OpenFault {
    ghost use Rattle.std.specs.Prelude.{◌≡◌};
    ghost use Rattle.pvp_cell.specs.Fault.{store_told};

    ghost from_gives = { λ fault told. told ≡ store_told fault };

    fn from(fault: StoreFault) -> OpenFault {
        match fault {
            StoreFault::Failed => OpenFault::Store,
            StoreFault::NoMemory => OpenFault::NoMemory,
        }
    }
}
