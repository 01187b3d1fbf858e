//! The faults for which bytes are not a frame.

use std::alloc::AllocError;
use std::fmt;

/// Why bytes are not a frame.
#[derive(Clone, Copy, Debug, PartialEq, Eq)]
pub enum WireFault {
    /// F1: the bytes end within a frame.
    Short,
    /// F2: the frame's length is above 4,194,304.
    TooLong,
    /// F3: the version is not 2.
    Version,
    /// F4: there is no message of this kind.
    Kind,
    /// F5: a field has a value that it may not have.
    Field,
    /// F6: the fields end before the frame does, or after it.
    Length,
    /// F7: memory was refused; in `decode`, for a row.
    NoMemory,
}

/// Writes the code as `F1` to `F7`.
impl fmt::Display for WireFault {
    ghost use Rattle.std.specs.Prelude.{Some};
    ghost use Rattle.pvp_wire.specs.Fault.{fault_code_text};

    ghost output = { λ fault. Some (fault_code_text fault) };

    fn fmt<W: fmt::Write>(&self, f: &mut fmt::Formatter<W>) -> fmt::Result {
        match self {
            WireFault::Short => f.write_str("F1"),
            WireFault::TooLong => f.write_str("F2"),
            WireFault::Version => f.write_str("F3"),
            WireFault::Kind => f.write_str("F4"),
            WireFault::Field => f.write_str("F5"),
            WireFault::Length => f.write_str("F6"),
            WireFault::NoMemory => f.write_str("F7"),
        }
    }
}

/// A refusal of memory becomes F7.
impl From<AllocError> for WireFault {
    ghost use Rattle.std.specs.Prelude.{◌≡◌};
    ghost use Rattle.pvp_wire.specs.declared.fault.WireFault.TheVariants.{NoMemory};

    ghost from_gives = { λ _ fault. fault ≡ NoMemory };

    fn from(_refused: AllocError) -> WireFault {
        WireFault::NoMemory
    }
}
