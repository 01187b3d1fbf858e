//! The faults of a node.
use std::alloc::AllocError;
use std::fmt;

/// Why a node refuses an event; of several reasons, the first that its step tests.
#[derive(Clone, Copy, Debug, PartialEq, Eq)]
pub enum NodeFault {
    /// N1: the account that is to pay has less than the amount.
    Short,
    /// N2: the member is not in the setup.
    UnknownMember,
    /// N3: the amount is not 1 to 1,000,000,000,000.
    BadAmount,
    /// N4: memory was refused, and nothing else is wrong.
    NoMemory,
    /// N5: there are 65,535 pay-ins, or 65,535 orders that were done or returned.
    Spent,
    /// N6: the envelope is for another actor, the message is not one for a node, or the order is in another currency.
    NotMine,
    /// N7: the member's account is closed.
    Closed,
}

impl From<AllocError> for NodeFault {
    ghost use Rattle.std.specs.Prelude.{◌≡◌};
    ghost use Rattle.rtgs_node.specs.declared.fault.NodeFault.TheVariants.{NoMemory};

    ghost from_gives = { λ _ fault. fault ≡ NoMemory };

    fn from(_: AllocError) -> Self {
        NodeFault::NoMemory
    }
}

/// Prints the fault's code, N1 to N7.
impl fmt::Display for NodeFault {
    ghost use Rattle.std.specs.Prelude.{Some};
    ghost use Rattle.rtgs_node.specs.Fault.{fault_text};

    ghost output = { λ fault. Some (fault_text fault) };

    fn fmt<W: fmt::Write>(&self, f: &mut fmt::Formatter<W>) -> fmt::Result {
        match self {
            NodeFault::Short => f.write_str("N1"),
            NodeFault::UnknownMember => f.write_str("N2"),
            NodeFault::BadAmount => f.write_str("N3"),
            NodeFault::NoMemory => f.write_str("N4"),
            NodeFault::Spent => f.write_str("N5"),
            NodeFault::NotMine => f.write_str("N6"),
            NodeFault::Closed => f.write_str("N7"),
        }
    }
}
