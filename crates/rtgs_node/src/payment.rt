//! The pay-ins of members.

/// A payment of a member to the bank, out of its own account at the node.
#[derive(Clone, Copy, Debug, PartialEq, Eq)]
pub struct PayIn {
    pub member: u16,
    /// In whole minor units.
    pub amt: u64,
}
