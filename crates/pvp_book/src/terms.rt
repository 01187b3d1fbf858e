//! What books and nodes both test.
ghost use Rattle.std.specs.Prelude.{◌≡◌};
ghost use Rattle.pvp_book.specs.Ledger.{node_of};
ghost use Rattle.pvp_book.specs.Answer.{has_member, is_amount};

use pvp_types::Setup;
use vr_types::FIRST_NODE;

/// The greatest amount of a command, in minor units.
const MOST_AMOUNT: u64 = 1_000_000_000_000;

/// The client number of a currency's node.
pub fn node_of(c: u8) -> u16
    ensures { result ≡ node_of c }
{
    FIRST_NODE + u16::from(c)
}

/// Whether a client number is a member's: members are numbered from 1 in their order.
pub fn has_member(setup: &Setup, m: u16) -> bool
    ensures { result ≡ has_member setup.now m }
{
    1 <= m && usize::from(m) <= setup.members.len()
}

/// Whether an amount is 1 to 1,000,000,000,000 minor units.
pub fn is_amount(amt: u64) -> bool
    ensures { result ≡ is_amount amt }
{
    (1..=MOST_AMOUNT).contains(&amt)
}
