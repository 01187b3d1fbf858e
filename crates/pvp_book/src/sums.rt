//! Orders and returns, found among the entries.
ghost use Rattle.std.specs.Prelude.{◌≡◌};
ghost use Rattle.pvp_book.specs.Orders.{order_by, is_return, has_return};
ghost use Rattle.pvp_book.specs.Answer.{has_order};

use crate::entry::Entry;
use pvp_types::{Cmd, PayOrder, Reply};

/// Whether a currency's order of this number is returned.
pub fn has_return(entries: &[Entry], c: u8, n: u32) -> bool
    ensures { result ≡ has_return entries.now c n }
{
    entries.iter().any(|e| is_return(e, c, n))
}

/// Whether an entry returns a currency's order of this number.
fn is_return(entry: &Entry, c: u8, n: u32) -> bool
    ensures { result ≡ is_return c n entry.now.cmd }
{
    match entry.cmd {
        Cmd::Returned { ccy, out } => ccy == c && out == n,
        _ => false,
    }
}

/// The order that an entry made in a currency.
pub fn order_by(entry: &Entry, c: u8) -> Option<PayOrder>
    ensures { result ≡ order_by c entry.now.client entry.now.cmd entry.now.reply }
{
    match (entry.cmd, entry.reply) {
        (Cmd::PayOut { ccy, amt }, Reply::Order(out)) if ccy == c => Some(PayOrder {
            ccy,
            out,
            member: entry.client,
            amt,
        }),
        _ => None,
    }
}

/// Whether a currency has an order of this number.
pub fn has_order(entries: &[Entry], c: u8, n: u32) -> bool
    ensures { result ≡ has_order entries.now c n }
{
    entries
        .iter()
        .filter_map(|e| order_by(e, c))
        .any(|order| order.out == n)
}
