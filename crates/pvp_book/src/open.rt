//! The open orders of a currency, and of all currencies.
ghost use Rattle.std.specs.Prelude.{◌≡◌, ℕ, ◌≤◌, length, slice_get};
ghost use Rattle.pvp_book.specs.Open.{outstanding_at};
ghost use Rattle.pvp_book.specs.OrderTable.{open_at};

use crate::order_table::OrderTable;
use crate::terms::node_of;
use pvp_types::PayOrder;

/// The orders of one currency that are neither paid nor returned, in the order in which they were
/// made.
#[derive(Debug, Drop)]
pub struct OpenOrders<'a> {
    /// What is kept of the orders.
    table: &'a OrderTable,
    ccy: u8,
    /// How many orders the iterator has given.
    given: usize,
}

impl<'a> OpenOrders<'a> {
    ghost use Rattle.pvp_book.specs.Open.{orders_left};

    /// All open orders of a currency, none of them given yet.
    pub(crate) fn new(table: &'a OrderTable, ccy: u8) -> Self
        ensures { orders_left result ≡ open_at table.now ccy }
    {
        OpenOrders {
            table,
            ccy,
            given: 0,
        }
    }
}

impl<'a> Iterator for OpenOrders<'a> {
    ghost use Rattle.std.specs.Iterator.{YieldsFirst, item_count};
    ghost use Rattle.pvp_book.specs.Open.{orders_left};

    type Item = PayOrder;

    ghost next_gives = { YieldsFirst orders_left };

    ghost remaining = { item_count orders_left };

    fn next(&mut self) -> Option<PayOrder> {
        let order = self.table.open_at(self.ccy, self.given)?;
        self.given += 1;
        Some(order)
    }
}

/// The order at a place, counted from 0, among the open ones of the first currencies, with the client number of its
/// node.
pub(crate) fn outstanding_at(
    table: &OrderTable,
    currencies: u8,
    at: usize,
) -> Option<(u16, PayOrder)>
    ensures { result ≡ slice_get (outstanding_at (open_at table.now) 0 currencies) at }
{
    let mut left = at;
    for ccy in 0..currencies {
        if let Some(order) = table.open_at(ccy, left) {
            return Some((node_of(ccy), order));
        }
        left -= table.open_count(ccy);
    }
    None
}

/// How many orders of the first currencies are open.
pub(crate) fn count_outstanding(table: &OrderTable, currencies: u8) -> usize
    requires few { (c : ℕ) → length (open_at table.now c) ≤ 65535 }
    ensures { result ≡ length (outstanding_at (open_at table.now) 0 currencies) }
{
    let mut count = 0;
    for ccy in 0..currencies {
        count += table.open_count(ccy);
    }
    count
}
