//! Which pay-ins a book has, found by their numbers.
ghost use Rattle.std.specs.Prelude.{◌≡◌, ℕ, ◌<◌, ◌++◌, ◌∷◌, [], List, OnOk, ◌==◌, ◌&&◌, ◌||◌};
ghost use Rattle.std.specs.HashSet.{spare};
ghost use Rattle.pvp_book.specs.declared.entry.Entry.{Entry as Noted};
ghost use Rattle.pvp_book.specs.PayIns.{ArePaidIn, has_come};

use crate::entry::Entry;
use crate::limits;
use pvp_types::Cmd;
use std::alloc::{AllocError, Global};
use std::collections::HashSet;

/// The numbers of the pay-ins that came. A node numbers its own 1, 2, 3 and so on, so for most the last number is
/// enough.
#[derive(Debug, Drop)]
pub struct PayIns {
    /// For each currency the number up to which all came.
    up_to: [u32; 8],
    /// The others, by currency and number.
    others: HashSet<(u8, u32)>,
}

impl PayIns {
    /// None yet.
    pub fn new(alloc: Global) -> Self
        ensures { ArePaidIn [] result }
    {
        PayIns {
            up_to: [0; limits::MOST_CURRENCIES],
            others: HashSet::new(alloc),
        }
    }

    /// Whether a currency's pay-in of this number came.
    pub fn has(&self, c: u8, k: u32) -> bool
        ensures { result ≡ has_come self.now c k }
    {
        let up_to = self.up_to.get(usize::from(c)).copied().unwrap_or(0);
        // as a rule there is none beyond a gap, and then none is looked up
        (0 < k && k <= up_to) || (!self.others.is_empty() && self.others.contains(&(c, k)))
    }

    /// Makes room for one more. An `Err`, which only lack of memory gives, leaves the pay-ins as they were.
    pub fn reserve(&mut self) -> Result<(), AllocError>
        ensures room { OnOk result (0 < spare self.new.others) }
        ensures same { (entries : List Noted) → ArePaidIn entries self.old →
            ArePaidIn entries self.new }
    {
        self.others.reserve(1)
    }

    /// Notes one more entry, for which there is room.
    pub fn note(&mut self, entry: &Entry)
        requires room { 0 < spare self.old.others }
        ensures { (entries : List Noted) → ArePaidIn entries self.old →
            ArePaidIn (entries ++ entry.now ∷ []) self.new }
    {
        if let Cmd::Fund { ccy, pay, .. } = entry.cmd {
            self.add(ccy, pay);
        }
    }

    /// Notes a currency's pay-in of a number, for which there is room.
    fn add(&mut self, ccy: u8, pay: u32)
        requires room { 0 < spare self.old.others }
        ensures { (c k : ℕ) →
            has_come self.new c k ≡ (has_come self.old c k || ((ccy == c) && (pay == k))) }
    {
        let place = usize::from(ccy);
        if place < limits::MOST_CURRENCIES && 0 < pay && self.up_to[place] == pay - 1 {
            self.up_to[place] = pay;
        } else {
            let _ = self.others.insert((ccy, pay));
        }
    }
}
