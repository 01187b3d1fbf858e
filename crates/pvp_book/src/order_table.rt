//! The orders of a book by currency and number, and the open ones by currency.
ghost use Rattle.std.specs.Prelude.{◌≡◌, ℕ, ◌<◌, ◌+◌, ◌++◌, ◌∷◌, [], List, OnOk, length, filter, is_some, not, if◌then◌else◌, ◌&&◌, ◌==◌, true};
ghost use Rattle.std.specs.Option.{option_map};
ghost use Rattle.pvp_book.specs.declared.entry.Entry.{Entry as Noted};
ghost use Rattle.pvp_book.specs.OrderTable.{AreAscending, step_of, just_made, at_number, once_ended};

use crate::entry::Entry;
use pvp_types::{Cmd, PayOrder, Reply};
use std::alloc::{AllocError, Global};
use std::array;
use std::collections::VecDeque;

/// An order, and whether it is paid or returned.
#[derive(Clone, Copy, Debug, PartialEq, Eq)]
pub struct KeptOrder {
    pub order: PayOrder,
    pub ended: bool,
}

/// The orders of all currencies, so that finding one takes no search of the entries.
#[derive(Debug, Drop)]
pub struct OrderTable {
    /// Those of each currency by number: they are numbered from 1, in the order in which they were
    /// made.
    made: [Vec<KeptOrder>; 8],
    /// Those of each currency that are neither paid nor returned, in the order in which they were
    /// made, so that none is looked for among the others.
    outstanding: [VecDeque<PayOrder>; 8],
}

impl OrderTable {
    ghost use Rattle.std.specs.Prelude.{slice_get};
    ghost use Rattle.pvp_book.specs.OrderTable.{AreMade, HasRoom, IsCounted, IsNext, kept_order, order_at, has_ended, made_at, open_at, room_at, open_room_at};

    /// No orders.
    pub fn new(alloc: Global) -> Self
        ensures { AreMade [] result }
    {
        OrderTable {
            made: array::from_fn(|_| Vec::new(alloc)),
            outstanding: array::from_fn(|_| VecDeque::new(alloc)),
        }
    }

    /// What is kept of the order of a currency and a number.
    fn kept_order(&self, c: u8, n: u32) -> Option<KeptOrder>
        ensures { result ≡ kept_order self.now c n }
    {
        let orders = self.made.get(usize::from(c))?;
        let place = n.checked_sub(1)? as usize;
        orders.get(place).copied()
    }

    /// The order of a currency and a number.
    pub fn get(&self, c: u8, n: u32) -> Option<PayOrder>
        ensures { result ≡ order_at self.now c n }
    {
        Some(self.kept_order(c, n)?.order)
    }

    /// Whether an order of a currency is paid or returned.
    pub fn has_ended(&self, c: u8, n: u32) -> bool
        ensures { result ≡ has_ended self.now c n }
    {
        match self.kept_order(c, n) {
            Some(kept) => kept.ended,
            None => false,
        }
    }

    /// How many orders a currency has.
    pub fn count(&self, c: u8) -> usize
        ensures { result ≡ length (made_at self.now c) }
    {
        self.made.get(usize::from(c)).map_or(0, Vec::len)
    }

    /// A currency's open order at a place.
    pub fn open_at(&self, c: u8, at: usize) -> Option<PayOrder>
        ensures { result ≡ slice_get (open_at self.now c) at }
    {
        self.outstanding.get(usize::from(c))?.get(at).copied()
    }

    /// How many orders of a currency are open.
    pub fn open_count(&self, c: u8) -> usize
        ensures { result ≡ length (open_at self.now c) }
    {
        self.outstanding
            .get(usize::from(c))
            .map_or(0, VecDeque::len)
    }

    /// Makes room for what one more entry adds. An `Err`, which only lack of memory gives, leaves the orders as they
    /// were.
    pub fn reserve(&mut self, entry: &Entry) -> Result<(), AllocError>
        requires known { IsCounted (step_of entry.now.client entry.now.cmd entry.now.reply) }
        requires places { length self.old.made ≡ 8 }
        requires queues { length self.old.outstanding ≡ 8 }
        ensures room { OnOk result
            (HasRoom (step_of entry.now.client entry.now.cmd entry.now.reply) self.new) }
        ensures same { (entries : List Noted) → AreMade entries self.old →
            AreMade entries self.new }
    {
        if let Step::Made(order) = step_of(entry) {
            self.made[usize::from(order.ccy)].reserve(1)?;
            self.outstanding[usize::from(order.ccy)].reserve(1)?;
        }
        Ok(())
    }

    /// Notes one more entry, for which there is room.
    pub fn add(&mut self, entry: &Entry)
        requires room { HasRoom (step_of entry.now.client entry.now.cmd entry.now.reply) self.old }
        requires known { IsCounted (step_of entry.now.client entry.now.cmd entry.now.reply) }
        requires places { length self.old.made ≡ 8 }
        requires queues { length self.old.outstanding ≡ 8 }
        requires next { IsNext (step_of entry.now.client entry.now.cmd entry.now.reply) self.old }
        requires ascending { (c : ℕ) → AreAscending (open_at self.old c) }
        ensures { (entries : List Noted) → AreMade entries self.old →
            AreMade (entries ++ entry.now ∷ []) self.new }
    {
        match step_of(entry) {
            Step::Made(order) => self.make(order),
            Step::Ended(ccy, out) => self.end(ccy, out),
            Step::Nothing => {}
        }
    }

    /// Adds an order with the next number.
    fn make(&mut self, order: PayOrder)
        requires room { (0 < room_at self.old order.ccy) × (0 < open_room_at self.old order.ccy) }
        requires known { order.ccy < 8 }
        requires places { length self.old.made ≡ 8 }
        requires queues { length self.old.outstanding ≡ 8 }
        ensures places { length self.new.made ≡ length self.old.made }
        ensures made { (c : ℕ) → made_at self.new c ≡ made_at self.old c
            ++ (if order.ccy == c then just_made order ∷ [] else []) }
        ensures queues { length self.new.outstanding ≡ length self.old.outstanding }
        ensures outstanding { (c : ℕ) →
            open_at self.new c ≡ open_at self.old c ++ (if order.ccy == c then order ∷ [] else []) }
    {
        let kept = KeptOrder {
            order,
            ended: false,
        };
        self.made[usize::from(order.ccy)].push_reserved(kept);
        self.outstanding[usize::from(order.ccy)].push_back_reserved(order);
    }

    /// Notes an order as paid or returned: it is open no longer.
    fn end(&mut self, ccy: u8, out: u32)
        requires there { is_some (kept_order self.old ccy out) ≡ true }
        requires known { ccy < 8 }
        requires places { length self.old.made ≡ 8 }
        requires queues { length self.old.outstanding ≡ 8 }
        requires ascending { AreAscending (open_at self.old ccy) }
        ensures places { length self.new.made ≡ length self.old.made }
        ensures made { (c : ℕ) → length (made_at self.new c) ≡ length (made_at self.old c) }
        ensures ended { (c n : ℕ) → kept_order self.new c n
            ≡ option_map (once_ended ((ccy == c) && (out == n))) (kept_order self.old c n) }
        ensures queues { length self.new.outstanding ≡ length self.old.outstanding }
        ensures outstanding { (c : ℕ) →
            open_at self.new c ≡ filter (λ order. not ((ccy == c) && (out == order.out)))
            (open_at self.old c) }
    {
        note_end(&mut self.made[usize::from(ccy)], out);
        take_out(&mut self.outstanding[usize::from(ccy)], out);
    }
}

/// Notes the order of a number as paid or returned.
fn note_end(orders: &mut Vec<KeptOrder>, out: u32)
    requires there { is_some (at_number orders.old.items out) ≡ true }
    ensures places { length orders.new.items ≡ length orders.old.items }
    ensures each { (n : ℕ) → at_number orders.new.items n
        ≡ option_map (once_ended (out == n)) (at_number orders.old.items n) }
{
    orders[(out - 1) as usize].ended = true;
}

/// Takes the order of a number out of a queue, if it is there.
fn take_out(queue: &mut VecDeque<PayOrder>, out: u32)
    requires ascending { AreAscending queue.old.items }
    ensures { queue.new.items ≡ filter (λ order. not (out == order.out)) queue.old.items }
{
    if let Ok(place) = queue.binary_search_by_key(&out, |order| order.out) {
        let _ = queue.remove(place);
    }
}

/// What an entry does to the orders.
#[derive(Clone, Copy, Debug, PartialEq, Eq)]
enum Step {
    Made(PayOrder),
    /// The order of a currency and a number is paid or returned.
    Ended(u8, u32),
    Nothing,
}

/// What an entry does to the orders.
fn step_of(entry: &Entry) -> Step
    ensures { result ≡ step_of entry.now.client entry.now.cmd entry.now.reply }
{
    match (entry.cmd, entry.reply) {
        (Cmd::PayOut { ccy, amt }, Reply::Order(out)) => Step::Made(PayOrder {
            ccy,
            out,
            member: entry.client,
            amt,
        }),
        (Cmd::Paid { ccy, out } | Cmd::Returned { ccy, out }, _) => Step::Ended(ccy, out),
        _ => Step::Nothing,
    }
}
