//! The book of a bank: it answers commands, and keeps the sums that its answers need.
ghost use Rattle.std.specs.Prelude.{◌≡◌, ◌<◌, ◌≤◌, ◌+◌, ◌++◌, ◌∷◌, [], List, true, false, length, slice_get, IfOk, OnOk, IfSome};
ghost use Rattle.pvp_book.specs.declared.entry.Entry.{Entry as Noted};
ghost use Rattle.pvp_book.specs.Answer.{is_amount, is_refusal, is_same_trade};

use crate::account::{self, Accounts};
use crate::entry::Entry;
use crate::kept_pair::{self, KeptPair, state_of};
use crate::open::{self, OpenOrders};
use crate::order_table::OrderTable;
use crate::pair::{Pair, PairState};
use crate::pay_ins::PayIns;
use crate::tally::Tally;
use crate::terms::{has_member, is_amount, node_of};
use indexmap::IndexMap;
use pvp_types::{Cmd, Instruction, PayOrder, Reason, Reply, Setup};
use std::alloc::{AllocError, Global};
use std::marker::Model;
use vr_types::MOST_MEMBERS;

/// The operator's client number.
const OPERATOR: u16 = 0;

/// The book of a bank: the commands that it accepted. Every balance is a sum over them.
#[derive(Debug, Drop)]
pub struct Book {
    setup: Setup,
    entries: Vec<Entry>,
    /// All pairs by reference, in the order in which they were first seen, each with what became of it.
    pairs: IndexMap<u32, KeptPair>,
    /// The matched pairs that wait, in the order in which they were matched, and also those that stopped waiting since
    /// the last walk.
    line: Vec<Pair>,
    /// The members' accounts, and the figures.
    accounts: Accounts,
    /// The pay-ins that came, by currency and number.
    pay_ins: PayIns,
    /// The orders by number.
    table: OrderTable,
    /// How many pairs are in each state.
    tally: Tally,
    applied: u16,
}

impl Model for Book {
    ghost use Rattle.pvp_book.specs.Ledger.{Ledger};
    ghost use Rattle.pvp_book.specs.Kept.{Kept, KeepsLedger};

    ghost Value = { Ledger };

    ghost view = { λ b. record {
      setup = b.setup;
      entries = b.entries.items;
      applied = b.applied;
    } };

    ghost invariant = { λ b.
        KeepsLedger (record { setup = b.setup; entries = b.entries.items; applied = b.applied })
        (record {
          pairs = b.pairs.entries;
          line = b.line.items;
          members = b.accounts.members.items;
          totals = b.accounts.figures;
          paid = b.pay_ins;
          table = b.table;
          tally = b.tally;
        }) };
}

impl Book {
    ghost use Rattle.std.specs.Option.{option_map};
    ghost use Rattle.pvp_types.specs.Setup.{IsValid};
    ghost use Rattle.pvp_types.specs.declared.command.Cmd.TheVariants.{Settle};
    ghost use Rattle.pvp_book.specs.Pairs.{pair_of};
    ghost use Rattle.pvp_book.specs.KeptPair.{kept_pair};
    ghost use Rattle.pvp_book.specs.Limits.{passes};
    ghost use Rattle.pvp_book.specs.Settlement.{settled_pairs};
    ghost use Rattle.pvp_book.specs.Ledger.{opening, balance, figure, value, queue, open_orders, has_pay_in, outstanding_orders, pair_state, pairs_in};
    ghost use Rattle.pvp_book.specs.Orders.{orders, has_end};
    ghost use Rattle.pvp_book.specs.Open.{orders_left};
    ghost use Rattle.pvp_book.specs.Answer.{answer_to, after, is_walk, balances_less, on_instruct, on_mirror, on_rescind, on_pair, on_fund, on_pay_out, on_end, has_order, has_member, has_currency};

    /// An empty book. `Err` where memory is refused.
    pub fn fresh(alloc: Global, setup: &Setup) -> Result<Self, AllocError>
        requires { IsValid setup.now }
        ensures { IfOk result (λ book. book ≡ opening setup.now) }
    {
        Ok(Book {
            setup: setup.copy()?,
            entries: Vec::new(alloc),
            pairs: IndexMap::new(alloc),
            line: Vec::new(alloc),
            accounts: Accounts::new(alloc, setup.member_count())?,
            pay_ins: PayIns::new(alloc),
            table: OrderTable::new(alloc),
            tally: Tally::new(),
            applied: 0,
        })
    }

    /// Answers a client's command, and keeps it unless it is refused. After an `Err`, which only lack of memory gives,
    /// the book may only be dropped.
    pub fn apply(&mut self, client: u16, cmd: Cmd) -> Result<Reply, AllocError>
        requires { self.old.applied < 65535 }
        ensures answer { IfOk result (λ reply. reply ≡ answer_to self.old client cmd) }
        ensures after { OnOk result (self.new ≡ after self.old client cmd) }
    {
        match cmd {
            Cmd::Settle { most } if client == OPERATOR => self.settle(most),
            _ => self.note(client, cmd),
        }
    }

    /// How many commands were applied.
    pub fn applied(&self) -> u32
        ensures { result ≡ self.now.applied }
    {
        u32::from(self.applied)
    }

    /// A member's balance in a currency, in minor units.
    pub fn balance(&self, m: u16, c: u8) -> i64
        ensures { result ≡ balance self.now.setup self.now.entries m c }
    {
        self.accounts.balance(m, c)
    }

    /// The bank's figure in a currency: the sum of all members' balances, in minor units.
    pub fn figure(&self, c: u8) -> i64
        ensures { result ≡ figure self.now.setup self.now.entries c }
    {
        self.accounts.figure(c)
    }

    /// A member's value, in ten thousandths of the common unit: the worth of its balances above 0, each less the
    /// haircut, minus the debt of its balances below 0, each with the haircut added.
    pub fn value(&self, m: u16) -> i128
        ensures { result ≡ value self.now.setup self.now.entries m }
    {
        self.accounts.value(m)
    }

    /// How many matched pairs wait: those that are neither settled nor taken back by both sides.
    pub fn queued(&self) -> usize
        ensures { result ≡ length (queue self.now.setup self.now.entries) }
    {
        self.tally.get(PairState::Matched) as usize
    }

    /// The reference of the waiting pair at a place, counted from 0, in the order in which they were matched, which is
    /// the order of a walk.
    pub fn queue_at(&self, at: usize) -> Option<u32>
        ensures { result ≡ option_map (λ p. p.reference)
            (slice_get (queue self.now.setup self.now.entries) at) }
    {
        let pair = self.waiting(at)?;
        Some(pair.reference)
    }

    /// The waiting pair at a place of that order.
    pub fn waiting(&self, at: usize) -> Option<Pair>
        ensures { result ≡ slice_get (queue self.now.setup self.now.entries) at }
    {
        kept_pair::waiting_at(self.line.as_slice(), &self.pairs, at)
    }

    /// The outstanding order at a place, counted from 0, with the client number of its node. Orders are sorted by
    /// currency, then by number.
    pub fn open(&self, at: usize) -> Option<(u16, PayOrder)>
        ensures { result ≡ slice_get (outstanding_orders self.now.setup self.now.entries) at }
    {
        open::outstanding_at(&self.table, self.setup.currency_count(), at)
    }

    /// A currency's orders that are neither paid nor returned, in the order in which they were made.
    pub fn open_orders(&self, c: u8) -> OpenOrders<'_>
        ensures { orders_left result ≡ open_orders self.now.entries c }
    {
        OpenOrders::new(&self.table, c)
    }

    /// How many orders of all currencies are outstanding.
    pub fn open_count(&self) -> usize
        ensures { result ≡ length (outstanding_orders self.now.setup self.now.entries) }
    {
        open::count_outstanding(&self.table, self.setup.currency_count())
    }

    /// How many orders were made in a currency.
    pub fn orders(&self, c: u8) -> u32
        ensures count { result ≡ length (orders self.now.entries c) }
        ensures few { result ≤ 65535 }
    {
        self.table.count(c) as u32
    }

    /// The state of the pair of a reference; `None` where there is none.
    pub fn pair(&self, reference: u32) -> Option<PairState>
        ensures { result ≡ pair_state self.now.setup self.now.entries reference }
    {
        Some(self.kept_pair_of(reference)?.state())
    }

    /// How many pairs are in a state.
    pub fn pairs(&self, state: PairState) -> u32
        ensures { result ≡ length (pairs_in self.now.setup self.now.entries state) }
    {
        self.tally.get(state)
    }

    /// What is kept of the pair of a reference; `None` where there is none.
    fn kept_pair_of(&self, reference: u32) -> Option<KeptPair>
        ensures pair { option_map (λ k. k.pair) result ≡ pair_of self.now.entries reference }
        ensures same { IfSome result
            (λ k. k ≡ kept_pair self.now.setup self.now.entries k.pair) }
    {
        self.pairs.get(&reference).copied()
    }

    /// What the bank was set up with.
    pub fn setup(&self) -> &Setup
        ensures same { result.now ≡ self.now.setup }
        ensures valid { IsValid result.now }
    {
        &self.setup
    }

    /// The commands that it accepted, in their order.
    pub fn entries(&self) -> &[Entry]
        ensures same { result.now ≡ self.now.entries }
        ensures few { length result.now ≤ 65535 }
    {
        self.entries.as_slice()
    }

    /// Whether a currency's pay-in of this number is in the book.
    pub fn paid_in(&self, c: u8, k: u32) -> bool
        ensures { result ≡ has_pay_in self.now.entries c k }
    {
        self.pay_ins.has(c, k)
    }

    /// Walks over the matched pairs, as the operator asks.
    fn settle(&mut self, most: u32) -> Result<Reply, AllocError>
        requires { self.old.applied < 65535 }
        ensures answer { IfOk result (λ reply. reply ≡ answer_to self.old 0 (Settle most)) }
        ensures after { OnOk result (self.new ≡ after self.old 0 (Settle most)) }
    {
        let alloc = *self.entries.allocator();
        let offered = kept_pair::waiting_pairs(alloc, self.line.as_slice(), &self.pairs)?;
        self.entries.reserve(1)?;
        let mut count = 0;
        for pair in &offered {
            if count < most {
                if self.accounts.settle(&self.setup, pair) {
                    let before = kept_pair::find_pair(&self.pairs, Some(pair.reference));
                    let after = kept_pair::settle_pair(before);
                    kept_pair::put_pair(&mut self.pairs, after);
                    self.tally = self.tally.after_move(state_of(before), state_of(after));
                    count += 1;
                }
            }
        }
        self.line = offered;
        let reply = Reply::Settled(count);
        self.entries.push(Entry {
            client: OPERATOR,
            cmd: Cmd::Settle { most },
            reply,
        })?;
        self.applied += 1;
        Ok(reply)
    }

    /// Answers a command that settles nothing.
    fn note(&mut self, client: u16, cmd: Cmd) -> Result<Reply, AllocError>
        requires room { self.old.applied < 65535 }
        requires other { is_walk client cmd ≡ false }
        ensures answer { IfOk result (λ reply. reply ≡ answer_to self.old client cmd) }
        ensures after { OnOk result (self.new ≡ after self.old client cmd) }
    {
        let reply = self.answer(client, cmd);
        if is_refusal(reply) {
            self.applied += 1;
            return Ok(reply);
        }
        self.keep(Entry { client, cmd, reply })?;
        Ok(reply)
    }

    /// Keeps a command that was answered.
    fn keep(&mut self, entry: Entry) -> Result<(), AllocError>
        requires room { self.old.applied < 65535 }
        requires other { is_walk entry.client entry.cmd ≡ false }
        requires answered { entry.reply ≡ answer_to self.old entry.client entry.cmd }
        requires accepted { is_refusal entry.reply ≡ false }
        ensures { OnOk result
            (self.new ≡ record self.old {
              entries = self.old.entries ++ entry ∷ [];
              applied = self.old.applied + 1;
            }) }
    {
        self.entries.reserve(1)?;
        self.pay_ins.reserve()?;
        self.table.reserve(&entry)?;
        kept_pair::note_in_pair(&mut self.pairs, &mut self.line, &mut self.tally, &entry)?;
        let moved = account::movement_by(&self.table, &entry);
        self.pay_ins.note(&entry);
        self.table.add(&entry);
        self.entries.push_reserved(entry);
        self.accounts.post(&self.setup, moved);
        self.applied += 1;
        Ok(())
    }

    /// The answer to a client's command.
    #[tactic(auto, unfolding(crate::specs::Answer::answer))]
    fn answer(&self, client: u16, cmd: Cmd) -> Reply
        requires { is_walk client cmd ≡ false }
        ensures { result ≡ answer_to self.now client cmd }
    {
        match cmd {
            Cmd::Instruct(asked) => self.on_instruct(client, asked),
            Cmd::Rescind { reference } => self.on_rescind(client, reference),
            Cmd::Fund {
                ccy,
                pay,
                member,
                amt,
            } => self.on_fund(client, ccy, pay, member, amt),
            Cmd::Settle { .. } => Reply::No(Reason::NotYours),
            Cmd::PayOut { ccy, amt } => self.on_pay_out(client, ccy, amt),
            Cmd::Paid { ccy, out } | Cmd::Returned { ccy, out } => self.on_end(client, ccy, out),
        }
    }

    /// Answers an instruction.
    fn on_instruct(&self, client: u16, asked: Instruction) -> Reply
        ensures { result ≡ on_instruct self.now.setup self.now.entries client asked }
    {
        let other = asked.other;
        if !(1..=MOST_MEMBERS).contains(&client) {
            Reply::No(Reason::NotYours)
        } else if !(self.has_member(client) && self.has_member(other) && other != client) {
            Reply::No(Reason::UnknownMember)
        } else if !(self.has_currency(asked.sell)
            && self.has_currency(asked.buy)
            && asked.sell != asked.buy)
        {
            Reply::No(Reason::UnknownCurrency)
        } else if !(is_amount(asked.sell_amt) && is_amount(asked.buy_amt)) {
            Reply::No(Reason::BadAmount)
        } else if asked.reference == 0 {
            Reply::No(Reason::UnknownReference)
        } else {
            self.on_mirror(client, asked)
        }
    }

    /// Answers an instruction whose earlier tests passed, by the pair of its reference, if there is one.
    fn on_mirror(&self, client: u16, asked: Instruction) -> Reply
        ensures { result ≡ on_mirror self.now.setup self.now.entries client
            (pair_of self.now.entries asked.reference) asked }
    {
        match self.kept_pair_of(asked.reference) {
            None => Reply::Done,
            Some(kept) => {
                if client == kept.pair.first || !kept.state().is(PairState::Unmatched) {
                    Reply::No(Reason::Repeated)
                } else if !is_same_trade(
                    &kept.pair,
                    &Pair::new(asked.other, asked.mirror(client)),
                ) {
                    Reply::No(Reason::Mismatch)
                } else {
                    Reply::Matched
                }
            }
        }
    }

    /// Answers a rescission.
    fn on_rescind(&self, client: u16, reference: u32) -> Reply
        ensures { result ≡ on_rescind self.now.setup self.now.entries client reference }
    {
        if !(1..=MOST_MEMBERS).contains(&client) {
            Reply::No(Reason::NotYours)
        } else if !self.has_member(client) {
            Reply::No(Reason::UnknownMember)
        } else {
            self.on_pair(client, reference)
        }
    }

    /// Answers a rescission whose earlier tests passed, by the pair of its reference, if there is one.
    fn on_pair(&self, client: u16, reference: u32) -> Reply
        ensures { result ≡ on_pair self.now.setup self.now.entries client
            (pair_of self.now.entries reference) }
    {
        match self.kept_pair_of(reference) {
            None => Reply::No(Reason::UnknownReference),
            Some(kept) => {
                if !kept.is_side(client) {
                    Reply::No(Reason::NotYours)
                } else if kept.settled || kept.is_back() {
                    Reply::No(Reason::Late)
                } else {
                    Reply::Done
                }
            }
        }
    }

    /// Answers a node's report of a pay-in.
    fn on_fund(&self, client: u16, c: u8, pay: u32, member: u16, amt: u64) -> Reply
        ensures { result ≡ on_fund self.now.setup self.now.entries client c pay member amt }
    {
        if client != node_of(c) {
            Reply::No(Reason::NotYours)
        } else if !(self.has_currency(c) && self.has_member(member)) {
            Reply::No(Reason::UnknownMember)
        } else if !is_amount(amt) {
            Reply::No(Reason::BadAmount)
        } else if pay == 0 {
            Reply::No(Reason::UnknownReference)
        } else if self.paid_in(c, pay) {
            Reply::No(Reason::Repeated)
        } else {
            Reply::Done
        }
    }

    /// Answers a member's request for a pay-out.
    fn on_pay_out(&self, client: u16, c: u8, amt: u64) -> Reply
        ensures { result ≡ on_pay_out self.now.setup self.now.entries client c amt }
    {
        if !(1..=MOST_MEMBERS).contains(&client) {
            Reply::No(Reason::NotYours)
        } else if !self.has_member(client) {
            Reply::No(Reason::UnknownMember)
        } else if !self.has_currency(c) {
            Reply::No(Reason::UnknownCurrency)
        } else if !is_amount(amt) {
            Reply::No(Reason::BadAmount)
        } else if self.balance(client, c) < amt as i64 {
            Reply::No(Reason::Short)
        } else if !self.passes_after(client, c, amt) {
            Reply::No(Reason::TestFails)
        } else if self.figure(c) < amt as i64 {
            Reply::No(Reason::BankShort)
        } else {
            Reply::Order(self.orders(c) + 1)
        }
    }

    /// Whether a member still passes its tests after an amount of a currency is paid out.
    fn passes_after(&self, m: u16, c: u8, amt: u64) -> bool
        requires member { has_member self.now.setup m ≡ true }
        requires known { has_currency self.now.setup c ≡ true }
        requires amount { is_amount amt ≡ true }
        ensures { result ≡ passes self.now.setup m
            (balances_less self.now.setup self.now.entries
            (settled_pairs self.now.setup self.now.entries) m c amt) }
    {
        self.accounts.passes_less(&self.setup, m, c, amt)
    }

    /// Answers a node's report that it paid or returned an order.
    fn on_end(&self, client: u16, c: u8, out: u32) -> Reply
        ensures { result ≡ on_end self.now.setup self.now.entries client c out }
    {
        if client != node_of(c) {
            Reply::No(Reason::NotYours)
        } else if !self.has_currency(c) {
            Reply::No(Reason::UnknownMember)
        } else if !self.has_order(c, out) {
            Reply::No(Reason::UnknownReference)
        } else if self.has_end(c, out) {
            Reply::No(Reason::Repeated)
        } else {
            Reply::Done
        }
    }

    /// Whether a currency has an order of this number.
    fn has_order(&self, c: u8, out: u32) -> bool
        ensures { result ≡ has_order self.now.entries c out }
    {
        self.table.get(c, out).is_some()
    }

    /// Whether a currency's order of this number is paid or returned.
    fn has_end(&self, c: u8, out: u32) -> bool
        ensures { result ≡ has_end self.now.entries c out }
    {
        self.table.has_ended(c, out)
    }

    /// Whether the setup has a member of this number.
    fn has_member(&self, m: u16) -> bool
        ensures { result ≡ has_member self.now.setup m }
    {
        has_member(&self.setup, m)
    }

    /// Whether the setup has a currency of this number.
    fn has_currency(&self, c: u8) -> bool
        ensures { result ≡ has_currency self.now.setup c }
    {
        usize::from(c) < self.setup.currencies.len()
    }
}

/// Whether an answer is a refusal.
fn is_refusal(reply: Reply) -> bool
    ensures { result ≡ is_refusal reply }
{
    matches!(reply, Reply::No(_))
}

/// Whether two pairs have the same sides, currencies and amounts.
fn is_same_trade(pair: &Pair, asked: &Pair) -> bool
    ensures { result ≡ is_same_trade pair.now asked.now }
{
    pair.first == asked.first
        && pair.second == asked.second
        && pair.sell == asked.sell
        && pair.sell_amt == asked.sell_amt
        && pair.buy == asked.buy
        && pair.buy_amt == asked.buy_amt
}
