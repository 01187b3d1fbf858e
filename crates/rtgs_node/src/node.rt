//! The account system of one currency: pay-ins, orders, and the notices of both.
ghost use Rattle.std.specs.Prelude.{◌≡◌, ℕ, ◌+◌, ◌-◌, ◌^◌, ◌<◌, ◌≤◌, ◌==◌, ◌++◌, ◌∷◌, [], true, false, None, pos, int_lt, nat_lt, length, map, IfOk, IfErr, OnOk, OnErr, nat_eq, ◌||◌, slice_index_or, vec_len, vec_capacity};
ghost use Rattle.pvp_book.specs.Answer.{has_member};
ghost use Rattle.indexmap.specs.IndexSet.{contains};

use crate::event::NodeEvent;
use crate::fault::NodeFault;
use crate::payment::PayIn;
use crate::request::to_sites;
use indexmap::IndexSet;
use pvp_book::{Book, has_member, is_amount, node_of};
use pvp_types::{Cmd, Member, PayOrder, Setup};
use std::alloc::{AllocError, Global};
use std::marker::Model;
use vr_types::limits::MAX_ROWS;
use vr_types::{Envelope, MsgOf};

/// The account system of one currency. It settles each payment singly and finally, and tells the bank of it: each
/// payment makes a notice, which is the node's request of that number, and only the lowest notice that is not answered
/// is sent.
#[derive(Debug, Drop)]
pub struct Node {
    setup: Setup,
    ccy: u8,
    pay_ins: Vec<PayIn>,
    /// The orders that were done, in the order in which that happened.
    pay_outs: Vec<PayOrder>,
    /// The orders that could not be done.
    returned: Vec<PayOrder>,
    /// The members whose accounts are closed; the list has room for all others.
    closed: Vec<u16>,
    notices: Vec<Cmd>,
    answered: u32,
    /// What the bank's account holds, in minor units.
    bank: u64,
    /// What each member's account holds, in minor units.
    members: Vec<u64>,
    /// The numbers of all orders that were done or returned.
    known: IndexSet<u32>,
}

impl Model for Node {
    ghost use Rattle.rtgs_node.specs.Shown.{ShownNode};

    ghost Value = { ShownNode };

    ghost use Rattle.std.specs.Prelude.{vec_capacity};
    ghost use Rattle.rtgs_node.specs.Kept.{shown_of, IsKeptNode};

    ghost view = { λ a.
        shown_of a.setup a.ccy a.pay_ins.items a.pay_outs.items a.returned.items a.closed.items
        a.notices.items a.answered };

    ghost invariant = { λ a. IsKeptNode
        (shown_of a.setup a.ccy a.pay_ins.items a.pay_outs.items a.returned.items a.closed.items
        a.notices.items a.answered)
        a.bank a.members.items a.known.keys (vec_capacity a.closed) };
}

impl Node {
    ghost use Rattle.pvp_types.specs.Setup.{IsValid};
    ghost use Rattle.rtgs_node.specs.Node.{opening_node, account, member_account, is_known, is_closed};
    ghost use Rattle.rtgs_node.specs.declared.event.NodeEvent.TheVariants.{PaysIn, Closes, Takes, Beats};
    ghost use Rattle.rtgs_node.specs.Shown.{step_of, IsStep, IsRefusal, order_step, reply_step, credit_step, given_back, paid_out, sent_with, sent_after, pay_in_fault, order_fault};
    ghost use Rattle.rtgs_node.specs.Laws.{all_accounts, all_deposits};

    /// The node of a currency: the bank's account opens at 0 and each member's at its deposit. `Err` where memory is
    /// refused.
    pub fn new(alloc: Global, setup: &Setup, ccy: u8) -> Result<Self, AllocError>
        requires valid { IsValid setup.now }
        requires known { ccy < length setup.now.currencies }
        ensures { IfOk result (λ node.
            node ≡ record { setup = setup.now; ccy = ccy; node = opening_node }) }
    {
        Ok(Node {
            setup: setup.copy()?,
            ccy,
            pay_ins: Vec::new(alloc),
            pay_outs: Vec::new(alloc),
            returned: Vec::new(alloc),
            closed: Vec::with_capacity(alloc, setup.members.len())?,
            notices: Vec::new(alloc),
            answered: 0,
            bank: 0,
            members: deposits(alloc, setup.members.as_slice(), ccy)?,
            known: IndexSet::new(alloc),
        })
    }

    /// Handles an event, by the call for its kind: `pay_in`, `close_member`, `take` or `beat`. Answers what is sent.
    /// After an `Err` the node is as it was.
    pub fn handle(&mut self, event: NodeEvent) -> Result<Vec<Envelope<Book>>, NodeFault>
        ensures taken { IfOk result (λ sent.
            IsStep self.old self.new (step_of self.old event) sent.items) }
        ensures refused { IfErr result (IsRefusal self.old self.new (step_of self.old event)) }
    {
        match event {
            NodeEvent::PaysIn { member, amt } => self.pay_in(member, amt),
            NodeEvent::Closes(member) => {
                self.close_member(member)?;
                Ok(Vec::new(*self.notices.allocator()))
            }
            NodeEvent::Takes(envelope) => self.take(envelope),
            NodeEvent::Beats => self.beat(),
        }
    }

    /// A member pays in: the amount goes from its account to the bank's, the pay-in gets the next number, counted from
    /// 1, and a notice is made for the bank. Answers what is sent. `UnknownMember`, `BadAmount`, `Closed`, `Spent` and
    /// `Short` are tested in this order; `NoMemory` comes after them. After an `Err` the node is as it was.
    #[tactic(auto, unfolding(crate::specs::Shown::step_of))]
    pub fn pay_in(&mut self, member: u16, amt: u64) -> Result<Vec<Envelope<Book>>, NodeFault>
        ensures taken { IfOk result (λ sent.
            IsStep self.old self.new (step_of self.old (PaysIn member amt)) sent.items) }
        ensures refused { IfErr result
            (IsRefusal self.old self.new (step_of self.old (PaysIn member amt))) }
    {
        if let Some(fault) = self.pay_in_fault(member, amt) {
            return Err(fault);
        }
        Ok(self.credit(member, amt)?)
    }

    /// Closes a member's account: the member can pay in no more, and orders for it are returned. `UnknownMember` is
    /// tested first, then `Closed`. It takes no memory. After an `Err` the node is as it was.
    #[tactic(auto, unfolding(crate::specs::Shown::step_of))]
    pub fn close_member(&mut self, member: u16) -> Result<(), NodeFault>
        ensures taken { OnOk result
            (IsStep self.old self.new (step_of self.old (Closes member)) []) }
        ensures refused { IfErr result
            (IsRefusal self.old self.new (step_of self.old (Closes member))) }
    {
        if !has_member(&self.setup, member) {
            return Err(NodeFault::UnknownMember);
        }
        if self.is_closed(member) {
            return Err(NodeFault::Closed);
        }
        put(&mut self.closed, member);
        Ok(())
    }

    /// Takes an envelope. A new order is done, or returned if its member's account is closed; an order of a known
    /// number does nothing; a REPLY with the number of the lowest notice that is not answered answers it, and the next
    /// one is sent; any other REPLY does nothing. Answers what is sent.
    ///
    /// `NotMine` is tested first; for a new order then `UnknownMember`, `BadAmount`, `Spent`, and if the account is
    /// open `Short`; `NoMemory` comes after them. After an `Err` the node is as it was.
    #[tactic(auto, unfolding(crate::specs::Shown::step_of))]
    pub fn take(&mut self, envelope: Envelope<Book>) -> Result<Vec<Envelope<Book>>, NodeFault>
        ensures taken { IfOk result (λ sent.
            IsStep self.old self.new (step_of self.old (Takes envelope)) sent.items) }
        ensures refused { IfErr result
            (IsRefusal self.old self.new (step_of self.old (Takes envelope))) }
    {
        if envelope.to != node_of(self.ccy) {
            return Err(NodeFault::NotMine);
        }
        match envelope.msg {
            MsgOf::Reply(msg) => self.on_reply(msg.number),
            MsgOf::PayOrder(order) => self.on_order(order),
            _ => Err(NodeFault::NotMine),
        }
    }

    /// Sends the lowest notice that is not answered, if there is one, to every site again. The node stays as it is,
    /// and the only fault is `NoMemory`.
    #[tactic(auto, unfolding(crate::specs::Shown::step_of))]
    pub fn beat(&self) -> Result<Vec<Envelope<Book>>, NodeFault>
        ensures taken { IfOk result (λ sent.
            IsStep self.now self.now (step_of self.now Beats) sent.items) }
        ensures refused { IfErr result (IsRefusal self.now self.now (step_of self.now Beats)) }
    {
        Ok(self.notice_after(self.answered)?)
    }

    /// What the bank's account holds, in minor units. Together with the members' accounts it is all that was
    /// deposited.
    pub fn account(&self) -> u64
        ensures account { pos result ≡ account self.now.node }
        ensures whole { all_accounts self.now.setup self.now.ccy self.now.node
            ≡ pos (all_deposits self.now.setup self.now.ccy) }
    {
        self.bank
    }

    /// What a member's account holds, in minor units.
    pub fn member_account(&self, member: u16) -> u64
        requires { has_member self.now.setup member ≡ true }
        ensures { pos result ≡ member_account self.now.setup self.now.ccy member self.now.node }
    {
        self.members[usize::from(member) - 1]
    }

    /// The pay-ins, in the order of their numbers: number k is at k - 1.
    pub fn pay_ins(&self) -> &[PayIn]
        ensures same { result.now ≡ self.now.node.pay_ins }
        ensures few { length result.now ≤ 65535 }
    {
        self.pay_ins.as_slice()
    }

    /// The orders that were done, in the order in which that happened.
    pub fn pay_outs(&self) -> &[PayOrder]
        ensures same { result.now ≡ self.now.node.pay_outs }
        ensures few { length result.now ≤ 65535 }
    {
        self.pay_outs.as_slice()
    }

    /// How many orders were returned.
    pub fn returned(&self) -> usize
        ensures { result ≡ length self.now.node.returned }
    {
        self.returned.len()
    }

    /// How many of its notices are not answered yet.
    pub fn unanswered_count(&self) -> usize
        ensures count { result ≡ length self.now.node.notices - self.now.node.answered }
        ensures few { result ≤ 131070 }
    {
        self.notices.len() - self.answered as usize
    }

    /// What the node was set up with.
    pub fn setup(&self) -> &Setup
        ensures same { result.now ≡ self.now.setup }
        ensures valid { IsValid result.now }
    {
        &self.setup
    }

    /// Why a pay-in is refused.
    fn pay_in_fault(&self, member: u16, amt: u64) -> Option<NodeFault>
        ensures { result ≡ pay_in_fault self.now member amt }
    {
        if !has_member(&self.setup, member) {
            Some(NodeFault::UnknownMember)
        } else if !is_amount(amt) {
            Some(NodeFault::BadAmount)
        } else if self.is_closed(member) {
            Some(NodeFault::Closed)
        } else if self.pay_ins.len() >= MAX_ROWS {
            Some(NodeFault::Spent)
        } else if self.member_account(member) < amt {
            Some(NodeFault::Short)
        } else {
            None
        }
    }

    /// Takes an order.
    fn on_order(&mut self, order: PayOrder) -> Result<Vec<Envelope<Book>>, NodeFault>
        ensures taken { IfOk result (λ sent.
            IsStep self.old self.new (order_step self.old order) sent.items) }
        ensures refused { IfErr result (IsRefusal self.old self.new (order_step self.old order)) }
    {
        if order.ccy != self.ccy {
            return Err(NodeFault::NotMine);
        }
        if self.known.contains(&order.out) {
            return Ok(Vec::new(*self.notices.allocator()));
        }
        if let Some(fault) = self.order_fault(order) {
            return Err(fault);
        }
        if self.is_closed(order.member) {
            return Ok(self.give_back(order)?);
        }
        if self.account() < order.amt {
            return Err(NodeFault::Short);
        }
        Ok(self.pay_out(order)?)
    }

    /// Why a new order is refused, apart from what the accounts hold.
    fn order_fault(&self, order: PayOrder) -> Option<NodeFault>
        ensures { result ≡ order_fault self.now order }
    {
        if !has_member(&self.setup, order.member) {
            Some(NodeFault::UnknownMember)
        } else if !is_amount(order.amt) {
            Some(NodeFault::BadAmount)
        } else if self.pay_outs.len() + self.returned.len() >= MAX_ROWS {
            Some(NodeFault::Spent)
        } else {
            None
        }
    }

    /// Moves the amount from the member's account to the bank's. `Err` where memory is refused: the node is then as it
    /// was.
    fn credit(&mut self, member: u16, amt: u64) -> Result<Vec<Envelope<Book>>, AllocError>
        requires { pay_in_fault self.old member amt ≡ None }
        ensures taken { IfOk result (λ sent.
            IsStep self.old self.new (credit_step self.old member amt) sent.items) }
        ensures err { OnErr result (self.new ≡ self.old) }
    {
        let cmd = Cmd::Fund {
            ccy: self.ccy,
            pay: self.pay_ins.len() as u32 + 1,
            member,
            amt,
        };
        let sent = self.sent_with(cmd)?;
        make_room(&mut self.pay_ins, &mut self.notices)?;
        put(&mut self.pay_ins, PayIn { member, amt });
        put(&mut self.notices, cmd);
        let place = usize::from(member) - 1;
        transfer(&mut self.members[place], &mut self.bank, amt);
        Ok(sent)
    }

    /// Returns a new order for a member whose account is closed. `Err` where memory is refused: the node is then as it
    /// was.
    fn give_back(&mut self, order: PayOrder) -> Result<Vec<Envelope<Book>>, AllocError>
        requires fresh { is_known self.old.node order.out ≡ false }
        requires checked { order_fault self.old order ≡ None }
        ensures taken { IfOk result (λ sent.
            IsStep self.old self.new (given_back self.old order) sent.items) }
        ensures err { OnErr result (self.new ≡ self.old) }
    {
        let out = order.out;
        let cmd = Cmd::Returned { ccy: self.ccy, out };
        let sent = self.sent_with(cmd)?;
        make_room(&mut self.returned, &mut self.notices)?;
        know(&mut self.known, out)?;
        put(&mut self.returned, order);
        put(&mut self.notices, cmd);
        Ok(sent)
    }

    /// Moves the amount of a new order from the bank's account to the member's. `Err` where memory is refused: the
    /// node is then as it was.
    fn pay_out(&mut self, order: PayOrder) -> Result<Vec<Envelope<Book>>, AllocError>
        requires fresh { is_known self.old.node order.out ≡ false }
        requires checked { order_fault self.old order ≡ None }
        requires covered { int_lt (account self.old.node) (pos order.amt) ≡ false }
        ensures taken { IfOk result (λ sent.
            IsStep self.old self.new (paid_out self.old order) sent.items) }
        ensures err { OnErr result (self.new ≡ self.old) }
    {
        let cmd = Cmd::Paid {
            ccy: self.ccy,
            out: order.out,
        };
        let sent = self.sent_with(cmd)?;
        make_room(&mut self.pay_outs, &mut self.notices)?;
        know(&mut self.known, order.out)?;
        put(&mut self.pay_outs, order);
        put(&mut self.notices, cmd);
        let place = usize::from(order.member) - 1;
        transfer(&mut self.bank, &mut self.members[place], order.amt);
        Ok(sent)
    }

    /// Takes a REPLY of this number.
    fn on_reply(&mut self, number: u32) -> Result<Vec<Envelope<Book>>, NodeFault>
        ensures taken { IfOk result (λ sent.
            IsStep self.old self.new (reply_step self.old number) sent.items) }
        ensures refused { IfErr result (IsRefusal self.old self.new (reply_step self.old number)) }
    {
        if number != self.answered + 1 || self.answered as usize >= self.notices.len() {
            return Ok(Vec::new(*self.notices.allocator()));
        }
        let sent = self.notice_after(number)?;
        self.answered = number;
        Ok(sent)
    }

    /// Whether a member's account is closed.
    fn is_closed(&self, member: u16) -> bool
        ensures { result ≡ is_closed self.now.node member }
    {
        self.closed.contains(&member)
    }

    /// What is sent once `answered` notices are answered: the next notice, to every site, if there is one.
    fn notice_after(&self, answered: u32) -> Result<Vec<Envelope<Book>>, AllocError>
        ensures sent { IfOk result (λ sent. sent.items ≡ sent_after self.now answered) }
        ensures err { OnErr result (nat_lt 0 (length (sent_after self.now answered)) ≡ true) }
    {
        let alloc = *self.notices.allocator();
        match self.notices.get(answered as usize) {
            None => Ok(Vec::new(alloc)),
            Some(cmd) => to_sites(
                alloc,
                self.setup.faults(),
                node_of(self.ccy),
                answered + 1,
                *cmd,
            ),
        }
    }

    /// What is sent at once of a new notice.
    fn sent_with(&self, cmd: Cmd) -> Result<Vec<Envelope<Book>>, AllocError>
        ensures { IfOk result (λ sent. sent.items ≡ sent_with self.now cmd) }
    {
        let alloc = *self.notices.allocator();
        if self.answered as usize != self.notices.len() {
            return Ok(Vec::new(alloc));
        }
        to_sites(
            alloc,
            self.setup.faults(),
            node_of(self.ccy),
            self.answered + 1,
            cmd,
        )
    }
}

/// Makes room for one payment and its notice. `Err` where memory is refused.
fn make_room<T>(payments: &mut Vec<T>, notices: &mut Vec<Cmd>) -> Result<(), AllocError>
    ensures payments { payments.new.items ≡ payments.old.items }
    ensures notices { notices.new.items ≡ notices.old.items }
    ensures room { OnOk result (vec_len payments.new < vec_capacity payments.new) }
    ensures notice_room { OnOk result (vec_len notices.new < vec_capacity notices.new) }
{
    payments.reserve(1)?;
    notices.reserve(1)
}

/// Moves an amount from one account to another.
fn transfer(from: &mut u64, to: &mut u64, amt: u64)
    requires covered { amt ≤ from.old }
    requires fits { to.old + amt < 2 ^ 64 }
    ensures from { from.new ≡ from.old - amt }
    ensures to { to.new ≡ to.old + amt }
{
    *from -= amt;
    *to += amt;
}

/// Puts an item at the end, where there must be room.
fn put<T: Drop>(items: &mut Vec<T>, item: T)
    requires { vec_len items.old < vec_capacity items.old }
    ensures items { items.new.items ≡ items.old.items ++ item ∷ [] }
    ensures capacity { vec_capacity items.old ≤ vec_capacity items.new }
{
    let _kept = items.push(item);
}

/// Puts a number into the set. `Err` where memory is refused: the set is then as it was.
fn know(known: &mut IndexSet<u32>, out: u32) -> Result<(), AllocError>
    ensures known { OnOk result
        ((n : ℕ) → contains nat_eq known.new n ≡ (n == out || contains nat_eq known.old n)) }
    ensures err { OnErr result (known.new.keys ≡ known.old.keys) }
{
    known.insert(out)?;
    Ok(())
}

/// The opening amounts of the members' accounts.
fn deposits(alloc: Global, members: &[Member], ccy: u8) -> Result<Vec<u64>, AllocError>
    ensures { IfOk result (λ amounts.
        amounts.items ≡ map (λ member. slice_index_or member.deposit ccy 0) members.now) }
{
    members
        .iter()
        .map(|member| deposit_of(member, ccy))
        .collect(alloc)
}

/// The opening amount of a member's account; 0 where the setup has none.
fn deposit_of(member: &Member, ccy: u8) -> u64
    ensures { result ≡ slice_index_or member.now.deposit ccy 0 }
{
    match member.deposit.get(usize::from(ccy)) {
        Some(amount) => *amount,
        None => 0,
    }
}
