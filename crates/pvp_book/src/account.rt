//! What a book keeps of each member: its balances, and the sums that its tests use.
ghost use Rattle.std.specs.Prelude.{◌≡◌, ℕ, ◌*◌, ◌<◌, ◌≤◌, length, All, IfSome, pos, neg_ℤ};
ghost use Rattle.pvp_types.specs.Setup.{IsValid};
ghost use Rattle.pvp_book.specs.Limits.{standing_of};
ghost use Rattle.pvp_book.specs.Kept.{IsAccount, after_posting, passes_with, movement_with};
ghost use Rattle.pvp_book.specs.OrderTable.{order_at};
ghost use Rattle.pvp_book.specs.Bounds.{amount_of, most_total, most_standing, IsWithin};

use crate::entry::Entry;
use crate::limits;
use crate::order_table::OrderTable;
use crate::pair::Pair;
use pvp_types::{Cmd, Currency, Member, Setup};
use std::alloc::{AllocError, Global};

/// A member's balances by currency, in minor units, and the sums that its tests use.
#[derive(Clone, Copy, Debug, PartialEq, Eq)]
pub struct Account {
    pub balances: [i64; 8],
    /// The worth of the balances above 0 minus the debt of those below, in ten thousandths of the common unit.
    pub value: i128,
    /// What it is short in all currencies together, in the common unit.
    pub shortage: u128,
}

/// An amount that is added to a member's balance in a currency; below 0 it is taken off.
#[derive(Clone, Copy, Debug, PartialEq, Eq)]
pub struct Movement {
    pub member: u16,
    pub ccy: u8,
    pub amt: i64,
}

impl Account {
    ghost use Rattle.std.specs.Prelude.{slice_index_or};
    ghost use Rattle.pvp_book.specs.Kept.{empty_account, after_trade, is_within_limits};

    /// An account with nothing in it.
    pub fn empty() -> Self
        ensures { result ≡ empty_account }
    {
        Account {
            balances: [0; limits::MOST_CURRENCIES],
            value: 0,
            shortage: 0,
        }
    }

    /// The balance in a currency; 0 in one that the bank does not have.
    pub fn balance(&self, c: u8) -> i64
        ensures { result ≡ slice_index_or self.now.balances c (pos 0) }
    {
        self.balances.get(usize::from(c)).copied().unwrap_or(0)
    }

    /// The account after an amount of a currency is posted on it; an amount below 0 is taken off.
    pub fn after_posting(&self, setup: &Setup, c: u8, amt: i64) -> Account
        requires valid { IsValid setup.now }
        requires account { IsAccount setup.now.currencies self.now }
        requires known { c < length setup.now.currencies }
        requires small { All (IsWithin (2 * most_total)) self.now.balances }
        requires amount { IsWithin most_total amt }
        ensures { result ≡ after_posting setup.now.currencies c amt self.now }
    {
        let currency = &setup.currencies.as_slice()[usize::from(c)];
        let before = self.balances[usize::from(c)];
        let after = before + amt;
        let mut balances = self.balances;
        balances[usize::from(c)] = after;
        Account {
            balances,
            value: self.value - standing_of(currency, before) + standing_of(currency, after),
            shortage: self.shortage - limits::shortage_of(currency, before)
                + limits::shortage_of(currency, after),
        }
    }

    /// The account after an amount of one currency is sold for one of another.
    pub fn after_trade(
        &self,
        setup: &Setup,
        sell: u8,
        sell_amt: u64,
        buy: u8,
        buy_amt: u64,
    ) -> Account
        requires valid { IsValid setup.now }
        requires account { IsAccount setup.now.currencies self.now }
        requires sell { sell < length setup.now.currencies }
        requires buy { buy < length setup.now.currencies }
        requires small { All (IsWithin most_total) self.now.balances }
        requires sell_amt { sell_amt ≤ most_total }
        requires buy_amt { buy_amt ≤ most_total }
        ensures { result ≡ after_trade setup.now.currencies sell sell_amt buy buy_amt self.now }
    {
        self.after_posting(setup, sell, -(sell_amt as i64))
            .after_posting(setup, buy, buy_amt as i64)
    }

    /// Whether a member with this account passes its tests.
    pub fn is_within_limits(&self, member: &Member) -> bool
        ensures { result ≡ is_within_limits member.now self.now }
    {
        self.value >= 0
            && limits::is_within_short(member.short.as_slice(), &self.balances)
            && self.shortage <= u128::from(member.aggregate)
    }
}

/// What a balance in a currency adds to a member's value: its worth above 0, less its debt below.
fn standing_of(currency: &Currency, balance: i64) -> i128
    requires fair { (currency.now.rate ≤ 1000000) × (currency.now.haircut ≤ 9999) }
    requires small { IsWithin (3 * most_total) balance }
    ensures value { result ≡ standing_of (currency.now, balance) }
    ensures small { IsWithin most_standing result }
{
    limits::worth_of(currency, balance) as i128 - limits::debt_of(currency, balance) as i128
}

/// What an accepted entry posts on one account, with these orders in the table: a pay-in, a pay-out, or an order that
/// is returned.
pub fn movement_by(table: &OrderTable, entry: &Entry) -> Option<Movement>
    requires small { (c n : ℕ) → IfSome (order_at table.now c n) (λ order. order.amt ≤ most_total) }
    requires amount { amount_of entry.now.cmd ≤ most_total }
    ensures value { result ≡ movement_with (order_at table.now) entry.now.client entry.now.cmd }
    ensures small { IfSome result (λ x. IsWithin most_total x.amt) }
{
    match entry.cmd {
        Cmd::Fund {
            ccy,
            member,
            amt,
            ..
        } => Some(Movement {
            member,
            ccy,
            amt: amt as i64,
        }),
        Cmd::PayOut { ccy, amt } => Some(Movement {
            member: entry.client,
            ccy,
            amt: -(amt as i64),
        }),
        Cmd::Returned { ccy, out } => {
            let order = table.get(ccy, out)?;
            Some(Movement {
                member: order.member,
                ccy,
                amt: order.amt as i64,
            })
        }
        _ => None,
    }
}

/// What a book keeps of its members and currencies.
#[derive(Debug, Drop)]
pub struct Accounts {
    /// The members' accounts by their numbers; the first is the operator's, with nothing in it.
    pub members: Vec<Account>,
    /// By currency, in minor units.
    pub figures: [i64; 8],
}

impl Accounts {
    ghost use Rattle.std.specs.Prelude.{◌+◌, IfOk, replicate, slice_index_or, if◌then◌else◌};
    ghost use Rattle.std.specs.Option.{ForSome};
    ghost use Rattle.pvp_book.specs.Kept.{empty_account, account_at, balance_at, passes_with, both_pass_with, accounts_with, accounts_after, figures_after, CanPost, CanSettle};

    /// The accounts of this many members, with nothing in them. `Err` where memory is refused.
    pub fn new(alloc: Global, members: u16) -> Result<Self, AllocError>
        ensures members { IfOk result (λ accounts. accounts.members.items
            ≡ replicate (members + 1) empty_account) }
        ensures figures { IfOk result (λ accounts. accounts.figures ≡ replicate 8 (pos 0)) }
    {
        let members = usize::from(members) + 1;
        Ok(Accounts {
            members: vec![in alloc; Account::empty(); members]?,
            figures: [0; limits::MOST_CURRENCIES],
        })
    }

    /// A member's balance in a currency; 0 where there is no such member or currency.
    pub fn balance(&self, m: u16, c: u8) -> i64
        ensures { result ≡ balance_at self.now.members.items m c }
    {
        match self.members.get(usize::from(m)) {
            Some(account) => account.balance(c),
            None => 0,
        }
    }

    /// A member's value; 0 where there is no such member.
    pub fn value(&self, m: u16) -> i128
        ensures { result ≡ (account_at self.now.members.items m).value }
    {
        match self.members.get(usize::from(m)) {
            Some(account) => account.value,
            None => 0,
        }
    }

    /// The figure in a currency; 0 where there is no such currency.
    pub fn figure(&self, c: u8) -> i64
        ensures { result ≡ slice_index_or self.now.figures c (pos 0) }
    {
        self.figures.get(usize::from(c)).copied().unwrap_or(0)
    }

    /// Posts a movement, if there is one, on its member's account and on its currency's figure.
    pub fn post(&mut self, setup: &Setup, moved: Option<Movement>)
        requires valid { IsValid setup.now }
        requires can { ForSome moved (CanPost setup.now self.old.members.items self.old.figures) }
        ensures members { self.new.members.items ≡ accounts_after setup.now.currencies
            moved self.old.members.items }
        ensures figures { self.new.figures ≡ figures_after moved self.old.figures }
    {
        let Some(moved) = moved else {
            return;
        };
        let at = usize::from(moved.member);
        self.members[at] = self.members[at].after_posting(setup, moved.ccy, moved.amt);
        self.figures[usize::from(moved.ccy)] += moved.amt;
    }

    /// Settles a pair, with all its amounts, if both members pass their tests with it; says whether it did. Otherwise
    /// nothing changes.
    pub fn settle(&mut self, setup: &Setup, pair: &Pair) -> bool
        requires valid { IsValid setup.now }
        requires can { CanSettle setup.now self.old.members.items pair.now }
        ensures passed { result ≡ both_pass_with setup.now pair.now self.old.members.items }
        ensures members { self.new.members.items
            ≡ (if result then accounts_with setup.now.currencies pair.now self.old.members.items
            else self.old.members.items) }
        ensures figures { self.new.figures ≡ self.old.figures }
    {
        let (sell, sell_amt) = (pair.sell, pair.sell_amt);
        let (buy, buy_amt) = (pair.buy, pair.buy_amt);
        let (at, other) = (usize::from(pair.first), usize::from(pair.second));
        let first = self.members[at].after_trade(setup, sell, sell_amt, buy, buy_amt);
        let second = self.members[other].after_trade(setup, buy, buy_amt, sell, sell_amt);
        if passes(setup, pair.first, &first) && passes(setup, pair.second, &second) {
            self.members[at] = first;
            self.members[other] = second;
            return true;
        }
        false
    }

    /// Whether a member still passes its tests after an amount of a currency is paid out.
    pub fn passes_less(&self, setup: &Setup, m: u16, c: u8, amt: u64) -> bool
        requires valid { IsValid setup.now }
        requires member { m < length self.now.members.items }
        requires currency { c < length setup.now.currencies }
        requires amount { amt ≤ most_total }
        requires account { IsAccount setup.now.currencies (account_at self.now.members.items m) }
        requires small { All (IsWithin most_total) (account_at self.now.members.items m).balances }
        ensures { result ≡ passes_with setup.now m
            (after_posting setup.now.currencies c (neg_ℤ (pos amt))
            (account_at self.now.members.items m)) }
    {
        let account = self.members[usize::from(m)].after_posting(setup, c, -(amt as i64));
        passes(setup, m, &account)
    }
}

/// Whether the member of a number passes its tests with an account.
fn passes(setup: &Setup, m: u16, account: &Account) -> bool
    ensures { result ≡ passes_with setup.now m account.now }
{
    match setup.members.get(usize::from(m).saturating_sub(1)) {
        Some(member) => account.is_within_limits(member),
        None => false,
    }
}
