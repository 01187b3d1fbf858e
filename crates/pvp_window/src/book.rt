//! The book of a site, as of the rows that it has executed.
ghost use Rattle.std.specs.Prelude.{◌≡◌, ◌++◌, ◌-◌, ◌<◌, length, string_bytes, slice_get, slice_index_or, min, OnOk};
ghost use Rattle.std.specs.List.{flat_map, range_with_len};
ghost use Rattle.pvp_book.specs.Ledger.{Ledger, pairs_in};
ghost use Rattle.pvp_window.specs.Book.{
  accounts_json,
  balance_item,
  balance_text,
  balances_json,
  book_object,
  count_text,
  currencies_json,
  currency_json,
  currency_item,
  end_json,
  entries_json,
  entries_object,
  entry_item,
  figure_text,
  member_item,
  member_json,
  member_object,
  members_json,
  named_member,
  numbered_json,
  open_item,
  open_json,
  order_json,
  orders_text,
  pair_json,
  pair_object,
  queue_item,
  queue_json,
  row_json,
  state_json,
  state_name,
  tally_json,
  value_text,
  waiting_json,
};

use crate::json::{push_code, push_comma, push_quoted, push_sum, push_value, push_who};
use pvp_book::{Book, Entry, Pair, PairState};
use pvp_trace::words::push_command;
use pvp_types::{Currency, Member, PayOrder, Setup};
use std::alloc::AllocError;

/// How many waiting pairs and open orders are listed at the most.
const MOST_LISTED: usize = 100;

/// How many entries are listed at the most.
const MOST_ENTRIES: usize = 200;

/// Appends the whole book.
pub fn push_book(text: &mut String, book: &Book) -> Result<(), AllocError>
    ensures { OnOk result (string_bytes text.new
        ≡ string_bytes text.old ++ book_object book.now) }
{
    push_row(text, book)?;
    push_accounts(text, book)?;
    push_waiting(text, book)
}

/// Appends what was accepted, and what each currency and each member has of it.
fn push_accounts(text: &mut String, book: &Book) -> Result<(), AllocError>
    ensures { OnOk result (string_bytes text.new
        ≡ string_bytes text.old ++ accounts_json book.now) }
{
    let accepted = book.entries().len();
    write!(text, ",\"accepted\":{accepted},\"currencies\":[")?;
    push_currencies(text, book)?;
    text.push_str("],\"members\":[")?;
    push_members(text, book)?;
    text.push_str("]")
}

/// Appends the pairs by state, the queue, and the open orders.
fn push_waiting(text: &mut String, book: &Book) -> Result<(), AllocError>
    ensures { OnOk result (string_bytes text.new
        ≡ string_bytes text.old ++ waiting_json book.now) }
{
    text.push_str(",\"pairs\":")?;
    push_tally(text, book)?;
    text.push_str(",\"queue\":[")?;
    push_queue(text, book)?;
    let open = book.open_count();
    write!(text, "],\"open\":{open},\"open_orders\":[")?;
    push_open(text, book)?;
    text.push_str("]}\n")
}

/// Appends as of which row a reading of the book is.
#[tactic(auto, unfolding(crate::specs::Book::row_json))]
fn push_row(text: &mut String, book: &Book) -> Result<(), AllocError>
    ensures { OnOk result (string_bytes text.new ≡ string_bytes text.old ++ row_json book.now) }
{
    let row = book.applied();
    write!(text, ",\"row\":{row}")
}

/// Appends the currencies.
fn push_currencies(text: &mut String, book: &Book) -> Result<(), AllocError>
    ensures { OnOk result (string_bytes text.new
        ≡ string_bytes text.old ++ currencies_json book.now) }
{
    for c in 0..book.setup().currency_count() {
        push_currency_at(text, book, c)?;
    }
    Ok(())
}

/// Appends the currency of a number.
#[tactic(auto, unfolding(crate::specs::Book::currency_item))]
fn push_currency_at(text: &mut String, book: &Book, c: u8) -> Result<(), AllocError>
    ensures { OnOk result (string_bytes text.new
        ≡ string_bytes text.old ++ currency_item book.now c) }
{
    let Some(currency) = book.setup().currencies.get(usize::from(c)) else {
        return Ok(());
    };
    push_comma(text, usize::from(c))?;
    push_currency(text, book, c, currency)
}

/// Appends a currency's terms, the bank's figure, and how many orders were made in it.
fn push_currency(
    text: &mut String,
    book: &Book,
    c: u8,
    currency: &Currency,
) -> Result<(), AllocError>
    ensures { OnOk result (string_bytes text.new
        ≡ string_bytes text.old ++ currency_json book.now c currency.now) }
{
    text.push_str("{\"code\":")?;
    push_quoted(text, currency.code.as_str())?;
    let (rate, haircut) = (currency.rate, currency.haircut);
    write!(text, ",\"rate\":{rate},\"haircut\":{haircut}")?;
    text.push_str(",\"figure\":\"")?;
    push_figure(text, book, c)?;
    text.push_str("\",\"orders\":")?;
    push_orders(text, book, c)?;
    text.push_str("}")
}

/// Appends the members.
fn push_members(text: &mut String, book: &Book) -> Result<(), AllocError>
    ensures { OnOk result (string_bytes text.new
        ≡ string_bytes text.old ++ members_json book.now) }
{
    for at in 0..book.setup().member_count() {
        push_member_at(text, book, at)?;
    }
    Ok(())
}

/// Appends the member at a place, counted from 0.
#[tactic(auto, unfolding(crate::specs::Book::member_item))]
fn push_member_at(text: &mut String, book: &Book, at: u16) -> Result<(), AllocError>
    requires { at < 65535 }
    ensures { OnOk result (string_bytes text.new
        ≡ string_bytes text.old ++ member_item book.now at) }
{
    push_comma(text, usize::from(at))?;
    push_member(text, book, at + 1)
}

/// Appends a member; `null` where the bank has none of this number.
#[tactic(auto, unfolding(crate::specs::Book::member_json))]
fn push_member(text: &mut String, book: &Book, m: u16) -> Result<(), AllocError>
    ensures { OnOk result (string_bytes text.new
        ≡ string_bytes text.old ++ member_json book.now m) }
{
    let Some(member) = book.setup().members.get(usize::from(m).saturating_sub(1)) else {
        return text.push_str("null");
    };
    push_named(text, book, m, member)
}

/// Appends a member's name, value, limits and balances.
fn push_named(text: &mut String, book: &Book, m: u16, member: &Member) -> Result<(), AllocError>
    ensures { OnOk result (string_bytes text.new
        ≡ string_bytes text.old ++ named_member book.now m member.now) }
{
    text.push_str("{\"name\":")?;
    push_quoted(text, member.name.as_str())?;
    text.push_str(",\"value\":\"")?;
    push_value_of(text, book, m)?;
    let aggregate = member.aggregate;
    write!(text, "\",\"aggregate\":\"{aggregate}\"")?;
    text.push_str(",\"balances\":[")?;
    push_balances(text, book, m, member)?;
    text.push_str("]}")
}

/// Appends a member's balance in each currency, with how far it may be below 0.
fn push_balances(text: &mut String, book: &Book, m: u16, member: &Member) -> Result<(), AllocError>
    ensures { OnOk result (string_bytes text.new
        ≡ string_bytes text.old ++ balances_json book.now m member.now) }
{
    for c in 0..book.setup().currency_count() {
        push_balance(text, book, m, member, c)?;
    }
    Ok(())
}

/// Appends a member's balance in a currency, with how far it may be below 0.
#[tactic(auto, unfolding(crate::specs::Book::balance_item))]
fn push_balance(
    text: &mut String,
    book: &Book,
    m: u16,
    member: &Member,
    c: u8,
) -> Result<(), AllocError>
    ensures { OnOk result (string_bytes text.new
        ≡ string_bytes text.old ++ balance_item book.now m member.now c) }
{
    let short = short_of(member, c);
    push_comma(text, usize::from(c))?;
    text.push_str("{\"currency\":")?;
    push_code(text, book.setup(), c)?;
    text.push_str(",\"balance\":\"")?;
    push_balance_of(text, book, m, c)?;
    write!(text, "\",\"short\":\"{short}")?;
    text.push_str("\"}")
}

/// How far a member's balance in a currency may be below 0.
fn short_of(member: &Member, c: u8) -> u64
    ensures { result ≡ slice_index_or member.now.short c 0 }
{
    let short = member.short.as_slice();
    short.get(usize::from(c)).copied().unwrap_or(0)
}

/// Appends how many pairs are in each state.
#[tactic(auto, unfolding(crate::specs::Book::tally_json))]
fn push_tally(text: &mut String, book: &Book) -> Result<(), AllocError>
    ensures { OnOk result (string_bytes text.new ≡ string_bytes text.old ++ tally_json book.now) }
{
    text.push_str("{\"unmatched\":")?;
    push_count(text, book, PairState::Unmatched)?;
    text.push_str(",\"matched\":")?;
    push_count(text, book, PairState::Matched)?;
    text.push_str(",\"settled\":")?;
    push_count(text, book, PairState::Settled)?;
    text.push_str(",\"rescinded\":")?;
    push_count(text, book, PairState::Rescinded)?;
    text.push_str("}")
}

/// Appends how many pairs are in a state.
#[tactic(auto, unfolding(crate::specs::Book::count_text))]
pub fn push_count(text: &mut String, book: &Book, state: PairState) -> Result<(), AllocError>
    ensures { OnOk result (string_bytes text.new
        ≡ string_bytes text.old ++ count_text book.now state) }
{
    let count = book.pairs(state);
    write!(text, "{count}")
}

/// Appends the bank's figure in a currency.
#[tactic(auto, unfolding(crate::specs::Book::figure_text))]
pub fn push_figure(text: &mut String, book: &Book, c: u8) -> Result<(), AllocError>
    ensures { OnOk result (string_bytes text.new
        ≡ string_bytes text.old ++ figure_text book.now c) }
{
    push_sum(text, book.figure(c))
}

/// Appends a member's balance in a currency.
#[tactic(auto, unfolding(crate::specs::Book::balance_text))]
fn push_balance_of(text: &mut String, book: &Book, m: u16, c: u8) -> Result<(), AllocError>
    ensures { OnOk result (string_bytes text.new
        ≡ string_bytes text.old ++ balance_text book.now m c) }
{
    push_sum(text, book.balance(m, c))
}

/// Appends a member's value.
#[tactic(auto, unfolding(crate::specs::Book::value_text))]
fn push_value_of(text: &mut String, book: &Book, m: u16) -> Result<(), AllocError>
    ensures { OnOk result (string_bytes text.new ≡ string_bytes text.old ++ value_text book.now m) }
{
    push_value(text, book.value(m))
}

/// Appends how many orders were made in a currency.
#[tactic(auto, unfolding(crate::specs::Book::orders_text))]
fn push_orders(text: &mut String, book: &Book, c: u8) -> Result<(), AllocError>
    ensures { OnOk result (string_bytes text.new
        ≡ string_bytes text.old ++ orders_text book.now c) }
{
    let orders = book.orders(c);
    write!(text, "{orders}")
}

/// Appends the first of the matched pairs that wait, in the order in which they are tried.
fn push_queue(text: &mut String, book: &Book) -> Result<(), AllocError>
    ensures { OnOk result (string_bytes text.new ≡ string_bytes text.old ++ queue_json book.now) }
{
    for at in 0..book.queued().min(MOST_LISTED) {
        push_queued(text, book, at)?;
    }
    Ok(())
}

/// Appends the pair that waits at a place.
#[tactic(auto, unfolding(crate::specs::Book::queue_item))]
fn push_queued(text: &mut String, book: &Book, at: usize) -> Result<(), AllocError>
    ensures { OnOk result (string_bytes text.new
        ≡ string_bytes text.old ++ queue_item book.now at) }
{
    let Some(pair) = book.waiting(at) else {
        return Ok(());
    };
    push_comma(text, at)?;
    push_terms(text, book.setup(), pair)
}

/// Appends the terms of a pair: its first side sells and buys this, and its second the reverse.
#[tactic(auto, unfolding(crate::specs::Book::pair_json))]
fn push_terms(text: &mut String, setup: &Setup, pair: Pair) -> Result<(), AllocError>
    ensures { OnOk result (string_bytes text.new
        ≡ string_bytes text.old ++ pair_json setup.now pair) }
{
    let (reference, sell_amt, buy_amt) = (pair.reference, pair.sell_amt, pair.buy_amt);
    text.push_str("{\"reference\":")?;
    write!(text, "{reference},\"first\":")?;
    push_who(text, setup, pair.first)?;
    text.push_str(",\"second\":")?;
    push_who(text, setup, pair.second)?;
    text.push_str(",\"sell\":")?;
    push_code(text, setup, pair.sell)?;
    write!(text, ",\"sell_amount\":\"{sell_amt}\",\"buy\":")?;
    push_code(text, setup, pair.buy)?;
    write!(text, ",\"buy_amount\":\"{buy_amt}")?;
    text.push_str("\"}")
}

/// Appends the first of the orders that are neither paid nor returned.
fn push_open(text: &mut String, book: &Book) -> Result<(), AllocError>
    ensures { OnOk result (string_bytes text.new ≡ string_bytes text.old ++ open_json book.now) }
{
    for at in 0..book.open_count().min(MOST_LISTED) {
        push_open_at(text, book, at)?;
    }
    Ok(())
}

/// Appends the order at a place among those.
#[tactic(auto, unfolding(crate::specs::Book::open_item))]
fn push_open_at(text: &mut String, book: &Book, at: usize) -> Result<(), AllocError>
    ensures { OnOk result (string_bytes text.new
        ≡ string_bytes text.old ++ open_item book.now at) }
{
    let Some((_node, order)) = book.open(at) else {
        return Ok(());
    };
    push_comma(text, at)?;
    push_order(text, book.setup(), order)
}

/// Appends an order: its currency and number there, whom it pays, and how much.
#[tactic(auto, unfolding(crate::specs::Book::order_json))]
fn push_order(text: &mut String, setup: &Setup, order: PayOrder) -> Result<(), AllocError>
    ensures { OnOk result (string_bytes text.new
        ≡ string_bytes text.old ++ order_json setup.now order) }
{
    let (out, amt) = (order.out, order.amt);
    text.push_str("{\"currency\":")?;
    push_code(text, setup, order.ccy)?;
    write!(text, ",\"order\":{out},\"member\":")?;
    push_who(text, setup, order.member)?;
    write!(text, ",\"amount\":\"{amt}")?;
    text.push_str("\"}")
}

/// Appends one member's part of the book.
pub fn push_one_member(text: &mut String, book: &Book, m: u16) -> Result<(), AllocError>
    ensures { OnOk result (string_bytes text.new
        ≡ string_bytes text.old ++ member_object book.now m) }
{
    push_row(text, book)?;
    text.push_str(",\"member\":")?;
    push_member(text, book, m)?;
    text.push_str("}\n")
}

/// Appends the state of the pair of a reference.
pub fn push_one_pair(text: &mut String, book: &Book, reference: u32) -> Result<(), AllocError>
    ensures { OnOk result (string_bytes text.new
        ≡ string_bytes text.old ++ pair_object book.now reference) }
{
    push_row(text, book)?;
    write!(text, ",\"reference\":{reference},\"state\":")?;
    push_state(text, book.pair(reference))?;
    text.push_str("}\n")
}

/// Appends a pair's state; `null` where there is no pair.
#[tactic(auto, unfolding(crate::specs::Book::state_json))]
fn push_state(text: &mut String, state: Option<PairState>) -> Result<(), AllocError>
    ensures { OnOk result (string_bytes text.new ≡ string_bytes text.old ++ state_json state) }
{
    match state {
        Some(state) => push_quoted(text, state_name(state)),
        None => text.push_str("null"),
    }
}

/// A pair's state by its name.
#[tactic(auto, unfolding(crate::specs::Book::state_name))]
pub fn state_name(state: PairState) -> &'static str
    ensures { result.now ≡ state_name state }
{
    match state {
        PairState::Unmatched => "unmatched",
        PairState::Matched => "matched",
        PairState::Settled => "settled",
        PairState::Rescinded => "rescinded",
    }
}

/// Appends the entries behind the first so many.
pub fn push_entries(text: &mut String, book: &Book, from: u32) -> Result<(), AllocError>
    ensures { OnOk result (string_bytes text.new
        ≡ string_bytes text.old ++ entries_object book.now from) }
{
    let total = book.entries().len();
    let left = left_behind(book, from as usize);
    push_row(text, book)?;
    write!(text, ",\"from\":{from},\"total\":{total},\"entries\":[")?;
    push_some_entries(text, book, from as usize)?;
    push_end(text, left)
}

/// How many entries are behind the first so many.
fn left_behind(book: &Book, from: usize) -> usize
    ensures { result ≡ length book.now.entries - from }
{
    book.entries().len().saturating_sub(from)
}

/// Appends whether there are more entries than are listed, and the end.
#[tactic(auto, unfolding(crate::specs::Book::end_json))]
fn push_end(text: &mut String, left: usize) -> Result<(), AllocError>
    ensures { OnOk result (string_bytes text.new ≡ string_bytes text.old ++ end_json left) }
{
    if left > MOST_ENTRIES {
        text.push_str("],\"more\":true}\n")
    } else {
        text.push_str("],\"more\":false}\n")
    }
}

/// Appends the first of the entries behind the first so many.
fn push_some_entries(text: &mut String, book: &Book, from: usize) -> Result<(), AllocError>
    requires { from < 4294967296 }
    ensures { OnOk result (string_bytes text.new
        ≡ string_bytes text.old ++ entries_json book.now from) }
{
    for at in 0..left_behind(book, from).min(MOST_ENTRIES) {
        push_entry(text, book, from, at)?;
    }
    Ok(())
}

/// Appends the entry at a place behind the first so many.
#[tactic(auto, unfolding(crate::specs::Book::entry_item))]
fn push_entry(text: &mut String, book: &Book, from: usize, at: usize) -> Result<(), AllocError>
    requires { (from < 4294967296) × (at < 65536) }
    ensures { OnOk result (string_bytes text.new
        ≡ string_bytes text.old ++ entry_item book.now from at) }
{
    let Some(entry) = book.entries().get(from + at) else {
        return Ok(());
    };
    push_comma(text, at)?;
    push_numbered(text, book.setup(), from + at + 1, entry)
}

/// Appends an entry: its number, whose it is, what it asked for, and the answer.
fn push_numbered(
    text: &mut String,
    setup: &Setup,
    number: usize,
    entry: &Entry,
) -> Result<(), AllocError>
    ensures { OnOk result (string_bytes text.new
        ≡ string_bytes text.old ++ numbered_json setup.now number entry.now) }
{
    write!(text, "[{number},")?;
    push_who(text, setup, entry.client)?;
    text.push_str(",\"")?;
    push_command(text, setup, entry.cmd)?;
    let reply = entry.reply;
    write!(text, "\",\"{reply}")?;
    text.push_str("\"]")
}
