//! Commands, orders and rows in words: a command reads as a script has it.

ghost use Rattle.std.specs.Prelude.{◌≡◌, ◌++◌, string_bytes, OnOk};
ghost use Rattle.pvp_trace.specs.Words.{amount_text, command_text, order_text, row_text, rows_text, boots_text};

use crate::names::{push_actor, push_currency};
use pvp_types::{Cmd, PayOrder, Setup};
use std::alloc::AllocError;
use vr_types::{Known, RowOf, RowsOf};

/// Appends a command as a script has it.
pub fn push_command(text: &mut String, setup: &Setup, cmd: Cmd) -> Result<(), AllocError>
    ensures { OnOk result (string_bytes text.new ≡ string_bytes text.old
        ++ command_text setup.now cmd) }
{
    match cmd {
        Cmd::Instruct(asked) => {
            write!(text, "instruct {} ", asked.reference)?;
            push_actor(text, setup, asked.other)?;
            text.push_str(" ")?;
            push_amount(text, setup, asked.sell, asked.sell_amt)?;
            text.push_str(" ")?;
            push_amount(text, setup, asked.buy, asked.buy_amt)
        }
        Cmd::Rescind { reference } => write!(text, "rescind {reference}"),
        Cmd::Fund {
            ccy,
            pay,
            member,
            amt,
        } => {
            text.push_str("fund ")?;
            push_amount(text, setup, ccy, u64::from(pay))?;
            text.push_str(" ")?;
            push_actor(text, setup, member)?;
            write!(text, " {amt}")
        }
        Cmd::Settle { most } => write!(text, "settle {most}"),
        Cmd::PayOut { ccy, amt } => {
            text.push_str("payout ")?;
            push_amount(text, setup, ccy, amt)
        }
        Cmd::Paid { ccy, out } => {
            text.push_str("paid ")?;
            push_amount(text, setup, ccy, u64::from(out))
        }
        Cmd::Returned { ccy, out } => {
            text.push_str("returned ")?;
            push_amount(text, setup, ccy, u64::from(out))
        }
    }
}

/// Appends a number that is of a currency: an amount, or what counts its payments.
pub fn push_amount(text: &mut String, setup: &Setup, ccy: u8, amt: u64) -> Result<(), AllocError>
    ensures { OnOk result (string_bytes text.new ≡ string_bytes text.old
        ++ amount_text setup.now ccy amt) }
{
    push_currency(text, setup, ccy)?;
    write!(text, " {amt}")
}

/// Appends an order: its currency and number, whom it pays, and how much.
pub fn push_order(text: &mut String, setup: &Setup, order: PayOrder) -> Result<(), AllocError>
    ensures { OnOk result (string_bytes text.new ≡ string_bytes text.old
        ++ order_text setup.now order) }
{
    push_amount(text, setup, order.ccy, u64::from(order.out))?;
    text.push_str(" ")?;
    push_actor(text, setup, order.member)?;
    let amt = order.amt;
    write!(text, " {amt}")
}

/// Appends a row: whose request it is, by which number, and what it asks for.
pub fn push_row(text: &mut String, setup: &Setup, row: RowOf<Cmd>) -> Result<(), AllocError>
    ensures { OnOk result (string_bytes text.new ≡ string_bytes text.old
        ++ row_text setup.now row) }
{
    push_actor(text, setup, row.client)?;
    let number = row.number;
    write!(text, " {number} ")?;
    push_command(text, setup, row.cmd)
}

/// Appends how many rows there are, and the last of them.
pub fn push_rows(text: &mut String, setup: &Setup, rows: &RowsOf<Cmd>) -> Result<(), AllocError>
    ensures { OnOk result (string_bytes text.new ≡ string_bytes text.old
        ++ rows_text setup.now rows.now) }
{
    let count = rows.len();
    write!(text, " rows {count}")?;
    match rows.get(count.saturating_sub(1)) {
        Some(row) => {
            text.push_str(" last ")?;
            push_row(text, setup, row)
        }
        None => Ok(()),
    }
}

/// Appends what is known of the sites' boots.
pub fn push_boots(text: &mut String, known: &Known) -> Result<(), AllocError>
    ensures { OnOk result (string_bytes text.new ≡ string_bytes text.old ++ boots_text known.now) }
{
    text.push_str(" boots")?;
    for boot in known.as_slice() {
        write!(text, " {boot}")?;
    }
    Ok(())
}
