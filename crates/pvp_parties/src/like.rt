//! Whether the reading calls of two actors show the same.
ghost use Rattle.std.specs.Prelude.{◌≡◌, ◌↔◌, IsTrue};
ghost use Rattle.pvp_rooms.specs.Nodes.{Reads as ReadsNode};
ghost use Rattle.pvp_rooms.specs.Clients.{Reads as ReadsClient};
ghost use Rattle.pvp_parties.specs.Alike.{AreAlikeSites, KnowTheSame, HoldTheSame};

use pvp_book::Book;
use pvp_types::{PayOrder, Reply};
use pvp_world::Client;
use rtgs_node::{Node, PayIn};
use vr_site::Replica;
use vr_types::{MOST_SITES, MemCell, Row, is_same_boot, is_same_order, is_same_reply, is_same_row};

/// Whether the reading calls of two sites show the same.
pub fn are_alike_sites(a: &Replica<Book, MemCell>, b: &Replica<Book, MemCell>) -> bool
    ensures { IsTrue result ↔ AreAlikeSites a.now b.now }
{
    a.status() == b.status()
        && a.view() == b.view()
        && a.done() == b.done()
        && is_same_boot(a.boot(), b.boot())
        && know_the_same(a, b)
        && have_one_log(a, b)
}

/// Whether two sites know the same boots.
fn know_the_same(a: &Replica<Book, MemCell>, b: &Replica<Book, MemCell>) -> bool
    ensures { IsTrue result ↔ KnowTheSame a.now b.now }
{
    for i in 0..MOST_SITES {
        if a.known(i) != b.known(i) {
            return false;
        }
    }
    true
}

/// Whether two sites have the same log.
fn have_one_log(a: &Replica<Book, MemCell>, b: &Replica<Book, MemCell>) -> bool
    ensures { IsTrue result ↔ (a.now.volatile.log ≡ b.now.volatile.log) }
{
    if a.log_len() != b.log_len() {
        return false;
    }
    for i in 0..a.log_len() {
        if !same_place(a.row(i + 1), b.row(i + 1)) {
            return false;
        }
    }
    true
}

/// Whether two places of a log have the same row.
fn same_place(a: Option<Row<Book>>, b: Option<Row<Book>>) -> bool
    ensures { IsTrue result ↔ (a ≡ b) }
{
    match (a, b) {
        (None, None) => true,
        (Some(x), Some(y)) => is_same_row::<Book>(x, y),
        _ => false,
    }
}

/// Whether the reading calls of two nodes show the same.
pub fn are_alike_nodes(a: &Node, b: &Node) -> bool
    ensures { IsTrue result ↔ ReadsNode a.now b.now }
{
    a.account() == b.account()
        && a.returned() == b.returned()
        && a.unanswered_count() == b.unanswered_count()
        && same_pay_ins(a.pay_ins(), b.pay_ins())
        && same_pay_outs(a.pay_outs(), b.pay_outs())
        && hold_the_same(a, b)
}

/// Whether the accounts of all members hold the same.
fn hold_the_same(a: &Node, b: &Node) -> bool
    ensures { IsTrue result ↔ HoldTheSame a.now b.now }
{
    let count = a.setup().member_count();
    if count != b.setup().member_count() {
        return false;
    }
    for i in 0..count {
        if a.member_account(i + 1) != b.member_account(i + 1) {
            return false;
        }
    }
    true
}

/// Whether two lists of pay-ins are the same.
fn same_pay_ins(a: &[PayIn], b: &[PayIn]) -> bool
    ensures { IsTrue result ↔ (a.now ≡ b.now) }
{
    if a.len() != b.len() {
        return false;
    }
    for i in 0..a.len() {
        if !same_pay_in(a[i], b[i]) {
            return false;
        }
    }
    true
}

/// Whether two pay-ins are the same.
fn same_pay_in(a: PayIn, b: PayIn) -> bool
    ensures { IsTrue result ↔ (a ≡ b) }
{
    a == b
}

/// Whether two lists of orders are the same.
fn same_pay_outs(a: &[PayOrder], b: &[PayOrder]) -> bool
    ensures { IsTrue result ↔ (a.now ≡ b.now) }
{
    if a.len() != b.len() {
        return false;
    }
    for i in 0..a.len() {
        if !is_same_order::<Book>(a[i], b[i]) {
            return false;
        }
    }
    true
}

/// Whether the reading calls of two clients show the same.
pub fn are_alike_clients(a: &Client, b: &Client) -> bool
    ensures { IsTrue result ↔ ReadsClient a.now b.now }
{
    a.number() == b.number() && same_answer(a.answer(), b.answer())
}

/// Whether two answers that may be there are the same.
fn same_answer(a: Option<Reply>, b: Option<Reply>) -> bool
    ensures { IsTrue result ↔ (a ≡ b) }
{
    match (a, b) {
        (None, None) => true,
        (Some(x), Some(y)) => is_same_reply::<Book>(x, y),
        _ => false,
    }
}
