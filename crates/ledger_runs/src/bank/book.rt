//! What a book of the small bank shows of the commands that came: each of its calls once. What
//! commands are answered, in which order their faults are found, and histories drawn at random:
//! `.ci/texts`.
use self::Asks::{Fund, Instruct, Paid, PayOut, Rescind, Returned, Settle};
use self::BookReading::{
    Applied, At, Balance, Count, Entries, Figure, First, Open, OpenCount, Orders, PaidIn, Pair,
    Queued, Sent, Sites, Value,
};
use self::Step::{Comes, Often, Shows};
use self::long::{Many, come_often};
use fixtures::setup::three_currencies;
use pvp_book::{Book, PairState};
use pvp_types::{Cmd, Instruction, PayOrder, Reason, Reply};
use std::process::Abort;
use std::test::Fail;

mod long;

/// The clients: the operator, two members and two nodes.
const OPERATOR: u16 = 0;

const ALFA: u16 = 1;

const BETA: u16 = 2;

const EUR_NODE: u16 = 101;

const USD_NODE: u16 = 102;

/// The currencies.
const EUR: u8 = 0;

const USD: u8 = 1;

/// What a client asks of the book.
#[derive(Clone, Copy)]
enum Asks {
    /// It reports a pay-in: the currency, the number, the member and the amount.
    Fund(u8, u32, u16, u64),
    /// It would exchange: the reference, the other member, and what it sells and buys, each a currency and an amount.
    Instruct(u32, u16, (u8, u64), (u8, u64)),
    /// It takes back its instruction of a reference.
    Rescind(u32),
    /// It has so many pairs settled at most.
    Settle(u32),
    /// It asks for a payment: the currency and the amount.
    PayOut(u8, u64),
    /// It has paid an order: the currency and the number.
    Paid(u8, u32),
    /// It returns an order: the currency and the number.
    Returned(u8, u32),
}

/// The command itself.
fn cmd_of(asks: Asks) -> Cmd {
    match asks {
        Fund(ccy, pay, member, amt) => Cmd::Fund {
            ccy,
            pay,
            member,
            amt,
        },
        Instruct(reference, other, (sell, sell_amt), (buy, buy_amt)) => Cmd::Instruct(
            Instruction {
                reference,
                other,
                sell,
                sell_amt,
                buy,
                buy_amt,
            },
        ),
        Rescind(reference) => Cmd::Rescind { reference },
        Settle(most) => Cmd::Settle { most },
        PayOut(ccy, amt) => Cmd::PayOut { ccy, amt },
        Paid(ccy, out) => Cmd::Paid { ccy, out },
        Returned(ccy, out) => Cmd::Returned { ccy, out },
    }
}

/// What a book shows.
#[derive(Clone, Copy)]
enum BookReading {
    /// How many commands came.
    Applied(u32),
    /// How many of them it accepted.
    Entries(usize),
    /// How many sites its setup has.
    Sites(u64),
    /// Whether a currency's pay-in of a number is in it.
    PaidIn(u8, u32, bool),
    /// What a member has in a currency.
    Balance(u16, u8, i64),
    /// The bank's figure in a currency.
    Figure(u8, i64),
    /// What the value test adds up of a member.
    Value(u16, i128),
    /// The open order behind so many others, and the node that has to pay it.
    Open(usize, Option<(u16, PayOrder)>),
    /// The same, where it is ALFA's order of a number for EUR 1.
    Sent(usize, u32),
    /// How many orders are open.
    OpenCount(usize),
    /// The first open order of a currency.
    First(u8, Option<PayOrder>),
    /// How many orders of a currency there were.
    Orders(u8, u32),
    /// How far the pair of a reference has come.
    Pair(u32, Option<PairState>),
    /// How many pairs have come so far.
    Count(PairState, u32),
    /// How many pairs wait.
    Queued(usize),
    /// The pair that waits at a place.
    At(usize, Option<u32>),
}

/// ALFA's order of a number for EUR 1.
fn euro_of(out: u32) -> PayOrder {
    PayOrder {
        ccy: EUR,
        out,
        member: ALFA,
        amt: 1,
    }
}

/// Whether a book shows this of its orders and pairs.
fn shows_work(book: &Book, shown: BookReading) -> bool {
    match shown {
        Open(before, order) => book.open(before) == order,
        Sent(before, out) => book.open(before) == Some((EUR_NODE, euro_of(out))),
        OpenCount(count) => book.open_count() == count,
        First(ccy, order) => book.open_orders(ccy).next() == order,
        Orders(ccy, count) => book.orders(ccy) == count,
        Pair(reference, state) => book.pair(reference) == state,
        Count(state, count) => book.pairs(state) == count,
        Queued(count) => book.queued() == count,
        At(place, reference) => book.queue_at(place) == reference,
        _ => false,
    }
}

/// Whether a book shows this.
fn shows(book: &Book, shown: BookReading) -> bool {
    match shown {
        Applied(count) => book.applied() == count,
        Entries(count) => book.entries().len() == count,
        Sites(count) => book.setup().sites == count,
        PaidIn(ccy, pay, is_in) => book.paid_in(ccy, pay) == is_in,
        Balance(member, ccy, balance) => book.balance(member, ccy) == balance,
        Figure(ccy, figure) => book.figure(ccy) == figure,
        Value(member, value) => book.value(member) == value,
        work => shows_work(book, work),
    }
}

/// What a book is given or asked, and what comes of it.
#[derive(Clone, Copy)]
enum Step {
    /// A command of a client, and what it is answered.
    Comes(u16, Asks, Reply),
    /// Commands that come so often.
    Often(Many, u32),
    /// What it then shows.
    Shows(BookReading),
}

/// Gives a book a command, and compares its answer.
fn comes(
    rt: &impl Abort,
    book: &mut Book,
    client: u16,
    asks: Asks,
    reply: Reply,
) -> Result<(), Fail> {
    assert!(rt; book.applied() < 65_535);
    assert!(rt; book.apply(client, cmd_of(asks))? == reply);
    Ok(())
}

/// A book goes a step.
fn go_one(rt: &impl Abort, book: &mut Book, step: Step) -> Result<bool, Fail> {
    match step {
        Comes(client, asks, reply) => comes(rt, book, client, asks, reply)?,
        Often(many, count) => come_often(rt, book, many, count)?,
        Shows(shown) => return Ok(shows(book, shown)),
    }
    Ok(true)
}

/// A book goes steps in turn.
fn go(rt: &impl Abort, book: &mut Book, steps: &[Step]) -> Result<(), Fail> {
    for (at, step) in steps.iter().enumerate() {
        assert!(rt; go_one(rt, book, *step)?, "step {at}");
    }
    Ok(())
}

/// A new book of the small bank goes these steps.
fn run<R: Abort + AllocGlobal>(rt: &R, steps: &[Step]) -> Result<(), Fail> {
    let setup = three_currencies(rt.alloc())?;
    go(rt, &mut Book::fresh(rt.alloc(), &setup)?, steps)
}

/// ALFA's order for USD 200, the first.
const ORDER: PayOrder = PayOrder {
    ccy: USD,
    out: 1,
    member: ALFA,
    amt: 200,
};

#[test]
fn keeps_a_pay_out_until_it_is_paid(rt: HostRuntime) -> Result<(), Fail> {
    const STEPS: &[Step] = &[
        Comes(USD_NODE, Fund(USD, 1, ALFA, 1200), Reply::Done),
        Comes(ALFA, PayOut(USD, 200), Reply::Order(1)),
        Shows(Open(0, Some((USD_NODE, ORDER)))),
        Shows(Open(1, None)),
        Shows(OpenCount(1)),
        Shows(Orders(USD, 1)),
        Shows(First(USD, Some(ORDER))),
        Comes(USD_NODE, Paid(USD, 1), Reply::Done),
        Shows(Open(0, None)),
        Shows(OpenCount(0)),
        Shows(Orders(USD, 1)),
    ];
    run(&rt, STEPS)
}

#[test]
fn credits_a_returned_pay_out_once(rt: HostRuntime) -> Result<(), Fail> {
    const STEPS: &[Step] = &[
        Comes(USD_NODE, Fund(USD, 1, ALFA, 1200), Reply::Done),
        Comes(ALFA, PayOut(USD, 200), Reply::Order(1)),
        Comes(USD_NODE, Returned(USD, 1), Reply::Done),
        Comes(USD_NODE, Returned(USD, 1), Reply::No(Reason::Repeated)),
        Comes(USD_NODE, Paid(USD, 1), Reply::No(Reason::Repeated)),
        Comes(
            USD_NODE,
            Returned(USD, 2),
            Reply::No(Reason::UnknownReference),
        ),
        Shows(Balance(ALFA, USD, 1200)),
        Shows(Figure(USD, 1200)),
        Shows(Open(0, None)),
        Shows(OpenCount(0)),
        Shows(Orders(USD, 1)),
    ];
    run(&rt, STEPS)
}

/// Two commands come, of which the second, the first again, is refused: it is counted, and is no entry.
#[test]
fn counts_what_came(rt: HostRuntime) -> Result<(), Fail> {
    const STEPS: &[Step] = &[
        Shows(Applied(0)),
        Comes(USD_NODE, Fund(USD, 1, ALFA, 1200), Reply::Done),
        Comes(
            USD_NODE,
            Fund(USD, 1, ALFA, 1200),
            Reply::No(Reason::Repeated),
        ),
        Shows(Applied(2)),
        Shows(Entries(1)),
        Shows(Sites(3)),
        Shows(PaidIn(USD, 1, true)),
        Shows(PaidIn(USD, 2, false)),
        Shows(Balance(ALFA, USD, 1200)),
        Shows(Figure(USD, 1200)),
    ];
    run(&rt, STEPS)
}

/// In the end there is one pair of each state.
#[test]
fn knows_how_far_a_pair_has_come(rt: HostRuntime) -> Result<(), Fail> {
    const STEPS: &[Step] = &[
        Comes(ALFA, Instruct(7, BETA, (USD, 10), (EUR, 9)), Reply::Done),
        Comes(ALFA, Instruct(3, BETA, (USD, 10), (EUR, 9)), Reply::Done),
        Comes(BETA, Instruct(3, ALFA, (EUR, 9), (USD, 10)), Reply::Matched),
        Comes(ALFA, Instruct(4, BETA, (USD, 1), (EUR, 1)), Reply::Done),
        Comes(ALFA, Rescind(4), Reply::Done),
        Comes(USD_NODE, Fund(USD, 1, ALFA, 10), Reply::Done),
        Comes(EUR_NODE, Fund(EUR, 1, BETA, 9), Reply::Done),
        Comes(ALFA, Instruct(5, BETA, (USD, 10), (EUR, 9)), Reply::Done),
        Comes(BETA, Instruct(5, ALFA, (EUR, 9), (USD, 10)), Reply::Matched),
        Comes(OPERATOR, Settle(1), Reply::Settled(1)),
        Shows(Pair(1, None)),
        Shows(Pair(7, Some(PairState::Unmatched))),
        Shows(Pair(3, Some(PairState::Settled))),
        Shows(Pair(4, Some(PairState::Rescinded))),
        Shows(Pair(5, Some(PairState::Matched))),
        Shows(Count(PairState::Unmatched, 1)),
        Shows(Count(PairState::Matched, 1)),
        Shows(Count(PairState::Settled, 1)),
        Shows(Count(PairState::Rescinded, 1)),
    ];
    run(&rt, STEPS)
}

/// What ALFA asks: an exchange of its USD 1100 for EUR 1000 of BETA.
const SELLS: Asks = Instruct(1, BETA, (USD, 1100), (EUR, 1000));

/// The other side of it.
const BUYS: Asks = Instruct(1, ALFA, (EUR, 1000), (USD, 1100));

/// BETA would have EUR -953, which weigh 1,100,715,000 with their haircut, against USD 1100, which weigh 1,100,000,000.
#[test]
fn keeps_a_pair_that_no_value_covers(rt: HostRuntime) -> Result<(), Fail> {
    const STEPS: &[Step] = &[
        Comes(USD_NODE, Fund(USD, 1, ALFA, 1200), Reply::Done),
        Comes(EUR_NODE, Fund(EUR, 1, BETA, 47), Reply::Done),
        Comes(ALFA, SELLS, Reply::Done),
        Comes(BETA, BUYS, Reply::Matched),
        Comes(OPERATOR, Settle(10), Reply::Settled(0)),
        Shows(Value(ALFA, 1_200_000_000)),
        Shows(Value(BETA, 49_115_000)),
        Shows(Queued(1)),
        Shows(At(0, Some(1))),
    ];
    run(&rt, STEPS)
}

/// With one euro more the pair settles: ALFA has USD 100 and EUR 1000, BETA EUR -952 and USD 1100.
#[test]
fn settles_a_pair_that_the_value_covers(rt: HostRuntime) -> Result<(), Fail> {
    const STEPS: &[Step] = &[
        Comes(USD_NODE, Fund(USD, 1, ALFA, 1200), Reply::Done),
        Comes(EUR_NODE, Fund(EUR, 1, BETA, 48), Reply::Done),
        Comes(ALFA, SELLS, Reply::Done),
        Comes(BETA, BUYS, Reply::Matched),
        Comes(OPERATOR, Settle(10), Reply::Settled(1)),
        Shows(Value(ALFA, 1_145_000_000)),
        Shows(Value(BETA, 440_000)),
        Shows(Queued(0)),
        Shows(At(0, None)),
    ];
    run(&rt, STEPS)
}
