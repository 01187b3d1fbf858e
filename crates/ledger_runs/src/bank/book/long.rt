//! A run of 60,000 rows, with what they come to.
use super::*;

/// Commands that come again and again, each time with the next number.
#[derive(Clone, Copy)]
pub(super) enum Many {
    /// EUR 3 come to ALFA, which has EUR 1 of them paid out.
    PayInAndOut,
    /// The node pays the oldest order of an even number.
    PayEven,
    /// The node returns each second order down from one of a number.
    ReturnDown(u32),
    /// A pair is agreed: ALFA sells BETA EUR 1 for USD 1, which comes to BETA before.
    Agree,
    /// Both sides take the oldest pair of an even number back.
    RescindEven,
    /// A walk for one pair, which settles so many.
    Walk(u32),
}

/// EUR 3 come to ALFA, which has EUR 1 of them paid out.
fn pay_in_and_out(rt: &impl Abort, book: &mut Book, n: u32) -> Result<(), Fail> {
    comes(rt, book, EUR_NODE, Fund(EUR, n, ALFA, 3), Reply::Done)?;
    comes(rt, book, ALFA, PayOut(EUR, 1), Reply::Order(n))
}

/// ALFA sells BETA EUR 1 for USD 1, which comes to BETA before.
fn agree(rt: &impl Abort, book: &mut Book, n: u32) -> Result<(), Fail> {
    let sells = Instruct(n, BETA, (EUR, 1), (USD, 1));
    let buys = Instruct(n, ALFA, (USD, 1), (EUR, 1));
    comes(rt, book, USD_NODE, Fund(USD, n, BETA, 1), Reply::Done)?;
    comes(rt, book, ALFA, sells, Reply::Done)?;
    comes(rt, book, BETA, buys, Reply::Matched)
}

/// Both sides take a pair back.
fn rescind(rt: &impl Abort, book: &mut Book, reference: u32) -> Result<(), Fail> {
    comes(rt, book, ALFA, Rescind(reference), Reply::Done)?;
    comes(rt, book, BETA, Rescind(reference), Reply::Done)
}

/// They come, the nth time.
fn come(rt: &impl Abort, book: &mut Book, many: Many, n: u32) -> Result<(), Fail> {
    let even = n.wrapping_mul(2);
    match many {
        Many::PayInAndOut => pay_in_and_out(rt, book, n),
        Many::PayEven => comes(rt, book, EUR_NODE, Paid(EUR, even), Reply::Done),
        Many::ReturnDown(from) => {
            let out = from.wrapping_add(2).wrapping_sub(even);
            comes(rt, book, EUR_NODE, Returned(EUR, out), Reply::Done)
        }
        Many::Agree => agree(rt, book, n),
        Many::RescindEven => rescind(rt, book, even),
        Many::Walk(settled) => comes(rt, book, OPERATOR, Settle(1), Reply::Settled(settled)),
    }
}

/// They come so many times.
pub(super) fn come_often(
    rt: &impl Abort,
    book: &mut Book,
    many: Many,
    count: u32,
) -> Result<(), Fail> {
    for n in 1..=count {
        come(rt, book, many, n)?;
    }
    Ok(())
}

/// 60,000 rows, and what the book has on the way and in the end.
#[test]
fn keeps_60_000_rows(rt: HostRuntime) -> Result<(), Fail> {
    const STEPS: &[Step] = &[
        Often(Many::PayInAndOut, 20_000),
        Shows(OpenCount(20_000)),
        Shows(Sent(0, 1)),
        Shows(Sent(19_999, 20_000)),
        Shows(Open(20_000, None)),
        Often(Many::PayEven, 10_000),
        Often(Many::ReturnDown(19_999), 5_000),
        Shows(OpenCount(5_000)),
        Shows(Sent(0, 1)),
        Shows(Sent(4_999, 9_999)),
        Shows(Open(5_000, None)),
        Often(Many::Agree, 1_000),
        Often(Many::RescindEven, 500),
        Shows(Queued(500)),
        Shows(At(499, Some(999))),
        Shows(Count(PairState::Settled, 0)),
        Shows(Count(PairState::Rescinded, 500)),
        Often(Many::Walk(1), 500),
        Often(Many::Walk(0), 500),
        Shows(Applied(60_000)),
        Shows(Queued(0)),
        Shows(At(usize::MAX, None)),
        Shows(Count(PairState::Settled, 500)),
        Shows(Count(PairState::Rescinded, 500)),
        Shows(Balance(ALFA, EUR, 44_500)),
        Shows(Balance(BETA, EUR, 500)),
        Shows(Balance(ALFA, USD, 500)),
        Shows(Balance(BETA, USD, 500)),
        Shows(Figure(EUR, 45_000)),
        Shows(Value(ALFA, 47_002_500_000)),
    ];
    run(&rt, STEPS)
}
