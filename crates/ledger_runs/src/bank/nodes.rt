//! The nodes, event by event: what they send, why they refuse, and what the accounts hold.
use fixtures::setup::three_currencies;
use pvp_book::{Book, has_member, node_of};
use pvp_types::{Cmd, PayOrder, Reply};
use rtgs_node::{Node, NodeFault, PayIn};
use std::alloc::Global;
use std::process::Abort;
use std::test::Fail;
use vr_types::{Commit, Envelope, EnvelopeOf, Msg, MsgOf, ReplyOf};

const USD: u8 = 1;

const JPY: u8 = 2;

const USD_NODE: u16 = 102;

const JPY_NODE: u16 = 103;

const ALFA: u16 = 1;

const BETA: u16 = 2;

/// What happens to a node.
#[derive(Clone, Copy)]
enum Does {
    PayIn(u16, u64),
    Close(u16),
    /// The answer to the request of a number.
    Reply(u32),
    /// An order of a number, for a member.
    Order(u32, u16, u64),
    Beat,
}

/// What a node is given or asked, and what comes of it.
#[derive(Clone, Copy)]
enum Step {
    /// An event, why the node refuses it or how many envelopes it sends, and what the bank's account and ALFA's then hold.
    Comes(Does, Result<usize, NodeFault>, u64, u64),
    /// The event comes so often, and is not refused.
    Often(Does, u32),
    /// Orders of 1 for ALFA come that have each number from 1 up to so many, the seventh for BETA; none is refused.
    Orders(u32),
    /// A commit comes to it, which is refused.
    RefusesCommit(NodeFault),
    /// An order number 1 comes, sent to this actor: its currency, its member and its amount, and why it is refused.
    Refuses(u16, u8, u16, u64, NodeFault),
    /// Its next beat sends the request of this number, which asks so.
    Tells(u32, Cmd),
    /// How many orders it has paid, and how many returned.
    Has(usize, usize),
    /// The payments in that it made.
    PayIns(&'static [PayIn]),
    /// The payments out that it made.
    PayOuts(&'static [PayOrder]),
}

/// The node of a currency of the small bank.
fn node(alloc: Global, ccy: u8) -> Result<Node, Fail> {
    if ccy > JPY {
        return Err(Fail::new("no such currency"));
    }
    Ok(Node::new(alloc, &three_currencies(alloc)?, ccy)?)
}

/// An envelope of the primary's to a node.
fn to_node(node: u16, msg: Msg<Book>) -> Envelope<Book> {
    EnvelopeOf {
        from: 200,
        to: node,
        msg,
    }
}

fn reply(number: u32) -> Msg<Book> {
    MsgOf::Reply(ReplyOf {
        view: 0,
        number,
        reply: Reply::Done,
    })
}

fn order_of(ccy: u8, out: u32, member: u16, amt: u64) -> Msg<Book> {
    MsgOf::PayOrder(PayOrder {
        ccy,
        out,
        member,
        amt,
    })
}

/// What comes of an event at a currency's node: how many envelopes it sends.
fn done(node: &mut Node, ccy: u8, event: Does) -> Result<usize, NodeFault> {
    let sent = match event {
        Does::PayIn(member, amt) => node.pay_in(member, amt)?,
        Does::Close(member) => {
            node.close_member(member)?;
            return Ok(0);
        }
        Does::Reply(number) => node.take(to_node(node_of(ccy), reply(number)))?,
        Does::Order(out, member, amt) => {
            node.take(to_node(node_of(ccy), order_of(ccy, out, member, amt)))?
        }
        Does::Beat => node.beat()?,
    };
    Ok(sent.len())
}

/// What ALFA's account holds.
fn alfas(rt: &impl Abort, node: &Node) -> u64 {
    assert!(rt; has_member(node.setup(), ALFA));
    node.member_account(ALFA)
}

/// An event comes out so.
fn comes(
    rt: &impl Abort,
    node: &mut Node,
    ccy: u8,
    event: Does,
    outcome: Result<usize, NodeFault>,
) {
    assert!(rt; done(node, ccy, event) == outcome);
}

/// The bank's account and ALFA's hold so much.
fn holds(rt: &impl Abort, node: &Node, account: u64, alfas_account: u64) {
    assert!(rt; (node.account(), alfas(rt, node)) == (account, alfas_account));
}

/// The event comes so often.
fn come_often(node: &mut Node, ccy: u8, event: Does, count: u32) -> Result<(), Fail> {
    for _ in 0..count {
        done(node, ccy, event)?;
    }
    Ok(())
}

/// Orders of each number up to so many come, the seventh for BETA and each other for ALFA.
fn order_up_to(node: &mut Node, ccy: u8, count: u32) -> Result<(), Fail> {
    for out in 1..=count {
        let member = if out == 7 { BETA } else { ALFA };
        done(node, ccy, Does::Order(out, member, 1))?;
    }
    Ok(())
}

/// An envelope is refused.
fn is_refused(rt: &impl Abort, node: &mut Node, envelope: Envelope<Book>, fault: NodeFault) {
    assert!(rt; node.take(envelope).err() == Some(fault));
}

/// A commit for a currency's node.
fn commit_to(ccy: u8) -> Envelope<Book> {
    to_node(node_of(ccy), MsgOf::Commit(Commit { view: 0, done: 0 }))
}

/// Whether an envelope is this request of USD's node, to this site.
fn is_asked(envelope: &Envelope<Book>, site: u16, wanted: u32, notice: Cmd) -> bool {
    match &envelope.msg {
        MsgOf::Request(msg) => {
            envelope.from == USD_NODE
                && envelope.to == site
                && msg.number == wanted
                && msg.cmd == notice
        }
        _ => false,
    }
}

/// Whether what was sent is this request of USD's node, to each of three sites.
fn asks(sent: &[Envelope<Book>], wanted: u32, notice: Cmd) -> bool {
    match sent {
        [first, second, third] => {
            is_asked(first, 200, wanted, notice)
                && is_asked(second, 201, wanted, notice)
                && is_asked(third, 202, wanted, notice)
        }
        _ => false,
    }
}

/// The next beat asks so.
fn tells(rt: &impl Abort, node: &Node, number: u32, notice: Cmd) -> Result<(), Fail> {
    assert!(rt; asks(node.beat()?.as_slice(), number, notice));
    Ok(())
}

/// A node shows this of its payments.
fn shows(rt: &impl Abort, node: &Node, step: Step) {
    match step {
        Step::Has(paid, returned) => {
            assert!(rt; (node.pay_outs().len(), node.returned()) == (paid, returned))
        }
        Step::PayIns(wanted) => assert!(rt; node.pay_ins() == wanted),
        Step::PayOuts(wanted) => assert!(rt; node.pay_outs() == wanted),
        _ => {}
    }
}

/// A currency's node goes a step.
fn go_one(rt: &impl Abort, node: &mut Node, ccy: u8, step: Step) -> Result<(), Fail> {
    match step {
        Step::Comes(event, outcome, account, alfas_account) => {
            comes(rt, node, ccy, event, outcome);
            holds(rt, node, account, alfas_account);
        }
        Step::Often(event, count) => come_often(node, ccy, event, count)?,
        Step::Orders(count) => order_up_to(node, ccy, count)?,
        Step::RefusesCommit(fault) => is_refused(rt, node, commit_to(ccy), fault),
        Step::Refuses(to, of, member, amt, fault) => {
            is_refused(rt, node, to_node(to, order_of(of, 1, member, amt)), fault)
        }
        Step::Tells(number, notice) => tells(rt, node, number, notice)?,
        Step::Has(..) | Step::PayIns(_) | Step::PayOuts(_) => shows(rt, node, step),
    }
    Ok(())
}

/// A currency's node goes steps in turn.
fn go(rt: &impl Abort, node: &mut Node, ccy: u8, steps: &[Step]) -> Result<(), Fail> {
    for step in steps {
        go_one(rt, node, ccy, *step)?;
    }
    Ok(())
}

/// A currency's new node goes these steps.
fn run<R: Abort + AllocGlobal>(rt: &R, ccy: u8, steps: &[Step]) -> Result<(), Fail> {
    go(rt, &mut node(rt.alloc(), ccy)?, ccy, steps)
}

#[test]
fn pays_each_order_once(rt: HostRuntime) -> Result<(), Fail> {
    const STEPS: &[Step] = &[
        Step::Comes(Does::PayIn(ALFA, 1200), Ok(3), 1200, 8800),
        Step::Comes(Does::PayIn(ALFA, 8801), Err(NodeFault::Short), 1200, 8800),
        Step::Comes(Does::PayIn(ALFA, 300), Ok(0), 1500, 8500),
        Step::Comes(Does::Reply(1), Ok(3), 1500, 8500),
        Step::Comes(Does::Reply(1), Ok(0), 1500, 8500),
        Step::Comes(Does::Order(1, ALFA, 200), Ok(0), 1300, 8700),
        Step::Comes(Does::Order(1, ALFA, 200), Ok(0), 1300, 8700),
        Step::Comes(Does::Order(2, ALFA, 200), Ok(0), 1100, 8900),
        Step::Comes(
            Does::Order(3, ALFA, 1101),
            Err(NodeFault::Short),
            1100,
            8900,
        ),
        Step::Comes(Does::Beat, Ok(3), 1100, 8900),
    ];
    run(&rt, USD, STEPS)
}

#[test]
fn returns_the_orders_of_a_closed_account_once(rt: HostRuntime) -> Result<(), Fail> {
    const STEPS: &[Step] = &[
        Step::Comes(Does::PayIn(ALFA, 1200), Ok(3), 1200, 8800),
        Step::Comes(Does::Order(1, ALFA, 200), Ok(0), 1000, 9000),
        Step::Comes(Does::Close(3), Err(NodeFault::UnknownMember), 1000, 9000),
        Step::Comes(Does::Close(ALFA), Ok(0), 1000, 9000),
        Step::Comes(Does::Close(ALFA), Err(NodeFault::Closed), 1000, 9000),
        Step::Comes(Does::PayIn(ALFA, 0), Err(NodeFault::BadAmount), 1000, 9000),
        Step::Comes(Does::PayIn(ALFA, 5), Err(NodeFault::Closed), 1000, 9000),
        Step::Comes(Does::Order(2, ALFA, 9999), Ok(0), 1000, 9000),
        Step::Comes(Does::Order(2, ALFA, 9999), Ok(0), 1000, 9000),
        Step::Comes(Does::Order(1, ALFA, 200), Ok(0), 1000, 9000),
        Step::Comes(Does::Reply(1), Ok(3), 1000, 9000),
        Step::Comes(Does::Reply(2), Ok(3), 1000, 9000),
        Step::Comes(Does::Reply(3), Ok(0), 1000, 9000),
        Step::Comes(Does::Beat, Ok(0), 1000, 9000),
        Step::Has(1, 1),
    ];
    run(&rt, USD, STEPS)
}

#[test]
fn refuses_a_pay_in_in_order(rt: HostRuntime) -> Result<(), Fail> {
    const MOST: u64 = 1_000_000_000_000;
    const STEPS: &[Step] = &[
        Step::Comes(Does::Close(BETA), Ok(0), 0, 10_000),
        Step::Comes(Does::PayIn(3, 0), Err(NodeFault::UnknownMember), 0, 10_000),
        Step::Comes(Does::PayIn(0, 5), Err(NodeFault::UnknownMember), 0, 10_000),
        Step::Comes(Does::PayIn(BETA, 0), Err(NodeFault::BadAmount), 0, 10_000),
        Step::Comes(
            Does::PayIn(BETA, MOST + 1),
            Err(NodeFault::BadAmount),
            0,
            10_000,
        ),
        Step::Comes(Does::PayIn(BETA, MOST), Err(NodeFault::Closed), 0, 10_000),
        Step::Comes(Does::PayIn(ALFA, 10_001), Err(NodeFault::Short), 0, 10_000),
        Step::Comes(Does::PayIn(ALFA, 10_000), Ok(3), 10_000, 0),
    ];
    run(&rt, USD, STEPS)
}

#[test]
fn refuses_an_envelope_in_order(rt: HostRuntime) -> Result<(), Fail> {
    const STEPS: &[Step] = &[
        Step::RefusesCommit(NodeFault::NotMine),
        Step::Refuses(JPY_NODE, JPY, ALFA, 5, NodeFault::NotMine),
        Step::Refuses(USD_NODE, JPY, 3, 0, NodeFault::NotMine),
        Step::Refuses(USD_NODE, USD, 3, 0, NodeFault::UnknownMember),
        Step::Refuses(USD_NODE, USD, ALFA, 0, NodeFault::BadAmount),
        Step::Refuses(USD_NODE, USD, ALFA, 1, NodeFault::Short),
    ];
    run(&rt, USD, STEPS)
}

/// USD's node asks for each payment until it is answered.
#[test]
fn tells_the_bank_of_each_payment(rt: HostRuntime) -> Result<(), Fail> {
    const FUND: Cmd = Cmd::Fund {
        ccy: USD,
        pay: 1,
        member: ALFA,
        amt: 1200,
    };
    const PAID: Cmd = Cmd::Paid { ccy: USD, out: 1 };
    const RETURNED: Cmd = Cmd::Returned { ccy: USD, out: 2 };
    const STEPS: &[Step] = &[
        Step::Often(Does::PayIn(ALFA, 1200), 1),
        Step::Tells(1, FUND),
        Step::Often(Does::Order(1, ALFA, 200), 1),
        Step::Tells(1, FUND),
        Step::Often(Does::Reply(1), 1),
        Step::Tells(2, PAID),
        Step::Often(Does::Close(ALFA), 1),
        Step::Tells(2, PAID),
        Step::Often(Does::Order(2, ALFA, 200), 1),
        Step::Tells(2, PAID),
        Step::Often(Does::Reply(2), 1),
        Step::Tells(3, RETURNED),
    ];
    run(&rt, USD, STEPS)
}

#[test]
fn shows_its_payments(rt: HostRuntime) -> Result<(), Fail> {
    const PAY_INS: &[PayIn] = &[PayIn {
        member: BETA,
        amt: 5,
    }];
    const PAY_OUTS: &[PayOrder] = &[PayOrder {
        ccy: USD,
        out: 1,
        member: ALFA,
        amt: 4,
    }];
    const STEPS: &[Step] = &[
        Step::Often(Does::PayIn(BETA, 5), 1),
        Step::Often(Does::Order(1, ALFA, 4), 1),
        Step::PayIns(PAY_INS),
        Step::PayOuts(PAY_OUTS),
    ];
    run(&rt, USD, STEPS)
}

/// JPY's node pays in and out until its numbers are used up.
#[test]
fn runs_out_of_numbers(rt: HostRuntime) -> Result<(), Fail> {
    const STEPS: &[Step] = &[
        Step::Often(Does::PayIn(ALFA, 2), 65_535),
        Step::Often(Does::Close(BETA), 1),
        Step::Orders(65_535),
        Step::Comes(Does::PayIn(ALFA, 2), Err(NodeFault::Spent), 65_536, 934_464),
        Step::Comes(
            Does::Order(65_536, ALFA, 1),
            Err(NodeFault::Spent),
            65_536,
            934_464,
        ),
        Step::Has(65_534, 1),
    ];
    run(&rt, JPY, STEPS)
}
