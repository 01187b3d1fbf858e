//! What is on the way between a node and the sites' books, added up payment by payment at several
//! moments of a run: the node's account is the figure of each book and what is on the way to it.
use crate::bank::world::{run, world};
use pvp_book::Book;
use pvp_types::{Cmd, Step};
use pvp_world::World;
use rtgs_node::Node;
use std::alloc::Global;
use std::process::Abort;
use std::test::Fail;
use vr_types::MemCell;

const USD: u8 = 1;

const USD_NODE: u16 = 102;

/// The amounts that a node was paid and that a book has not credited.
fn to_be_credited(node: &Node, book: &Book) -> u64 {
    let mut sum = 0u64;
    let mut number = 0u32;
    for paid in node.pay_ins() {
        number = number.saturating_add(1);
        if !book.paid_in(USD, number) {
            sum = sum.saturating_add(paid.amt);
        }
    }
    sum
}

/// Whether a node has paid the order of a number.
fn has_paid(node: &Node, out: u32) -> bool {
    node.pay_outs().iter().any(|done| done.out == out)
}

/// The amounts of a book's orders that are not returned there and that the node has not paid.
fn to_be_paid(node: &Node, book: &Book) -> u64 {
    let mut sum = 0u64;
    for at in 0..book.open_count() {
        if let Some((client, order)) = book.open(at) {
            if client == USD_NODE && !has_paid(node, order.out) {
                sum = sum.saturating_add(order.amt);
            }
        }
    }
    sum
}

/// The amounts that a node has paid for orders that are not in a book yet.
fn paid_ahead(node: &Node, book: &Book) -> u64 {
    let mut sum = 0u64;
    for done in node.pay_outs() {
        if done.out > book.orders(USD) {
            sum = sum.saturating_add(done.amt);
        }
    }
    sum
}

/// What is on the way between a node and a book.
fn way(node: &Node, book: &Book) -> i128 {
    let open = to_be_credited(node, book).saturating_add(to_be_paid(node, book));
    i128::from(open) - i128::from(paid_ahead(node, book))
}

/// Steps that are taken, what the node's account then holds, and of each site the figure of its
/// book and what is on the way to it.
#[derive(Clone, Copy)]
struct Moment(&'static [Step], u64, [(i64, i128); 3]);

/// What the node's account holds, the figure of a site's book, and what is on the way to it.
fn found(world: &World<MemCell>, site: u16) -> Option<(u64, i64, i128)> {
    let node = world.node(USD)?;
    let book = world.site(site)?.machine()?;
    Some((node.account(), book.figure(USD), way(node, book)))
}

/// Whether an account is a figure and what is on the way.
fn adds_up(account: u64, figure: i64, way: i128) -> bool {
    i128::from(account) - i128::from(figure) == way
}

/// The account holds so much, which is the figure of a site's book and what is on the way to it.
fn stands(rt: &impl Abort, world: &World<MemCell>, site: u16, account: u64, shares: (i64, i128)) {
    let (figure, way) = shares;
    assert!(rt;
        found(world, site) == Some((account, figure, way)),
        "site {site}"
    );
    assert!(rt; adds_up(account, figure, way), "site {site}");
}

/// The steps up to each of these moments are taken, and each site then stands so.
fn pass(rt: &impl Abort, alloc: Global, world: &mut World<MemCell>, moments: &[Moment]) {
    for moment in moments {
        let Moment(steps, account, [first, second, third]) = *moment;
        run(rt, alloc, world, steps, Ok(()));
        stands(rt, world, 0, account, first);
        stands(rt, world, 1, account, second);
        stands(rt, world, 2, account, third);
    }
}

/// ALFA pays 1200 in, and BETA 300.
const ALFA_PAYS: Step = Step::PayIn {
    ccy: USD,
    member: 1,
    amt: 1200,
};

const BETA_PAYS: Step = Step::PayIn {
    ccy: USD,
    member: 2,
    amt: 300,
};

/// ALFA asks for 200, and BETA for 100.
const ALFA_ASKS: Step = Step::Submit {
    client: 1,
    cmd: Cmd::PayOut { ccy: USD, amt: 200 },
};

const BETA_ASKS: Step = Step::Submit {
    client: 2,
    cmd: Cmd::PayOut { ccy: USD, amt: 100 },
};

/// BETA's account is closed.
const BETA_GOES: Step = Step::Close {
    ccy: USD,
    member: 2,
};

/// Two pay-ins are told one after the other. The order of 200 is paid before site 1 has executed
/// it, and before the second pay-in is credited.
const PAID: &[Moment] = &[
    Moment(&[], 0, [(0, 0), (0, 0), (0, 0)]),
    Moment(&[ALFA_PAYS], 1200, [(0, 1200), (0, 1200), (0, 1200)]),
    Moment(
        &[Step::Deliver(1), Step::Deliver(4), Step::Deliver(6)],
        1200,
        [(1200, 0), (0, 1200), (0, 1200)],
    ),
    Moment(&[BETA_PAYS], 1500, [(1200, 300), (0, 1500), (0, 1500)]),
    Moment(
        &[
            ALFA_ASKS,
            Step::Deliver(8),
            Step::Deliver(11),
            Step::Deliver(13),
        ],
        1500,
        [(1000, 500), (1200, 300), (0, 1500)],
    ),
    Moment(
        &[Step::Beat(200), Step::Deliver(17)],
        1300,
        [(1000, 300), (1200, 100), (0, 1300)],
    ),
    Moment(
        &[
            Step::Deliver(7),
            Step::Deliver(18),
            Step::Deliver(21),
            Step::Deliver(23),
        ],
        1300,
        [(1300, 0), (1000, 300), (0, 1300)],
    ),
];

/// BETA's account is closed before its order of 100 comes, which is returned. Then the end of the
/// order of 200 is told, and that of this one.
const RETURNED: &[Moment] = &[
    Moment(
        &[
            BETA_GOES,
            BETA_ASKS,
            Step::Deliver(25),
            Step::Deliver(28),
            Step::Deliver(30),
        ],
        1300,
        [(1200, 100), (1300, 0), (0, 1300)],
    ),
    Moment(
        &[
            Step::Beat(200),
            Step::Deliver(34),
            Step::Deliver(35),
            Step::Deliver(32),
        ],
        1300,
        [(1200, 100), (1200, 100), (0, 1300)],
    ),
    Moment(
        &[
            Step::Deliver(24),
            Step::Deliver(36),
            Step::Deliver(39),
            Step::Deliver(41),
        ],
        1300,
        [(1200, 100), (1200, 100), (0, 1300)],
    ),
    Moment(
        &[
            Step::Deliver(42),
            Step::Deliver(43),
            Step::Deliver(46),
            Step::Deliver(48),
        ],
        1300,
        [(1300, 0), (1200, 100), (0, 1300)],
    ),
];

/// The last site, which has taken nothing so far, executes row after row; then all have.
const CAUGHT_UP: &[Moment] = &[
    Moment(
        &[Step::Deliver(5), Step::Deliver(12)],
        1300,
        [(1300, 0), (1200, 100), (1200, 100)],
    ),
    Moment(
        &[Step::Deliver(22)],
        1300,
        [(1300, 0), (1200, 100), (1000, 300)],
    ),
    Moment(
        &[Step::Deliver(29)],
        1300,
        [(1300, 0), (1200, 100), (1300, 0)],
    ),
    Moment(
        &[Step::Deliver(40)],
        1300,
        [(1300, 0), (1200, 100), (1200, 100)],
    ),
    Moment(
        &[
            Step::Deliver(47),
            Step::Beat(200),
            Step::Deliver(56),
            Step::Deliver(57),
        ],
        1300,
        [(1300, 0), (1300, 0), (1300, 0)],
    ),
];

#[test]
fn an_account_is_a_figure_and_what_is_on_the_way(rt: HostRuntime) -> Result<(), Fail> {
    let alloc = rt.alloc();
    let mut world = world(alloc)?;
    pass(&rt, alloc, &mut world, PAID);
    pass(&rt, alloc, &mut world, RETURNED);
    pass(&rt, alloc, &mut world, CAUGHT_UP);
    Ok(())
}
