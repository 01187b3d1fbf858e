//! Chaos: turns that the words of a generator choose.
ghost use Rattle.std.specs.Prelude.{◌≡◌, ◌≤◌, ◌<◌, ◌%◌, length, OnOk, OnErr};
ghost use Rattle.pvp_types.specs.Setup.{IsValid};
ghost use Rattle.pvp_play.specs.Chaos.{currency_count, any_member, any_currency, any_actor, any_reference, on_side, instruction, is_normal_at, are_normal, any_delivery, any_pay_in, any_pay_out, any_instruction, any_rescission, any_settlement, any_timer, any_crash, act_of, Does, Stops, Rages, RageStops};

use crate::player::Player;
use pvp_types::{Cmd, Instruction, Setup, Step};
use pvp_world::World;
use rand_core::utils::NextWord;
use rand_pcg::Lcg64Xsh32;
use std::alloc::{AllocError, Global};
use vr_types::{BootCell, FIRST_NODE, FIRST_SITE, Status};

/// What a turn of chaos does.
#[derive(Clone, Copy, Debug, PartialEq, Eq)]
pub enum Act {
    /// The next envelope that no cut holds up is delivered, if there is one.
    Drains,
    /// An envelope is passed over.
    Skips,
    /// A step is tried.
    Tries(Step),
    Rests,
}

/// Plays so many turns of chaos, as the seed has it. `Err` where memory is refused.
pub fn rage<C: BootCell>(
    alloc: Global,
    player: &mut Player<C>,
    seed: u64,
    turns: u32,
) -> Result<(), AllocError>
    ensures raged { OnOk result (Rages C.BootCell seed turns player.old player.new) }
    ensures stopped { OnErr result (RageStops C.BootCell seed turns player.old player.new) }
{
    let mut words = Lcg64Xsh32::new(seed, 1);
    for turn in 0..turns {
        let a = words.next_word();
        let b = words.next_word();
        let act = act_of(player.world(), a, b);
        do_act(alloc, player, act)?;
    }
    Ok(())
}

/// Does what a turn does. `Err` where memory is refused.
fn do_act<C: BootCell>(alloc: Global, player: &mut Player<C>, act: Act) -> Result<(), AllocError>
    ensures done { OnOk result (Does C.BootCell act player.old player.new) }
    ensures stopped { OnErr result (Stops C.BootCell act player.old player.new) }
{
    match act {
        Act::Drains => player.drain(alloc, 1),
        Act::Skips => {
            player.skip(1);
            Ok(())
        }
        Act::Tries(step) => {
            let _told = player.step(alloc, step)?;
            Ok(())
        }
        Act::Rests => Ok(()),
    }
}

/// What a turn does in a world: the first word chooses what, and the second to whom.
fn act_of<C: BootCell>(world: &World<C>, a: u32, b: u32) -> Act
    ensures { result ≡ act_of world.now a b }
{
    let setup = world.setup();
    match a % 32 {
        0..=15 => Act::Drains,
        16..=19 => any_delivery(world, b),
        20 => Act::Skips,
        21..=23 => Act::Tries(Step::Beat(any_actor(setup, b))),
        24 => Act::Tries(any_pay_in(setup, b)),
        25 => Act::Tries(any_pay_out(setup, b)),
        26 => Act::Tries(any_instruction(setup, b)),
        27 => Act::Tries(any_rescission(setup, b)),
        28 => Act::Tries(any_settlement(b)),
        29 => any_timer(setup, b),
        30 => any_crash(world, b),
        _ => Act::Tries(Step::Restart(any_site(setup, b))),
    }
}

/// The delivery of any envelope that was ever sent.
fn any_delivery<C: BootCell>(world: &World<C>, b: u32) -> Act
    ensures { result ≡ any_delivery world.now b }
{
    let sent = world.post_len();
    if sent == 0 {
        Act::Rests
    } else {
        Act::Tries(Step::Deliver(1 + b as usize % sent))
    }
}

/// A member pays in.
fn any_pay_in(setup: &Setup, b: u32) -> Step
    requires { IsValid setup.now }
    ensures { result ≡ any_pay_in setup.now b }
{
    Step::PayIn {
        ccy: any_currency(setup, b),
        member: any_member(setup, b),
        amt: u64::from(1 + b / 512 % 1000),
    }
}

/// A member asks for a payment.
fn any_pay_out(setup: &Setup, b: u32) -> Step
    requires { IsValid setup.now }
    ensures { result ≡ any_pay_out setup.now b }
{
    Step::Submit {
        client: any_member(setup, b),
        cmd: Cmd::PayOut {
            ccy: any_currency(setup, b),
            amt: u64::from(1 + b / 512 % 500),
        },
    }
}

/// A side of a trade enters its instruction.
fn any_instruction(setup: &Setup, b: u32) -> Step
    requires { IsValid setup.now }
    ensures { result ≡ any_instruction setup.now b }
{
    let reference = any_reference(b);
    Step::Submit {
        client: on_side(setup, reference, b % 2),
        cmd: instruction(setup, reference, b % 2),
    }
}

/// A side of a trade takes its instruction back.
fn any_rescission(setup: &Setup, b: u32) -> Step
    requires { IsValid setup.now }
    ensures { result ≡ any_rescission setup.now b }
{
    let reference = any_reference(b);
    Step::Submit {
        client: on_side(setup, reference, b % 2),
        cmd: Cmd::Rescind { reference },
    }
}

/// The operator asks to settle a few pairs.
fn any_settlement(b: u32) -> Step
    ensures { result ≡ any_settlement b }
{
    Step::Submit {
        client: 0,
        cmd: Cmd::Settle { most: 1 + b % 8 },
    }
}

/// The instruction of a side of the trade of a reference: each sells what the other buys.
fn instruction(setup: &Setup, reference: u32, side: u32) -> Cmd
    requires valid { IsValid setup.now }
    requires small { reference ≤ 200 }
    requires is_side { side < 2 }
    ensures { result ≡ instruction setup.now reference side }
{
    let currencies = u32::from(currency_count(setup));
    let first = (reference % currencies) as u8;
    let second = ((reference + 1) % currencies) as u8;
    let first_amt = u64::from(1 + 7 * reference % 100);
    let second_amt = u64::from(1 + 11 * reference % 100);
    let opening = Instruction {
        reference,
        other: on_side(setup, reference, 1),
        sell: first,
        buy: second,
        sell_amt: first_amt,
        buy_amt: second_amt,
    };
    if side == 0 {
        Cmd::Instruct(opening)
    } else {
        Cmd::Instruct(opening.mirror(on_side(setup, reference, 0)))
    }
}

/// The reference of one of the trades.
fn any_reference(b: u32) -> u32
    ensures is { result ≡ any_reference b }
    ensures small { result ≤ 200 }
{
    1 + b / 64 % 200
}

/// The member on a side of the trade of a reference.
fn on_side(setup: &Setup, reference: u32, side: u32) -> u16
    requires valid { IsValid setup.now }
    requires small { reference ≤ 200 }
    requires is_side { side < 2 }
    ensures { result ≡ on_side setup.now reference side }
{
    let members = u32::from(member_count(setup));
    1 + ((reference + side) % members) as u16
}

/// A member.
fn any_member(setup: &Setup, b: u32) -> u16
    requires { IsValid setup.now }
    ensures { result ≡ any_member setup.now b }
{
    let members = u32::from(member_count(setup));
    1 + (b % members) as u16
}

/// A currency.
fn any_currency(setup: &Setup, b: u32) -> u8
    requires { IsValid setup.now }
    ensures { result ≡ any_currency setup.now b }
{
    let currencies = u32::from(currency_count(setup));
    (b / 64 % currencies) as u8
}

/// An actor, among the sites, the nodes, the operator and the members.
fn any_actor(setup: &Setup, b: u32) -> u16
    requires { IsValid setup.now }
    ensures { result ≡ any_actor setup.now b }
{
    let sites = site_count(setup);
    let nodes = u16::from(currency_count(setup));
    let members = member_count(setup);
    let k = (b % u32::from(sites + nodes + 1 + members)) as u16;
    if k < sites {
        FIRST_SITE + k
    } else if k < sites + nodes {
        FIRST_NODE + (k - sites)
    } else {
        k - (sites + nodes)
    }
}

/// A site's timer runs out, in one of eight such turns.
fn any_timer(setup: &Setup, b: u32) -> Act
    requires { IsValid setup.now }
    ensures { result ≡ any_timer setup.now b }
{
    if b % 8 == 0 {
        Act::Tries(Step::Timer(any_site(setup, b / 8)))
    } else {
        Act::Rests
    }
}

/// A site falls, where all are normal.
fn any_crash<C: BootCell>(world: &World<C>, b: u32) -> Act
    ensures { result ≡ any_crash world.now b }
{
    if are_normal(world) {
        Act::Tries(Step::Crash(any_site(world.setup(), b)))
    } else {
        Act::Rests
    }
}

/// A site.
fn any_site(setup: &Setup, b: u32) -> u16
    requires { IsValid setup.now }
    ensures { result ≡ b % setup.now.sites }
{
    let sites = u32::from(site_count(setup));
    (b % sites) as u16
}

/// Whether every site is normal.
fn are_normal<C: BootCell>(world: &World<C>) -> bool
    ensures { result ≡ are_normal world.now }
{
    let sites = site_count(world.setup());
    for site in 0..sites {
        if !is_normal_at(world, site) {
            return false;
        }
    }
    true
}

/// Whether a site is there and normal.
fn is_normal_at<C: BootCell>(world: &World<C>, site: u16) -> bool
    ensures { result ≡ is_normal_at world.now site }
{
    match world.site(site) {
        Some(site) => matches!(site.status(), Status::Normal),
        None => false,
    }
}

/// How many sites there are.
fn site_count(setup: &Setup) -> u16
    requires { IsValid setup.now }
    ensures count { result ≡ setup.now.sites }
    ensures some { 1 ≤ result }
    ensures few { result ≤ 7 }
{
    2 * setup.faults() + 1
}

/// How many currencies there are.
fn currency_count(setup: &Setup) -> u8
    requires { IsValid setup.now }
    ensures count { result ≡ currency_count setup.now }
    ensures some { 1 ≤ result }
    ensures few { result ≤ 8 }
{
    setup.currency_count()
}

/// How many members there are.
fn member_count(setup: &Setup) -> u16
    requires { IsValid setup.now }
    ensures count { result ≡ length setup.now.members }
    ensures some { 1 ≤ result }
    ensures few { result ≤ 64 }
{
    setup.member_count()
}
