//! Fields that take no memory: each is read from the front of the bytes, and answered with the bytes after it.
ghost use Rattle.std.specs.Prelude.{◌≡◌, ◌≤◌, false, IfOk};
ghost use Rattle.vr_types.specs.Actors.{is_actor, is_client};
ghost use Rattle.vr_types.specs.declared.limits.TheConstants.{MOST_SITES};
ghost use Rattle.pvp_types.specs.declared.command.Cmd.TheVariants.{Instruct, Fund, PayOut, Paid, Returned};
ghost use Rattle.pvp_wire.specs.Shape.{number_at, listed_at, as_part};
ghost use Rattle.pvp_wire.specs.Layout as layout;
ghost use Rattle.pvp_wire.specs.Layout.{is_site_count, command_at, reason_at, reply_at};
ghost use Rattle.pvp_wire.specs.Reading.{Finds};

use crate::admitted::is_site_count;
use crate::fault::WireFault;
use crate::stamped::Stamp;
use byteorder::{BigEndian, ByteOrder};
use pvp_types::{Cmd, Instruction, PayOrder, Reason, Reply};
use vr_types::{RowOf, is_actor, is_client};

/// A number of one byte.
pub fn u8_at(bytes: &[u8]) -> Result<(u8, &[u8]), WireFault>
    ensures { Finds (λ x. (x.0, x.1.now)) result (number_at 1 bytes.now) }
{
    match bytes {
        [] => Err(WireFault::Length),
        [number, rest @ ..] => Ok((*number, rest)),
    }
}

/// A number of two bytes, high byte first; `Length` where there are fewer bytes. It takes no memory.
pub fn u16_at(bytes: &[u8]) -> Result<(u16, &[u8]), WireFault>
    ensures { Finds (λ x. (x.0, x.1.now)) result (number_at 2 bytes.now) }
{
    if bytes.len() < 2 {
        return Err(WireFault::Length);
    }
    Ok((BigEndian::read_u16(bytes), &bytes[2..]))
}

/// A number of four bytes, high byte first; `Length` where there are fewer bytes. It takes no memory.
pub fn u32_at(bytes: &[u8]) -> Result<(u32, &[u8]), WireFault>
    ensures { Finds (λ x. (x.0, x.1.now)) result (number_at 4 bytes.now) }
{
    if bytes.len() < 4 {
        return Err(WireFault::Length);
    }
    Ok((BigEndian::read_u32(bytes), &bytes[4..]))
}

/// A number of eight bytes, high byte first; `Length` where there are fewer bytes. It takes no memory.
pub fn u64_at(bytes: &[u8]) -> Result<(u64, &[u8]), WireFault>
    ensures { Finds (λ x. (x.0, x.1.now)) result (number_at 8 bytes.now) }
{
    if bytes.len() < 8 {
        return Err(WireFault::Length);
    }
    Ok((BigEndian::read_u64(bytes), &bytes[8..]))
}

/// The number of a client: the operator, a member or a node.
pub fn client_at(bytes: &[u8]) -> Result<(u16, &[u8]), WireFault>
    ensures { Finds (λ x. (x.0, x.1.now)) result (listed_at 2 is_client bytes.now) }
{
    let (client, rest) = u16_at(bytes)?;
    if !is_client(client) {
        return Err(WireFault::Field);
    }
    Ok((client, rest))
}

/// The number of an actor: a client or a site.
pub fn actor_at(bytes: &[u8]) -> Result<(u16, &[u8]), WireFault>
    ensures { Finds (λ x. (x.0, x.1.now)) result (listed_at 2 is_actor bytes.now) }
{
    let (actor, rest) = u16_at(bytes)?;
    if !is_actor(actor) {
        return Err(WireFault::Field);
    }
    Ok((actor, rest))
}

/// The number of sites in a list of boot numbers: 1 to 7.
pub fn site_count_at(bytes: &[u8]) -> Result<(u8, &[u8]), WireFault>
    ensures finds { Finds (λ x. (x.0, x.1.now)) result (listed_at 1 is_site_count bytes.now) }
    ensures few { IfOk result (λ x. x.0 ≤ MOST_SITES) }
{
    let (count, rest) = u8_at(bytes)?;
    if !is_site_count(usize::from(count)) {
        return Err(WireFault::Field);
    }
    Ok((count, rest))
}

/// The fields of an instruction.
fn instruct_at(bytes: &[u8]) -> Result<(Cmd, &[u8]), WireFault>
    ensures { Finds (λ x. (x.0, x.1.now)) result
        (as_part Instruct (layout.instruct.read false bytes.now)) }
{
    let (reference, rest) = u32_at(bytes)?;
    let (other, rest) = u16_at(rest)?;
    let (sell, rest) = u8_at(rest)?;
    let (sell_amt, rest) = u64_at(rest)?;
    let (buy, rest) = u8_at(rest)?;
    let (buy_amt, rest) = u64_at(rest)?;
    let cmd = Cmd::Instruct(Instruction {
        reference,
        other,
        sell,
        sell_amt,
        buy,
        buy_amt,
    });
    Ok((cmd, rest))
}

/// The fields of a node's report of a pay-in.
fn fund_at(bytes: &[u8]) -> Result<(Cmd, &[u8]), WireFault>
    ensures { Finds (λ x. (x.0, x.1.now)) result
        (as_part (λ f. Fund f.0 f.1 f.2 f.3) (layout.fund.read false bytes.now)) }
{
    let (ccy, rest) = u8_at(bytes)?;
    let (pay, rest) = u32_at(rest)?;
    let (member, rest) = u16_at(rest)?;
    let (amt, rest) = u64_at(rest)?;
    let cmd = Cmd::Fund {
        ccy,
        pay,
        member,
        amt,
    };
    Ok((cmd, rest))
}

/// The fields of a request for a pay-out.
fn pay_out_at(bytes: &[u8]) -> Result<(Cmd, &[u8]), WireFault>
    ensures { Finds (λ x. (x.0, x.1.now)) result
        (as_part (λ a. PayOut a.0 a.1) (layout.amount.read false bytes.now)) }
{
    let (ccy, rest) = u8_at(bytes)?;
    let (amt, rest) = u64_at(rest)?;
    Ok((Cmd::PayOut { ccy, amt }, rest))
}

/// The fields of a node's report that it paid an order.
fn paid_at(bytes: &[u8]) -> Result<(Cmd, &[u8]), WireFault>
    ensures { Finds (λ x. (x.0, x.1.now)) result
        (as_part (λ o. Paid o.0 o.1) (layout.order_number.read false bytes.now)) }
{
    let (ccy, rest) = u8_at(bytes)?;
    let (out, rest) = u32_at(rest)?;
    Ok((Cmd::Paid { ccy, out }, rest))
}

/// The fields of a node's report that it returned an order.
fn returned_at(bytes: &[u8]) -> Result<(Cmd, &[u8]), WireFault>
    ensures { Finds (λ x. (x.0, x.1.now)) result
        (as_part (λ o. Returned o.0 o.1) (layout.order_number.read false bytes.now)) }
{
    let (ccy, rest) = u8_at(bytes)?;
    let (out, rest) = u32_at(rest)?;
    Ok((Cmd::Returned { ccy, out }, rest))
}

/// A command: its tag, then its fields.
#[tactic(auto, unfolding(crate::specs::Layout::command_at))]
pub fn command_at(bytes: &[u8]) -> Result<(Cmd, &[u8]), WireFault>
    ensures { Finds (λ x. (x.0, x.1.now)) result (command_at bytes.now) }
{
    match bytes {
        [] => Err(WireFault::Length),
        [1, rest @ ..] => instruct_at(rest),
        [2, rest @ ..] => {
            let (reference, rest) = u32_at(rest)?;
            Ok((Cmd::Rescind { reference }, rest))
        }
        [3, rest @ ..] => fund_at(rest),
        [4, rest @ ..] => {
            let (most, rest) = u32_at(rest)?;
            Ok((Cmd::Settle { most }, rest))
        }
        [5, rest @ ..] => pay_out_at(rest),
        [6, rest @ ..] => paid_at(rest),
        [7, rest @ ..] => returned_at(rest),
        [_, ..] => Err(WireFault::Field),
    }
}

/// A reason by the number of its code.
fn reason_at(bytes: &[u8]) -> Result<(Reason, &[u8]), WireFault>
    ensures { Finds (λ x. (x.0, x.1.now)) result (reason_at bytes.now) }
{
    let (number, rest) = u8_at(bytes)?;
    let reason = match number {
        1 => Reason::NotYours,
        2 => Reason::UnknownMember,
        3 => Reason::UnknownCurrency,
        4 => Reason::BadAmount,
        5 => Reason::Repeated,
        6 => Reason::Mismatch,
        7 => Reason::UnknownReference,
        8 => Reason::Late,
        9 => Reason::Short,
        10 => Reason::TestFails,
        11 => Reason::BankShort,
        _ => return Err(WireFault::Field),
    };
    Ok((reason, rest))
}

/// An answer: its tag, then its field.
#[tactic(auto, unfolding(crate::specs::Layout::reply_at))]
pub fn reply_at(bytes: &[u8]) -> Result<(Reply, &[u8]), WireFault>
    ensures { Finds (λ x. (x.0, x.1.now)) result (reply_at bytes.now) }
{
    match bytes {
        [] => Err(WireFault::Length),
        [1, rest @ ..] => Ok((Reply::Done, rest)),
        [2, rest @ ..] => Ok((Reply::Matched, rest)),
        [3, rest @ ..] => {
            let (count, rest) = u32_at(rest)?;
            Ok((Reply::Settled(count), rest))
        }
        [4, rest @ ..] => {
            let (out, rest) = u32_at(rest)?;
            Ok((Reply::Order(out), rest))
        }
        [5, rest @ ..] => {
            let (reason, rest) = reason_at(rest)?;
            Ok((Reply::No(reason), rest))
        }
        [_, ..] => Err(WireFault::Field),
    }
}

/// A pay-out's order.
#[tactic(auto, unfolding(crate::specs::Layout::order))]
pub fn order_at(bytes: &[u8]) -> Result<(PayOrder, &[u8]), WireFault>
    ensures { Finds (λ x. (x.0, x.1.now)) result (layout.order.read false bytes.now) }
{
    let (ccy, rest) = u8_at(bytes)?;
    let (out, rest) = u32_at(rest)?;
    let (member, rest) = u16_at(rest)?;
    let (amt, rest) = u64_at(rest)?;
    let order = PayOrder {
        ccy,
        out,
        member,
        amt,
    };
    Ok((order, rest))
}

/// A row of a log.
#[tactic(auto, unfolding(crate::specs::Layout::row))]
pub fn row_at(bytes: &[u8]) -> Result<(RowOf<Cmd>, &[u8]), WireFault>
    ensures { Finds (λ x. (x.0, x.1.now)) result (layout.row.read false bytes.now) }
{
    let (client, rest) = client_at(bytes)?;
    let (number, rest) = u32_at(rest)?;
    let (cmd, rest) = command_at(rest)?;
    let row = RowOf {
        client,
        number,
        cmd,
    };
    Ok((row, rest))
}

/// A view and a number of two bytes.
pub fn view_and_place_at(bytes: &[u8]) -> Result<((u32, u16), &[u8]), WireFault>
    ensures { Finds (λ x. (x.0, x.1.now)) result (layout.view_and_place.read false bytes.now) }
{
    let (view, rest) = u32_at(bytes)?;
    let (place, rest) = u16_at(rest)?;
    Ok(((view, place), rest))
}

/// A stamp, whose actor is the sender.
#[tactic(auto, unfolding(crate::specs::Layout::stamp))]
pub fn stamp_at(bytes: &[u8]) -> Result<(Stamp, &[u8]), WireFault>
    ensures { Finds (λ x. (x.0, x.1.now)) result (layout.stamp.read false bytes.now) }
{
    let (actor, rest) = actor_at(bytes)?;
    let (clock, rest) = u64_at(rest)?;
    let (index, rest) = u32_at(rest)?;
    let stamp = Stamp {
        actor,
        clock,
        index,
    };
    Ok((stamp, rest))
}
