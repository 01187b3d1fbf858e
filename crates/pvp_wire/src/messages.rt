//! The fields of messages, with one function for each kind.
ghost use Rattle.std.specs.Prelude.{false};
ghost use Rattle.vr_types.specs.declared.message.MsgOf.TheVariants as message;
ghost use Rattle.pvp_wire.specs.Shape.{as_part};
ghost use Rattle.pvp_wire.specs.Layout as layout;
ghost use Rattle.pvp_wire.specs.Layout.{message_at};
ghost use Rattle.pvp_wire.specs.Reading.{Finds, Gives};

use crate::boots::boots_at;
use crate::fault::WireFault;
use crate::fields::{command_at, order_at, reply_at, row_at, u16_at, u32_at, view_and_place_at};
use crate::rows::{option_at, rows_at};
use crate::stamped::Message;
use std::alloc::Global;
use vr_types::{
    Commit, DoViewChangeOf, GetState, MsgOf, NewStateOf, PrepareOf, PrepareOk, Recovery,
    RecoveryResponseOf, ReplyOf, RequestOf, StartViewChange, StartViewOf,
};

/// The fields of a message of a kind.
#[tactic(auto, unfolding(crate::specs::Layout::message_at))]
pub fn message_at(alloc: Global, kind: u8, bytes: &[u8]) -> Result<(Message, &[u8]), WireFault>
    ensures { Gives (λ x. (x.0, x.1.now)) result (λ refused. message_at refused kind bytes.now) }
{
    match kind {
        1 => request_at(bytes),
        2 => prepare_at(bytes),
        3 => {
            let ((view, place), rest) = view_and_place_at(bytes)?;
            Ok((MsgOf::PrepareOk(PrepareOk { view, place }), rest))
        }
        4 => {
            let ((view, done), rest) = view_and_place_at(bytes)?;
            Ok((MsgOf::Commit(Commit { view, done }), rest))
        }
        5 => start_view_change_at(bytes),
        6 => do_view_change_at(alloc, bytes),
        7 => start_view_at(alloc, bytes),
        8 => {
            let ((view, base), rest) = view_and_place_at(bytes)?;
            Ok((MsgOf::GetState(GetState { view, base }), rest))
        }
        9 => new_state_at(alloc, bytes),
        10 => {
            let (nonce, rest) = u32_at(bytes)?;
            Ok((MsgOf::Recovery(Recovery { nonce }), rest))
        }
        11 => recovery_response_at(alloc, bytes),
        12 => answer_at(bytes),
        13 => {
            let (order, rest) = order_at(bytes)?;
            Ok((MsgOf::PayOrder(order), rest))
        }
        _ => Err(WireFault::Kind),
    }
}

#[tactic(auto, unfolding(crate::specs::Layout::request))]
fn request_at(bytes: &[u8]) -> Result<(Message, &[u8]), WireFault>
    ensures { Finds (λ x. (x.0, x.1.now)) result
        (as_part message.Request (layout.request.read false bytes.now)) }
{
    let (number, rest) = u32_at(bytes)?;
    let (cmd, rest) = command_at(rest)?;
    let msg = RequestOf { number, cmd };
    Ok((MsgOf::Request(msg), rest))
}

#[tactic(auto, unfolding(crate::specs::Layout::prepare))]
fn prepare_at(bytes: &[u8]) -> Result<(Message, &[u8]), WireFault>
    ensures { Finds (λ x. (x.0, x.1.now)) result
        (as_part message.Prepare (layout.prepare.read false bytes.now)) }
{
    let (view, rest) = u32_at(bytes)?;
    let (place, rest) = u16_at(rest)?;
    let (done, rest) = u16_at(rest)?;
    let (row, rest) = row_at(rest)?;
    let msg = PrepareOf {
        view,
        place,
        done,
        row,
    };
    Ok((MsgOf::Prepare(msg), rest))
}

#[tactic(auto, unfolding(crate::specs::Layout::start_view_change))]
fn start_view_change_at(bytes: &[u8]) -> Result<(Message, &[u8]), WireFault>
    ensures { Finds (λ x. (x.0, x.1.now)) result
        (as_part message.StartViewChange (layout.start_view_change.read false bytes.now)) }
{
    let (view, rest) = u32_at(bytes)?;
    let (known, rest) = match boots_at(rest) {
        Ok(told) => told,
        Err(fault) => return Err(fault),
    };
    let msg = StartViewChange { view, known };
    Ok((MsgOf::StartViewChange(msg), rest))
}

#[tactic(auto, unfolding(crate::specs::Layout::do_view_change))]
fn do_view_change_at(alloc: Global, bytes: &[u8]) -> Result<(Message, &[u8]), WireFault>
    ensures { Gives (λ x. (x.0, x.1.now)) result (λ refused.
        as_part message.DoViewChange (layout.do_view_change.read refused bytes.now)) }
{
    let (view, rest) = u32_at(bytes)?;
    let (last_normal, rest) = u32_at(rest)?;
    let (done, rest) = u16_at(rest)?;
    let (known, rest) = match boots_at(rest) {
        Ok(told) => told,
        Err(fault) => return Err(fault),
    };
    let (rows, rest) = rows_at(alloc, rest)?;
    let msg = DoViewChangeOf {
        view,
        last_normal,
        done,
        rows,
        known,
    };
    Ok((MsgOf::DoViewChange(msg), rest))
}

#[tactic(auto, unfolding(crate::specs::Layout::start_view))]
fn start_view_at(alloc: Global, bytes: &[u8]) -> Result<(Message, &[u8]), WireFault>
    ensures { Gives (λ x. (x.0, x.1.now)) result (λ refused.
        as_part message.StartView (layout.start_view.read refused bytes.now)) }
{
    let (view, rest) = u32_at(bytes)?;
    let (done, rest) = u16_at(rest)?;
    let (rows, rest) = rows_at(alloc, rest)?;
    let msg = StartViewOf { view, done, rows };
    Ok((MsgOf::StartView(msg), rest))
}

#[tactic(auto, unfolding(crate::specs::Layout::new_state))]
fn new_state_at(alloc: Global, bytes: &[u8]) -> Result<(Message, &[u8]), WireFault>
    ensures { Gives (λ x. (x.0, x.1.now)) result (λ refused.
        as_part message.NewState (layout.new_state.read refused bytes.now)) }
{
    let (view, rest) = u32_at(bytes)?;
    let (base, rest) = u16_at(rest)?;
    let (done, rest) = u16_at(rest)?;
    let (rows, rest) = rows_at(alloc, rest)?;
    let msg = NewStateOf {
        view,
        base,
        done,
        rows,
    };
    Ok((MsgOf::NewState(msg), rest))
}

#[tactic(auto, unfolding(crate::specs::Layout::recovery_response))]
fn recovery_response_at(alloc: Global, bytes: &[u8]) -> Result<(Message, &[u8]), WireFault>
    ensures { Gives (λ x. (x.0, x.1.now)) result (λ refused.
        as_part message.RecoveryResponse (layout.recovery_response.read refused bytes.now)) }
{
    let (view, rest) = u32_at(bytes)?;
    let (nonce, rest) = u32_at(rest)?;
    let (known, rest) = match boots_at(rest) {
        Ok(told) => told,
        Err(fault) => return Err(fault),
    };
    let (state, rest) = option_at(alloc, rest)?;
    let msg = RecoveryResponseOf {
        view,
        nonce,
        state,
        known,
    };
    Ok((MsgOf::RecoveryResponse(msg), rest))
}

#[tactic(auto, unfolding(crate::specs::Layout::answer))]
fn answer_at(bytes: &[u8]) -> Result<(Message, &[u8]), WireFault>
    ensures { Finds (λ x. (x.0, x.1.now)) result
        (as_part message.Reply (layout.answer.read false bytes.now)) }
{
    let (view, rest) = u32_at(bytes)?;
    let (number, rest) = u32_at(rest)?;
    let (reply, rest) = reply_at(rest)?;
    let msg = ReplyOf {
        view,
        number,
        reply,
    };
    Ok((MsgOf::Reply(msg), rest))
}
