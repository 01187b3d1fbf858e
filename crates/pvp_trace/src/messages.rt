//! Messages and envelopes in words.

ghost use Rattle.std.specs.Prelude.{◌≡◌, ◌++◌, [], string_bytes, OnOk};
ghost use Rattle.std.specs.Option.{option_map_or};
ghost use Rattle.pvp_trace.specs.Messages.{kind_name as name_of_kind, fields_text, message_text, state_text, field_text, envelope_text};

use crate::names::push_actor;
use crate::words::{push_boots, push_command, push_order, push_row, push_rows};
use pvp_book::Book;
use pvp_types::{Cmd, Setup};
use std::alloc::AllocError;
use vr_types::{
    DoViewChangeOf, Envelope, Msg, MsgOf, NewStateOf, PrepareOf, RecoveryResponseOf, StartViewOf,
    StateOf,
};

/// Appends who says what to whom.
pub fn push_envelope(
    text: &mut String,
    setup: &Setup,
    envelope: &Envelope<Book>,
) -> Result<(), AllocError>
    ensures { OnOk result (string_bytes text.new ≡ string_bytes text.old
        ++ envelope_text setup.now envelope.now) }
{
    push_actor(text, setup, envelope.from)?;
    text.push_str(" -> ")?;
    push_actor(text, setup, envelope.to)?;
    text.push_str("  ")?;
    push_message(text, setup, &envelope.msg)
}

/// Appends a message: its kind, and its fields.
pub fn push_message(text: &mut String, setup: &Setup, msg: &Msg<Book>) -> Result<(), AllocError>
    ensures { OnOk result (string_bytes text.new ≡ string_bytes text.old
        ++ message_text setup.now msg.now) }
{
    text.push_str(kind_name(msg))?;
    push_fields(text, setup, msg)
}

/// The name of a message's kind.
pub fn kind_name(msg: &Msg<Book>) -> &'static str
    ensures { result.now ≡ name_of_kind msg.now }
{
    match msg {
        MsgOf::Request(_) => "REQUEST",
        MsgOf::Prepare(_) => "PREPARE",
        MsgOf::PrepareOk(_) => "PREPAREOK",
        MsgOf::Commit(_) => "COMMIT",
        MsgOf::StartViewChange(_) => "STARTVIEWCHANGE",
        MsgOf::DoViewChange(_) => "DOVIEWCHANGE",
        MsgOf::StartView(_) => "STARTVIEW",
        MsgOf::GetState(_) => "GETSTATE",
        MsgOf::NewState(_) => "NEWSTATE",
        MsgOf::Recovery(_) => "RECOVERY",
        MsgOf::RecoveryResponse(_) => "RECOVERYRESPONSE",
        MsgOf::Reply(_) => "REPLY",
        MsgOf::PayOrder(_) => "PAYORDER",
    }
}

/// Appends a message's fields.
fn push_fields(text: &mut String, setup: &Setup, msg: &Msg<Book>) -> Result<(), AllocError>
    ensures { OnOk result (string_bytes text.new ≡ string_bytes text.old
        ++ fields_text setup.now msg.now) }
{
    match msg {
        MsgOf::Request(msg) => {
            let number = msg.number;
            write!(text, " {number} ")?;
            push_command(text, setup, msg.cmd)
        }
        MsgOf::Prepare(msg) => push_prepare(text, setup, msg),
        MsgOf::PrepareOk(msg) => {
            push_field(text, "view", msg.view)?;
            push_field(text, "place", u32::from(msg.place))
        }
        MsgOf::Commit(msg) => {
            push_field(text, "view", msg.view)?;
            push_field(text, "done", u32::from(msg.done))
        }
        MsgOf::StartViewChange(msg) => {
            push_field(text, "view", msg.view)?;
            push_boots(text, &msg.known)
        }
        MsgOf::DoViewChange(msg) => push_do_view_change(text, setup, msg),
        MsgOf::StartView(msg) => push_start_view(text, setup, msg),
        MsgOf::GetState(msg) => {
            push_field(text, "view", msg.view)?;
            push_field(text, "base", u32::from(msg.base))
        }
        MsgOf::NewState(msg) => push_new_state(text, setup, msg),
        MsgOf::Recovery(msg) => push_field(text, "nonce", msg.nonce),
        MsgOf::RecoveryResponse(msg) => push_recovery_response(text, setup, msg),
        MsgOf::Reply(msg) => {
            push_field(text, "view", msg.view)?;
            push_field(text, "to", msg.number)?;
            let reply = msg.reply;
            write!(text, " {reply}")
        }
        MsgOf::PayOrder(order) => {
            text.push_str(" ")?;
            push_order(text, setup, *order)
        }
    }
}

/// Appends the fields of a PREPARE.
fn push_prepare(text: &mut String, setup: &Setup, msg: &PrepareOf<Cmd>) -> Result<(), AllocError>
    ensures { OnOk result (string_bytes text.new ≡ string_bytes text.old
        ++ fields_text setup.now (MsgOf.Prepare msg.now)) }
{
    push_field(text, "view", msg.view)?;
    push_field(text, "place", u32::from(msg.place))?;
    push_field(text, "done", u32::from(msg.done))?;
    text.push_str(" row ")?;
    push_row(text, setup, msg.row)
}

/// Appends the fields of a DOVIEWCHANGE.
fn push_do_view_change(
    text: &mut String,
    setup: &Setup,
    msg: &DoViewChangeOf<Cmd>,
) -> Result<(), AllocError>
    ensures { OnOk result (string_bytes text.new ≡ string_bytes text.old
        ++ fields_text setup.now (MsgOf.DoViewChange msg.now)) }
{
    push_field(text, "view", msg.view)?;
    push_field(text, "normal", msg.last_normal)?;
    push_field(text, "done", u32::from(msg.done))?;
    push_rows(text, setup, &msg.rows)?;
    push_boots(text, &msg.known)
}

/// Appends the fields of a STARTVIEW.
fn push_start_view(
    text: &mut String,
    setup: &Setup,
    msg: &StartViewOf<Cmd>,
) -> Result<(), AllocError>
    ensures { OnOk result (string_bytes text.new ≡ string_bytes text.old
        ++ fields_text setup.now (MsgOf.StartView msg.now)) }
{
    push_field(text, "view", msg.view)?;
    push_field(text, "done", u32::from(msg.done))?;
    push_rows(text, setup, &msg.rows)
}

/// Appends the fields of a NEWSTATE.
fn push_new_state(text: &mut String, setup: &Setup, msg: &NewStateOf<Cmd>) -> Result<(), AllocError>
    ensures { OnOk result (string_bytes text.new ≡ string_bytes text.old
        ++ fields_text setup.now (MsgOf.NewState msg.now)) }
{
    push_field(text, "view", msg.view)?;
    push_field(text, "base", u32::from(msg.base))?;
    push_field(text, "done", u32::from(msg.done))?;
    push_rows(text, setup, &msg.rows)
}

/// Appends the fields of a RECOVERYRESPONSE.
fn push_recovery_response(
    text: &mut String,
    setup: &Setup,
    msg: &RecoveryResponseOf<Cmd>,
) -> Result<(), AllocError>
    ensures { OnOk result (string_bytes text.new ≡ string_bytes text.old
        ++ fields_text setup.now (MsgOf.RecoveryResponse msg.now)) }
{
    push_field(text, "view", msg.view)?;
    push_field(text, "nonce", msg.nonce)?;
    push_state(text, setup, &msg.state)?;
    push_boots(text, &msg.known)
}

/// Appends a primary's state, where the answer has one.
fn push_state(
    text: &mut String,
    setup: &Setup,
    state: &Option<StateOf<Cmd>>,
) -> Result<(), AllocError>
    ensures { OnOk result (string_bytes text.new
        ≡ string_bytes text.old ++ option_map_or (state_text setup.now) state.now []) }
{
    let Some(state) = state else {
        return Ok(());
    };
    push_field(text, "done", u32::from(state.done))?;
    push_rows(text, setup, &state.rows)
}

/// Appends a number that has this name.
fn push_field(text: &mut String, name: &str, number: u32) -> Result<(), AllocError>
    ensures { OnOk result (string_bytes text.new ≡ string_bytes text.old
        ++ field_text name.now number) }
{
    write!(text, " {name} {number}")
}
