//! Comparisons of messages, envelopes and outcomes of a machine's sites.
ghost use Rattle.std.specs.Prelude.{◌≡◌, ◌↔◌, IsTrue};

use crate::cell::Boot;
use crate::event::{SiteFault, Why};
use crate::known::Known;
use crate::machine::{Machine, is_same};
use crate::message::{
    Commit, DoViewChangeOf, Envelope, GetState, Msg, MsgOf, NewStateOf, PrepareOf, PrepareOk,
    Recovery, RecoveryResponseOf, ReplyOf, RequestOf, StartViewChange, StartViewOf, State,
};
use crate::row::Row;
use crate::rows::Rows;

/// Whether two rows are the same.
pub fn is_same_row<M: Machine>(a: Row<M>, b: Row<M>) -> bool
    ensures { IsTrue result ↔ (a ≡ b) }
{
    a == b
}

/// Whether the same boots are known.
fn is_same_known(a: &Known, b: &Known) -> bool
    ensures { IsTrue result ↔ (a.now ≡ b.now) }
{
    a.as_slice() == b.as_slice()
}

/// Whether two lists of rows are the same.
fn is_same_rows<M: Machine>(a: &Rows<M>, b: &Rows<M>) -> bool
    ensures { IsTrue result ↔ (a.now ≡ b.now) }
{
    if a.len() != b.len() {
        return false;
    }
    for at in 0..a.len() {
        if !is_same_row::<M>(a.row(at), b.row(at)) {
            return false;
        }
    }
    true
}

/// Whether two states are the same.
fn is_same_state<M: Machine>(a: &State<M>, b: &State<M>) -> bool
    ensures { IsTrue result ↔ (a.now ≡ b.now) }
{
    a.done == b.done && is_same_rows::<M>(&a.rows, &b.rows)
}

/// Whether two answers to a site that recovers have the same state.
fn is_same_states<M: Machine>(a: &Option<State<M>>, b: &Option<State<M>>) -> bool
    ensures { IsTrue result ↔ (a.now ≡ b.now) }
{
    match (a, b) {
        (None, None) => true,
        (Some(x), Some(y)) => is_same_state::<M>(x, y),
        _ => false,
    }
}

/// Whether two messages are the same.
pub fn is_same_message<M: Machine>(a: &Msg<M>, b: &Msg<M>) -> bool
    ensures { IsTrue result ↔ (a.now ≡ b.now) }
{
    match a {
        MsgOf::Request(request) => is_request::<M>(request, b),
        MsgOf::Prepare(prepare) => is_prepare::<M>(prepare, b),
        MsgOf::PrepareOk(ok) => is_prepare_ok::<M>(ok, b),
        MsgOf::Commit(commit) => is_commit::<M>(commit, b),
        MsgOf::StartViewChange(change) => is_start_view_change::<M>(change, b),
        MsgOf::DoViewChange(vote) => is_do_view_change::<M>(vote, b),
        MsgOf::StartView(opening) => is_start_view::<M>(opening, b),
        MsgOf::GetState(wanted) => is_get_state::<M>(wanted, b),
        MsgOf::NewState(state) => is_new_state::<M>(state, b),
        MsgOf::Recovery(recovery) => is_recovery::<M>(recovery, b),
        MsgOf::RecoveryResponse(response) => is_recovery_response::<M>(response, b),
        MsgOf::Reply(answer) => is_reply::<M>(answer, b),
        MsgOf::PayOrder(order) => is_pay_order::<M>(*order, b),
    }
}

/// Whether a message is this REQUEST.
fn is_request<M: Machine>(request: &RequestOf<M::Cmd>, msg: &Msg<M>) -> bool
    ensures { IsTrue result ↔ (MsgOf.Request request.now ≡ msg.now) }
{
    match msg {
        MsgOf::Request(other) => request.number == other.number
            && is_same::<M>(request.cmd, other.cmd),
        _ => false,
    }
}

/// Whether a message is this PREPARE.
fn is_prepare<M: Machine>(prepare: &PrepareOf<M::Cmd>, msg: &Msg<M>) -> bool
    ensures { IsTrue result ↔ (MsgOf.Prepare prepare.now ≡ msg.now) }
{
    match msg {
        MsgOf::Prepare(other) => {
            prepare.view == other.view
                && prepare.place == other.place
                && prepare.done == other.done
                && is_same_row::<M>(prepare.row, other.row)
        }
        _ => false,
    }
}

/// Whether a message is this PREPAREOK.
fn is_prepare_ok<M: Machine>(ok: &PrepareOk, msg: &Msg<M>) -> bool
    ensures { IsTrue result ↔ (MsgOf.PrepareOk ok.now ≡ msg.now) }
{
    match msg {
        MsgOf::PrepareOk(other) => ok.view == other.view && ok.place == other.place,
        _ => false,
    }
}

/// Whether a message is this COMMIT.
fn is_commit<M: Machine>(commit: &Commit, msg: &Msg<M>) -> bool
    ensures { IsTrue result ↔ (MsgOf.Commit commit.now ≡ msg.now) }
{
    match msg {
        MsgOf::Commit(other) => commit.view == other.view && commit.done == other.done,
        _ => false,
    }
}

/// Whether a message is this STARTVIEWCHANGE.
fn is_start_view_change<M: Machine>(change: &StartViewChange, msg: &Msg<M>) -> bool
    ensures { IsTrue result ↔ (MsgOf.StartViewChange change.now ≡ msg.now) }
{
    match msg {
        MsgOf::StartViewChange(other) => change.view == other.view
            && is_same_known(&change.known, &other.known),
        _ => false,
    }
}

/// Whether a message is this DOVIEWCHANGE.
fn is_do_view_change<M: Machine>(vote: &DoViewChangeOf<M::Cmd>, msg: &Msg<M>) -> bool
    ensures { IsTrue result ↔ (MsgOf.DoViewChange vote.now ≡ msg.now) }
{
    match msg {
        MsgOf::DoViewChange(other) => {
            vote.view == other.view
                && vote.last_normal == other.last_normal
                && vote.done == other.done
                && is_same_rows::<M>(&vote.rows, &other.rows)
                && is_same_known(&vote.known, &other.known)
        }
        _ => false,
    }
}

/// Whether a message is this STARTVIEW.
fn is_start_view<M: Machine>(opening: &StartViewOf<M::Cmd>, msg: &Msg<M>) -> bool
    ensures { IsTrue result ↔ (MsgOf.StartView opening.now ≡ msg.now) }
{
    match msg {
        MsgOf::StartView(other) => {
            opening.view == other.view
                && opening.done == other.done
                && is_same_rows::<M>(&opening.rows, &other.rows)
        }
        _ => false,
    }
}

/// Whether a message is this GETSTATE.
fn is_get_state<M: Machine>(wanted: &GetState, msg: &Msg<M>) -> bool
    ensures { IsTrue result ↔ (MsgOf.GetState wanted.now ≡ msg.now) }
{
    match msg {
        MsgOf::GetState(other) => wanted.view == other.view && wanted.base == other.base,
        _ => false,
    }
}

/// Whether a message is this NEWSTATE.
fn is_new_state<M: Machine>(state: &NewStateOf<M::Cmd>, msg: &Msg<M>) -> bool
    ensures { IsTrue result ↔ (MsgOf.NewState state.now ≡ msg.now) }
{
    match msg {
        MsgOf::NewState(other) => {
            state.view == other.view
                && state.base == other.base
                && state.done == other.done
                && is_same_rows::<M>(&state.rows, &other.rows)
        }
        _ => false,
    }
}

/// Whether a message is this RECOVERY.
fn is_recovery<M: Machine>(recovery: &Recovery, msg: &Msg<M>) -> bool
    ensures { IsTrue result ↔ (MsgOf.Recovery recovery.now ≡ msg.now) }
{
    match msg {
        MsgOf::Recovery(other) => recovery.nonce == other.nonce,
        _ => false,
    }
}

/// Whether a message is this RECOVERYRESPONSE.
fn is_recovery_response<M: Machine>(response: &RecoveryResponseOf<M::Cmd>, msg: &Msg<M>) -> bool
    ensures { IsTrue result ↔ (MsgOf.RecoveryResponse response.now ≡ msg.now) }
{
    match msg {
        MsgOf::RecoveryResponse(other) => {
            response.view == other.view
                && response.nonce == other.nonce
                && is_same_states::<M>(&response.state, &other.state)
                && is_same_known(&response.known, &other.known)
        }
        _ => false,
    }
}

/// Whether a message is this REPLY.
fn is_reply<M: Machine>(answer: &ReplyOf<M::Reply>, msg: &Msg<M>) -> bool
    ensures { IsTrue result ↔ (MsgOf.Reply answer.now ≡ msg.now) }
{
    match msg {
        MsgOf::Reply(other) => answer.view == other.view
            && answer.number == other.number
            && is_same_reply::<M>(answer.reply, other.reply),
        _ => false,
    }
}

/// Whether a message is this PAYORDER.
fn is_pay_order<M: Machine>(order: M::Order, msg: &Msg<M>) -> bool
    ensures { IsTrue result ↔ (MsgOf.PayOrder order ≡ msg.now) }
{
    match msg {
        MsgOf::PayOrder(o) => is_same_order::<M>(order, *o),
        _ => false,
    }
}

/// Whether two envelopes are the same.
pub fn is_same_envelope<M: Machine>(a: &Envelope<M>, b: &Envelope<M>) -> bool
    ensures { IsTrue result ↔ (a.now ≡ b.now) }
{
    a.from == b.from && a.to == b.to && is_same_message::<M>(&a.msg, &b.msg)
}

/// Whether two lists of envelopes are the same.
pub fn is_same_sent<M: Machine>(a: &[Envelope<M>], b: &[Envelope<M>]) -> bool
    ensures { IsTrue result ↔ (a.now ≡ b.now) }
{
    if a.len() != b.len() {
        return false;
    }
    for i in 0..a.len() {
        if !is_same_envelope::<M>(&a[i], &b[i]) {
            return false;
        }
    }
    true
}

/// Whether two cells hold the same.
pub fn is_same_boot(a: Boot, b: Boot) -> bool
    ensures { IsTrue result ↔ (a ≡ b) }
{
    a == b
}

/// Whether two events were dropped for the same reason, or neither was.
pub fn is_same_why(a: Option<Why>, b: Option<Why>) -> bool
    ensures { IsTrue result ↔ (a ≡ b) }
{
    a == b
}

/// Whether two refusals of a site are the same.
pub fn is_same_fault(a: SiteFault, b: SiteFault) -> bool
    ensures { IsTrue result ↔ (a ≡ b) }
{
    a == b
}

/// Whether two answers of a machine are the same.
pub fn is_same_reply<M: Machine>(a: M::Reply, b: M::Reply) -> bool
    ensures { IsTrue result ↔ (a ≡ b) }
{
    a == b
}

/// Whether two orders of a machine are the same.
pub fn is_same_order<M: Machine>(a: M::Order, b: M::Order) -> bool
    ensures { IsTrue result ↔ (a ≡ b) }
{
    a == b
}
