//! Which envelopes can be written as frames.
ghost use Rattle.std.specs.Prelude.{◌≡◌};
ghost use Rattle.std.specs.List.{list_all};
ghost use Rattle.vr_types.specs.Messages.{rows_in, rows_of_state, known_in};
ghost use Rattle.pvp_wire.specs.Spelling.{is_wireable, has_client, is_site_count, has_site_count};

use crate::stamped::{Message, Stamped};
use pvp_types::Cmd;
use vr_types::{MOST_SITES, MsgOf, RowsOf, StateOf, is_actor, is_client};

/// Whether a stamped envelope has a spelling: it is from the actor of its stamp, its actors are 0 to 64, 101 to 108 or
/// 200 to 206, the clients of its rows are 0 to 64 or 101 to 108, and its boot numbers, if it has any, are those of 1
/// to 7 sites. It takes no memory.
pub fn wireable(stamped: &Stamped) -> bool
    ensures { result ≡ is_wireable stamped.now }
{
    stamped.envelope.from == stamped.stamp.actor
        && is_actor(stamped.stamp.actor)
        && is_actor(stamped.envelope.to)
        && has_clients(&stamped.envelope.msg)
        && has_site_count(&stamped.envelope.msg)
}

/// Whether all rows that a message carries are of clients.
fn has_clients(msg: &Message) -> bool
    ensures { result ≡ list_all has_client (rows_in msg.now) }
{
    match msg {
        MsgOf::Prepare(msg) => is_client(msg.row.client),
        MsgOf::DoViewChange(msg) => are_of_clients(&msg.rows),
        MsgOf::StartView(msg) => are_of_clients(&msg.rows),
        MsgOf::NewState(msg) => are_of_clients(&msg.rows),
        MsgOf::RecoveryResponse(msg) => state_has_clients(&msg.state),
        MsgOf::Request(_)
        | MsgOf::PrepareOk(_)
        | MsgOf::Commit(_)
        | MsgOf::StartViewChange(_)
        | MsgOf::GetState(_)
        | MsgOf::Recovery(_)
        | MsgOf::Reply(_)
        | MsgOf::PayOrder(_) => true,
    }
}

/// Whether the boot numbers in a message, where it carries them, are those of 1 to 7 sites.
fn has_site_count(msg: &Message) -> bool
    ensures { result ≡ has_site_count (known_in msg.now) }
{
    match msg {
        MsgOf::StartViewChange(msg) => is_site_count(msg.known.len()),
        MsgOf::DoViewChange(msg) => is_site_count(msg.known.len()),
        MsgOf::RecoveryResponse(msg) => is_site_count(msg.known.len()),
        _ => true,
    }
}

/// Whether a group may have this number of sites.
pub fn is_site_count(count: usize) -> bool
    ensures { result ≡ is_site_count count }
{
    1 <= count && count <= usize::from(MOST_SITES)
}

fn state_has_clients(state: &Option<StateOf<Cmd>>) -> bool
    ensures { result ≡ list_all has_client (rows_of_state state.now) }
{
    match state {
        None => true,
        Some(state) => are_of_clients(&state.rows),
    }
}

fn are_of_clients(rows: &RowsOf<Cmd>) -> bool
    ensures { result ≡ list_all has_client rows.now }
{
    for at in 0..rows.len() {
        if !is_client(rows.row(at).client) {
            return false;
        }
    }
    true
}
