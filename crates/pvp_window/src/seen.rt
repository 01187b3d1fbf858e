//! What is seen of an actor beside its book, and the reading that says where it stands.
ghost use Rattle.std.specs.Prelude.{◌≡◌, ◌++◌, string_bytes, OnOk};
ghost use Rattle.pvp_types.specs.Setup.{IsValid, faults};
ghost use Rattle.pvp_window.specs.Status.{answer_json, client_json, label, node_json, rows_json, site_json, status_json, status_name, stream_item, streams_json};

use crate::json::{push_comma, push_who};
use pvp_types::{Reply, Setup};
use std::alloc::AllocError;
use vr_log::send::primary_of;
use vr_types::{Config, MAX_ROWS, Status};

/// What is seen of a site beside its book.
#[derive(Clone, Copy, Debug)]
pub struct SiteSeen {
    pub actor: u16,
    pub status: Status,
    pub view: u32,
    /// How many rows its log has, and how many of them it has executed.
    pub log: usize,
    pub done: usize,
    /// How often it was restarted.
    pub restarts: u32,
    /// How many frames it dropped because their clocks were too far ahead.
    pub dropped: u64,
}

/// What is seen of a currency's node.
#[derive(Clone, Copy, Debug)]
pub struct NodeSeen {
    pub actor: u16,
    /// The bank's account there, in minor units.
    pub account: u64,
    /// How many payments it took in and paid out, and how many of its notices no site has answered.
    pub pay_ins: usize,
    pub pay_outs: usize,
    pub unanswered: usize,
}

/// What is seen of a client: its last request, and the answer where it has it.
#[derive(Clone, Copy, Debug)]
pub struct ClientSeen {
    pub actor: u16,
    pub request: u32,
    pub answer: Option<Reply>,
}

/// What is seen of an actor beside its book.
#[derive(Clone, Copy, Debug)]
pub enum Seen {
    Site(SiteSeen),
    Node(NodeSeen),
    Client(ClientSeen),
}

/// A stream that stands between this actor and another, and how many bytes wait to be sent over it.
#[derive(Clone, Copy, Debug)]
pub struct Stream {
    pub peer: u16,
    pub waiting: u64,
}

/// Appends where an actor stands, as one object and a line end.
pub fn push_status(
    text: &mut String,
    setup: &Setup,
    seen: Seen,
    streams: &[Stream],
) -> Result<(), AllocError>
    requires { IsValid setup.now }
    ensures { OnOk result (string_bytes text.new
        ≡ string_bytes text.old ++ status_json setup.now seen streams.now) }
{
    match seen {
        Seen::Site(site) => push_site(text, setup, site, streams),
        Seen::Node(node) => push_node(text, setup, node),
        Seen::Client(client) => push_client(text, setup, client),
    }
}

/// Appends of which site a reading is, its status and its view: what each of its readings begins with.
#[tactic(auto, unfolding(crate::specs::Status::label))]
pub fn push_label(text: &mut String, setup: &Setup, seen: SiteSeen) -> Result<(), AllocError>
    requires { IsValid setup.now }
    ensures { OnOk result (string_bytes text.new
        ≡ string_bytes text.old ++ label setup.now seen) }
{
    let (sites, view) = (setup.sites, seen.view);
    let primary = primary_of(group_of(setup), view);
    text.push_str("{\"actor\":")?;
    push_who(text, setup, seen.actor)?;
    write!(text, ",\"kind\":\"site\",\"sites\":{sites},\"status\":\"")?;
    text.push_str(status_name(seen.status))?;
    write!(text, "\",\"view\":{view},\"primary\":\"s{primary}")?;
    text.push_str("\"")
}

/// The group of sites of a setup, as its first site has it.
pub fn group_of(setup: &Setup) -> Config
    requires { IsValid setup.now }
    ensures { result.f ≡ faults setup.now }
{
    Config {
        f: setup.faults(),
        me: 0,
    }
}

/// A status by its name.
#[tactic(auto, unfolding(crate::specs::Status::status_name))]
pub fn status_name(status: Status) -> &'static str
    ensures { result.now ≡ status_name status }
{
    match status {
        Status::Normal => "normal",
        Status::Change => "change",
        Status::Recovering => "recovering",
        Status::Down => "down",
    }
}

/// Appends where a site stands.
#[tactic(auto, unfolding(crate::specs::Status::site_json))]
fn push_site(
    text: &mut String,
    setup: &Setup,
    seen: SiteSeen,
    streams: &[Stream],
) -> Result<(), AllocError>
    requires { IsValid setup.now }
    ensures { OnOk result (string_bytes text.new
        ≡ string_bytes text.old ++ site_json setup.now seen streams.now) }
{
    push_label(text, setup, seen)?;
    push_rows(text, seen)?;
    text.push_str(",\"streams\":[")?;
    push_streams(text, setup, streams)?;
    let dropped = seen.dropped;
    write!(text, "],\"dropped\":{dropped}")?;
    text.push_str("}\n")
}

/// Appends how many rows a site has executed and has, how many its log has room for, and how often it was restarted.
#[tactic(auto, unfolding(crate::specs::Status::rows_json))]
fn push_rows(text: &mut String, seen: SiteSeen) -> Result<(), AllocError>
    ensures { OnOk result (string_bytes text.new ≡ string_bytes text.old ++ rows_json seen) }
{
    let (row, log) = (seen.done, seen.log);
    let (room, restarts) = (MAX_ROWS.saturating_sub(log), seen.restarts);
    write!(text, ",\"row\":{row},\"log\":{log}")?;
    write!(text, ",\"room\":{room},\"restarts\":{restarts}")
}

/// Appends the streams that stand.
fn push_streams(text: &mut String, setup: &Setup, streams: &[Stream]) -> Result<(), AllocError>
    ensures { OnOk result (string_bytes text.new
        ≡ string_bytes text.old ++ streams_json setup.now streams.now) }
{
    for (at, stream) in streams.iter().enumerate() {
        push_stream(text, setup, at, *stream)?;
    }
    Ok(())
}

/// Appends a stream: to whom it is, and how many bytes wait for it.
#[tactic(auto, unfolding(crate::specs::Status::stream_item))]
fn push_stream(
    text: &mut String,
    setup: &Setup,
    at: usize,
    stream: Stream,
) -> Result<(), AllocError>
    ensures { OnOk result (string_bytes text.new
        ≡ string_bytes text.old ++ stream_item setup.now (at, stream)) }
{
    push_comma(text, at)?;
    text.push_str("{\"actor\":")?;
    push_who(text, setup, stream.peer)?;
    let waiting = stream.waiting;
    write!(text, ",\"waiting_bytes\":{waiting}")?;
    text.push_str("}")
}

/// Appends where a node stands.
#[tactic(auto, unfolding(crate::specs::Status::node_json))]
fn push_node(text: &mut String, setup: &Setup, seen: NodeSeen) -> Result<(), AllocError>
    ensures { OnOk result (string_bytes text.new
        ≡ string_bytes text.old ++ node_json setup.now seen) }
{
    let (account, unanswered) = (seen.account, seen.unanswered);
    let (pay_ins, pay_outs) = (seen.pay_ins, seen.pay_outs);
    text.push_str("{\"actor\":")?;
    push_who(text, setup, seen.actor)?;
    write!(
        text,
        ",\"kind\":\"node\",\"account\":\"{account}\",\"pay_ins\":{pay_ins}"
    )?;
    write!(text, ",\"pay_outs\":{pay_outs},\"unanswered\":{unanswered}")?;
    text.push_str("}\n")
}

/// Appends where a client stands.
#[tactic(auto, unfolding(crate::specs::Status::client_json))]
fn push_client(text: &mut String, setup: &Setup, seen: ClientSeen) -> Result<(), AllocError>
    ensures { OnOk result (string_bytes text.new
        ≡ string_bytes text.old ++ client_json setup.now seen) }
{
    let request = seen.request;
    text.push_str("{\"actor\":")?;
    push_who(text, setup, seen.actor)?;
    write!(
        text,
        ",\"kind\":\"client\",\"request\":{request},\"answer\":"
    )?;
    push_answer(text, seen.answer)?;
    text.push_str("}\n")
}

/// Appends an answer, and `null` where there is none.
#[tactic(auto, unfolding(crate::specs::Status::answer_json))]
fn push_answer(text: &mut String, answer: Option<Reply>) -> Result<(), AllocError>
    ensures { OnOk result (string_bytes text.new ≡ string_bytes text.old ++ answer_json answer) }
{
    match answer {
        Some(reply) => write!(text, "\"{reply}\""),
        None => text.push_str("null"),
    }
}
