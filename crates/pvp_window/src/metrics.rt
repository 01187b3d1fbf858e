//! Where an actor stands, as Prometheus reads it. No member's balance is among it.
ghost use Rattle.std.specs.Prelude.{◌≡◌, ◌++◌, length, option_copied, string_bytes, OnOk};
ghost use Rattle.std.specs.List.{flat_map, range_with_len};
ghost use Rattle.pvp_trace.specs.Stands.{is_status};
ghost use Rattle.pvp_types.specs.Setup.{IsValid};
ghost use Rattle.pvp_window.specs.Metrics.{
  awaited,
  book_metrics,
  client_metrics,
  counted_metrics,
  figure_line,
  figure_lines,
  head,
  held_metrics,
  labelled,
  leads,
  metrics_text,
  node_metrics,
  of_node,
  one_if,
  place_metrics,
  plain,
  site_metrics,
  state_line,
  state_lines,
  status_line,
  status_lines,
  stream_line,
  stream_lines,
};

use crate::book::{push_count, push_figure, state_name};
use crate::json::{push_code_of, push_name};
use crate::seen::{ClientSeen, NodeSeen, Seen, SiteSeen, Stream, group_of, status_name};
use pvp_book::{Book, PairState};
use pvp_types::Setup;
use std::alloc::AllocError;
use vr_log::send::primary_of;
use vr_types::{FIRST_SITE, MAX_ROWS, Status};

/// Appends all that is measured of an actor.
pub fn push_metrics(
    text: &mut String,
    setup: &Setup,
    seen: Seen,
    streams: &[Stream],
    book: Option<&Book>,
) -> Result<(), AllocError>
    requires { IsValid setup.now }
    ensures { OnOk result (string_bytes text.new ≡ string_bytes text.old
        ++ metrics_text setup.now seen streams.now (option_copied book.entry)) }
{
    match seen {
        Seen::Site(site) => {
            push_site(text, setup, site, streams)?;
            push_book(text, book)
        }
        Seen::Node(node) => push_node(text, setup, node),
        Seen::Client(client) => push_client(text, client),
    }
}

/// Appends what a number is called, of which kind it is, and what it is of.
#[tactic(auto, unfolding(crate::specs::Metrics::head))]
fn push_head(text: &mut String, name: &str, kind: &str, help: &str) -> Result<(), AllocError>
    ensures { OnOk result (string_bytes text.new
        ≡ string_bytes text.old ++ head name.now kind.now help.now) }
{
    write!(text, "# HELP {name} {help}\n")?;
    write!(text, "# TYPE {name} {kind}\n")
}

/// Appends a number without a label.
#[tactic(auto, unfolding(crate::specs::Metrics::plain))]
fn push_plain(
    text: &mut String,
    name: &str,
    kind: &str,
    help: &str,
    number: u64,
) -> Result<(), AllocError>
    ensures { OnOk result (string_bytes text.new
        ≡ string_bytes text.old ++ plain name.now kind.now help.now number) }
{
    push_head(text, name, kind, help)?;
    write!(text, "{name} {number}\n")
}

/// Appends a number with a label.
#[tactic(auto, unfolding(crate::specs::Metrics::labelled))]
fn push_labelled(
    text: &mut String,
    name: &str,
    label: &str,
    word: &str,
    number: u64,
) -> Result<(), AllocError>
    ensures { OnOk result (string_bytes text.new
        ≡ string_bytes text.old ++ labelled name.now label.now word.now number) }
{
    text.push_str(name)?;
    text.push_str("{")?;
    write!(text, "{label}=\"{word}")?;
    text.push_str("\"} ")?;
    write!(text, "{number}\n")
}

/// Appends what is measured of a site beside its book.
#[tactic(auto, unfolding(crate::specs::Metrics::site_metrics))]
fn push_site(
    text: &mut String,
    setup: &Setup,
    seen: SiteSeen,
    streams: &[Stream],
) -> Result<(), AllocError>
    requires { IsValid setup.now }
    ensures { OnOk result (string_bytes text.new
        ≡ string_bytes text.old ++ site_metrics setup.now seen streams.now) }
{
    push_place(text, setup, seen)?;
    push_counts(text, seen)?;
    push_streams(text, setup, streams)
}

/// Appends a site's status and view, and whether it is the primary of that.
#[tactic(auto, unfolding(crate::specs::Metrics::place_metrics))]
fn push_place(text: &mut String, setup: &Setup, seen: SiteSeen) -> Result<(), AllocError>
    requires { IsValid setup.now }
    ensures { OnOk result (string_bytes text.new
        ≡ string_bytes text.old ++ place_metrics setup.now seen) }
{
    let (sites, view) = (setup.sites, u64::from(seen.view));
    let leads = leads(setup, seen);
    push_plain(
        text,
        "gauzemarl_sites",
        "gauge",
        "Sites that run the bank",
        sites,
    )?;
    push_status(text, seen.status)?;
    push_plain(
        text,
        "gauzemarl_site_view",
        "gauge",
        "The view of the site",
        view,
    )?;
    push_plain(
        text,
        "gauzemarl_site_is_primary",
        "gauge",
        "1 where the site is the primary of its view",
        leads,
    )
}

/// 1 where a site is the primary of its view.
#[tactic(auto, unfolding(crate::specs::Metrics::leads))]
fn leads(setup: &Setup, seen: SiteSeen) -> u64
    requires { IsValid setup.now }
    ensures { result ≡ leads setup.now seen }
{
    if FIRST_SITE + primary_of(group_of(setup), seen.view) == seen.actor {
        1
    } else {
        0
    }
}

/// Appends of each status whether it is the site's.
#[tactic(auto, unfolding(crate::specs::Metrics::status_lines))]
fn push_status(text: &mut String, status: Status) -> Result<(), AllocError>
    ensures { OnOk result (string_bytes text.new ≡ string_bytes text.old ++ status_lines status) }
{
    push_head(
        text,
        "gauzemarl_site_status",
        "gauge",
        "1 of the status that the site has, 0 of others",
    )?;
    push_status_line(text, status, Status::Normal)?;
    push_status_line(text, status, Status::Change)?;
    push_status_line(text, status, Status::Recovering)?;
    push_status_line(text, status, Status::Down)
}

/// Appends whether a status is this other.
#[tactic(auto, unfolding(crate::specs::Metrics::status_line))]
fn push_status_line(text: &mut String, status: Status, other: Status) -> Result<(), AllocError>
    ensures { OnOk result (string_bytes text.new
        ≡ string_bytes text.old ++ status_line status other) }
{
    let is = one_if_same(status, other);
    push_labelled(
        text,
        "gauzemarl_site_status",
        "status",
        status_name(other),
        is,
    )
}

/// 1 where two statuses are the same, 0 where not.
fn one_if_same(status: Status, other: Status) -> u64
    ensures { result ≡ one_if (is_status other status) }
{
    match (other, status) {
        (Status::Normal, Status::Normal)
        | (Status::Change, Status::Change)
        | (Status::Recovering, Status::Recovering)
        | (Status::Down, Status::Down) => 1,
        _ => 0,
    }
}

/// Appends a site's rows and restarts, and what it dropped.
#[tactic(auto, unfolding(crate::specs::Metrics::counted_metrics))]
fn push_counts(text: &mut String, seen: SiteSeen) -> Result<(), AllocError>
    ensures { OnOk result (string_bytes text.new
        ≡ string_bytes text.old ++ counted_metrics seen) }
{
    let (log, done, most) = (seen.log as u64, seen.done as u64, MAX_ROWS as u64);
    let (restarts, dropped) = (u64::from(seen.restarts), seen.dropped);
    push_plain(text, "gauzemarl_log_rows", "gauge", "Rows of the log", log)?;
    push_plain(
        text,
        "gauzemarl_log_rows_max",
        "gauge",
        "Rows that a log can have",
        most,
    )?;
    push_plain(
        text,
        "gauzemarl_rows_executed_total",
        "counter",
        "Rows executed",
        done,
    )?;
    push_plain(
        text,
        "gauzemarl_site_restarts",
        "gauge",
        "Restarts of the site",
        restarts,
    )?;
    push_plain(
        text,
        "gauzemarl_frames_dropped_total",
        "counter",
        "Frames dropped, as their clocks were too far ahead",
        dropped,
    )
}

/// Appends how many bytes wait for each stream that stands.
#[tactic(auto, unfolding(crate::specs::Metrics::stream_lines))]
fn push_streams(text: &mut String, setup: &Setup, streams: &[Stream]) -> Result<(), AllocError>
    ensures { OnOk result (string_bytes text.new
        ≡ string_bytes text.old ++ stream_lines setup.now streams.now) }
{
    push_head(
        text,
        "gauzemarl_stream_waiting_bytes",
        "gauge",
        "Bytes that wait for a stream that stands",
    )?;
    push_waiting(text, setup, streams)
}

/// Appends a line for each stream.
fn push_waiting(text: &mut String, setup: &Setup, streams: &[Stream]) -> Result<(), AllocError>
    ensures { OnOk result (string_bytes text.new
        ≡ string_bytes text.old ++ flat_map (stream_line setup.now) streams.now) }
{
    for stream in streams {
        push_stream(text, setup, *stream)?;
    }
    Ok(())
}

/// Appends how many bytes wait for a stream.
#[tactic(auto, unfolding(crate::specs::Metrics::stream_line))]
fn push_stream(text: &mut String, setup: &Setup, stream: Stream) -> Result<(), AllocError>
    ensures { OnOk result (string_bytes text.new
        ≡ string_bytes text.old ++ stream_line setup.now stream) }
{
    let waiting = stream.waiting;
    text.push_str("gauzemarl_stream_waiting_bytes{peer=\"")?;
    push_name(text, setup, stream.peer)?;
    text.push_str("\"} ")?;
    write!(text, "{waiting}")?;
    text.push_str("\n")
}

/// Appends what is measured of a site's book; nothing where it has none.
#[tactic(auto, unfolding(crate::specs::Metrics::book_metrics))]
fn push_book(text: &mut String, book: Option<&Book>) -> Result<(), AllocError>
    ensures { OnOk result (string_bytes text.new
        ≡ string_bytes text.old ++ book_metrics (option_copied book.entry)) }
{
    match book {
        Some(book) => push_held(text, book),
        None => Ok(()),
    }
}

/// Appends what is measured of a book.
fn push_held(text: &mut String, book: &Book) -> Result<(), AllocError>
    ensures { OnOk result (string_bytes text.new
        ≡ string_bytes text.old ++ held_metrics book.now) }
{
    let (accepted, open) = (book.entries().len() as u64, book.open_count() as u64);
    push_plain(
        text,
        "gauzemarl_commands_accepted_total",
        "counter",
        "Commands that the book accepted",
        accepted,
    )?;
    push_plain(
        text,
        "gauzemarl_orders_open",
        "gauge",
        "Orders not paid or returned",
        open,
    )?;
    push_states(text, book)?;
    push_figures(text, book)
}

/// Appends how many pairs are in each state.
#[tactic(auto, unfolding(crate::specs::Metrics::state_lines))]
fn push_states(text: &mut String, book: &Book) -> Result<(), AllocError>
    ensures { OnOk result (string_bytes text.new ≡ string_bytes text.old ++ state_lines book.now) }
{
    push_head(text, "gauzemarl_pairs", "gauge", "Pairs in a state")?;
    push_state(text, book, PairState::Unmatched)?;
    push_state(text, book, PairState::Matched)?;
    push_state(text, book, PairState::Settled)?;
    push_state(text, book, PairState::Rescinded)
}

/// Appends how many pairs are in a state.
#[tactic(auto, unfolding(crate::specs::Metrics::state_line))]
fn push_state(text: &mut String, book: &Book, state: PairState) -> Result<(), AllocError>
    ensures { OnOk result (string_bytes text.new
        ≡ string_bytes text.old ++ state_line book.now state) }
{
    text.push_str("gauzemarl_pairs{state=\"")?;
    text.push_str(state_name(state))?;
    text.push_str("\"} ")?;
    push_count(text, book, state)?;
    text.push_str("\n")
}

/// Appends the bank's figure in each currency.
#[tactic(auto, unfolding(crate::specs::Metrics::figure_lines))]
fn push_figures(text: &mut String, book: &Book) -> Result<(), AllocError>
    ensures { OnOk result (string_bytes text.new
        ≡ string_bytes text.old ++ figure_lines book.now) }
{
    push_head(
        text,
        "gauzemarl_figure_minor_units",
        "gauge",
        "The bank's figure in a currency",
    )?;
    push_each_figure(text, book)
}

/// Appends a line for each currency.
fn push_each_figure(text: &mut String, book: &Book) -> Result<(), AllocError>
    ensures { OnOk result (string_bytes text.new ≡ string_bytes text.old
        ++ flat_map (figure_line book.now) (range_with_len 0 (length book.now.setup.currencies))) }
{
    for c in 0..book.setup().currency_count() {
        push_figure_line(text, book, c)?;
    }
    Ok(())
}

/// Appends the bank's figure in a currency.
#[tactic(auto, unfolding(crate::specs::Metrics::figure_line))]
fn push_figure_line(text: &mut String, book: &Book, c: u8) -> Result<(), AllocError>
    ensures { OnOk result (string_bytes text.new
        ≡ string_bytes text.old ++ figure_line book.now c) }
{
    text.push_str("gauzemarl_figure_minor_units{currency=\"")?;
    push_code_of(text, book.setup(), c)?;
    text.push_str("\"} ")?;
    push_figure(text, book, c)?;
    text.push_str("\n")
}

/// Appends what is measured of a node.
#[tactic(auto, unfolding(crate::specs::Metrics::node_metrics))]
fn push_node(text: &mut String, setup: &Setup, seen: NodeSeen) -> Result<(), AllocError>
    ensures { OnOk result (string_bytes text.new
        ≡ string_bytes text.old ++ node_metrics setup.now seen) }
{
    let (pay_ins, pay_outs) = (seen.pay_ins as u64, seen.pay_outs as u64);
    push_of_node(
        text,
        setup,
        seen.actor,
        "gauzemarl_node_account_minor_units",
        "gauge",
        "The bank's account at the node",
        seen.account,
    )?;
    push_of_node(
        text,
        setup,
        seen.actor,
        "gauzemarl_node_pay_ins_total",
        "counter",
        "Payments that were taken in",
        pay_ins,
    )?;
    push_of_node(
        text,
        setup,
        seen.actor,
        "gauzemarl_node_pay_outs_total",
        "counter",
        "Orders that were paid",
        pay_outs,
    )?;
    push_of_node(
        text,
        setup,
        seen.actor,
        "gauzemarl_node_unanswered",
        "gauge",
        "Notices that no site has answered",
        seen.unanswered as u64,
    )
}

/// Appends a number of a node, with its currency.
#[tactic(auto, unfolding(crate::specs::Metrics::of_node))]
fn push_of_node(
    text: &mut String,
    setup: &Setup,
    node: u16,
    name: &str,
    kind: &str,
    help: &str,
    number: u64,
) -> Result<(), AllocError>
    ensures { OnOk result (string_bytes text.new
        ≡ string_bytes text.old ++ of_node setup.now node name.now kind.now help.now number) }
{
    push_head(text, name, kind, help)?;
    text.push_str(name)?;
    text.push_str("{currency=\"")?;
    push_name(text, setup, node)?;
    text.push_str("\"} ")?;
    write!(text, "{number}")?;
    text.push_str("\n")
}

/// Appends what is measured of a client.
#[tactic(auto, unfolding(crate::specs::Metrics::client_metrics))]
fn push_client(text: &mut String, seen: ClientSeen) -> Result<(), AllocError>
    ensures { OnOk result (string_bytes text.new
        ≡ string_bytes text.old ++ client_metrics seen) }
{
    let requests = u64::from(seen.request);
    let waits = awaited(seen);
    push_plain(
        text,
        "gauzemarl_client_requests_total",
        "counter",
        "Requests made",
        requests,
    )?;
    push_plain(
        text,
        "gauzemarl_client_waits",
        "gauge",
        "1 where the answer to the last is awaited",
        waits,
    )
}

/// 1 where the answer to a client's last request is awaited.
#[tactic(auto, unfolding(crate::specs::Metrics::awaited))]
fn awaited(seen: ClientSeen) -> u64
    ensures { result ≡ awaited seen }
{
    if seen.request > 0 && seen.answer.is_none() {
        1
    } else {
        0
    }
}
