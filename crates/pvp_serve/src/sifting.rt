//! Which of the frames that wait for a site are skipped: a vote, a log or a state that its sender
//! has replaced by now. That is lost, and does not come into the journal.
ghost use Rattle.std.specs.Prelude.{◌≡◌, ◌++◌, IfOk, filter_map};
ghost use Rattle.pvp_serve.specs.Sifting.{
  is_kept,
  is_replaced,
  kind_of,
  mark_of,
  marked,
  replaces,
  same_kind,
  sifted,
};

use crate::inbox::Inbox;
use pvp_book::Book;
use pvp_wire::Stamped;
use std::alloc::{AllocError, Global};
use vr_types::{Msg, MsgOf};

/// The kinds of messages of which a later one says all that an earlier one of its sender did.
#[derive(Clone, Copy, Debug)]
enum Kind {
    /// STARTVIEWCHANGE.
    Start,
    /// DOVIEWCHANGE.
    Vote,
    /// STARTVIEW.
    Opening,
    /// NEWSTATE.
    State,
    /// RECOVERYRESPONSE.
    Response,
}

/// What distinguishes a frame of such a kind from others.
#[derive(Clone, Copy, Debug)]
struct Mark {
    from: u16,
    kind: Kind,
    clock: u64,
    index: u32,
}

/// Of what waits for a site that was restarted so often, what is processed: of one sender and one
/// kind of message that a later one replaces, the one with the greatest stamp. `Err` where memory
/// is refused.
pub fn sift(alloc: Global, nonce: u32, items: Vec<Inbox>) -> Result<Vec<Inbox>, AllocError>
    ensures { IfOk result (λ kept. kept.items ≡ sifted nonce items.items) }
{
    let marks = marks_in(alloc, nonce, items.as_slice())?;
    let mut kept = items;
    kept.retain(|item| is_kept(nonce, marks.as_slice(), item));
    Ok(kept)
}

/// The marks of the frames that may replace others.
fn marks_in(alloc: Global, nonce: u32, items: &[Inbox]) -> Result<Vec<Mark>, AllocError>
    ensures { IfOk result (λ marks. marks.items ≡ filter_map (mark_of nonce) items.now) }
{
    items
        .iter()
        .filter_map(|item| mark_of(nonce, item))
        .collect(alloc)
}

/// The mark of a frame that others may replace.
fn mark_of(nonce: u32, item: &Inbox) -> Option<Mark>
    ensures { result ≡ mark_of nonce item.now }
{
    let Inbox::Frame(arrival, _) = item else {
        return None;
    };
    let stamped = arrival.stamped_envelope();
    match kind_of(nonce, &stamped.envelope.msg) {
        Some(kind) => Some(marked(stamped, kind)),
        None => None,
    }
}

fn marked(stamped: &Stamped, kind: Kind) -> Mark
    ensures { result ≡ marked stamped.now kind }
{
    Mark {
        from: stamped.envelope.from,
        kind,
        clock: stamped.stamp.clock,
        index: stamped.stamp.index,
    }
}

fn kind_of(nonce: u32, msg: &Msg<Book>) -> Option<Kind>
    ensures { result ≡ kind_of nonce msg.now }
{
    match msg {
        MsgOf::StartViewChange(_) => Some(Kind::Start),
        MsgOf::DoViewChange(_) => Some(Kind::Vote),
        MsgOf::StartView(_) => Some(Kind::Opening),
        MsgOf::NewState(_) => Some(Kind::State),
        MsgOf::RecoveryResponse(response) if response.nonce == nonce => Some(Kind::Response),
        _ => None,
    }
}

/// Whether none of these frames replaces an item.
fn is_kept(nonce: u32, marks: &[Mark], item: &Inbox) -> bool
    ensures { result ≡ is_kept nonce marks.now item.now }
{
    match mark_of(nonce, item) {
        Some(mark) => !is_replaced(marks, mark),
        None => true,
    }
}

/// Whether one of these frames replaces a frame.
fn is_replaced(marks: &[Mark], mark: Mark) -> bool
    ensures { result ≡ is_replaced marks.now mark }
{
    marks.iter().any(|other| replaces(*other, mark))
}

/// Whether one frame replaces another.
fn replaces(this: Mark, other: Mark) -> bool
    ensures { result ≡ replaces this other }
{
    let is_later = other.clock < this.clock
        || this.clock == other.clock && other.index < this.index;
    same_kind(this.kind, other.kind) && this.from == other.from && is_later
}

fn same_kind(one: Kind, other: Kind) -> bool
    ensures { result ≡ same_kind one other }
{
    matches!(
        (one, other),
        (Kind::Start, Kind::Start)
            | (Kind::Vote, Kind::Vote)
            | (Kind::Opening, Kind::Opening)
            | (Kind::State, Kind::State)
            | (Kind::Response, Kind::Response)
    )
}
