//! A look: what somebody asks to see of an actor, and what its loop answers. Nothing here changes the actor, which is read through a
//! `&`; and whatever way an answer takes from there, its text is of some moment of an actor exactly what the view of it says.
ghost use Rattle.std.specs.Prelude.{◌≡◌, option_copied, string_bytes, IfOk, OnOk, ◌++◌};
ghost use Rattle.pvp_types.specs.Setup.{IsValid};
ghost use Rattle.pvp_window.specs.Readings.{Appends, IsReading, ReadsAs, behind_label, health, is_well, of_actor, of_book, reading};

use crate::book::{push_book, push_entries, push_one_member, push_one_pair};
use crate::metrics::push_metrics;
use crate::seen::{Seen, SiteSeen, Stream, push_label, push_status};
use crossbeam_channel::Sender;
use pvp_book::Book;
use pvp_types::Setup;
use std::alloc::{AllocError, Global};
use vr_types::Status;

/// What may be asked to be seen.
#[derive(Clone, Copy, Debug, PartialEq, Eq)]
pub enum View {
    Health,
    Status,
    Metrics,
    Book,
    /// The member of this number.
    Member(u16),
    /// The pair of this reference.
    Pair(u32),
    /// The entries behind the first so many.
    Entries(u32),
}

/// How a look comes out.
#[derive(Clone, Copy, Debug, PartialEq, Eq)]
pub enum Found {
    /// The actor shows it.
    Shown,
    /// The site is not normal.
    Unwell,
    /// The site has no book, as it recovers or is down.
    NoBook,
    /// An actor of this kind has none.
    Nothing,
}

/// What is asked to be seen, and where the answer goes.
#[derive(Drop)]
pub struct Look {
    pub view: View,
    pub to: Sender<Shown>,
}

/// What is answered to a look.
#[derive(Drop)]
pub struct Shown {
    view: View,
    found: Found,
    text: String,
    /// Whether there is an entry behind the first so many that the look names.
    more: bool,
    ghost exact: { ∥ IsReading view found (string_bytes text) ∥₁ },
}

impl Shown {
    /// How the look came out.
    pub fn found(&self) -> Found
        ensures { result ≡ self.now.found }
    {
        self.found
    }

    /// What it was at.
    pub fn view(&self) -> View
        ensures { result ≡ self.now.view }
    {
        self.view
    }

    /// Whether there is an entry behind the first so many that the look names.
    pub fn has_more(&self) -> bool {
        self.more
    }

    /// Its text.
    pub fn text(&self) -> &str
        ensures text { result.now ≡ string_bytes self.now.text }
        ensures exact { ∥ IsReading self.now.view self.now.found result.now ∥₁ }
    {
        self.text.as_str()
    }
}

/// What an actor shows to a look. `Err` where memory is refused.
pub fn show(
    alloc: Global,
    setup: &Setup,
    seen: Seen,
    streams: &[Stream],
    book: Option<&Book>,
    view: View,
) -> Result<Shown, AllocError>
    requires { IsValid setup.now }
    ensures { IfOk result (λ shown. ReadsAs
        (reading setup.now seen streams.now (option_copied book.entry) view)
        shown.found (string_bytes shown.text)) }
{
    let mut text = String::new(alloc);
    let found = push_view(&mut text, setup, seen, streams, book, view)?;
    let more = has_more(book, view);
    Ok(Shown {
        view,
        found,
        text,
        more,
    })
}

/// Whether a book has an entry behind the first so many that a look names.
fn has_more(book: Option<&Book>, view: View) -> bool {
    match (book, view) {
        (Some(book), View::Entries(from)) => book.entries().len() > from as usize,
        _ => false,
    }
}

/// Appends what an actor shows to a look, and answers how that comes out.
fn push_view(
    text: &mut String,
    setup: &Setup,
    seen: Seen,
    streams: &[Stream],
    book: Option<&Book>,
    view: View,
) -> Result<Found, AllocError>
    requires { IsValid setup.now }
    ensures { IfOk result (λ found. Appends
        (reading setup.now seen streams.now (option_copied book.entry) view)
        found (string_bytes text.old) (string_bytes text.new)) }
{
    match view {
        View::Health => push_health(text, seen),
        View::Status => {
            push_status(text, setup, seen, streams)?;
            Ok(Found::Shown)
        }
        View::Metrics => {
            push_metrics(text, setup, seen, streams, book)?;
            Ok(Found::Shown)
        }
        _ => push_of_actor(text, setup, seen, book, view),
    }
}

/// Appends what an actor shows of a book: nothing, where it is no site.
fn push_of_actor(
    text: &mut String,
    setup: &Setup,
    seen: Seen,
    book: Option<&Book>,
    view: View,
) -> Result<Found, AllocError>
    requires { IsValid setup.now }
    ensures { IfOk result (λ found. Appends
        (of_actor setup.now seen (option_copied book.entry) view)
        found (string_bytes text.old) (string_bytes text.new)) }
{
    match seen {
        Seen::Site(site) => push_of_book(text, setup, site, book, view),
        Seen::Node(_) | Seen::Client(_) => {
            text.push_str("{\"error\":\"not found\"}\n")?;
            Ok(Found::Nothing)
        }
    }
}

/// Appends whether an actor can do its work, as a site can that is normal.
fn push_health(text: &mut String, seen: Seen) -> Result<Found, AllocError>
    ensures { IfOk result (λ found. Appends (health seen)
        found (string_bytes text.old) (string_bytes text.new)) }
{
    if is_well(seen) {
        text.push_str("ok\n")?;
        return Ok(Found::Shown);
    }
    text.push_str("not normal\n")?;
    Ok(Found::Unwell)
}

/// Whether an actor can do its work.
fn is_well(seen: Seen) -> bool
    ensures { result ≡ is_well seen }
{
    match seen {
        Seen::Site(site) => matches!(site.status, Status::Normal),
        Seen::Node(_) | Seen::Client(_) => true,
    }
}

/// Appends what a site shows of its book.
fn push_of_book(
    text: &mut String,
    setup: &Setup,
    seen: SiteSeen,
    book: Option<&Book>,
    view: View,
) -> Result<Found, AllocError>
    requires { IsValid setup.now }
    ensures { IfOk result (λ found. Appends (of_book setup.now seen (option_copied book.entry) view)
        found (string_bytes text.old) (string_bytes text.new)) }
{
    let Some(book) = book else {
        text.push_str("{\"error\":\"no book\"}\n")?;
        return Ok(Found::NoBook);
    };
    push_label(text, setup, seen)?;
    push_behind(text, book, view)?;
    Ok(Found::Shown)
}

/// Appends what stands behind the label of a site in a reading of its book.
fn push_behind(text: &mut String, book: &Book, view: View) -> Result<(), AllocError>
    ensures { OnOk result (string_bytes text.new
        ≡ string_bytes text.old ++ behind_label book.now view) }
{
    match view {
        View::Member(m) => push_one_member(text, book, m),
        View::Pair(reference) => push_one_pair(text, book, reference),
        View::Entries(from) => push_entries(text, book, from),
        _ => push_book(text, book),
    }
}
