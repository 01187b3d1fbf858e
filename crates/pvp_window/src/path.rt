//! What the path of a request asks for, and what stands behind its question mark.
ghost use Rattle.std.specs.Prelude.{◌≡◌, ◌≤◌, option_copied};
ghost use Rattle.pvp_window.specs.declared.path.Asked.TheVariants.{Look};
ghost use Rattle.pvp_window.specs.Paths.{
  asked_by,
  asked_deeper,
  asked_in,
  asked_last,
  entries_asked,
  entries_of,
  is_read,
  member_asked,
  number_below,
  number_named,
  pair_asked,
  words_asked,
};

use crate::look::View;
use pvp_text::{amount, cut};
use pvp_types::Setup;

/// The longest wait for a further entry, in seconds.
const MOST_WAIT: u64 = 30;

/// How many references and numbers of entries there are.
const NUMBERS: u64 = 1 << 32;

/// What a request asks for.
#[derive(Clone, Copy, Debug, PartialEq, Eq)]
pub enum Asked {
    /// The console's page.
    Console,
    /// The windows that the console reads.
    Windows,
    /// A look at the actor; one at its entries waits for a further one for so many seconds.
    Look { view: View, wait: u32 },
    /// A path that names nothing.
    Missing,
    /// A number that is none, or too great.
    Wrong,
}

/// Whether a method only reads.
pub fn is_read(method: &str) -> bool
    ensures { result ≡ is_read method.now }
{
    method == "GET" || method == "HEAD"
}

/// What a path asks for, with these words behind its question mark.
pub fn asked_by(setup: &Setup, path: &str, query: Option<&str>) -> Asked
    ensures { result ≡ asked_by setup.now path.now (option_copied query.entry) }
{
    if path == "/" {
        Asked::Console
    } else if path == "/windows" {
        Asked::Windows
    } else if path == "/health" {
        look(View::Health)
    } else if path == "/status" {
        look(View::Status)
    } else if path == "/metrics" {
        look(View::Metrics)
    } else if path == "/book" {
        look(View::Book)
    } else if path == "/entries" {
        entries_asked(query)
    } else {
        asked_deeper(setup, path.as_bytes())
    }
}

/// A look that does not wait.
fn look(view: View) -> Asked
    ensures { result ≡ Look view 0 }
{
    Asked::Look { view, wait: 0 }
}

/// What a path of three words asks for: `/book/members/NAME` or `/book/pairs/N`.
fn asked_deeper(setup: &Setup, path: &[u8]) -> Asked
    ensures { result ≡ asked_deeper setup.now path.now }
{
    let (_, words) = cut(path, b'/');
    asked_in(setup, words)
}

/// What the words of such a path ask for.
fn asked_in(setup: &Setup, words: &[u8]) -> Asked
    ensures { result ≡ asked_in setup.now words.now }
{
    let (first, rest) = cut(words, b'/');
    if first == b"book".as_slice() {
        asked_last(setup, rest)
    } else {
        Asked::Missing
    }
}

/// What the last two words of such a path ask for.
fn asked_last(setup: &Setup, words: &[u8]) -> Asked
    ensures { result ≡ asked_last setup.now words.now }
{
    let (second, last) = cut(words, b'/');
    if second == b"members".as_slice() {
        member_asked(setup, last)
    } else if second == b"pairs".as_slice() {
        pair_asked(last)
    } else {
        Asked::Missing
    }
}

/// The member of a name.
fn member_asked(setup: &Setup, name: &[u8]) -> Asked
    ensures { result ≡ member_asked setup.now name.now }
{
    match setup.member(name) {
        Some(m) => look(View::Member(m)),
        None => Asked::Missing,
    }
}

/// The pair of a reference.
fn pair_asked(word: &[u8]) -> Asked
    ensures { result ≡ pair_asked word.now }
{
    match number_below(NUMBERS, word) {
        Some(reference) => look(View::Pair(reference)),
        None => Asked::Wrong,
    }
}

/// The entries behind the first so many, by `from=N`, `wait=S`, or one after the other with `&` between.
fn entries_asked(query: Option<&str>) -> Asked
    ensures { result ≡ entries_asked (option_copied query.entry) }
{
    match query {
        None => entries(Some(0), Some(0)),
        Some(words) => words_asked(words.as_bytes()),
    }
}

fn words_asked(words: &[u8]) -> Asked
    ensures { result ≡ words_asked words.now }
{
    let (first, second) = cut(words, b'&');
    let (name, _) = cut(words, b'=');
    if name == b"wait".as_slice() {
        return entries(Some(0), number_named(b"wait", MOST_WAIT + 1, words));
    }
    let from = number_named(b"from", NUMBERS, first);
    if second.is_empty() {
        entries(from, Some(0))
    } else {
        entries(from, number_named(b"wait", MOST_WAIT + 1, second))
    }
}

/// The entries behind the first so many, where both numbers are such.
fn entries(from: Option<u32>, wait: Option<u32>) -> Asked
    ensures { result ≡ entries_of from wait }
{
    match (from, wait) {
        (Some(from), Some(wait)) => Asked::Look {
            view: View::Entries(from),
            wait,
        },
        _ => Asked::Wrong,
    }
}

/// The number behind `NAME=`, where it is below a limit.
fn number_named(name: &[u8], limit: u64, word: &[u8]) -> Option<u32>
    requires { limit ≤ 4294967296 }
    ensures { result ≡ number_named name.now limit word.now }
{
    let (found, number) = cut(word, b'=');
    if found == name {
        number_below(limit, number)
    } else {
        None
    }
}

/// A number below a limit, in digits without a leading zero.
fn number_below(limit: u64, word: &[u8]) -> Option<u32>
    requires { limit ≤ 4294967296 }
    ensures { result ≡ number_below limit word.now }
{
    match amount(word) {
        Ok(number) if number < limit => Some(number as u32),
        _ => None,
    }
}
