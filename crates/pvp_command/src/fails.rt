//! The saves that a command line wants to fail.
ghost use Rattle.std.specs.Prelude.{◌≡◌, IfOk, map, option_map};
ghost use Rattle.pvp_command.specs.Fails.{number_at, keep_at, fail_told, fail_at, each_fail, names, names_twice, fails_at, first_beyond, unknown_site};

use pvp_play::Fail;
use pvp_text::{amount, cut};
use pvp_types::Setup;
use std::alloc::{AllocError, Global};

/// The saves that words name, in their order. `None` where a word is no SITE:AT:KEEP, or where two words name one site.
/// `Err` where memory is refused.
pub fn read_fails(alloc: Global, words: &[&str]) -> Result<Option<Vec<Fail>>, AllocError>
    ensures { IfOk result (λ told. option_map (λ fails. fails.items) told
        ≡ fails_at (map (λ word. word.now) words.now)) }
{
    let read = each_fail(alloc, words)?;
    Ok(read.filter(|fails| !names_twice(fails.as_slice())))
}

/// The save that each word names. `None` where a word is no SITE:AT:KEEP.
fn each_fail(alloc: Global, words: &[&str]) -> Result<Option<Vec<Fail>>, AllocError>
    ensures { IfOk result (λ told. option_map (λ fails. fails.items) told
        ≡ each_fail (map (λ word. word.now) words.now)) }
{
    let mut fails = Vec::new(alloc);
    for word in words {
        match read_fail(word.as_bytes()) {
            Some(fail) => fails.push(fail)?,
            None => return Ok(None),
        }
    }
    Ok(Some(fails))
}

/// Whether two of them are of one site.
fn names_twice(fails: &[Fail]) -> bool
    ensures { result ≡ names_twice fails.now }
{
    let mut rest = fails;
    while let Some((first, others)) = rest.split_first() {
        if names(others, first.site) {
            return true;
        }
        rest = others;
    }
    false
}

/// Whether one of them is of this site.
fn names(fails: &[Fail], site: u16) -> bool
    ensures { result ≡ names site fails.now }
{
    fails.iter().any(|fail| fail.site == site)
}

/// The save that a word names: SITE:AT:KEEP, where SITE and AT are numbers of 16 bits without a leading zero, AT is not
/// 0, and KEEP is `new` or `old`.
fn read_fail(word: &[u8]) -> Option<Fail>
    ensures { result ≡ fail_at word.now }
{
    let (site, rest) = cut(word, b':');
    let (at, keep) = cut(rest, b':');
    fail_told(read_number(site), read_number(at), read_keep(keep))
}

/// The save that three fields name, where each of them is given.
fn fail_told(site: Option<u16>, at: Option<u16>, keep: Option<bool>) -> Option<Fail>
    ensures { result ≡ fail_told site at keep }
{
    match (site, at, keep) {
        (Some(site), Some(at), Some(keep)) if at > 0 => Some(Fail { site, at, keep }),
        _ => None,
    }
}

/// A number of 16 bits without a leading zero.
fn read_number(word: &[u8]) -> Option<u16>
    ensures { result ≡ number_at word.now }
{
    let number = amount(word).ok()?;
    u16::try_from(number).ok()
}

/// Whether the cell then holds the new value.
fn read_keep(word: &[u8]) -> Option<bool>
    ensures { result ≡ keep_at word.now }
{
    match word {
        b"new" => Some(true),
        b"old" => Some(false),
        _ => None,
    }
}

/// The first site that is named and that the setup lacks.
pub fn unknown_site(setup: &Setup, fails: &[Fail]) -> Option<u16>
    ensures { result ≡ unknown_site setup.now fails.now }
{
    let fail = first_beyond(fails, setup.sites)?;
    Some(fail.site)
}

/// The first of them that is of no site below a number.
fn first_beyond(fails: &[Fail], sites: u64) -> Option<Fail>
    ensures { result ≡ first_beyond sites fails.now }
{
    fails
        .iter()
        .copied()
        .find(|fail| u64::from(fail.site) >= sites)
}
