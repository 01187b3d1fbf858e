//! Where a site listens.
ghost use Rattle.std.specs.Prelude.{◌≡◌, ◌==◌, slice_index, true, false, option_map, IfOk, IfSome, IfNone};
ghost use Rattle.std.specs.Char.{is_ascii_graphic};
ghost use Rattle.std.specs.List.{list_all};
ghost use Rattle.pvp_places.specs.Address.{address_of, behind_bracket, is_host, parts_behind_bracket, parts_of, port_of, seen_at};

use pvp_text::{amount, cut};
use std::alloc::{AllocError, Global};

/// A host, by its name or its number, and a port there.
#[derive(Debug, Drop)]
pub struct Address {
    pub host: String,
    pub port: u16,
}

/// The address of a text `HOST:PORT`; `Ok(None)` where it is none. A host has visible ASCII characters; brackets around it, as
/// those of `[::1]`, are no part of it, and without them it ends at the first colon. A port is 1 to 65535, without zeros in
/// front. `Err` where memory is refused.
pub fn read_address(alloc: Global, text: &[u8]) -> Result<Option<Address>, AllocError>
    ensures { IfOk result (λ found. option_map seen_at found ≡ address_of text.now) }
{
    let (host, digits) = parts_of(text);
    let Some(port) = port_of(digits) else {
        return Ok(None);
    };
    match host_of(host) {
        None => Ok(None),
        Some(host) => Ok(Some(Address {
            host: String::from_str(alloc, host)?,
            port,
        })),
    }
}

/// What stands in front of the colon of a text, and what behind it.
fn parts_of(text: &[u8]) -> (&[u8], &[u8])
    ensures host { result.0.now ≡ (parts_of text.now).0 }
    ensures digits { result.1.now ≡ (parts_of text.now).1 }
{
    if begins_with_bracket(text) {
        parts_behind_bracket(&text[1..])
    } else {
        cut(text, b':')
    }
}

fn begins_with_bracket(text: &[u8]) -> bool
    ensures { result ≡ (slice_index text.now 0 == 91) }
{
    text.first() == Some(&b'[')
}

/// The host and the port in a text, behind its opening bracket.
fn parts_behind_bracket(text: &[u8]) -> (&[u8], &[u8])
    ensures host { result.0.now ≡ (parts_behind_bracket text.now).0 }
    ensures digits { result.1.now ≡ (parts_behind_bracket text.now).1 }
{
    let (host, rest) = cut(text, b']');
    (host, behind_bracket(rest))
}

/// What stands behind the colon that follows a bracket; nothing where none does.
fn behind_bracket(rest: &[u8]) -> &[u8]
    ensures { result.now ≡ behind_bracket rest.now }
{
    match rest {
        [b':', digits @ ..] => digits,
        _ => &[],
    }
}

/// A host as a text; `None` where it is none.
// the lemma shows that the branch of what is no text is never taken
#[tactic(auto, using(crate::proofs::Hosts::no_text))]
fn host_of(host: &[u8]) -> Option<&str>
    ensures some { IfSome result (λ text. (text.now ≡ host.now) × (is_host host.now ≡ true)) }
    ensures none { IfNone result (is_host host.now ≡ false) }
{
    if !is_host(host) {
        return None;
    }
    match str::from_utf8(host) {
        Ok(text) => Some(text),
        Err(_) => None,
    }
}

/// Whether a host has visible characters alone, and at least one.
fn is_host(host: &[u8]) -> bool
    ensures { result ≡ is_host host.now }
{
    !host.is_empty() && are_visible(host)
}

fn are_visible(host: &[u8]) -> bool
    ensures { result ≡ list_all is_ascii_graphic host.now }
{
    host.iter().all(|byte| byte.is_ascii_graphic())
}

/// A port in decimal digits.
fn port_of(digits: &[u8]) -> Option<u16>
    ensures { result ≡ port_of digits.now }
{
    match amount(digits) {
        Ok(port) if port > 0 => u16::try_from(port).ok(),
        _ => None,
    }
}
