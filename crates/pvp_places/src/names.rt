//! Whom a name stands for in the files of a process.
ghost use Rattle.std.specs.Prelude.{◌≡◌};
ghost use Rattle.pvp_text.specs.ScriptFields.{operator_or_member};
ghost use Rattle.pvp_places.specs.Names.{actor_asked, actor_named, site_asked, site_named};

use crate::order::Who;
use pvp_types::Setup;
use vr_types::{FIRST_NODE, FIRST_SITE, MOST_SITES};

/// The actor that a command line asks for; `None` where the bank has none.
pub fn actor_asked(setup: &Setup, who: Who<'_>) -> Option<u16>
    ensures { result ≡ actor_asked setup.now who.entry }
{
    match who {
        Who::Site(word) => site_asked(setup, word.as_bytes()).map(|site| FIRST_SITE + site),
        Who::Node(code) => setup
            .currency(code.as_bytes())
            .map(|ccy| FIRST_NODE + u16::from(ccy)),
        Who::Client(name) => operator_or_member(setup, name.as_bytes()),
    }
}

/// The site of this place, with or without an `s` before it.
fn site_asked(setup: &Setup, word: &[u8]) -> Option<u16>
    ensures { result ≡ site_asked setup.now word.now }
{
    match word {
        [digit] => site_named(setup, &[b's', *digit]),
        _ => site_named(setup, word),
    }
}

/// The operator, or a member.
fn operator_or_member(setup: &Setup, name: &[u8]) -> Option<u16>
    ensures { result ≡ operator_or_member setup.now name.now }
{
    if name == b"OP".as_slice() {
        return Some(0);
    }
    setup.member(name)
}

/// The actor of a name: `s0` to `s6` are sites, `OP` is the operator, a member has its own name, and a currency's code is
/// its node's. `None` where the bank has none of this name.
pub fn actor_named(setup: &Setup, name: &[u8]) -> Option<u16>
    ensures { result ≡ actor_named setup.now name.now }
{
    match setup.client(name) {
        Some(client) => Some(client),
        None => site_named(setup, name).map(|site| FIRST_SITE + site),
    }
}

/// The place of a site in its group, by its name.
pub fn site_named(setup: &Setup, name: &[u8]) -> Option<u16>
    ensures { result ≡ site_named setup.now name.now }
{
    let [b's', digit] = name else {
        return None;
    };
    if !digit.is_ascii_digit() {
        return None;
    }
    let site = u16::from(*digit - b'0');
    if site < u16::from(MOST_SITES) && u64::from(site) < setup.sites {
        Some(site)
    } else {
        None
    }
}
