//! How actors and currencies are named: as scripts name them.

ghost use Rattle.std.specs.Prelude.{◌≡◌, ◌++◌, ◌-◌, ◌<◌, slice_get, option_map, string_bytes, OnOk};
ghost use Rattle.pvp_trace.specs.Names.{currency_text, actor_text};

use pvp_types::Setup;
use std::alloc::AllocError;
use vr_types::ActorId;

/// Appends a currency's code, and `@N` where the setup has no such currency.
pub fn push_currency(text: &mut String, setup: &Setup, ccy: u8) -> Result<(), AllocError>
    ensures { OnOk result (string_bytes text.new ≡ string_bytes text.old
        ++ currency_text setup.now ccy) }
{
    match code_of(setup, u16::from(ccy)) {
        Some(code) => text.push_str(code),
        None => write!(text, "@{ccy}"),
    }
}

/// Appends a site's number behind `s`, a node's currency, `OP` for the operator or a member's name; and `@N` where the
/// setup has no such node or member.
pub fn push_actor(text: &mut String, setup: &Setup, actor: u16) -> Result<(), AllocError>
    ensures { OnOk result (string_bytes text.new ≡ string_bytes text.old
        ++ actor_text setup.now actor) }
{
    let name = match ActorId::of(actor) {
        ActorId::Site(site) => return write!(text, "s{site}"),
        ActorId::Client(0) => return text.push_str("OP"),
        ActorId::Node(ccy) => code_of(setup, ccy),
        ActorId::Client(member) => member_of(setup, member),
    };
    match name {
        Some(name) => text.push_str(name),
        None => write!(text, "@{actor}"),
    }
}

/// The code of a currency.
fn code_of(setup: &Setup, ccy: u16) -> Option<&str>
    ensures { option_map (λ code. code.now) result ≡ option_map (λ currency. currency.code)
        (slice_get setup.now.currencies ccy) }
{
    let currency = setup.currencies.get(usize::from(ccy))?;
    Some(currency.code.as_str())
}

/// The name of a member, by its number from 1.
fn member_of(setup: &Setup, member: u16) -> Option<&str>
    requires { 0 < member }
    ensures { option_map (λ name. name.now) result ≡ option_map (λ member. member.name)
        (slice_get setup.now.members (member - 1)) }
{
    let member = setup.members.get(usize::from(member) - 1)?;
    Some(member.name.as_str())
}
