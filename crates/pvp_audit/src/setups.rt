//! Whether two setups are the same.
ghost use Rattle.std.specs.Prelude.{◌≡◌, ◌↔◌, IsTrue};

use pvp_types::{Currency, Member, Setup};

/// Whether two setups are the same.
pub fn same_setup(a: &Setup, b: &Setup) -> bool
    ensures { IsTrue result ↔ (a.now ≡ b.now) }
{
    a.sites == b.sites
        && same_currencies(a.currencies.as_slice(), b.currencies.as_slice())
        && same_members(a.members.as_slice(), b.members.as_slice())
}

/// Whether two currencies are the same.
fn same_currency(a: &Currency, b: &Currency) -> bool
    ensures { IsTrue result ↔ (a.now ≡ b.now) }
{
    a.code.as_str() == b.code.as_str() && a.rate == b.rate && a.haircut == b.haircut
}

/// Whether two lists of currencies are the same.
fn same_currencies(a: &[Currency], b: &[Currency]) -> bool
    ensures { IsTrue result ↔ (a.now ≡ b.now) }
{
    if a.len() != b.len() {
        return false;
    }
    for i in 0..a.len() {
        if !same_currency(&a[i], &b[i]) {
            return false;
        }
    }
    true
}

/// Whether two members are the same.
fn same_member(a: &Member, b: &Member) -> bool
    ensures { IsTrue result ↔ (a.now ≡ b.now) }
{
    a.name.as_str() == b.name.as_str()
        && a.aggregate == b.aggregate
        && a.short.as_slice() == b.short.as_slice()
        && a.deposit.as_slice() == b.deposit.as_slice()
}

/// Whether two lists of members are the same.
fn same_members(a: &[Member], b: &[Member]) -> bool
    ensures { IsTrue result ↔ (a.now ≡ b.now) }
{
    if a.len() != b.len() {
        return false;
    }
    for i in 0..a.len() {
        if !same_member(&a[i], &b[i]) {
            return false;
        }
    }
    true
}
