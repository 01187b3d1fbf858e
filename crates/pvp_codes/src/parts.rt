//! Which part of a setup breaks a rule, and why.

ghost use Rattle.std.specs.Prelude.{◌≡◌, ◌+◌, ◌^◌, ◌<◌, [], Some, None, bytes_eq, IfNone, IfSome};
ghost use Rattle.std.specs.List.{list_any};
ghost use Rattle.pvp_codes.specs.Parts as spec;

use pvp_types::check::{DEPOSIT, LIMIT, is_code, is_name};
use pvp_types::{Currency, Member, Setup, SetupFault};
use std::fmt;

/// Why a currency or a member breaks a rule of a setup.
#[derive(Clone, Copy, Debug, PartialEq, Eq)]
pub enum PartWhy {
    /// A code is not three letters.
    CodeLetters,
    /// A currency before it has the code.
    CodeTwice,
    /// A rate that may not be.
    RateRange(u64),
    /// A haircut that may not be.
    HaircutRange(u64),
    /// A name is not letters and digits, or not of so many.
    NameLetters,
    /// A member before it has the name.
    NameTwice,
    /// A member has the operator's name.
    NameOfOperator,
    /// A member has the name of a currency's node.
    NameOfCurrency,
    /// So many short limits.
    ShortCount(usize),
    /// So many deposits.
    DepositCount(usize),
    /// An aggregate limit that may not be.
    AggregateRange(u64),
    /// A short limit that may not be.
    ShortRange(u64),
    /// A deposit that may not be.
    DepositRange(u64),
}

/// Says in words why the part breaks its rule.
impl fmt::Display for PartWhy {
    ghost output = { λ why. Some (spec.part_text why) };

    fn fmt<W: fmt::Write>(&self, f: &mut fmt::Formatter<W>) -> fmt::Result {
        match self {
            PartWhy::CodeLetters => f.write_str("the code is not three letters A to Z"),
            PartWhy::CodeTwice => f.write_str("the code stands twice"),
            PartWhy::RateRange(rate) => write!(f, "the rate is not 1 to 1000000: {rate}"),
            PartWhy::HaircutRange(haircut) => write!(f, "the haircut is not 0 to 9999: {haircut}"),
            PartWhy::NameLetters => {
                f.write_str("the name is not 1 to 8 of A to Z and digits, a letter first")
            }
            PartWhy::NameTwice => f.write_str("the name stands twice"),
            PartWhy::NameOfOperator => f.write_str("the name is OP"),
            PartWhy::NameOfCurrency => f.write_str("the name is a currency's code"),
            PartWhy::ShortCount(count) => {
                write!(f, "the short limits are not one for each currency: {count}")
            }
            PartWhy::DepositCount(count) => {
                write!(f, "the deposits are not one for each currency: {count}")
            }
            PartWhy::AggregateRange(amount) => {
                write!(
                    f,
                    "the aggregate limit is not 0 to 1000000000000000000: {amount}"
                )
            }
            PartWhy::ShortRange(amount) => {
                write!(f, "a short limit is not 0 to 1000000000000000000: {amount}")
            }
            PartWhy::DepositRange(amount) => {
                write!(f, "a deposit is not 0 to 1000000000000000: {amount}")
            }
        }
    }
}

/// The first of some currencies that breaks a rule, with its place from 0, and why.
pub fn first_currency(
    rule: SetupFault,
    currencies: &[Currency],
) -> Option<(usize, &Currency, PartWhy)>
    ensures none { IfNone result (spec.first_part (spec.currency_fault rule) [] currencies.now
        ≡ None) }
    ensures some { IfSome result (λ x. spec.first_part (spec.currency_fault rule) [] currencies.now
        ≡ Some (x.0, x.1.now, x.2)) }
{
    for (place, currency) in currencies.iter().enumerate() {
        if let Some(why) = currency_fault(rule, &currencies[..place], currency) {
            return Some((place, currency, why));
        }
    }
    None
}

/// The first member of a setup that breaks a rule, with its place from 0, and why.
pub fn first_member(rule: SetupFault, setup: &Setup) -> Option<(usize, &Member, PartWhy)>
    ensures none { IfNone result
        (spec.first_part (spec.member_fault rule setup.now) [] setup.now.members ≡ None) }
    ensures some { IfSome result
        (λ x. spec.first_part (spec.member_fault rule setup.now) [] setup.now.members
        ≡ Some (x.0, x.1.now, x.2)) }
    ensures fits { IfSome result (λ x. x.0 + 1 < 2 ^ 64) }
{
    let members = setup.members.as_slice();
    for (place, member) in members.iter().enumerate() {
        if let Some(why) = member_fault(rule, setup, &members[..place], member) {
            return Some((place, member, why));
        }
    }
    None
}

/// Why a currency breaks a rule, given those before it.
fn currency_fault(rule: SetupFault, before: &[Currency], currency: &Currency) -> Option<PartWhy>
    ensures { result ≡ spec.currency_fault rule before.now currency.now }
{
    match rule {
        SetupFault::CurrencyCode => code_fault(before, currency),
        SetupFault::Rate if !(1..=1_000_000).contains(&currency.rate) => {
            Some(PartWhy::RateRange(currency.rate))
        }
        SetupFault::Haircut if currency.haircut > 9999 => {
            Some(PartWhy::HaircutRange(currency.haircut))
        }
        _ => None,
    }
}

/// Why a currency's code breaks the rule of codes, given the currencies before it.
fn code_fault(before: &[Currency], currency: &Currency) -> Option<PartWhy>
    ensures { result ≡ spec.currency_fault SetupFault.CurrencyCode before.now currency.now }
{
    let code = currency.code.as_str();
    if !is_code(code) {
        return Some(PartWhy::CodeLetters);
    }
    if has_code(code, before) {
        return Some(PartWhy::CodeTwice);
    }
    None
}

/// Why a member breaks a rule, given those before it.
fn member_fault(
    rule: SetupFault,
    setup: &Setup,
    before: &[Member],
    member: &Member,
) -> Option<PartWhy>
    ensures { result ≡ spec.member_fault rule setup.now before.now member.now }
{
    match rule {
        SetupFault::MemberName => name_fault(setup, before, member),
        SetupFault::ListLength => places_fault(setup, member),
        SetupFault::Limit => limits_fault(member),
        _ => None,
    }
}

/// Why a member's name breaks the rule of names, given the members before it.
fn name_fault(setup: &Setup, before: &[Member], member: &Member) -> Option<PartWhy>
    ensures { result ≡ spec.name_fault setup.now before.now member.now }
{
    let name = member.name.as_str();
    if !is_name(name) {
        return Some(PartWhy::NameLetters);
    }
    if has_name(name, before) {
        return Some(PartWhy::NameTwice);
    }
    if name == "OP" {
        return Some(PartWhy::NameOfOperator);
    }
    if has_code(name, setup.currencies.as_slice()) {
        return Some(PartWhy::NameOfCurrency);
    }
    None
}

/// Why a member's lists break the rule of their places.
fn places_fault(setup: &Setup, member: &Member) -> Option<PartWhy>
    ensures { result ≡ spec.places_fault setup.now member.now }
{
    let places = setup.currencies.len();
    if member.short.len() != places {
        return Some(PartWhy::ShortCount(member.short.len()));
    }
    if member.deposit.len() != places {
        return Some(PartWhy::DepositCount(member.deposit.len()));
    }
    None
}

/// Which limit of a member breaks the rule of limits.
fn limits_fault(member: &Member) -> Option<PartWhy>
    ensures { result ≡ spec.limits_fault member.now }
{
    if member.aggregate > LIMIT {
        return Some(PartWhy::AggregateRange(member.aggregate));
    }
    if let Some(amount) = above(LIMIT, member.short.as_slice()) {
        return Some(PartWhy::ShortRange(amount));
    }
    above(DEPOSIT, member.deposit.as_slice()).map(|amount| PartWhy::DepositRange(amount))
}

/// The first of some amounts above the most that it may be.
fn above(most: u64, amounts: &[u64]) -> Option<u64>
    ensures { result ≡ spec.above most amounts.now }
{
    amounts.iter().copied().find(|amount| !(*amount <= most))
}

/// Whether a currency has the code.
fn has_code(code: &str, currencies: &[Currency]) -> bool
    ensures { result ≡ list_any (λ other. bytes_eq other.code code.now) currencies.now }
{
    currencies.iter().any(|other| other.code.as_str() == code)
}

/// Whether a member has the name.
fn has_name(name: &str, members: &[Member]) -> bool
    ensures { result ≡ list_any (λ other. bytes_eq other.name name.now) members.now }
{
    members.iter().any(|other| other.name.as_str() == name)
}
