//! What one word of a line stands for.
ghost use Rattle.std.specs.Prelude.{◌≡◌, ◌≤◌, ◌^◌, true, Some, IfOk};
ghost use Rattle.std.specs.Char.{is_ascii_digit};
ghost use Rattle.std.specs.List.{list_all};
ghost use Rattle.pvp_text.specs.ScriptFields.{has_leading_zero, is_number, number_at, number_within, is_of_name, code_of, word_fault_text, reference_at, actor_at, site_at, client_of, operator_or_member, sender_number, sender_of, no_sender, currency_named, spelling_of, spelled_in, value_at, as_actor, as_currency, as_number, as_amount};

use crate::script::table::Field;
use crate::script::words::is;
use crate::script::{Kind, LineCode};
use pvp_types::Setup;
use std::{fmt, str};
use vr_types::FIRST_SITE;

/// How many turns chaos may take.
const TURNS: u64 = 1_000_000;

/// The greatest numbers that `@` may give for a client and of a currency, and `s` of a site.
const MOST_OF_CLIENT: u64 = 65_535;

const MOST_OF_CURRENCY: u64 = 255;

const MOST_OF_SITE: u64 = 255;

/// Why a word may not stand where it does, though it stands in a form that there is.
#[derive(Clone, Copy, Debug, PartialEq, Eq)]
pub enum WordFault {
    /// A number without digits.
    NoDigits,
    /// A number with a zero in front.
    LeadingZero,
    /// A number with a byte that is no digit.
    NotDigits,
    /// A number above the one that may stand there.
    Above(u64),
    /// It begins with `@`, where only a site may stand, which is named by `s`.
    NotBySite,
    /// No client has the name that may send a command.
    NoSender,
    /// It is a currency's node, whose commands no script of this kind has.
    OfNode(Kind),
    /// No client has the name.
    NoClient,
    /// No currency has the code.
    NoCurrency,
    /// No actor has the name.
    NoActor,
    /// It is not `s` and a number.
    NoSite,
}

impl WordFault {
    /// Whether it is of a name that nothing has, and not of a number.
    pub fn is_of_name(self) -> bool
        ensures { result ≡ is_of_name self }
    {
        match self {
            WordFault::NoDigits
            | WordFault::LeadingZero
            | WordFault::NotDigits
            | WordFault::Above(_)
            | WordFault::NotBySite => false,
            WordFault::NoSender
            | WordFault::OfNode(_)
            | WordFault::NoClient
            | WordFault::NoCurrency
            | WordFault::NoActor
            | WordFault::NoSite => true,
        }
    }

    /// The code of a line with such a word.
    pub fn code(self) -> LineCode
        ensures { result ≡ code_of self }
    {
        if self.is_of_name() {
            return LineCode::UnknownName;
        }
        LineCode::Number
    }
}

/// A client or a currency as a line spells it.
#[derive(Clone, Copy, Debug)]
enum Reference<'a, N> {
    /// `@` and its number.
    Number(N),
    Name(&'a [u8]),
}

/// Says in words why the word may not stand there.
impl fmt::Display for WordFault {
    ghost output = { λ fault. Some (word_fault_text fault) };

    fn fmt<W: fmt::Write>(&self, f: &mut fmt::Formatter<W>) -> fmt::Result {
        match self {
            WordFault::NoDigits => f.write_str("is no number: no digits"),
            WordFault::LeadingZero => f.write_str("is no number: a leading zero"),
            WordFault::NotDigits => f.write_str("is no number: a byte that is no digit"),
            WordFault::Above(most) => write!(f, "is too large a number: above {most}"),
            WordFault::NoSender => f.write_str("is no name of a client that may send a command"),
            WordFault::OfNode(kind) => write!(
                f,
                "is a node: in {kind} nodes send their own commands, use payin"
            ),
            WordFault::NoClient => f.write_str("is no client's name"),
            WordFault::NoCurrency => f.write_str("is no currency's code"),
            WordFault::NoActor => f.write_str("is no actor's name"),
            WordFault::NotBySite | WordFault::NoSite => {
                f.write_str("is no site: s and its number")
            }
        }
    }
}

/// What a word of a line says.
#[derive(Clone, Copy, Debug, PartialEq, Eq)]
pub enum Value {
    /// Nothing but the form of the line.
    None,
    /// The number of a client, or of a site.
    Actor(u16),
    Currency(u8),
    Number(u32),
    Amount(u64),
}

/// A word that says nothing yet.
impl Default for Value {
    fn default() -> Self {
        Value::None
    }
}

impl Value {
    /// The actor that it is; 0 where it is none.
    pub fn actor(self) -> u16
        ensures { result ≡ as_actor self }
    {
        match self {
            Value::Actor(number) => number,
            _ => 0,
        }
    }

    /// The currency that it is; 0 where it is none.
    pub fn currency(self) -> u8
        ensures { result ≡ as_currency self }
    {
        match self {
            Value::Currency(number) => number,
            _ => 0,
        }
    }

    /// The number that it is; 0 where it is none.
    pub fn number(self) -> u32
        ensures { result ≡ as_number self }
    {
        match self {
            Value::Number(number) => number,
            _ => 0,
        }
    }

    /// The amount that it is; 0 where it is none.
    pub fn amount(self) -> u64
        ensures { result ≡ as_amount self }
    {
        match self {
            Value::Amount(number) => number,
            _ => 0,
        }
    }
}

/// What a word says that is to be this, or why it may not stand there.
pub fn value_of(kind: Kind, setup: &Setup, field: Field, word: &[u8]) -> Result<Value, WordFault>
    ensures { result ≡ value_at kind setup.now field word.now }
{
    Ok(match field {
        Field::First | Field::Command => Value::None,
        Field::Amount => Value::Amount(number_within(u64::MAX, word)?),
        Field::Number => Value::Number(number_within(u64::from(u32::MAX), word)? as u32),
        Field::Turns => Value::Number(number_within(TURNS, word)? as u32),
        Field::Sender => Value::Actor(sender_of(kind, setup, client_reference(word)?)?),
        Field::Client => Value::Actor(client_of(
            setup,
            WordFault::NoClient,
            client_reference(word)?,
        )?),
        Field::Currency => Value::Currency(currency_named(setup, currency_reference(word)?)?),
        Field::Actor => Value::Actor(client_of(setup, WordFault::NoActor, actor_reference(word)?)?),
        Field::Site => Value::Actor(site(word)?),
    })
}

/// Whether a word is digits without a leading zero, but for `0` itself.
fn is_number(word: &[u8]) -> bool
    ensures { result ≡ is_number word.now }
{
    !word.is_empty() && !has_leading_zero(word) && are_digits(word)
}

fn has_leading_zero(word: &[u8]) -> bool
    ensures { result ≡ has_leading_zero word.now }
{
    word.len() > 1 && word[0] == b'0'
}

fn are_digits(word: &[u8]) -> bool
    ensures { result ≡ list_all is_ascii_digit word.now }
{
    word.iter().all(|c| c.is_ascii_digit())
}

/// A number of 64 bits, in digits without a leading zero; `Number` where a word is none.
pub fn amount(word: &[u8]) -> Result<u64, LineCode>
    ensures { result ≡ number_at (2 ^ 64) word.now }
{
    if !is_number(word) {
        return Err(LineCode::Number);
    }
    parse_number(word)
}

/// The number that digits are; `Number` where it has more than 64 bits.
// the lemma shows that the branch of what is no text is never taken
#[tactic(auto, using(crate::proofs::ScriptNumbers::no_text))]
fn parse_number(word: &[u8]) -> Result<u64, LineCode>
    requires { is_number word.now ≡ true }
    ensures { result ≡ number_at (2 ^ 64) word.now }
{
    match str::from_utf8(word) {
        Ok(text) => text.parse().or(Err(LineCode::Number)),
        Err(_) => Err(LineCode::Number),
    }
}

/// A number up to `most`, or what is wrong with it.
fn number_within(most: u64, word: &[u8]) -> Result<u64, WordFault>
    ensures exact { result ≡ number_within most word.now }
    ensures within { IfOk result (λ number. number ≤ most) }
{
    if word.is_empty() {
        return Err(WordFault::NoDigits);
    }
    if has_leading_zero(word) {
        return Err(WordFault::LeadingZero);
    }
    if !are_digits(word) {
        return Err(WordFault::NotDigits);
    }
    match parse_number(word) {
        Ok(number) if number <= most => Ok(number),
        _ => Err(WordFault::Above(most)),
    }
}

/// A client, which is not looked up yet.
fn client_reference(word: &[u8]) -> Result<Reference<'_, u16>, WordFault>
    ensures { spelled_in result ≡ reference_at 65535 word.now }
{
    match word {
        [b'@', digits @ ..] => {
            let number = number_within(MOST_OF_CLIENT, digits)?;
            Ok(Reference::Number(number as u16))
        }
        _ => Ok(Reference::Name(word)),
    }
}

/// A currency, which is not looked up yet.
fn currency_reference(word: &[u8]) -> Result<Reference<'_, u8>, WordFault>
    ensures { spelled_in result ≡ reference_at 255 word.now }
{
    match word {
        [b'@', digits @ ..] => {
            let number = number_within(MOST_OF_CURRENCY, digits)?;
            Ok(Reference::Number(number as u8))
        }
        _ => Ok(Reference::Name(word)),
    }
}

/// An actor, which is not looked up yet: a site, or a client.
fn actor_reference(word: &[u8]) -> Result<Reference<'_, u16>, WordFault>
    ensures { spelled_in result ≡ actor_at word.now }
{
    match word {
        [b's', digits @ ..] => {
            let site = site_number(digits)?;
            Ok(Reference::Number(FIRST_SITE + u16::from(site)))
        }
        _ => client_reference(word),
    }
}

/// The number of a site.
fn site(word: &[u8]) -> Result<u16, WordFault>
    ensures { result ≡ site_at word.now }
{
    match word {
        [b's', digits @ ..] => Ok(u16::from(site_number(digits)?)),
        [b'@', ..] => Err(WordFault::NotBySite),
        _ => Err(WordFault::NoSite),
    }
}

fn site_number(digits: &[u8]) -> Result<u8, WordFault>
    ensures { result ≡ number_within 255 digits.now }
{
    let number = number_within(MOST_OF_SITE, digits)?;
    Ok(number as u8)
}

/// The number of a client, or this fault. One that is named by number is not looked up.
fn client_of(setup: &Setup, fault: WordFault, who: Reference<u16>) -> Result<u16, WordFault>
    ensures { result ≡ client_of setup.now fault (spelling_of who.entry) }
{
    match who {
        Reference::Number(number) => Ok(number),
        Reference::Name(name) => setup.client(name).ok_or(fault),
    }
}

/// The number of a client that sends a command. One that is named by number is not looked up.
fn sender_of(kind: Kind, setup: &Setup, who: Reference<u16>) -> Result<u16, WordFault>
    ensures { result ≡ sender_of kind setup.now (spelling_of who.entry) }
{
    match who {
        Reference::Number(number) => Ok(number),
        Reference::Name(name) => match sender(kind, setup, name) {
            Some(number) => Ok(number),
            None => Err(no_sender(kind, setup, name)),
        },
    }
}

/// Whom a name stands for as the sender of a command: but for a script of one book, no node.
fn sender(kind: Kind, setup: &Setup, name: &[u8]) -> Option<u16>
    ensures { result ≡ sender_number kind setup.now name.now }
{
    match kind {
        Kind::Book => setup.client(name),
        Kind::Play | Kind::Live => operator_or_member(setup, name),
    }
}

fn operator_or_member(setup: &Setup, name: &[u8]) -> Option<u16>
    ensures { result ≡ operator_or_member setup.now name.now }
{
    if is(name, "OP") {
        return Some(0);
    }
    setup.member(name)
}

/// Why a name is none of one that may send a command.
fn no_sender(kind: Kind, setup: &Setup, name: &[u8]) -> WordFault
    ensures { result ≡ no_sender kind setup.now name.now }
{
    match setup.currency(name) {
        Some(_) => WordFault::OfNode(kind),
        None => WordFault::NoSender,
    }
}

/// The number of a currency. One that is named by number is not looked up.
fn currency_named(setup: &Setup, ccy: Reference<u8>) -> Result<u8, WordFault>
    ensures { result ≡ currency_named setup.now (spelling_of ccy.entry) }
{
    match ccy {
        Reference::Number(number) => Ok(number),
        Reference::Name(code) => setup.currency(code).ok_or(WordFault::NoCurrency),
    }
}
