//! The keys file of a process: the keys that it shares with others.
ghost use Rattle.std.specs.Prelude.{◌≡◌, ◌==◌, ◌≤◌, [], ◌∷◌, ◌++◌, Ok, Err, OnOk, MatchResult, find, string_bytes};
ghost use Rattle.pvp_places.specs.Keys.{byte_text, digit_at, hex_text, key_line, keys_text, line_of, token_line, token_of, tokens_text};
ghost use Rattle.pvp_places.specs.KeysFile.{is_shared, key_with, keys_in, shared_in, with_key};
ghost use Rattle.pvp_places.specs.Reading.{AddsLine, Reads, of_two, with_line};
ghost use Rattle.pvp_text.specs.ScriptWords.{words};

use crate::fault::{LineFault, PlaceFault, PlaceWhy};
use crate::names::actor_named;
use crate::words::{is_skipped, two_words};
use byteorder::{BigEndian, ByteOrder};
use hex::FromHex;
use pvp_links::may_send;
use pvp_tags::{hmac, key_of};
use pvp_text::next_line;
use pvp_trace::names::push_actor;
use pvp_types::Setup;
use std::alloc::{AllocError, Global};
use vr_types::FIRST_NODE;

/// The key that a process shares with another actor.
#[derive(Clone, Copy)]
pub struct Shared {
    pub actor: u16,
    pub key: [u8; 32],
}

/// The keys of a process.
#[derive(Drop)]
pub struct Keys {
    shared: Vec<Shared>,
}

impl Keys {
    /// The key that is shared with an actor; `None` where there is none.
    pub fn with(&self, actor: u16) -> Option<[u8; 32]>
        ensures { result ≡ key_with self.now.shared.items actor }
    {
        match shared_with(self.shared.as_slice(), actor) {
            Some(shared) => Some(shared.key),
            None => None,
        }
    }

    /// All that is shared, as it stands in the file.
    pub fn shared(&self) -> &[Shared]
        ensures { result.now ≡ self.now.shared.items }
    {
        self.shared.as_slice()
    }
}

/// What is shared with an actor.
fn shared_with(shared: &[Shared], actor: u16) -> Option<Shared>
    ensures { result ≡ find (λ s. s.actor == actor) shared.now }
{
    shared.iter().copied().find(|one| one.actor == actor)
}

/// Reads a keys file: a line `NAME HEX` for each actor that shares a key with this one. Lines
/// without words and those that begin with `#` are skipped. The first wrong line is reported.
pub fn read_keys(alloc: Global, setup: &Setup, bytes: &[u8]) -> Result<Keys, PlaceFault>
    ensures { Reads shared_in result (keys_in setup.now bytes.now) }
{
    let mut shared: Vec<Shared> = Vec::new(alloc);
    let mut number = 1;
    let mut rest = bytes;
    while let Some((line, after)) = next_line(rest) {
        if let Err(fault) = read_line(setup, line, &mut shared) {
            return Err(fault.at(number));
        }
        number += 1;
        rest = after;
    }
    Ok(Keys { shared })
}

/// Keeps what a line says, behind what was read before it.
fn read_line(setup: &Setup, line: &[u8], shared: &mut Vec<Shared>) -> Result<(), LineFault>
    ensures { AddsLine result shared.new.items
        (with_line (with_key setup.now) shared.old.items line.now) }
{
    if is_skipped(line) {
        return Ok(());
    }
    let found = key_at(setup, shared.as_slice(), line)?;
    shared.push(found)?;
    Ok(())
}

/// What a line that says something says, behind these.
fn key_at(setup: &Setup, shared: &[Shared], line: &[u8]) -> Result<Shared, PlaceWhy>
    ensures { MatchResult result
        (λ found. of_two (with_key setup.now shared.now) (words line.now)
        ≡ Ok (shared.now ++ found ∷ []))
        (λ why. of_two (with_key setup.now shared.now) (words line.now) ≡ Err why) }
{
    let Some((name, digits)) = two_words(line) else {
        return Err(PlaceWhy::Form);
    };
    let Some(actor) = actor_named(setup, name) else {
        return Err(PlaceWhy::Name);
    };
    let Ok(key) = <[u8; 32] as FromHex>::from_hex(digits) else {
        return Err(PlaceWhy::Key);
    };
    if is_shared(shared, actor) {
        return Err(PlaceWhy::Twice);
    }
    Ok(Shared { actor, key })
}

/// Whether a key is shared with an actor.
fn is_shared(shared: &[Shared], actor: u16) -> bool
    ensures { result ≡ is_shared shared.now actor }
{
    shared.iter().any(|one| one.actor == actor)
}

/// Writes the keys file of an actor behind what is there: a line for each of these with which it talks, in their order.
pub fn write_keys(
    setup: &Setup,
    secret: &[u8],
    me: u16,
    actors: &[u16],
    out: &mut String,
) -> Result<(), AllocError>
    ensures { OnOk result (string_bytes out.new ≡
        string_bytes out.old ++ keys_text setup.now secret.now me actors.now) }
{
    for actor in actors {
        push_line(setup, secret, me, *actor, out)?;
    }
    Ok(())
}

/// Writes the line of an actor, where the two talk.
fn push_line(
    setup: &Setup,
    secret: &[u8],
    me: u16,
    actor: u16,
    out: &mut String,
) -> Result<(), AllocError>
    ensures { OnOk result (string_bytes out.new ≡
        string_bytes out.old ++ key_line setup.now secret.now me actor) }
{
    if !may_send(me, actor) {
        return Ok(());
    }
    push_named(setup, actor, &key_of(secret, me, actor), out)
}

/// Writes an actor and a key.
fn push_named(setup: &Setup, actor: u16, key: &[u8; 32], out: &mut String) -> Result<(), AllocError>
    ensures { OnOk result (string_bytes out.new ≡
        string_bytes out.old ++ line_of setup.now actor key.now) }
{
    push_actor(out, setup, actor)?;
    out.push_str(" ")?;
    push_key(out, key)?;
    out.push_str("\n")
}

/// Writes the tokens of a bank's windows behind what is there, in the form of a keys file: a line for each client among these.
pub fn write_tokens(
    setup: &Setup,
    secret: &[u8],
    actors: &[u16],
    out: &mut String,
) -> Result<(), AllocError>
    ensures { OnOk result (string_bytes out.new ≡
        string_bytes out.old ++ tokens_text setup.now secret.now actors.now) }
{
    for actor in actors {
        push_token(setup, secret, *actor, out)?;
    }
    Ok(())
}

/// Writes the line of an actor, where it is a client.
fn push_token(setup: &Setup, secret: &[u8], actor: u16, out: &mut String) -> Result<(), AllocError>
    ensures { OnOk result (string_bytes out.new ≡
        string_bytes out.old ++ token_line setup.now secret.now actor) }
{
    if actor >= FIRST_NODE {
        return Ok(());
    }
    push_named(setup, actor, &token_of(secret, actor), out)
}

/// The token by which a client reads windows.
fn token_of(secret: &[u8], actor: u16) -> [u8; 32]
    ensures { result ≡ token_of secret.now actor }
{
    let mut text = [0; 2];
    BigEndian::write_u16(&mut text, actor);
    hmac(secret, b"window", &text)
}

/// Writes a key in 64 digits.
pub fn push_key(out: &mut String, key: &[u8; 32]) -> Result<(), AllocError>
    ensures { OnOk result (string_bytes out.new ≡ string_bytes out.old ++ hex_text key.now) }
{
    for byte in key {
        push_byte(out, *byte)?;
    }
    Ok(())
}

/// Writes a byte in two digits.
fn push_byte(out: &mut String, byte: u8) -> Result<(), AllocError>
    ensures { OnOk result (string_bytes out.new ≡ string_bytes out.old ++ byte_text byte) }
{
    out.push(char::from(digit_at(byte / 16)))?;
    out.push(char::from(digit_at(byte % 16)))
}

/// The digit of a number from 0 to 15.
fn digit_at(value: u8) -> u8
    requires { value ≤ 15 }
    ensures { result ≡ digit_at value }
{
    if value < 10 {
        b'0' + value
    } else {
        b'a' - 10 + value
    }
}
