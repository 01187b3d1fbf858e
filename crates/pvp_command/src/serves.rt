//! The words that ask for an actor to be begun or served, and what is reported where it is not, or
//! no longer.

ghost use Rattle.std.specs.Prelude.{◌≡◌, true, map, IfErr, IfSome, OnOk};
ghost use Rattle.pvp_command.specs.Codes.{begins_with_serve};

use crate::request::{Asked, Request, parse};
use clap::ArgMatches;
use pvp_codes::meanings::served_meaning;
use pvp_places::{Beginning, Order, ServeFault, Task, Who};
use std::alloc::Global;
use std::convert::AsStr;
use std::io::Write;

/// What is to be done with an actor, and whether a fault is to be explained.
#[derive(Clone, Copy, Debug)]
pub struct Served<'a> {
    pub task: Task<'a>,
    pub explains: bool,
}

/// What the words ask to be begun or served; `None` where they ask for something else, or for nothing.
pub fn served_by<'a, S: AsStr>(alloc: Global, words: &'a [S]) -> Option<Served<'a>>
    ensures { IfSome result (λ served. begins_with_serve (map S.text words.now) ≡ true) }
{
    if !begins_with_serve(words) {
        return None;
    }
    match parse(alloc, words) {
        Ok(
            Some(
                Asked {
                    request: Request::Serve(task),
                    explains,
                },
            ),
        ) => Some(Served { task, explains }),
        _ => None,
    }
}

/// Whether the first word behind the program's own name is `serve` or `begin`: others are not read here, as they are read
/// elsewhere.
fn begins_with_serve<S: AsStr>(words: &[S]) -> bool
    ensures { result ≡ begins_with_serve (map S.text words.now) }
{
    match words {
        [_, first, ..] => first.as_str() == "serve" || first.as_str() == "begin",
        _ => false,
    }
}

/// Tells why an actor is not begun, or served no longer, and where that is asked for what it means. Answers the status: 0
/// where it was begun or its terminal has ended, and 1 for a fault.
pub fn tell_served<E: Write>(told: Result<(), ServeFault>, explains: bool, err: &mut E) -> u8
    ensures ok { OnOk told (result ≡ 0) }
    ensures err { IfErr told (λ fault. result ≡ 1) }
{
    let Err(fault) = told else {
        return 0;
    };
    let _ = write!(err, "{fault}\n");
    if explains {
        let _ = write!(err, "serve: {}\n", served_meaning(fault));
    }
    1
}

/// The error for words that name no actor, or no number where one stands.
pub const NO_TASK: &str =
    "`begin` and `serve` take one of `--site I`, `--node CCY` and `--client NAME`; `--beat` a number from 5 to 60000, and `--patience` one from 2 \
to 1000, without a leading zero; `--http` HOST:PORT, and with it `--http-peers` such with commas between, and `--http-token`";

/// The least and the most milliseconds from beat to beat, and those that are meant where none stand.
const BEATS: (u32, u32, u32) = (5, 60_000, 50);

/// The least and the most beats of a site's patience, and those that are meant where none stand.
const PATIENCES: (u32, u32, u32) = (2, 1000, 6);

/// What the words behind this command ask to be done with an actor.
pub fn task_at<'a>(command: &str, words: &ArgMatches<'a>) -> Option<Task<'a>> {
    if command == "begin" {
        return Some(Task::Begin(Beginning {
            who: who_at(words)?,
            setup: words.get_str("setup")?,
            peers: words.get_str("peers"),
            data: words.get_str("data")?,
        }));
    }
    Some(Task::Serve(order_at(words)?))
}

/// What the words ask to be served, and how.
fn order_at<'a>(words: &ArgMatches<'a>) -> Option<Order<'a>> {
    let http = window_at(words.get_str("http"))?;
    let http_peers = window_at(words.get_str("http-peers"))?;
    let http_token = words.get_str("http-token");
    if http.is_none() && (http_peers.is_some() || http_token.is_some()) {
        return None;
    }
    Some(Order {
        who: who_at(words)?,
        setup: words.get_str("setup")?,
        peers: words.get_str("peers")?,
        data: words.get_str("data")?,
        keys: words.get_str("keys"),
        beat: number_at(words.get_str("beat"), BEATS)?,
        patience: number_at(words.get_str("patience"), PATIENCES)?,
        syncs: words.get_flag("sync"),
        stays: words.get_flag("stay"),
        trusts_network: words.get_flag("trust-network"),
        http,
        http_peers,
        http_token,
    })
}

/// The word for a window or several, where there is one, in letters, digits and what stands in addresses.
fn window_at<'a>(word: Option<&'a str>) -> Option<Option<&'a str>> {
    let Some(text) = word else {
        return Some(None);
    };
    let is_plain = |b: &u8| b.is_ascii_alphanumeric() || b".-:[],".contains(b);
    if text.contains(':') && text.as_bytes().iter().all(is_plain) {
        Some(word)
    } else {
        None
    }
}

/// Who is to be served: one actor.
fn who_at<'a>(words: &ArgMatches<'a>) -> Option<Who<'a>> {
    let site = words.get_str("site");
    let node = words.get_str("node");
    let client = words.get_str("client");
    match (site, node, client) {
        (Some(site), None, None) => Some(Who::Site(site)),
        (None, Some(code), None) => Some(Who::Node(code)),
        (None, None, Some(name)) => Some(Who::Client(name)),
        _ => None,
    }
}

/// The number that a word is, from the least to the most; the third where there is no word.
fn number_at(word: Option<&str>, (least, most, other): (u32, u32, u32)) -> Option<u32> {
    let Some(word) = word else {
        return Some(other);
    };
    match word.parse::<u32>() {
        Ok(number) if least <= number && number <= most && !word.starts_with('0') => Some(number),
        _ => None,
    }
}
