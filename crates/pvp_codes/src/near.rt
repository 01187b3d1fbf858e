//! The known word that is nearest to an unknown one.

ghost use Rattle.std.specs.Prelude.{◌≡◌, ◌≤◌, drop, length};
ghost use Rattle.pvp_codes.specs.Near as spec;
ghost use Rattle.pvp_text.specs.ScriptTable as table;

use pvp_text::{Word, commands, firsts};

/// The first word that begins lines and is one slip away from this.
pub fn near_first(word: &[u8]) -> Option<Word>
    ensures { result ≡ spec.near_word word.now table.firsts }
{
    near_word(word, firsts())
}

/// The first command that is one slip away from this word.
pub fn near_command(word: &[u8]) -> Option<Word>
    ensures { result ≡ spec.near_word word.now table.commands }
{
    near_word(word, commands())
}

fn near_word(word: &[u8], known: &[Word]) -> Option<Word>
    ensures { result ≡ spec.near_word word.now known.now }
{
    known
        .iter()
        .copied()
        .find(|one| is_slip(word, one.row().text.as_bytes()))
}

/// Whether a word is another but for one slip: a byte that is another, one more, one less, or two that changed places.
fn is_slip(word: &[u8], known: &[u8]) -> bool
    ensures { result ≡ spec.is_slip word.now known.now }
{
    let at = common_length(word, known);
    has_slip(&word[at..], &known[at..])
}

/// Whether two words that differ in their first byte, if they differ, are one slip apart.
fn has_slip(word: &[u8], known: &[u8]) -> bool
    ensures { result ≡ spec.has_slip word.now known.now }
{
    let (rest, more) = (tail(word), tail(known));
    !(word.is_empty() && known.is_empty())
        && (rest == more || rest == known || word == more || is_swapped(word, known))
}

/// A word without its first byte.
fn tail(word: &[u8]) -> &[u8]
    ensures { result.now ≡ drop 1 word.now }
{
    match word {
        [_, rest @ ..] => rest,
        [] => word,
    }
}

/// Whether the first two bytes changed places, and all else is the same.
fn is_swapped(word: &[u8], known: &[u8]) -> bool
    ensures { result ≡ spec.is_swapped word.now known.now }
{
    match (word, known) {
        ([a, b, rest @ ..], [c, d, more @ ..]) => a == d && b == c && rest == more,
        _ => false,
    }
}

/// How many bytes two words have in common at their fronts.
fn common_length(word: &[u8], known: &[u8]) -> usize
    ensures exact { result ≡ spec.common_length word.now known.now }
    ensures within { (result ≤ length word.now) × (result ≤ length known.now) }
{
    let mut at = 0;
    while at < word.len() && at < known.len() && word[at] == known[at] {
        at += 1;
    }
    at
}
