//! The lines of a text, and the words of a line.
ghost use Rattle.std.specs.Prelude.{◌≡◌, ℕ, ◌<◌, ◌==◌, List, [], ◌∷◌, length, position, bytes_eq, IfSome, IfNone};
ghost use Rattle.std.specs.List.{before_first, after_first};
ghost use Rattle.pvp_text.specs.ScriptWords.{lines, words};

/// What stands before the first such byte, and what stands after it; all and nothing where there is
/// none.
pub fn cut(bytes: &[u8], byte: u8) -> (&[u8], &[u8])
    ensures before { result.0.now ≡ before_first (λ b. b == byte) bytes.now }
    ensures after { result.1.now ≡ after_first (λ b. b == byte) bytes.now }
{
    match place_of(byte, bytes) {
        Some(at) => (&bytes[..at], &bytes[at + 1..]),
        None => (bytes, &bytes[bytes.len()..]),
    }
}

fn place_of(byte: u8, bytes: &[u8]) -> Option<usize>
    ensures { result ≡ position (λ b. b == byte) bytes.now }
{
    bytes.iter().position(|b| *b == byte)
}

/// The first line of a text, and the text after it.
// the lemma says what a cut at the first line's end is to all lines
#[tactic(auto, using(crate::proofs::ScriptSplitting::first_line))]
pub fn next_line(text: &[u8]) -> Option<(&[u8], &[u8])>
    ensures none { IfNone result (lines text.now ≡ []) }
    ensures some { IfSome result (λ x. lines text.now ≡ x.0.now ∷ lines x.1.now) }
    ensures shorter { IfSome result (λ x. length x.1.now < length text.now) }
{
    if text.is_empty() {
        return None;
    }
    Some(cut(text, b'\n'))
}

/// The first word of a line, and the line after it.
// the lemma says what a cut at the first space is to all words
#[tactic(auto, using(crate::proofs::ScriptSplitting::first_word))]
pub fn next_word(line: &[u8]) -> Option<(&[u8], &[u8])>
    ensures none { IfNone result (words line.now ≡ []) }
    ensures some { IfSome result (λ x. words line.now ≡ x.0.now ∷ words x.1.now) }
{
    let mut rest = line;
    while !rest.is_empty() {
        let (word, after) = cut(rest, b' ');
        if !word.is_empty() {
            return Some((word, after));
        }
        rest = after;
    }
    None
}

/// Whether a word is this text.
pub fn is(word: &[u8], text: &str) -> bool
    ensures { result ≡ bytes_eq word.now text.now }
{
    word == text.as_bytes()
}
