//! The lines of the files of a process.
ghost use Rattle.std.specs.Prelude.{◌≡◌, ◌≢◌, ◌∷◌, [], List, ℕ, IfSome, IfNone};
ghost use Rattle.pvp_text.specs.Script.{is_skipped};
ghost use Rattle.pvp_text.specs.ScriptWords.{words};

use pvp_text::next_word;

/// Whether a line says nothing: it has no word, or begins with `#`.
pub fn is_skipped(line: &[u8]) -> bool
    ensures { result ≡ is_skipped line.now }
{
    line.first() == Some(&b'#') || next_word(line).is_none()
}

/// The two words of a line, which has no other.
pub fn two_words(line: &[u8]) -> Option<(&[u8], &[u8])>
    ensures some { IfSome result (λ x. words line.now ≡ x.0.now ∷ x.1.now ∷ []) }
    ensures none { IfNone result ((first second : List ℕ) → words line.now ≢ first ∷ second ∷ []) }
{
    let (first, rest) = next_word(line)?;
    let (second, rest) = next_word(rest)?;
    match next_word(rest) {
        None => Some((first, second)),
        Some(_) => None,
    }
}
