//! Who may read a window where not everybody may: whoever shows a token.
ghost use Rattle.std.specs.Prelude.{◌≡◌, ◌==◌, bytes_eq, find, option_copied};
ghost use Rattle.sha2.specs.Sha256.{sha256};
ghost use Rattle.pvp_window.specs.Readers.{is_of, is_open, may_read, reader_by, reader_of, token};

use crate::look::View;
use crate::path::Asked;
use http::HeaderValue;
use pvp_text::cut;
use sha2::{Digest, Sha256};

/// The operator, who reads all.
const OPERATOR: u16 = 0;

/// A token, and for whom it reads. Only its sum stands here: how long a comparison with that takes says nothing of the token.
#[derive(Clone, Copy)]
pub struct Token {
    pub reader: u16,
    pub sum: [u8; 32],
}

impl Token {
    /// That of these digits.
    pub fn new(reader: u16, digits: &[u8]) -> Self
        ensures { result ≡ token reader digits.now }
    {
        Token {
            reader,
            sum: sum_of(digits),
        }
    }
}

/// The sum of a token's digits.
fn sum_of(digits: &[u8]) -> [u8; 32]
    ensures { result ≡ sha256 digits.now }
{
    let mut hasher = Sha256::new();
    hasher.update(digits);
    hasher.finalize()
}

/// For whom a request reads, by its field `authorization`: `Bearer` and a token.
pub fn reader_of(tokens: &[Token], field: Option<&HeaderValue>) -> Option<u16>
    ensures { result ≡ reader_of tokens.now (option_copied field.entry) }
{
    let (scheme, digits) = cut(field?.as_bytes(), b' ');
    if scheme == b"Bearer".as_slice() {
        reader_by(tokens, &sum_of(digits))
    } else {
        None
    }
}

/// For whom a token of this sum reads.
fn reader_by(tokens: &[Token], sum: &[u8; 32]) -> Option<u16>
    ensures { result ≡ reader_by tokens.now sum.now }
{
    match token_by(tokens, sum) {
        Some(token) => Some(token.reader),
        None => None,
    }
}

/// The first token of this sum.
fn token_by(tokens: &[Token], sum: &[u8; 32]) -> Option<Token>
    ensures { result ≡ find (λ t. bytes_eq t.sum sum.now) tokens.now }
{
    tokens.iter().copied().find(|token| token.sum == *sum)
}

/// Whether anybody may read this: it has nothing of the bank.
pub fn is_open(asked: Asked) -> bool
    ensures { result ≡ is_open asked }
{
    matches!(
        asked,
        Asked::Console
            | Asked::Look {
                view: View::Health,
                ..
            }
    )
}

/// Whether an actor may read this: the operator all, a member its own part of the book.
pub fn may_read(reader: u16, asked: Asked) -> bool
    ensures { result ≡ may_read reader asked }
{
    reader == OPERATOR || is_of(reader, asked)
}

/// Whether this is an actor's own.
fn is_of(reader: u16, asked: Asked) -> bool
    ensures { result ≡ is_of reader asked }
{
    match asked {
        Asked::Look {
            view: View::Member(m),
            ..
        } => m == reader,
        _ => false,
    }
}
