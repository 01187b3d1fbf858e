//! Message authentication codes: HMAC-SHA256, as RFC 2104 has it.
ghost use Rattle.std.specs.Prelude.{◌≡◌, ◌<◌, ◌≤◌, ◌++◌, length, slice_get, Some};
ghost use Rattle.sha2.specs.Sha256.{sha256};
ghost use Rattle.pvp_tags.specs.Hmac.{filled, hmac, hmac_by_block, masked};

use sha2::{Digest, Sha256};

/// How many bytes SHA-256 takes at once.
pub const BLOCK_BYTES: usize = 64;

/// What each byte of the key is masked with, for the inner and for the outer digest.
const INNER: u8 = 0x36;

const OUTER: u8 = 0x5c;

/// The HMAC-SHA256 of two pieces, taken as one message, under a key of any length. It takes no memory.
pub fn hmac(key: &[u8], first: &[u8], second: &[u8]) -> [u8; 32]
    ensures { result ≡ hmac key.now (first.now ++ second.now) }
{
    if key.len() <= BLOCK_BYTES {
        return hmac_by_block(key, first, second);
    }
    hmac_by_block(digest_of(&[], key, &[]).as_slice(), first, second)
}

/// The HMAC of two pieces under a key of at most one block.
fn hmac_by_block(key: &[u8], first: &[u8], second: &[u8]) -> [u8; 32]
    requires { length key.now ≤ 64 }
    ensures { result ≡ hmac_by_block key.now (first.now ++ second.now) }
{
    let inner = digest_of(&masked(key, INNER), first, second);
    digest_of(&masked(key, OUTER), inner.as_slice(), &[])
}

/// A key with zeros behind it, up to one block, each byte masked with another.
fn masked(key: &[u8], mask: u8) -> [u8; BLOCK_BYTES]
    requires { length key.now ≤ 64 }
    ensures { result ≡ masked mask (filled key.now) }
{
    let mut block = [0; BLOCK_BYTES];
    for at in 0..BLOCK_BYTES {
        block[at] = byte_at(key, at) ^ mask;
    }
    block
}

/// The byte at a place of a key with zeros behind it.
fn byte_at(key: &[u8], at: usize) -> u8
    ensures { at < 64 → length key.now ≤ 64 → slice_get (filled key.now) at ≡ Some result }
{
    key.get(at).copied().unwrap_or(0)
}

/// The digest of three pieces, taken as one message.
fn digest_of(first: &[u8], second: &[u8], third: &[u8]) -> [u8; 32]
    ensures { result ≡ sha256 (first.now ++ second.now ++ third.now) }
{
    let mut hasher = Sha256::new();
    hasher.update(first);
    hasher.update(second);
    hasher.update(third);
    hasher.finalize()
}
