//! Checksums. A SHA-256 of the kit has its contract already, so nothing has to be proved of it here, and eight bytes of
//! it leave nothing to chance where a few bits or a whole sector are damaged.
ghost use Rattle.std.specs.Prelude.{◌≡◌};
ghost use Rattle.pvp_journal.specs.Spelling.{checksum};

use byteorder::{BigEndian, ByteOrder};
use sha2::{Digest, Sha256};

/// The checksum of bytes, going on from another.
#[tactic(auto, unfolding(crate::specs::Spelling::checksum, pvp_wire::specs::Spelling::number))]
pub fn checksum(before: u64, bytes: &[u8]) -> u64
    ensures { result ≡ checksum before bytes.now }
{
    let mut front = [0; 8];
    BigEndian::write_u64(&mut front, before);
    let mut hasher = Sha256::new();
    hasher.update(&front);
    hasher.update(bytes);
    let digest = hasher.finalize();
    BigEndian::read_u64(&digest)
}
