//! Which bank a journal is of.
ghost use Rattle.std.specs.Prelude.{◌≡◌};
ghost use Rattle.pvp_journal.specs.Bank.{bank_of, mark_of};

use sha2::{Digest, Sha256};

/// How many bytes of a bank's id mark its setup.
pub const MARK_BYTES: usize = 16;

/// The id of a bank whose setup has this text, in one life of it: the setup's mark, and bytes that are drawn anew for
/// each life.
pub fn bank_of(setup: &[u8], life: [u8; 16]) -> [u8; 32]
    ensures { result ≡ bank_of setup.now life }
{
    let mut bank = [0; 32];
    bank[..MARK_BYTES].copy_from_slice(mark_of(setup).as_slice());
    bank[MARK_BYTES..].copy_from_slice(life.as_slice());
    bank
}

/// What distinguishes the text of a setup from others.
#[tactic(auto, unfolding(crate::specs::Bank::mark_of))]
pub fn mark_of(setup: &[u8]) -> [u8; 16]
    ensures { result ≡ mark_of setup.now }
{
    let digest = Sha256::digest(setup);
    let mut mark = [0; MARK_BYTES];
    mark.copy_from_slice(&digest[..MARK_BYTES]);
    mark
}
