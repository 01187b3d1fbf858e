//! Actors whose events have a text.
ghost use Rattle.std.specs.Prelude.{◌≡◌, ◌++◌, ℕ, Err, OnOk, OnErr, IfOk};
ghost use Rattle.pvp_journal.specs.declared.fault.WriteFault.TheVariants.{Unfit};
ghost use Rattle.pvp_rooms.specs.declared.message.Recorded.{Recorded};
ghost use Rattle.pvp_journal.specs.Rooms.{Texts};

use crate::{WriteFault, write_record};
use pvp_parties::{PartyEvent, PartyOf, PartyOutcome};
use pvp_rooms::{Actor, Recorded};
use std::alloc::Global;
use vr_types::BootCell;

/// An actor of which a journal has a record for each event, behind one another, each with a checksum that goes on from
/// the one before.
pub trait Journaled: Actor {
    /// The texts of records at the actor of a number, and their checksums.
    ghost texts: { ℕ → Texts Self.Event Self.Outcome };

    /// Whether a record at the actor of a number has a text.
    ghost fits: { ℕ → Recorded Self.Event Self.Outcome → Type 0 };

    /// Puts the record at the end of the bytes, and answers its checksum. After an `Err` the bytes are as they were.
    fn write(
        alloc: Global,
        number: u16,
        before: u64,
        entry: &Recorded<Self::Event, Self::Outcome>,
        out: &mut Vec<u8>,
    ) -> Result<u64, WriteFault>
        ensures written { OnOk result (out.new.items ≡ out.old.items
            ++ (texts number).record_of before entry.now) }
        ensures sum { IfOk result (λ after. after ≡ (texts number).sum_of before entry.now) }
        ensures unfit { result ≡ Err Unfit → ¬ (fits number entry.now) }
        ensures err { OnErr result (out.new.items ≡ out.old.items) };
}

impl<C: BootCell> Journaled for PartyOf<C> {
    ghost use Rattle.pvp_journal.specs.Fits.{IsJournalable};
    ghost use Rattle.pvp_journal.specs.Summaries.{entry_of};
    ghost use Rattle.pvp_journal.specs.Rooms.{bank_texts};

    ghost texts = { bank_texts };

    ghost fits = { λ me r. IsJournalable me (entry_of r) };

    fn write(
        alloc: Global,
        number: u16,
        before: u64,
        entry: &Recorded<PartyEvent, PartyOutcome>,
        out: &mut Vec<u8>,
    ) -> Result<u64, WriteFault> {
        write_record(alloc, number, before, entry, out)
    }
}
