//! What was written into the journal: it alone is handed out.
ghost use Rattle.std.specs.Prelude.{◌≡◌, ◌≢◌, [], Some, None, IfOk, IfErr, OnErr, IsOk, IsTrue};
ghost use Rattle.pvp_serve.specs.Serving.{HasFlushed, IsIdle, IsUnwritten, OutlivesIn, waiting_in};

use crate::opening::log_fault;
use pvp_journal::{JournalRoom, Journaled, Letter, Log};
use pvp_places::ServeFault;
use std::alloc::Global;

/// What came of the events of a batch whose records stand in the journal. Nothing but `write_in` makes one. So where
/// something is handed out by one, its record was written before, even where the call that hands it out never returns.
#[derive(Drop)]
pub struct Written<O: Drop> {
    letters: Vec<Letter<O>>,
}

impl<O: Drop> Written<O> {
    /// What came of each event, in order.
    pub fn letters(&self) -> &[Letter<O>]
        ensures { result.now ≡ self.now.letters.items }
    {
        self.letters.as_slice()
    }

    /// The same, given away.
    pub fn into_letters(self) -> Vec<Letter<O>>
        ensures { result ≡ self.letters }
    {
        self.letters
    }
}

/// Writes what waits in the room that stands here, and answers it. After `Err` the room is gone.
pub(crate) fn write_in<A: Journaled, L: Log>(
    stands: &mut Option<JournalRoom<A, L>>,
    alloc: Global,
    syncs: bool,
) -> Result<Written<A::Outcome>, ServeFault>
    ensures written { IfOk result (λ written. HasFlushed A.Actor A.texts L.seen
        stands.old stands.new written.letters.items) }
    ensures letters { IfOk result (λ written. written.letters.items ≡ waiting_in stands.old) }
    ensures idle { IsIdle stands.old → IsOk result × (stands.new ≡ stands.old) }
    ensures refused { IfErr result (λ fault. IsUnwritten stands.old fault) }
    ensures gone { OnErr result (stands.new ≡ None) }
    ensures synced { IfOk result (λ written. IsTrue syncs → written.letters.items ≢ [] →
        OutlivesIn L.seen L.synced stands.new) }
{
    let Some(room) = stands.take() else {
        return Err(ServeFault::Unfit);
    };
    if room.is_flushed() {
        put_back(stands, room);
        let letters = Vec::new(alloc);
        return Ok(Written { letters });
    }
    match room.flush(alloc, syncs) {
        Ok((room, letters)) => {
            put_back(stands, room);
            Ok(Written { letters })
        }
        Err(fault) => Err(log_fault(fault)),
    }
}

/// What was taken from here stands here again.
pub(crate) fn put_back<T: Drop>(stands: &mut Option<T>, taken: T)
    ensures { stands.new ≡ Some taken }
{
    *stands = Some(taken);
}
