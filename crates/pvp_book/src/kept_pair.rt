//! What a book keeps of each pair, found by its reference.
ghost use Rattle.std.specs.Prelude.{◌≡◌, ◌≢◌, ◌<◌, ◌≤◌, None, filter, nat_eq, slice_get, IfOk, IfSome, OnOk, OnErr};
ghost use Rattle.std.specs.Map.{lookup};
ghost use Rattle.std.specs.Option.{option_map};
ghost use Rattle.indexmap.specs.IndexMap.{spare};
ghost use Rattle.pvp_book.specs.KeptPair.{named_by, pair_in, pair_noted, pair_put, is_waiting};
ghost use Rattle.pvp_book.specs.KeptPair.{state_kept, once_settled, named_in, NotesPair};
ghost use Rattle.pvp_book.specs.Tally.{kept_count, is_at};
ghost use Rattle.pvp_book.specs.declared.pair.PairState.{PairState as State};

use crate::entry::Entry;
use crate::pair::{self, Pair, PairState};
use crate::tally::Tally;
use indexmap::IndexMap;
use pvp_types::{Cmd, Reply};
use std::alloc::{AllocError, Global};

/// A pair, with what became of it.
#[derive(Clone, Copy, Debug, PartialEq, Eq)]
pub struct KeptPair {
    pub pair: Pair,
    /// Whether its second side has instructed too.
    pub matched: bool,
    /// Whether both legs are posted.
    pub settled: bool,
    /// Whether its first side has taken it back.
    pub first_back: bool,
    /// Whether its second side has taken it back.
    pub second_back: bool,
}

impl KeptPair {
    ghost use Rattle.pvp_book.specs.KeptPair.{just_opened, is_back, is_side_kept, still_waits, noted_by};

    /// A pair that one side has just opened.
    fn new(pair: Pair) -> Self
        ensures { result ≡ just_opened pair }
    {
        KeptPair {
            pair,
            matched: false,
            settled: false,
            first_back: false,
            second_back: false,
        }
    }

    /// Whether it was taken back: if it is matched, by both sides; otherwise by its first.
    pub fn is_back(&self) -> bool
        ensures { result ≡ is_back self.now }
    {
        self.first_back && (self.second_back || !self.matched)
    }

    /// Its state.
    pub fn state(&self) -> PairState
        ensures { result ≡ state_kept self.now }
    {
        if self.settled {
            PairState::Settled
        } else if self.is_back() {
            PairState::Rescinded
        } else if self.matched {
            PairState::Matched
        } else {
            PairState::Unmatched
        }
    }

    /// Whether a client is a side of it: the first side, or the second if it is matched.
    pub fn is_side(&self, client: u16) -> bool
        ensures { result ≡ is_side_kept self.now client }
    {
        client == self.pair.first || (client == self.pair.second && self.matched)
    }

    /// Whether it waits, if it is matched: it is neither settled nor taken back by both sides.
    fn still_waits(&self) -> bool
        ensures { result ≡ still_waits self.now }
    {
        !self.settled && !(self.first_back && self.second_back)
    }

    /// The pair after an entry that names its reference is noted.
    fn with_noted(self, entry: &Entry) -> Self
        ensures { result ≡ noted_by entry.now.client entry.now.cmd entry.now.reply self }
    {
        match (entry.cmd, entry.reply) {
            (Cmd::Instruct(_), Reply::Matched) => KeptPair {
                matched: true,
                ..self
            },
            (Cmd::Rescind { .. }, _) => KeptPair {
                first_back: self.first_back || entry.client == self.pair.first,
                second_back: self.second_back || entry.client == self.pair.second,
                ..self
            },
            _ => self,
        }
    }
}

/// The reference that a command names, if any. Noting the command can only change the pair of this reference.
pub fn named_by(entry: &Entry) -> Option<u32>
    ensures { result ≡ named_by entry.now.cmd }
{
    match entry.cmd {
        Cmd::Instruct(asked) => Some(asked.reference),
        Cmd::Rescind { reference } => Some(reference),
        _ => None,
    }
}

/// Notes an entry in the pair that it names: in what is kept of pairs, in the line of matched ones, and in how many
/// are in each state. An entry that names no pair changes nothing there, and takes no memory. An `Err`, which only
/// lack of memory gives, changes nothing either.
pub fn note_in_pair(
    pairs: &mut IndexMap<u32, KeptPair>,
    line: &mut Vec<Pair>,
    tally: &mut Tally,
    entry: &Entry,
) -> Result<(), AllocError>
    requires there { (state : State) → is_at (option_map state_kept
        (named_in pairs.old.entries entry.now.cmd)) state ≤ kept_count tally.old state }
    requires few { (state : State) → kept_count tally.old state ≤ 65535 }
    ensures noted { OnOk result (NotesPair entry.now pairs.old.entries pairs.new.entries
        line.old.items line.new.items tally.old tally.new) }
    ensures names_one { OnErr result (named_by entry.now.cmd ≢ None) }
    ensures same_pairs { OnErr result (pairs.new.entries ≡ pairs.old.entries) }
    ensures same_line { OnErr result (line.new.items ≡ line.old.items) }
    ensures same_tally { OnErr result (tally.new ≡ tally.old) }
{
    let Some(reference) = named_by(entry) else {
        return Ok(());
    };
    pairs.reserve(1)?;
    line.reserve(1)?;
    let before = find_pair(pairs, Some(reference));
    let after = note_pair(before, entry);
    put_pair(pairs, after);
    *tally = tally.after_move(state_of(before), state_of(after));
    pair::line_up(line, entry);
    Ok(())
}

/// The pair that is kept under a reference, if there is one.
pub fn find_pair(pairs: &IndexMap<u32, KeptPair>, named: Option<u32>) -> Option<KeptPair>
    ensures { result ≡ pair_in pairs.now.entries named }
{
    pairs.get(&named?).copied()
}

/// What is kept of a pair after an entry that names its reference is noted. The entry may open the pair.
pub fn note_pair(before: Option<KeptPair>, entry: &Entry) -> Option<KeptPair>
    ensures { result ≡ pair_noted entry.now.client entry.now.cmd entry.now.reply before }
{
    match before {
        Some(kept) => Some(kept.with_noted(entry)),
        None => Some(KeptPair::new(pair::opened_by(entry)?)),
    }
}

/// What is kept of a pair after it is settled.
pub fn settle_pair(before: Option<KeptPair>) -> Option<KeptPair>
    ensures { result ≡ option_map once_settled before }
{
    Some(KeptPair {
        settled: true,
        ..before?
    })
}

/// The state of a pair; `None` where there is none.
pub fn state_of(kept: Option<KeptPair>) -> Option<PairState>
    ensures { result ≡ option_map state_kept kept }
{
    Some(kept?.state())
}

/// Keeps a pair under its reference, in place of what was kept there.
pub fn put_pair(pairs: &mut IndexMap<u32, KeptPair>, kept: Option<KeptPair>)
    requires room { IfSome kept (λ k.
        lookup (nat_eq k.pair.reference) pairs.old.entries ≡ None → 0 < spare pairs.old) }
    ensures { pairs.new.entries ≡ pair_put pairs.old.entries kept }
{
    if let Some(kept) = kept {
        let _ = pairs.insert(kept.pair.reference, kept);
    }
}

/// Whether a matched pair waits, as kept.
fn is_waiting(pairs: &IndexMap<u32, KeptPair>, pair: &Pair) -> bool
    ensures { result ≡ is_waiting pairs.now.entries pair.now }
{
    match pairs.get(&pair.reference) {
        Some(kept) => kept.still_waits(),
        None => false,
    }
}

/// The pairs of a line of matched pairs that wait, in their order.
pub fn waiting_pairs(
    alloc: Global,
    line: &[Pair],
    pairs: &IndexMap<u32, KeptPair>,
) -> Result<Vec<Pair>, AllocError>
    ensures { IfOk result (λ some. some.items ≡ filter
        (λ p. is_waiting pairs.now.entries p) line.now) }
{
    line.iter()
        .copied()
        .filter(|p| is_waiting(pairs, p))
        .collect(alloc)
}

/// The pair at a place, counted from 0, among those of a line that wait.
pub fn waiting_at(line: &[Pair], pairs: &IndexMap<u32, KeptPair>, at: usize) -> Option<Pair>
    ensures { result ≡ slice_get (filter (λ p. is_waiting pairs.now.entries p) line.now) at }
{
    line.iter()
        .copied()
        .filter(|p| is_waiting(pairs, p))
        .nth(at)
}
