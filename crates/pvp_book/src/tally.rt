//! How many pairs are in each state.
ghost use Rattle.std.specs.Prelude.{◌≡◌, ◌<◌, ◌≤◌, ◌+◌, IfSome};
ghost use Rattle.pvp_book.specs.declared.pair.PairState.{PairState as State};
ghost use Rattle.pvp_book.specs.Tally.{kept_count, is_at};

use crate::pair::PairState;

/// How many pairs are in each state.
#[derive(Clone, Copy, Debug, PartialEq, Eq)]
pub struct Tally {
    unmatched: u32,
    matched: u32,
    settled: u32,
    rescinded: u32,
}

impl Tally {
    /// No pairs.
    pub fn new() -> Self
        ensures { (state : State) → kept_count result state ≡ 0 }
    {
        Tally {
            unmatched: 0,
            matched: 0,
            settled: 0,
            rescinded: 0,
        }
    }

    /// How many pairs are in a state.
    pub fn get(&self, state: PairState) -> u32
        ensures { result ≡ kept_count self.now state }
    {
        match state {
            PairState::Unmatched => self.unmatched,
            PairState::Matched => self.matched,
            PairState::Settled => self.settled,
            PairState::Rescinded => self.rescinded,
        }
    }

    /// The tally after a pair moved from one state, or from not being there, to another.
    pub fn after_move(&self, before: Option<PairState>, after: Option<PairState>) -> Tally
        requires there { (state : State) → is_at before state ≤ kept_count self.now state }
        requires few { (state : State) → kept_count self.now state ≤ 65535 }
        ensures { (state : State) →
            kept_count result state + is_at before state
            ≡ kept_count self.now state + is_at after state }
    {
        Tally {
            unmatched: self.step(PairState::Unmatched, before, after),
            matched: self.step(PairState::Matched, before, after),
            settled: self.step(PairState::Settled, before, after),
            rescinded: self.step(PairState::Rescinded, before, after),
        }
    }

    /// How many are in a state after a pair moved.
    fn step(&self, state: PairState, before: Option<PairState>, after: Option<PairState>) -> u32
        requires there { is_at before state ≤ kept_count self.now state }
        requires few { kept_count self.now state ≤ 65535 }
        ensures { result + is_at before state ≡ kept_count self.now state + is_at after state }
    {
        self.get(state) - one_at(before, state) + one_at(after, state)
    }
}

/// 1 if a pair is in a state, else 0.
fn one_at(pair: Option<PairState>, state: PairState) -> u32
    ensures value { result ≡ is_at pair state }
    ensures small { result ≤ 1 }
{
    match pair {
        Some(found) if found.is(state) => 1,
        _ => 0,
    }
}
