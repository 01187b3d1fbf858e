//! The order of all events of a run: by clock, and then by actor number.
ghost use Rattle.std.specs.Prelude.{◌≡◌, ℕ, ◌≤◌, IfSome, IfNone, length, slice_index};
ghost use Rattle.pvp_rooms.specs.Runs.{AreInOrder, history_of};
ghost use Rattle.pvp_rooms.specs.Merging.{IsNextActor};

use crate::Closed;
use crate::audited::Audited;

/// The actor whose next event comes first: by clock, and then by actor number.
pub fn next_actor<A: Audited>(closed: &[Closed<A>], at: &[usize]) -> Option<usize>
    requires same { length at.now ≡ length closed.now }
    requires order { AreInOrder closed.now }
    ensures some { IfSome result (λ k. IsNextActor closed.now at.now k) }
    ensures none { IfNone result ((k : ℕ) →
        length (history_of closed.now k) ≤ slice_index at.now k) }
{
    let mut found: Option<usize> = None;
    let mut least = 0;
    for k in 0..closed.len() {
        let one = &closed[k];
        let history = one.history.as_slice();
        let place = at[k];
        if place < history.len() {
            let clock = history[place].clock;
            match found {
                None => {
                    found = Some(k);
                    least = clock;
                }
                Some(_) => {
                    if clock < least {
                        found = Some(k);
                        least = clock;
                    }
                }
            }
        }
    }
    found
}
