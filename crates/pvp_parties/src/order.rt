//! Closed actors in order of their numbers.
ghost use Rattle.std.specs.Prelude.{◌↔◌, IsTrue};
ghost use Rattle.pvp_rooms.specs.Runs.{AreInOrder};

use crate::party::Party;
use pvp_rooms::Closed;

/// Whether closed actors stand in order of their numbers, each once, as an audit wants them.
pub fn are_in_order(closed: &[Closed<Party>]) -> bool
    ensures { IsTrue result ↔ AreInOrder closed.now }
{
    for i in 1..closed.len() {
        if closed[i - 1].number >= closed[i].number {
            return false;
        }
    }
    true
}
