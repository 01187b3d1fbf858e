//! Whether histories are those of a bank's actors.
ghost use Rattle.std.specs.Prelude.{◌≡◌, ◌<◌, ◌↔◌, IsTrue};
ghost use Rattle.pvp_types.specs.Setup.{IsValid};
ghost use Rattle.pvp_audit.specs.Actors.{AreOfTheBank, actor_at};

use crate::actor_count;
use crate::gather::is_actor;
use crate::history::History;
use pvp_types::Setup;
use vr_types::{FIRST_NODE, FIRST_SITE};

/// Whether these are the histories of all actors of a bank, in order of their numbers, each with an opening that such an
/// actor may have.
pub fn are_of_the_bank(setup: &Setup, histories: &[History]) -> bool
    requires { IsValid setup.now }
    ensures { IsTrue result ↔ AreOfTheBank setup.now histories.now }
{
    if histories.len() != actor_count(setup) {
        return false;
    }
    for k in 0..histories.len() {
        let history = &histories[k];
        if usize::from(history.actor) != actor_at(setup, k)
            || !is_actor(setup, history.actor, history.opening)
        {
            return false;
        }
    }
    true
}

/// The number of a bank's actor at a place among all.
fn actor_at(setup: &Setup, place: usize) -> usize
    requires valid { IsValid setup.now }
    requires few { place < 80 }
    ensures { result ≡ actor_at setup.now place }
{
    let members = usize::from(setup.member_count());
    let nodes = usize::from(setup.currency_count());
    if place <= members {
        place
    } else if place <= members + nodes {
        usize::from(FIRST_NODE) + (place - members - 1)
    } else {
        usize::from(FIRST_SITE) + (place - members - nodes - 1)
    }
}
