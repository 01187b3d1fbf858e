//! Whether what actors left reads like a world's actors.
ghost use Rattle.std.specs.Prelude.{◌≡◌, ◌↔◌, ◌<◌, IsTrue, IfSome, IfNone, length};
ghost use Rattle.pvp_audit.specs.Judged.{EndsAgree, ReadsWorld};
ghost use Rattle.pvp_audit.specs.Passed.{DiffersFirst};

use crate::moves::currency_of_node;
use pvp_parties::Party;
use pvp_parties::like::{are_alike_clients, are_alike_nodes, are_alike_sites};
use pvp_rooms::Closed;
use pvp_world::World;
use vr_types::{FIRST_SITE, MemCell};

/// The place of the first actor whose end does not read like the world's actor of its number.
pub fn first_unlike(world: &World<MemCell>, closed: &[Closed<Party>]) -> Option<usize>
    ensures some { IfSome result (DiffersFirst closed.now world.now) }
    ensures none { IfNone result (EndsAgree closed.now world.now) }
    ensures within { IfSome result (λ k. k < length closed.now) }
{
    for k in 0..closed.len() {
        if !reads_world(world, &closed[k]) {
            return Some(k);
        }
    }
    None
}

/// Whether an end reads like the world's actor of its number.
fn reads_world(world: &World<MemCell>, one: &Closed<Party>) -> bool
    ensures { IsTrue result ↔ ReadsWorld world.now one.now.number one.now.end }
{
    match &one.end {
        Party::Site(end) => match world.site(one.number.saturating_sub(FIRST_SITE)) {
            None => false,
            Some(site) => are_alike_sites(end.actor(), site),
        },
        Party::Node(end) => match world.node(currency_of_node(one.number)) {
            None => false,
            Some(node) => are_alike_nodes(end.actor(), node),
        },
        Party::Client(end) => match world.client(one.number) {
            None => false,
            Some(client) => are_alike_clients(end.actor(), client),
        },
    }
}
