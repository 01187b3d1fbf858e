//! What a journal has of an actor.

use pvp_journal::Entry;
use vr_types::Boot;

/// Who an actor is, over what it opened, and the entries of all that it took.
#[derive(Drop)]
pub struct History {
    pub actor: u16,
    /// What a site's cell held; a node and a client open over nothing.
    pub opening: Option<Boot>,
    pub entries: Vec<Entry>,
}
