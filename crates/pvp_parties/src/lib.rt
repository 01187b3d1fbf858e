//! The bank's three kinds of actors as one kind of actor, behind which a bank can be served, recorded and audited.
#![tactic(auto)]

mod audited;
pub mod cells;
mod follow;
pub mod letters;
pub mod like;
pub mod made;
pub mod order;
pub mod party;
mod served;
mod told;

pub use cells::{PartyCell, PartyCellOf, PartySeat, client_cell, node_cell, site_cell};
pub use order::are_in_order;
pub use party::{Party, PartyEvent, PartyOf, PartyOutcome};
