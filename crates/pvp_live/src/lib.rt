//! A bank on threads: each actor behind its own lock and its own listener on this machine, frames
//! between them, and at the end a verdict on their run.
#![tactic(auto)]

pub mod actors;
mod board;
mod counts;
mod effects;
pub mod events;
mod notes;
mod player;
mod refusals;
pub mod running;
pub mod scripts;
mod sighting;
pub mod told;

pub use refusals::Refused;
pub use running::{LiveFault, Lived, live};
pub use scripts::print_script;
pub use told::print_verdict;
