//! One site of a replicated machine, over a cell that outlives its crashes.
#![tactic(auto)]

mod addressing;
pub mod laws;
pub mod life;
pub mod replica;
mod serving;
mod waiting;

pub use replica::Replica;
