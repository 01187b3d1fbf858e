//! The audit of a bank: whether what its actors left is one run, by one pass of all events through one world, of which the
//! headline holds. Journals are first found to be those of one bank, cut to a front that all have where that is asked for,
//! and filled in.
#![tactic(auto)]

mod actors;
mod asking;
pub mod cells;
mod coming;
pub mod cut;
mod filled;
mod fitting;
pub mod gather;
pub mod history;
pub mod judged;
pub mod laws;
mod moves;
mod numbers;
mod opened;
mod pass;
mod reading;
mod setups;
pub mod shelf;
pub mod unseen;
pub mod verdict;

pub use cells::in_memory;
pub use fitting::actor_count;
pub use gather::EvidenceFault;
pub use history::History;
pub use judged::{audit_gathered, audit_histories};
pub use shelf::{DiskShelf, PutFault, Shelf, put_journals};
pub use verdict::{NotTheBank, Verdict, audit, audit_run, verdict_of};
