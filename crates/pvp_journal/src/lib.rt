//! Journals: a head, and a record for each event that an actor took, with its clock and with a summary of how it came out.
//! What was delivered stands there as the frame that came over a stream. And actors whose history is not in memory but in
//! a journal, on a log that only grows: a record is written there before anything that its event sent leaves the actor.
#![tactic(auto)]

pub mod bank;
mod events;
pub mod fault;
pub mod file;
mod front;
pub mod head;
pub mod journal;
pub mod journaled;
pub mod laws;
pub mod log;
pub mod memory;
mod outcomes;
pub mod resume;
pub mod room;
mod sent;
mod summary;
mod sums;
pub mod ways;
pub mod writing;

pub use bank::bank_of;
pub use fault::{EvidenceWhy, JournalFault, JournalWhy, ShelfFault, WriteFault};
pub use file::FileLog;
pub use head::{Head, Version};
pub use journal::{Entry, Journal, Left, read_journal};
pub use journaled::Journaled;
pub use log::{Log, LogFault};
pub use memory::MemLog;
pub use resume::{Pace, Replayed, Untold, come_back, replay, rising_clock};
pub use room::{JournalRoom, Letter, Posted};
pub use summary::{Summary, Taken, take_again};
pub use ways::{RestartFault, WayBack, restart, way_back};
pub use writing::{write_head, write_journal, write_record};
