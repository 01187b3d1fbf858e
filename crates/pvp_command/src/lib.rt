//! The program behind `pvpsim`, over its words, its files and its two outputs; `pvpsim` itself only hands these over.
#![tactic(auto)]

pub mod audits;
pub mod explain;
pub mod fails;
pub mod fault;
pub mod files;
pub mod keys;
pub mod lives;
mod output;
pub mod program;
pub mod request;
pub mod serves;
pub mod shows;

pub use fault::Fault;
pub use files::{Disk, FileFault, Files, Source, Unread};
pub use output::{Audience, Piped};
pub use program::{command, command_on, no_words};
pub use serves::{Served, served_by, tell_served};
