//! One actor of the bank as a process of its own: a loop owns it, takes what comes over streams,
//! from a clock and from the terminal, writes that into its journal, and only then sends what that
//! caused.
#![tactic(auto)]

pub mod admission;
pub mod answers;
pub mod attending;
pub mod desk;
pub mod dialing;
pub mod folder;
pub mod greeting;
mod heading;
pub mod host;
pub mod inbox;
pub mod lanes;
pub mod laws;
pub mod lines;
pub mod listening;
pub mod looks;
pub mod opening;
pub mod patience;
pub mod process;
pub mod reading;
pub mod serving;
pub mod sifting;
pub mod site;
pub mod streams;
pub mod telling;
pub mod ticking;
pub mod written;

pub use host::Host;
pub use process::{begin, serve};
