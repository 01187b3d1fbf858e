//! What a play did, in words: the steps that were tried, what came of each, what each changed of a site, and what each sent.
#![tactic(auto)]

pub mod attempt;
pub mod meanings;
pub mod messages;
pub mod names;
pub mod stand;
pub mod words;

pub use attempt::{Attempt, try_step};
pub use stand::Stand;
