//! The bank's actors as one kind of actor, and how what they left is judged.

mod altered;
pub mod bank;
mod closing;
pub mod common;
mod judged;
mod recorded;
