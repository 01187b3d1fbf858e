//! What a running site keeps: its log, its last answers to clients, its machine, and what it collects; and the
//! outcomes that every rule of a site is made of.
#![tactic(auto)]

pub mod clients;
pub mod kept;
pub mod running;
pub mod send;

pub use clients::{Clients, ClientsOf};
pub use kept::{Answer, AnswerOf, Kept, Log};
pub use running::{Running, StartOf, VoteOf};
