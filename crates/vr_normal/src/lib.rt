//! Normal operation: what a running site does with REQUEST, PREPARE, PREPAREOK and COMMIT, and with a beat while it is
//! normal. Each call is the case of the site step that has its name. Its `Err` is lack of memory, after which the
//! running state may only be dropped; an event that is dropped takes no memory.
#![tactic(auto)]

pub mod backup;
pub mod beats;
pub mod primary;
pub mod quorum;

pub use backup::{commit, prepare};
pub use beats::beat;
pub use primary::request;
pub use quorum::prepare_ok;
