//! Recovery: what a site keeps while it asks for the state after a restart, how it regains one, and what a running
//! site answers it. Each call is the case of the site step that has its name. Its `Err` is lack of memory; an event
//! that is dropped takes no memory.
#![tactic(auto)]

pub mod answering;
pub mod progress;
pub mod recovering;
pub mod regaining;

pub use answering::{ask_all, recovery};
pub use progress::{Progress, take_response};
pub use recovering::{Recovering, RecoveringOf, ResponseOf, restarted};
pub use regaining::regain;
