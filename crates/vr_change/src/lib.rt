//! View change and state transfer: what a running site does when its timer runs out, with STARTVIEWCHANGE,
//! DOVIEWCHANGE, STARTVIEW, GETSTATE and NEWSTATE, and with a beat while it is in change. Each call is the case of the
//! site step that has its name. Its `Err` is lack of memory, after which the running state may only be dropped; an
//! event that is dropped takes no memory and changes nothing.
#![tactic(auto)]

mod ballot;
mod change;
mod learning;
mod opening;
mod taking;
mod transfer;
mod voting;

pub use change::{beat_in_change, timer};
pub use taking::start_view;
pub use transfer::{get_state, new_state};
pub use voting::{do_view_change, start_view_change};
