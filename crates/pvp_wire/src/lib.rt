//! What actors send each other over a stream of bytes: stamped envelopes, each in a frame of its own.
#![tactic(auto)]

mod admitted;
mod boots;
pub mod fault;
pub mod feeder;
mod fields;
pub mod laws;
mod messages;
pub mod reading;
mod rows;
pub mod stamped;
pub mod writing;

pub use admitted::wireable;
pub use fault::WireFault;
pub use feeder::{Feeder, drop_front};
pub use fields::{u16_at, u32_at, u64_at};
pub use reading::decode;
pub use stamped::{Message, Stamp, Stamped};
pub use writing::encode;
