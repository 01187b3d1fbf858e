//! Tags that show who sent a frame: an HMAC-SHA256 by a key that two actors of a bank share. That nobody else can make one
//! is trusted.
#![tactic(auto)]

pub mod code;
pub mod keys;

pub use code::hmac;
pub use keys::{TAG_BYTES, key_of, stream_key, tag_of};
