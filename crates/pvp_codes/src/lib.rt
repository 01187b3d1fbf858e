//! What each code means that the program or one of its parts prints, and faults of setups and scripts in words.
#![tactic(auto)]

mod broken;
pub mod code;
pub mod explain;
pub mod laws;
pub mod meanings;
mod near;
mod parts;
pub mod table;
mod tree;

pub use code::Code;
pub use explain::{explain_line, explain_setup};
pub use table::print_codes;
