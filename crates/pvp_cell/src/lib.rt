//! The boot cell that is a file: its text, the stores that keep it, and the cell over any of them.
#![tactic(auto)]

mod cut;
mod drill;
pub mod fault;
mod file_cell;
mod folder;
pub mod laws;
mod memory;
pub mod store;
pub mod text;

pub use cut::CutStore;
pub use drill::{killed_save, open_after_crash, open_after_kill};
pub use fault::OpenFault;
pub use file_cell::{FileCell, create_cell, read_cell, settle_cell};
pub use folder::DirStore;
pub use memory::MemStore;
pub use store::{Store, StoreFault};
pub use text::{TEXT_SIZE, boot_of, text_of};
