//! The configuration of a process of the bank: where the sites listen, by which keys frames are
//! tagged, and whether the journal in its folder is whole.
#![tactic(auto)]

pub mod address;
pub mod fault;
pub mod keys;
pub mod mark;
pub mod names;
pub mod order;
pub mod peers;
pub mod serving;
pub mod words;

pub use address::{Address, read_address};
pub use fault::{FolderWhy, LineFault, PlaceFault, PlaceWhy, TerminalWhy};
pub use keys::{Keys, push_key, read_keys, write_keys, write_tokens};
pub use mark::{Mark, read_mark};
pub use names::{actor_asked, actor_named};
pub use order::{Beginning, Order, Task, Who};
pub use peers::{Peers, Place, read_peers};
pub use serving::{Paper, ServeFault};
