//! What a process shows of its actor over HTTP: readings that its loop makes, and the threads that answer with them.
#![tactic(auto)]

pub mod book;
pub mod json;
pub mod laws;
pub mod listening;
pub mod look;
pub mod metrics;
pub mod page;
pub mod path;
pub mod reader;
pub mod seen;
pub mod service;
pub mod window;

pub use listening::{Shared, Wires, show_all};
pub use look::{Look, Shown, View, show};
pub use reader::Token;
pub use seen::{ClientSeen, NodeSeen, Seen, SiteSeen, Stream};
pub use window::Window;
