//! Actors behind locks of their own, each with the history of what it took: sites, nodes and clients of the bank. And what
//! closed actors left: the tests of an actor alone, the order of the events of all, and what a verdict of them says.
#![tactic(auto)]

pub mod actor;
pub mod audited;
pub mod cell;
pub mod client;
mod clocks;
pub mod gate;
pub mod merge;
pub mod message;
pub mod node;
pub mod receipts;
mod requests;
pub mod room;
pub mod seat;
pub mod sent;
pub mod sight;
pub mod site;
pub mod verdict;

pub use actor::Actor;
pub use audited::Audited;
pub use cell::{ActorCell, CloseFault, Closed};
pub use client::{ClientCell, ClientSeat};
pub use gate::Gate;
pub use message::{Answer, Copies, Input, Recorded};
pub use node::{NodeCell, NodeSeat};
pub use requests::Told;
pub use room::{Room, next_clock};
pub use seat::Seat;
pub use sight::Sight;
pub use site::{Came, CameOf, SiteCell, SiteSeat};
pub use verdict::{AuditTest, Finding, first_alone, first_clock};
