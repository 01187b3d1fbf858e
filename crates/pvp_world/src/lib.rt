//! The bank in its world: all sites, the nodes, the clients, every envelope that was ever sent, and the trail of what
//! was done. The contracts of the calls of `World` have the headline.
#![tactic(auto)]

pub mod client;
pub mod fault;
mod opening;
mod post;
pub mod report;
pub mod trail;
mod turn;
pub mod world;

pub use client::Client;
pub use fault::{FallFault, WorldFault};
pub use headline::Move;
pub use report::Report;
pub use trail::Trail;
pub use world::World;
