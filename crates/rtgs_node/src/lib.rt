//! The real-time gross settlement node of one currency: the accounts of the bank and of its members, the payments
//! between them, and the notices of them that the node sends to the bank.
#![tactic(auto)]

pub mod event;
pub mod fault;
pub mod laws;
pub mod node;
pub mod payment;
pub mod request;

pub use event::NodeEvent;
pub use fault::NodeFault;
pub use node::Node;
pub use payment::PayIn;
