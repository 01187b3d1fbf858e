//! Links between actors: frames over streams, with a hello, pings and tags where strangers may call. What comes is taken
//! apart and posted at actors; what they send is written. Threads use them over one machine's own sockets without hello
//! and tag: a worker for each incoming stream, a worker that writes for each actor, and a player.
#![tactic(auto)]

pub mod arrival;
pub mod fault;
pub mod frame;
pub mod hearing;
pub mod hello;
pub mod incoming;
pub mod intake;
pub mod laws;
pub mod link;
pub mod outbox;
pub mod peer;
mod piece;
pub mod player;
pub mod putting;
mod seal;
pub mod served;
pub mod serving;
pub mod sockets;
pub mod writer;
pub mod writers;

pub use arrival::{Arrival, Piece};
pub use fault::LinkFault;
pub use frame::{Frame, Order};
pub use hearing::{Hearer, LinkEnd, hear_all};
pub use incoming::Peer;
pub use intake::Intake;
pub use link::Link;
pub use outbox::Outbox;
pub use peer::{PeerEnd, StreamEnd, serve_peer};
pub use player::Player;
pub use putting::{put_call, put_frame, put_hello, put_ping};
pub use served::Served;
pub use serving::serve_streams;
pub use sockets::{Connected, Incoming, NetFault, Sending, connect_all, may_send};
pub use writer::{Outgoing, Writer};
pub use writers::{Outlet, Writers};
