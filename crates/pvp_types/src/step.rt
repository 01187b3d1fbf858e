//! The steps of a bank, as scripts and runs have them.
use crate::command::Cmd;

/// What may be done to a bank. Currencies are numbered from 0 and members from 1. As an actor, a client has its own
/// number, a node 101 plus its currency's, and a site 200 plus its own.
#[derive(Clone, Copy, Debug, PartialEq, Eq)]
pub enum Step {
    /// The envelope of this number, counted from 1, comes to the actor that it is addressed to.
    Deliver(usize),
    /// A member pays in at a currency's node, in minor units.
    PayIn { ccy: u8, member: u16, amt: u64 },
    /// A member's account at a currency's node is closed.
    Close { ccy: u8, member: u16 },
    /// A client asks for this.
    Submit { client: u16, cmd: Cmd },
    /// It is time for an actor to send again what may have been lost.
    Beat(u16),
    /// A site's timer runs out.
    Timer(u16),
    /// A site loses all but its boot cell.
    Crash(u16),
    /// A site that is down comes up again.
    Restart(u16),
}
