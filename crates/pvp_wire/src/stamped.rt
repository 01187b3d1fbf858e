//! What goes over a stream: envelopes, each with its stamp.

use pvp_types::{Cmd, PayOrder, Reply};
use vr_types::{EnvelopeOf, MsgOf};

/// A message of the bank's actors.
pub type Message = MsgOf<Cmd, Reply, PayOrder>;

/// Which of all sent envelopes this is: its sender, the sender's clock at that moment, and the envelope's place among
/// those that it sent then, counted from 0.
#[derive(Clone, Copy, Debug, PartialEq, Eq)]
pub struct Stamp {
    pub actor: u16,
    pub clock: u64,
    pub index: u32,
}

/// An envelope with its stamp, as it goes over a stream.
#[derive(Drop)]
pub struct Stamped {
    pub stamp: Stamp,
    pub envelope: EnvelopeOf<Cmd, Reply, PayOrder>,
}
