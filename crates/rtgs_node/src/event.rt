//! The events of a node.
use pvp_book::Book;
use vr_types::Envelope;

/// What may happen to a node.
#[derive(Drop)]
pub enum NodeEvent {
    /// A member pays in, in minor units.
    PaysIn { member: u16, amt: u64 },
    /// A member's account is closed.
    Closes(u16),
    /// An envelope arrives.
    Takes(Envelope<Book>),
    /// It is time to send again what may have been lost.
    Beats,
}
