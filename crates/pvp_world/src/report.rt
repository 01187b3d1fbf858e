//! The report of a step that was taken.
use vr_types::Why;

/// What a step led to.
#[derive(Clone, Copy, Debug, PartialEq, Eq)]
pub struct Report {
    /// The number of the first envelope that the step sent; 0 if it sent none.
    pub first: usize,
    /// How many envelopes it sent.
    pub count: usize,
    /// Why a site dropped the event; `None` if it did not, and for every other actor.
    pub dropped: Option<Why>,
}
