//! What a site loses in a crash.
use vr_log::Running;
use vr_recover::Recovering;
use vr_types::Machine;

/// What a site is doing, with all that it loses in a crash.
#[derive(Drop)]
pub enum Life<M: Machine> {
    Down,
    /// It came up again and asks the others for the state.
    Recovering(Recovering<M>),
    /// It is normal, or takes part in the change to its view.
    Up(Box<Running<M>>),
}
