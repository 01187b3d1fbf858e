//! What the event of a line did, and the fault for which the line was refused.
ghost use Rattle.std.specs.Prelude.{◌≡◌, option_copied};
ghost use Rattle.pvp_live.specs.Effects.{client_told, effect_of, fault_of, line_effect};

use headline::ClientFault;
use pvp_parties::PartyOutcome;
use pvp_rooms::{Answer, CameOf};
use pvp_world::WorldFault;
use vr_types::Why;

/// What the event of a line did.
#[derive(Clone, Copy)]
pub enum Effect {
    /// It was taken, and its actor sent so many envelopes.
    Sent(usize),
    /// Its site dropped it.
    Dropped(Why),
    /// It was refused, or its site fell at it.
    Refused(WorldFault),
    /// There is no greater clock at its actor.
    ClockSpent,
}

/// What the event of a line did; where there is no answer, there is no such actor.
pub fn line_effect(answer: Option<&Answer<PartyOutcome>>) -> Effect
    ensures { result ≡ line_effect (option_copied answer.entry) }
{
    match answer {
        Some(Answer::Done { outcome, .. }) => effect_of(outcome),
        Some(Answer::NoMemory) => Effect::Refused(WorldFault::NoMemory),
        Some(Answer::ClockSpent) => Effect::ClockSpent,
        None => Effect::Refused(WorldFault::NoSuchActor),
    }
}

/// What an event did that came out so. A stray was posted at an actor of another kind, as the line's own is not there.
fn effect_of(outcome: &PartyOutcome) -> Effect
    ensures { result ≡ effect_of outcome.now }
{
    match outcome {
        PartyOutcome::OfSite(
            CameOf::Did {
                sent,
                dropped: None,
            },
        ) => Effect::Sent(sent.as_slice().len()),
        PartyOutcome::OfSite(
            CameOf::Did {
                dropped: Some(why),
                ..
            },
        ) => Effect::Dropped(*why),
        PartyOutcome::OfSite(CameOf::Refused(fault) | CameOf::Fell { why: fault, .. }) => {
            Effect::Refused(WorldFault::Site(*fault))
        }
        PartyOutcome::OfNode(Ok(sent)) | PartyOutcome::OfClient(Ok(sent)) => {
            Effect::Sent(sent.as_slice().len())
        }
        PartyOutcome::OfNode(Err(fault)) => Effect::Refused(WorldFault::Node(*fault)),
        PartyOutcome::OfClient(Err(fault)) => Effect::Refused(client_told(*fault)),
        PartyOutcome::Stray => Effect::Refused(WorldFault::NoSuchActor),
    }
}

/// A client's refusal as the world reports it.
fn client_told(fault: ClientFault) -> WorldFault
    ensures { result ≡ client_told fault }
{
    match fault {
        ClientFault::Outstanding => WorldFault::Outstanding,
        ClientFault::Spent => WorldFault::Spent,
        ClientFault::NoMemory => WorldFault::NoMemory,
    }
}

/// The fault for which a line was refused whose event did this. A spent clock is none: the world has no clocks.
pub fn fault_of(effect: Effect) -> Option<WorldFault>
    ensures { result ≡ fault_of effect }
{
    match effect {
        Effect::Refused(fault) => Some(fault),
        Effect::Sent(_) | Effect::Dropped(_) | Effect::ClockSpent => None,
    }
}
