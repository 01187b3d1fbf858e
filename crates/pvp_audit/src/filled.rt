//! What came of the events of a journal, which has only summaries of it.
ghost use Rattle.std.specs.Prelude.{◌≡◌, IfOk, IfSome, IsFalse, IsTrue};
ghost use Rattle.pvp_rooms.specs.Histories.{Takes};
ghost use Rattle.pvp_parties.specs.Made.{memory};
ghost use Rattle.pvp_parties.specs.Parties.{PartyState, Comes, Shows, after};
ghost use Rattle.pvp_journal.specs.Summaries.{Retakes, SumsUp};
ghost use Rattle.pvp_audit.specs.Filled.{AreEventsOf, AreFilledIn, FillsIn, IsEventOf, no_outcome};

use pvp_journal::{Entry, Summary, Taken, take_again};
use pvp_parties::{Party, PartyEvent, PartyOutcome};
use pvp_rooms::{Audited, CameOf, Recorded};
use rtgs_node::NodeFault;
use std::alloc::{AllocError, Global};
use vr_types::SiteFault;

/// The history of which these are the entries: an actor as it opened takes the events again, which says how each came out.
/// The first that cannot have come out as its entry says has an outcome that cannot come, and so has all behind it.
pub(crate) fn fill_in(
    alloc: Global,
    actor: Party,
    entries: Vec<Entry>,
) -> Result<Vec<Taken>, AllocError>
    ensures events { IfOk result (λ history. AreEventsOf entries.items history.items) }
    ensures filled { IfOk result (λ history. (x : PartyState) → Shows memory actor x →
        AreFilledIn x entries.items history.items) }
{
    let mut actor = actor;
    let mut goes = true;
    let mut history = Vec::with_capacity(alloc, entries.len())?;
    for entry in entries {
        let (taken, comes) = fill_one(alloc, &mut actor, goes, entry)?;
        goes = comes;
        history.push(taken)?;
    }
    Ok(history)
}

/// The event of an entry, and whether it came out so behind those that did.
fn fill_one(
    alloc: Global,
    actor: &mut Party,
    goes: bool,
    entry: Entry,
) -> Result<(Taken, bool), AllocError>
    ensures event { IfOk result (λ f. IsEventOf entry f.0) }
    ensures fills { IfOk result (λ f. IsTrue goes → (x : PartyState) → Shows memory actor.old x →
        FillsIn x entry.outcome f.0.event f.0.outcome) }
    ensures comes { IfOk result (λ f. IsTrue f.1 → IsTrue goes
        × ((x : PartyState) → Shows memory actor.old x →
        Takes Comes after x f.0.event f.0.outcome (Shows memory actor.new))) }
    ensures fails { IfOk result (λ f. IsFalse f.1 → IsTrue goes →
        (x : PartyState) → Shows memory actor.old x → ¬ Comes x f.0.event f.0.outcome) }
    ensures lost { IfOk result (λ f. IsFalse goes → f.0.outcome ≡ no_outcome f.0.event) }
{
    let Recorded {
        event,
        stamp,
        clock,
        outcome: summary,
    } = entry;
    let found = if goes {
        outcome_again(alloc, actor, &event, summary)?
    } else {
        None
    };
    let (outcome, comes) = match found {
        Some(outcome) => (outcome, true),
        None => (no_outcome(&event), false),
    };
    let taken = Recorded {
        event,
        stamp,
        clock,
        outcome,
    };
    Ok((taken, comes))
}

/// Takes an event again, and answers how it came out; `None` where it cannot have come out as its journal says. After `None`
/// and `Err`, where memory is refused, the actor may only be dropped.
fn outcome_again(
    alloc: Global,
    actor: &mut Party,
    event: &PartyEvent,
    summary: Summary,
) -> Result<Option<PartyOutcome>, AllocError>
    ensures step { IfOk result (λ found. (x : PartyState) → Shows memory actor.old x →
        Retakes x event.now summary found (Shows memory actor.new)) }
    ensures summed { IfOk result (λ found. IfSome found (SumsUp summary)) }
{
    match summary {
        Summary::Whole(outcome) => {
            let comes = actor.follow(alloc, event, &outcome)?;
            Ok(comes.then_some(outcome))
        }
        Summary::Sent { count, dropped } => take_again(actor, alloc, event, count, dropped),
    }
}

/// An outcome that cannot come of an event.
fn no_outcome(event: &PartyEvent) -> PartyOutcome
    ensures is { result ≡ no_outcome event.now }
    ensures never { (x : PartyState) → ¬ Comes x event.now result }
{
    match event {
        PartyEvent::OfSite(_) => PartyOutcome::OfNode(Err(NodeFault::NoMemory)),
        _ => PartyOutcome::OfSite(CameOf::Refused(SiteFault::NotMine)),
    }
}
