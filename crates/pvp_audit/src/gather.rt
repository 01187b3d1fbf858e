//! The journals of one bank, distinguished from others.
ghost use Rattle.std.specs.Prelude.{◌≡◌, ◌+◌, ◌<◌, ◌^◌, IfOk, IfErr, map};
ghost use Rattle.std.specs.List.{find};
ghost use Rattle.pvp_types.specs.Setup.{IsValid};
ghost use Rattle.vr_types.specs.Actors.{id_of};
ghost use Rattle.pvp_audit.specs.Actors.{AreOfTheBank};
ghost use Rattle.pvp_journal.specs.Bank.{mark_of};
ghost use Rattle.pvp_audit.specs.Gathered.{AreOneBank, GatherFails, FindsWrong, has_actor, has_other_bank, history_of, is_actor, missing_in, missing_of, wrong_with};

use crate::history::History;
use pvp_journal::bank::{MARK_BYTES, mark_of};
use pvp_journal::{EvidenceWhy, Head, Journal};
use pvp_types::Setup;
use std::alloc::{AllocError, AllocFailed, Global};
use vr_types::{ActorId, Boot, FIRST_NODE, FIRST_SITE};

/// Why journals are not those of a bank.
#[derive(Clone, Copy, Debug, PartialEq, Eq)]
pub enum EvidenceFault {
    /// V1 to V4: of the journals the one at this place, counted from 1.
    Journal { place: usize, why: EvidenceWhy },
    /// V5: of this actor there is none.
    Missing(u16),
    NoMemory,
}

impl From<AllocError> for EvidenceFault {
    ghost use Rattle.std.specs.Prelude.{◌≡◌};
    ghost use Rattle.pvp_audit.specs.declared.gather.EvidenceFault.TheVariants.{NoMemory};

    ghost from_gives = { λ _ told. told ≡ NoMemory };

    fn from(_refused: AllocError) -> EvidenceFault {
        EvidenceFault::NoMemory
    }
}

impl<T: Drop> From<AllocFailed<T>> for EvidenceFault {
    ghost use Rattle.std.specs.Prelude.{◌≡◌};
    ghost use Rattle.pvp_audit.specs.declared.gather.EvidenceFault.TheVariants.{NoMemory};

    ghost from_gives = { λ _ told. told ≡ NoMemory };

    fn from(_refused: AllocFailed<T>) -> EvidenceFault {
        EvidenceFault::NoMemory
    }
}

/// The histories of journals that are those of all actors of a bank with this setup, which has this text, in order of the
/// actors' numbers.
///
/// The first journal that is wrong is reported, by the first of V1 to V4 that is wrong with it
/// behind those before it; then V5, with the first actor who has none. Memory is asked for last.
pub fn gather(
    alloc: Global,
    setup: &Setup,
    text: &[u8],
    journals: Vec<Journal>,
) -> Result<Vec<History>, EvidenceFault>
    requires { IsValid setup.now }
    ensures ok { IfOk result (λ histories.
        AreOneBank setup.now (mark_of text.now) journals.items histories.items) }
    ensures bank { IfOk result (λ histories. AreOfTheBank setup.now histories.items) }
    ensures err { IfErr result (GatherFails setup.now (mark_of text.now) journals.items) }
{
    let mark = mark_of(text);
    if let Some(fault) = first_wrong(setup, &mark, journals.as_slice()) {
        return Err(fault);
    }
    if let Some(actor) = missing_in(setup, journals.as_slice()) {
        return Err(EvidenceFault::Missing(actor));
    }
    let mut histories = histories_of(alloc, journals)?;
    histories.sort_unstable_by_key(|history| history.actor);
    Ok(histories)
}

/// The first journal that is wrong behind those before it.
fn first_wrong(
    setup: &Setup,
    mark: &[u8; MARK_BYTES],
    journals: &[Journal],
) -> Option<EvidenceFault>
    requires { IsValid setup.now }
    ensures { FindsWrong setup.now mark.now journals.now result }
{
    for at in 0..journals.len() {
        if let Some(why) = wrong_with(setup, mark, &journals[..at], &journals[at].head) {
            return Some(EvidenceFault::Journal { place: at + 1, why });
        }
    }
    None
}

/// What is wrong with a journal of this head behind others.
fn wrong_with(
    setup: &Setup,
    mark: &[u8; MARK_BYTES],
    before: &[Journal],
    head: &Head,
) -> Option<EvidenceWhy>
    requires { IsValid setup.now }
    ensures { result ≡ wrong_with setup.now mark.now before.now head.now }
{
    if head.bank[..MARK_BYTES] != mark[..] {
        return Some(EvidenceWhy::Setup);
    }
    if has_other_bank(before, &head.bank) {
        return Some(EvidenceWhy::Life);
    }
    if !is_actor(setup, head.actor, head.opening) {
        return Some(EvidenceWhy::Stranger);
    }
    if has_actor(before, head.actor) {
        return Some(EvidenceWhy::Twice);
    }
    None
}

/// Whether one of these journals is of another bank.
fn has_other_bank(journals: &[Journal], bank: &[u8; 32]) -> bool
    ensures { result ≡ has_other_bank journals.now bank.now }
{
    journals
        .iter()
        .any(|journal| journal.head.bank[..] != bank[..])
}

/// Whether one of these journals is of this actor.
pub(crate) fn has_actor(journals: &[Journal], actor: u16) -> bool
    ensures { result ≡ has_actor journals.now actor }
{
    journals.iter().any(|journal| journal.head.actor == actor)
}

/// Whether a bank has an actor of this number that may open over this.
pub(crate) fn is_actor(setup: &Setup, actor: u16, opening: Option<Boot>) -> bool
    requires { IsValid setup.now }
    ensures { result ≡ is_actor setup.now (id_of actor) opening }
{
    match (ActorId::of(actor), opening) {
        (ActorId::Site(site), Some(_)) => site <= 2 * setup.faults(),
        (ActorId::Node(ccy), None) => ccy < u16::from(setup.currency_count()),
        (ActorId::Client(client), None) => client <= setup.member_count(),
        _ => false,
    }
}

/// The first actor of a bank of whom there is no journal.
fn missing_in(setup: &Setup, journals: &[Journal]) -> Option<u16>
    requires { IsValid setup.now }
    ensures { result ≡ missing_in setup.now journals.now }
{
    if let Some(actor) = missing_of(journals, 0, setup.member_count() + 1) {
        return Some(actor);
    }
    if let Some(actor) = missing_of(journals, FIRST_NODE, u16::from(setup.currency_count())) {
        return Some(actor);
    }
    missing_of(journals, FIRST_SITE, 2 * setup.faults() + 1)
}

/// The first of so many actors, from a number on, of whom there is no journal.
fn missing_of(journals: &[Journal], first: u16, count: u16) -> Option<u16>
    requires { first + count < 2 ^ 16 }
    ensures { result ≡ missing_of journals.now first count }
{
    (first..first + count).find(|actor| !has_actor(journals, *actor))
}

/// The histories of journals, in their order.
fn histories_of(alloc: Global, journals: Vec<Journal>) -> Result<Vec<History>, AllocError>
    ensures { IfOk result (λ histories. histories.items ≡ map history_of journals.items) }
{
    let mut histories = Vec::with_capacity(alloc, journals.len())?;
    for journal in journals {
        histories.push(history_of(journal))?;
    }
    Ok(histories)
}

/// The history that a journal has.
fn history_of(journal: Journal) -> History
    ensures { result ≡ history_of journal }
{
    let Journal { head, history, .. } = journal;
    History {
        actor: head.actor,
        opening: head.opening,
        entries: history,
    }
}
