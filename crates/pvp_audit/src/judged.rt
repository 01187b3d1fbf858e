//! The verdict of the histories of a whole bank.
ghost use Rattle.std.specs.Prelude.{◌≡◌, IfOk, IfErr};
ghost use Rattle.pvp_types.specs.Setup.{IsValid};
ghost use Rattle.pvp_rooms.specs.Verdicts.{IsOfRun};
ghost use Rattle.pvp_audit.specs.Banked.{AreOfBank};
ghost use Rattle.pvp_audit.specs.Judged.{TellsWhy};
ghost use Rattle.pvp_audit.specs.Actors.{AreOfTheBank};
ghost use Rattle.pvp_audit.specs.Histories.{JudgesHistories, JudgesLeft, AreLeftBy, IsOfHistories};

use crate::actors::are_of_the_bank;
use crate::history::History;
use crate::opened::closed_of;
use crate::{NotTheBank, Verdict, audit_run};
use pvp_parties::Party;
use pvp_rooms::{AuditTest, Closed};
use pvp_types::Setup;
use std::alloc::{AllocError, Global};

/// Judges the histories of all actors of a bank, in order of their numbers: whether they are one run, or which of A1 to A3
/// fails first. As `crate::audit` does it, but that there are neither receipts nor ends: it never answers A4 or A5.
/// `Err` where these are not the histories of the bank's actors, which takes no memory; then `No` with `NoMemory` where
/// memory is refused.
pub fn audit_histories(
    alloc: Global,
    setup: &Setup,
    histories: Vec<History>,
) -> Result<Verdict, NotTheBank>
    requires { IsValid setup.now }
    ensures judges { IfOk result (JudgesHistories setup.now histories.items) }
    ensures tests { IfOk result (TellsWhy IsOfHistories) }
    ensures bank { IfOk result (λ _. AreOfTheBank setup.now histories.items) }
    ensures stranger { IfErr result (λ _. AreOfTheBank setup.now histories.items → ⊥) }
{
    if !are_of_the_bank(setup, histories.as_slice()) {
        return Err(NotTheBank);
    }
    Ok(audit_gathered(alloc, setup, histories))
}

/// Judges histories as `audit_histories` does which are known to be those of the bank's actors, as what `gather` hands out
/// and what `cut` leaves of it. `No` with `NoMemory` where memory is refused.
pub fn audit_gathered(alloc: Global, setup: &Setup, histories: Vec<History>) -> Verdict
    requires valid { IsValid setup.now }
    requires bank { AreOfTheBank setup.now histories.items }
    ensures judges { JudgesHistories setup.now histories.items result }
    ensures tests { TellsWhy IsOfHistories result }
{
    match try_judge(alloc, setup, histories) {
        Ok(verdict) => verdict,
        Err(_) => Verdict::No {
            actor: 0,
            event: 0,
            why: AuditTest::NoMemory,
        },
    }
}

/// The verdict of the histories of a bank's actors. `Err` where memory is refused.
fn try_judge(alloc: Global, setup: &Setup, histories: Vec<History>) -> Result<Verdict, AllocError>
    requires valid { IsValid setup.now }
    requires bank { AreOfTheBank setup.now histories.items }
    ensures judges { IfOk result (JudgesLeft setup.now histories.items) }
    ensures tests { IfOk result (TellsWhy IsOfRun) }
{
    let closed = all_closed(alloc, setup, histories)?;
    audit_run(alloc, setup, closed.as_slice())
}

/// What the actors of a bank left that have these histories. `Err` where memory is refused.
fn all_closed(
    alloc: Global,
    setup: &Setup,
    histories: Vec<History>,
) -> Result<Vec<Closed<Party>>, AllocError>
    requires valid { IsValid setup.now }
    requires bank { AreOfTheBank setup.now histories.items }
    ensures left { IfOk result (λ closed. AreLeftBy closed.items histories.items) }
    ensures bank { IfOk result (λ closed. AreOfBank setup.now closed.items) }
{
    let mut closed = Vec::with_capacity(alloc, histories.len())?;
    for history in histories {
        closed.push(closed_of(alloc, setup, history)?)?;
    }
    Ok(closed)
}
