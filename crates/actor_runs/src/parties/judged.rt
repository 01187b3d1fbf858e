//! Whole banks, judged: a site that fell, an actor that is missing.
use crate::parties::common::{Place, alone, are_judged, bank_around, close_after, without_last};
use fixtures::setup::three_currencies;
use pvp_audit::{NotTheBank, audit};
use pvp_parties::{Party, PartyEvent, PartyOutcome};
use pvp_rooms::{CameOf, Closed, Finding};
use std::alloc::Global;
use std::process::Abort;
use std::sync::Wait;
use std::test::Fail;
use vr_types::{EventOf, MemCell, SiteFault};

/// What a site left whose first save failed: it crashed, fell as it was restarted, and was
/// restarted again.
fn fallen<R: Wait + AllocGlobal>(rt: &R, keeps_new: bool) -> Result<Closed<Party>, Fail> {
    let mut site = Place::site_over(rt.alloc(), 1, MemCell::failing(1, keeps_new), 1)?;
    let came = falls(rt, &mut site, u32::from(keeps_new));
    close_after(came, site)
}

/// A site crashes, falls at a restart over a cell that then holds so many boots, and is restarted
/// again.
fn falls<R: Wait + AllocGlobal>(rt: &R, site: &mut Place<Party>, boots: u32) -> Result<(), Fail> {
    site.take(rt, PartyEvent::OfSite(EventOf::Crash))?;
    falls_over(rt, site, boots)?;
    site.take(rt, PartyEvent::OfSite(EventOf::Restart))
}

/// A site falls at a restart, over a cell that then holds so many boots.
fn falls_over<R: Wait + AllocGlobal>(
    rt: &R,
    site: &mut Place<Party>,
    boots: u32,
) -> Result<(), Fail> {
    let (_, came) = site.post(rt, PartyEvent::OfSite(EventOf::Restart), None)?;
    if is_fall(&came, boots) {
        Ok(())
    } else {
        Err(Fail::new("a fall over that value"))
    }
}

fn is_fall(came: &PartyOutcome, boots: u32) -> bool {
    match came {
        PartyOutcome::OfSite(
            CameOf::Fell {
                why: SiteFault::CellFault,
                cell,
                ..
            },
        ) => cell.boots == boots,
        _ => false,
    }
}

/// A bank in which a site fell is judged Yes, whichever value its cell kept.
#[test]
fn a_fall_is_followed(rt: HostRuntime) -> Result<(), Fail> {
    for keeps_new in [false, true] {
        are_judged(&rt, alone(rt.alloc(), fallen(&rt, keeps_new)), Finding::Yes)?;
    }
    Ok(())
}

/// Whether these are the actors of the bank.
fn are_the_bank(alloc: Global, closed: &[Closed<Party>]) -> Result<bool, Fail> {
    let said = audit(alloc, &three_currencies(alloc)?, closed);
    Ok(!matches!(&said, Err(NotTheBank)))
}

/// What a bank without its last site leaves is not that of the bank.
fn is_not_the_bank<R: Abort + AllocGlobal>(rt: &R) -> Result<(), Fail> {
    let nobody = Ok(Vec::new(rt.alloc()));
    let closed = without_last(bank_around(rt.alloc(), nobody))?;
    assert!(rt; !are_the_bank(rt.alloc(), closed.as_slice())?);
    Ok(())
}

/// A bank without its last site is not the bank.
#[test]
fn a_missing_site_is_told(rt: HostRuntime) -> Result<(), Fail> {
    is_not_the_bank(&rt)
}
