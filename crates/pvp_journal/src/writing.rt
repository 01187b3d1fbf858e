//! Writing a journal: heads and records, each put at the end of bytes as a whole or not at all.
ghost use Rattle.std.specs.Prelude.{◌≡◌, ◌++◌, ◌∷◌, ℕ, [], length, map, None, Err, OnOk, OnErr, IfOk};
ghost use Rattle.pvp_wire.specs.Spelling.{number, spelling};
ghost use Rattle.pvp_wire.specs.Fits.{Fits, IsSpelled};
ghost use Rattle.pvp_journal.specs.declared.fault.WriteFault.TheVariants.{Unfit};
ghost use Rattle.pvp_journal.specs.Fits.{AreJournalable, IsHead, OpeningFits, DeliveryFits, EventFits, SummaryFits, BodyFits, IsJournalable};
ghost use Rattle.pvp_journal.specs.Spelling as spell;
ghost use Rattle.pvp_journal.specs.Summaries.{count_of, entry_of, summary_of};
ghost use Rattle.pvp_journal.specs.Writing.{Puts};

use crate::fault::WriteFault;
use crate::head::{Head, MAGIC, Version};
use crate::sent::{BankEnvelope, BankSent};
use crate::summary::{Taken, count_of};
use crate::sums::checksum;
use byteorder::{BigEndian, ByteOrder};
use headline::{ClientEvent, ClientFault};
use pvp_parties::{PartyEvent, PartyOutcome};
use pvp_rooms::CameOf;
use pvp_types::Cmd;
use pvp_wire::{Stamp, Stamped, encode, wireable};
use rtgs_node::{NodeEvent, NodeFault};
use std::alloc::{AllocError, Global};
use vr_types::{Boot, EnvelopeOf, EventOf, FIRST_SITE, MsgOf, RequestOf, SiteFault, Why};

/// Puts the head of a journal at the end of the bytes, and answers its checksum, from which the first record goes on.
/// After an `Err` the bytes are as they were.
pub fn write_head(alloc: Global, head: &Head, out: &mut Vec<u8>) -> Result<u64, AllocError>
    ensures written { OnOk result (out.new.items ≡ out.old.items ++ spell.head_text head.now) }
    ensures sum { IfOk result (λ sum. sum ≡ spell.head_sum head.now) }
    ensures head { OnOk result (IsHead head.now) }
    ensures err { OnErr result (out.new.items ≡ out.old.items) }
{
    let mut text = Vec::new(alloc);
    put_head(head, &mut text)?;
    out.extend_from_slice(text.as_slice())?;
    Ok(checksum(0, text.as_slice()))
}

/// Puts a whole journal at the end of the bytes: its head, and a record of each event. After an `Err` a front of it may
/// stand there.
pub fn write_journal(
    alloc: Global,
    head: &Head,
    history: &[Taken],
    out: &mut Vec<u8>,
) -> Result<(), WriteFault>
    ensures written { OnOk result
        (out.new.items ≡ out.old.items ++ spell.journal_text head.now (map entry_of history.now)) }
    // So `read_journal` reads it again.
    ensures journalable { OnOk result (AreJournalable head.now (map entry_of history.now)) }
    ensures unfit { result ≡ Err Unfit → AreJournalable head.now (map entry_of history.now) → ⊥ }
{
    let mut sum = write_head(alloc, head, out)?;
    for taken in history {
        sum = write_record(alloc, head.actor, sum, taken, out)?;
    }
    Ok(())
}

/// Puts the record of an event of an actor at the end of the bytes, behind a record or a head with this checksum, and
/// answers its own. After an `Err` the bytes are as they were.
pub fn write_record(
    alloc: Global,
    me: u16,
    before: u64,
    taken: &Taken,
    out: &mut Vec<u8>,
) -> Result<u64, WriteFault>
    ensures written { OnOk result
        (out.new.items ≡ out.old.items ++ spell.record_text me before (entry_of taken.now)) }
    ensures sum { IfOk result (λ sum. sum ≡ spell.record_sum me before (entry_of taken.now)) }
    // So `read_journal` reads it again.
    ensures journalable { OnOk result (IsJournalable me (entry_of taken.now)) }
    ensures unfit { result ≡ Err Unfit → IsJournalable me (entry_of taken.now) → ⊥ }
    ensures err { OnErr result (out.new.items ≡ out.old.items) }
{
    let mut body = Vec::new(alloc);
    put_body(alloc, me, taken, &mut body)?;
    let Ok(length) = u32::try_from(body.len()) else {
        return Err(WriteFault::Unfit);
    };
    let mut record = Vec::new(alloc);
    put_u32(length, &mut record)?;
    put_u32(u32::MAX - length, &mut record)?;
    record.extend_from_slice(body.as_slice())?;
    let sum = checksum(before, record.as_slice());
    put_u64(sum, &mut record)?;
    out.extend_from_slice(record.as_slice())?;
    Ok(sum)
}

/// The head's fields.
fn put_head(head: &Head, out: &mut Vec<u8>) -> Result<(), AllocError>
    ensures text { OnOk result (out.new.items ≡ out.old.items ++ spell.head_text head.now) }
    ensures head { OnOk result (IsHead head.now) }
{
    put_u32(MAGIC, out)?;
    put_tag(version_number(head.version), out)?;
    put_u16(head.actor, out)?;
    put_opening(head.opening, out)?;
    out.extend_from_slice(head.bank.as_slice())
}

/// The number of a version.
fn version_number(version: Version) -> u8
    ensures { result ≡ spell.version_number version }
{
    match version {
        Version::One => 1,
        Version::Two => 2,
    }
}

/// 0, or 1 and the boots that a site's cell held.
fn put_opening(opening: Option<Boot>, out: &mut Vec<u8>) -> Result<(), AllocError>
    ensures text { OnOk result (out.new.items ≡ out.old.items ++ spell.opening_text opening) }
    ensures fits { OpeningFits opening }
{
    match opening {
        None => put_tag(0, out),
        Some(boot) => {
            put_tag(1, out)?;
            put_u32(boot.boots, out)
        }
    }
}

/// A byte that says what follows, or which of some it is.
fn put_tag(tag: u8, out: &mut Vec<u8>) -> Result<(), AllocError>
    ensures { OnOk result (out.new.items ≡ out.old.items ++ tag ∷ []) }
{
    out.extend_from_slice(&[tag])
}

#[tactic(auto, unfolding(pvp_wire::specs::Spelling::number))]
fn put_u16(value: u16, out: &mut Vec<u8>) -> Result<(), AllocError>
    ensures { OnOk result (out.new.items ≡ out.old.items ++ number 2 value) }
{
    let mut field = [0; 2];
    BigEndian::write_u16(&mut field, value);
    out.extend_from_slice(&field)
}

#[tactic(auto, unfolding(pvp_wire::specs::Spelling::number))]
fn put_u32(value: u32, out: &mut Vec<u8>) -> Result<(), AllocError>
    ensures { OnOk result (out.new.items ≡ out.old.items ++ number 4 value) }
{
    let mut field = [0; 4];
    BigEndian::write_u32(&mut field, value);
    out.extend_from_slice(&field)
}

#[tactic(auto, unfolding(pvp_wire::specs::Spelling::number))]
fn put_u64(value: u64, out: &mut Vec<u8>) -> Result<(), AllocError>
    ensures text { OnOk result (out.new.items ≡ out.old.items ++ number 8 value) }
    ensures fits { Fits 8 value }
{
    let mut field = [0; 8];
    BigEndian::write_u64(&mut field, value);
    out.extend_from_slice(&field)
}

/// The clock, the event and the summary of the outcome.
fn put_body(alloc: Global, me: u16, taken: &Taken, out: &mut Vec<u8>) -> Result<(), WriteFault>
    ensures { Puts out.old.items
        (spell.body_text me (entry_of taken.now))
        (BodyFits me (entry_of taken.now))
        result out.new.items }
{
    put_u64(taken.clock, out)?;
    put_event(alloc, me, taken.clock, taken.stamp, &taken.event, out)?;
    put_summary(&taken.outcome, out)
}

/// The frame of an envelope.
fn put_frame(stamped: &Stamped, out: &mut Vec<u8>) -> Result<(), WriteFault>
    ensures { Puts out.old.items
        (spelling stamped.now)
        (IsSpelled stamped.now)
        result out.new.items }
{
    if !wireable(stamped) {
        return Err(WriteFault::Unfit);
    }
    match encode(stamped, out) {
        Ok(()) => Ok(()),
        Err(_) => Err(WriteFault::NoMemory),
    }
}

/// An event: its tag, then its fields.
fn put_event(
    alloc: Global,
    me: u16,
    clock: u64,
    stamp: Option<Stamp>,
    event: &PartyEvent,
    out: &mut Vec<u8>,
) -> Result<(), WriteFault>
    ensures { Puts out.old.items
        (spell.event_text me clock stamp event.now)
        (EventFits me clock stamp event.now)
        result out.new.items }
{
    match event {
        PartyEvent::OfSite(event) => match event {
            EventOf::Deliver(envelope) => put_delivery(alloc, 1, stamp, envelope, out),
            EventOf::Timer => put_plain(2, stamp, out),
            EventOf::Beat => put_plain(3, stamp, out),
            EventOf::Crash => put_plain(4, stamp, out),
            EventOf::Restart => put_plain(5, stamp, out),
        },
        PartyEvent::OfNode(event) => match event {
            NodeEvent::Takes(envelope) => put_delivery(alloc, 6, stamp, envelope, out),
            NodeEvent::Beats => put_plain(7, stamp, out),
            NodeEvent::PaysIn { member, amt } => put_pay_in(stamp, *member, *amt, out),
            NodeEvent::Closes(member) => put_closes(stamp, *member, out),
        },
        PartyEvent::OfClient(event) => match event {
            ClientEvent::Takes(envelope) => put_delivery(alloc, 10, stamp, envelope, out),
            ClientEvent::Beats => put_plain(11, stamp, out),
            ClientEvent::Submits(cmd) => put_submits(me, clock, stamp, *cmd, out),
        },
    }
}

/// What was delivered, which has a stamp.
fn put_delivery(
    alloc: Global,
    tag: u8,
    stamp: Option<Stamp>,
    envelope: &BankEnvelope,
    out: &mut Vec<u8>,
) -> Result<(), WriteFault>
    ensures { Puts out.old.items
        (tag ∷ spell.delivery_text stamp envelope.now)
        (DeliveryFits stamp envelope.now)
        result out.new.items }
{
    let Some(stamp) = stamp else {
        return Err(WriteFault::Unfit);
    };
    put_tag(tag, out)?;
    put_stamped(alloc, stamp, envelope, out)
}

/// The frame of an envelope with this stamp.
fn put_stamped(
    alloc: Global,
    stamp: Stamp,
    envelope: &BankEnvelope,
    out: &mut Vec<u8>,
) -> Result<(), WriteFault>
    ensures { Puts out.old.items
        (spelling (record { stamp = stamp; envelope = envelope.now }))
        (IsSpelled (record { stamp = stamp; envelope = envelope.now }))
        result out.new.items }
{
    let stamped = Stamped {
        stamp,
        envelope: envelope.copy(alloc)?,
    };
    put_frame(&stamped, out)
}

/// An event that has no fields, and no stamp.
fn put_plain(tag: u8, stamp: Option<Stamp>, out: &mut Vec<u8>) -> Result<(), WriteFault>
    ensures { Puts out.old.items (tag ∷ []) (stamp ≡ None) result out.new.items }
{
    if stamp.is_some() {
        return Err(WriteFault::Unfit);
    }
    put_tag(tag, out)?;
    Ok(())
}

/// A pay-in at a node.
fn put_pay_in(
    stamp: Option<Stamp>,
    member: u16,
    amt: u64,
    out: &mut Vec<u8>,
) -> Result<(), WriteFault>
    ensures { Puts out.old.items
        (8 ∷ number 2 member ++ number 8 amt)
        ((stamp ≡ None) × Fits 2 member × Fits 8 amt)
        result out.new.items }
{
    put_plain(8, stamp, out)?;
    put_u16(member, out)?;
    put_u64(amt, out)?;
    Ok(())
}

/// That a member's account at a node is closed.
fn put_closes(stamp: Option<Stamp>, member: u16, out: &mut Vec<u8>) -> Result<(), WriteFault>
    ensures { Puts out.old.items
        (9 ∷ number 2 member)
        ((stamp ≡ None) × Fits 2 member)
        result out.new.items }
{
    put_plain(9, stamp, out)?;
    put_u16(member, out)?;
    Ok(())
}

/// What a client asks for, as a request of number 0 to the first site.
fn put_submits(
    me: u16,
    clock: u64,
    stamp: Option<Stamp>,
    cmd: Cmd,
    out: &mut Vec<u8>,
) -> Result<(), WriteFault>
    ensures { Puts out.old.items
        (12 ∷ spelling (spell.command_request me clock cmd))
        ((stamp ≡ None) × IsSpelled (spell.command_request me clock cmd))
        result out.new.items }
{
    put_plain(12, stamp, out)?;
    let asked = Stamped {
        stamp: Stamp {
            actor: me,
            clock,
            index: 0,
        },
        envelope: EnvelopeOf {
            from: me,
            to: FIRST_SITE,
            msg: MsgOf::Request(RequestOf { number: 0, cmd }),
        },
    };
    put_frame(&asked, out)
}

/// The summary of an outcome: its tag, then its fields.
fn put_summary(outcome: &PartyOutcome, out: &mut Vec<u8>) -> Result<(), WriteFault>
    ensures { (me clock : ℕ) → Puts out.old.items
        (spell.summary_text me clock (summary_of outcome.now))
        (SummaryFits me clock (summary_of outcome.now))
        result out.new.items }
{
    match outcome {
        PartyOutcome::OfSite(CameOf::Did { sent, dropped }) => {
            put_sent(sent, why_number(*dropped), out)?;
        }
        PartyOutcome::OfSite(CameOf::Refused(fault)) => put_tags(2, site_number(*fault), out)?,
        PartyOutcome::OfSite(CameOf::Fell { why, cell }) => {
            put_tags(3, site_number(*why), out)?;
            put_u32(cell.boots, out)?;
        }
        PartyOutcome::OfNode(Ok(sent)) => put_sent(sent, why_number(None), out)?,
        PartyOutcome::OfNode(Err(fault)) => put_tags(5, node_number(*fault), out)?,
        PartyOutcome::OfClient(Ok(sent)) => put_sent(sent, why_number(None), out)?,
        PartyOutcome::OfClient(Err(fault)) => put_tags(7, client_number(*fault), out)?,
        PartyOutcome::Stray => put_tag(8, out)?,
    }
    Ok(())
}

/// A tag, and one that says which of some it is.
fn put_tags(tag: u8, which: u8, out: &mut Vec<u8>) -> Result<(), AllocError>
    ensures { OnOk result (out.new.items ≡ out.old.items ++ tag ∷ which ∷ []) }
{
    out.extend_from_slice(&[tag, which])
}

/// How much was sent, and the number of why the event was dropped.
fn put_sent(sent: &BankSent, why: u8, out: &mut Vec<u8>) -> Result<(), AllocError>
    ensures { OnOk result (out.new.items ≡ out.old.items ++ 9 ∷ count_of sent.now ∷ why ∷ []) }
{
    out.extend_from_slice(&[9, count_of(sent.as_slice()), why])
}

/// The number of a site's fault.
fn site_number(fault: SiteFault) -> u8
    ensures { result ≡ spell.site_number fault }
{
    match fault {
        SiteFault::NoMemory => 1,
        SiteFault::CellFault => 2,
        SiteFault::NotUp => 3,
        SiteFault::AlreadyUp => 4,
        SiteFault::ViewsSpent => 5,
        SiteFault::BootsSpent => 6,
        SiteFault::NotMine => 7,
    }
}

/// The number of a node's fault.
fn node_number(fault: NodeFault) -> u8
    ensures { result ≡ spell.node_number fault }
{
    match fault {
        NodeFault::Short => 1,
        NodeFault::UnknownMember => 2,
        NodeFault::BadAmount => 3,
        NodeFault::NoMemory => 4,
        NodeFault::Spent => 5,
        NodeFault::NotMine => 6,
        NodeFault::Closed => 7,
    }
}

/// The number of a client's fault.
fn client_number(fault: ClientFault) -> u8
    ensures { result ≡ spell.client_number fault }
{
    match fault {
        ClientFault::Outstanding => 1,
        ClientFault::Spent => 2,
        ClientFault::NoMemory => 3,
    }
}

/// 0, or the number of why an event was dropped.
fn why_number(dropped: Option<Why>) -> u8
    ensures { result ≡ spell.why_number dropped }
{
    match dropped {
        None => 0,
        Some(Why::Status) => 1,
        Some(Why::View) => 2,
        Some(Why::NotPrimary) => 3,
        Some(Why::Known) => 4,
        Some(Why::Stale) => 5,
        Some(Why::Full) => 6,
    }
}
