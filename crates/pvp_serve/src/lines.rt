//! What a line at the terminal of a node or a client asks its actor for.
ghost use Rattle.std.specs.Prelude.{◌≡◌, ◌++◌, IfOk, OnOk, codes};
ghost use Rattle.pvp_trace.specs.Names.{actor_text};
ghost use Rattle.pvp_serve.specs.Desks.{asked_by, asked_of, event_of, says_nothing, script_of};

use headline::ClientEvent;
use pvp_parties::PartyEvent;
use pvp_text::script::{Kind, LineCode, Statement, read_script};
use pvp_trace::names::push_actor;
use pvp_types::{Setup, Step};
use rtgs_node::NodeEvent;
use std::alloc::{AllocError, Global};
use vr_types::ActorId;

/// What a line asks this actor for; `Ok(None)` for a line that asks for nothing, `Err` with what is wrong with it. A client's
/// line is what stands behind its name in a script.
pub fn event_of(
    alloc: Global,
    setup: &Setup,
    me: u16,
    line: &[u8],
) -> Result<Result<Option<PartyEvent>, LineCode>, AllocError>
    ensures { IfOk result (λ asked. asked ≡ event_of setup.now me line.now) }
{
    let text = script_of(alloc, setup, me, line)?;
    let lines = match read_script(alloc, setup, Kind::Live, text.as_slice()) {
        Ok(lines) => lines,
        Err(fault) if fault.code == LineCode::NoMemory => return Err(AllocError),
        Err(fault) => return Ok(Err(fault.code)),
    };
    match lines.first() {
        Some(first) => Ok(asked_by(me, first.statement)),
        None => Ok(Ok(None)),
    }
}

/// What a line of a script asks this actor for.
fn asked_by(me: u16, statement: Statement) -> Result<Option<PartyEvent>, LineCode>
    ensures { result ≡ asked_by me statement }
{
    let Statement::Do(step) = statement else {
        return Err(LineCode::UnknownWord);
    };
    match asked_of(me, step) {
        Some(event) => Ok(Some(event)),
        None => Err(LineCode::UnknownWord),
    }
}

/// What a step asks this actor for; `None` where it is another's, or none that is asked for at a terminal.
fn asked_of(me: u16, step: Step) -> Option<PartyEvent>
    ensures { result ≡ asked_of me step }
{
    match (ActorId::of(me), step) {
        (ActorId::Client(_), Step::Submit { client, cmd }) if client == me => {
            Some(PartyEvent::OfClient(ClientEvent::Submits(cmd)))
        }
        (ActorId::Node(own), Step::PayIn { ccy, member, amt }) if u16::from(ccy) == own => {
            Some(PartyEvent::OfNode(NodeEvent::PaysIn { member, amt }))
        }
        (ActorId::Node(own), Step::Close { ccy, member }) if u16::from(ccy) == own => {
            Some(PartyEvent::OfNode(NodeEvent::Closes(member)))
        }
        _ => None,
    }
}

/// The line of a script that a line at a terminal stands for.
fn script_of(alloc: Global, setup: &Setup, me: u16, line: &[u8]) -> Result<Vec<u8>, AllocError>
    ensures { IfOk result (λ text. text.items ≡ script_of setup.now me line.now) }
{
    let mut text = Vec::new(alloc);
    if let (ActorId::Client(_), false) = (ActorId::of(me), says_nothing(line)) {
        put_who(alloc, setup, me, &mut text)?;
    }
    text.extend_from_slice(line)?;
    Ok(text)
}

/// Puts there who does what follows.
fn put_who(alloc: Global, setup: &Setup, me: u16, text: &mut Vec<u8>) -> Result<(), AllocError>
    ensures { OnOk result (text.new.items
        ≡ text.old.items ++ codes "do " ++ actor_text setup.now me ++ codes " ") }
{
    let mut name = String::new(alloc);
    push_actor(&mut name, setup, me)?;
    text.extend_from_slice(b"do ")?;
    text.extend_from_slice(name.as_str().as_bytes())?;
    text.extend_from_slice(b" ")
}

/// Whether a line asks for nothing: it is empty, or begins with `#`.
fn says_nothing(line: &[u8]) -> bool
    ensures { result ≡ says_nothing line.now }
{
    match line.first() {
        Some(first) => *first == b'#',
        None => true,
    }
}
