//! What the terminal of a node or a client answers there.
ghost use Rattle.std.specs.Prelude.{◌≡◌, ◌↔◌, IfErr, IsOk, IsSome};
ghost use Rattle.pvp_places.specs.declared.serving.ServeFault.TheVariants.{Output};
ghost use Rattle.pvp_serve.specs.Desks.{last_told, told_of};

use crate::host::Host;
use crate::serving::Request;
use pvp_journal::Letter;
use pvp_parties::PartyOutcome;
use pvp_places::{ServeFault, TerminalWhy};
use pvp_types::Reply;
use rtgs_node::NodeFault;
use std::io;

/// The outcome of what was asked for, as the terminal prints it.
#[derive(Clone, Copy, Debug)]
pub enum Told {
    /// A client made its request: its answer is printed once it comes.
    Nothing,
    Done,
    Refused(NodeFault),
    /// A client waits for another answer, or may not ask for that.
    Misplaced,
}

/// Says how a client's last request stands, where it made one.
pub fn greet<R: Host>(rt: R, request: Option<Request>) -> Result<(), ServeFault>
    ensures { IfErr result (λ fault. (fault ≡ Output) × IsSome request) }
{
    let Some(Request { number, answer }) = request else {
        return Ok(());
    };
    if let Some(reply) = answer {
        printed(println!(rt; "last {number} {reply}"))
    } else if number > 0 {
        printed(println!(rt; "waits {number}"))
    } else {
        Ok(())
    }
}

/// Prints the answer that is owed, where one is. It is in the journal.
pub fn tell_owed<R: Host>(rt: R, owes: Option<(u32, Reply)>) -> Result<(), ServeFault>
    ensures refused { IfErr result (λ fault. (fault ≡ Output) × IsSome owes) }
{
    match owes {
        Some((number, reply)) => printed(println!(rt; "{number} {reply}")),
        None => Ok(()),
    }
}

/// Prints the outcome of what was asked for at a node, or that a client may not ask for it.
pub fn tell_outcome<R: Host>(rt: R, told: Told) -> Result<(), ServeFault>
    ensures { IfErr result (λ fault. fault ≡ Output) }
{
    match told {
        Told::Nothing => Ok(()),
        Told::Done => printed(println!(rt; "done")),
        Told::Refused(fault) => printed(println!(rt; "refused {fault}")),
        Told::Misplaced => printed(println!(rt; "refused")),
    }
}

/// Prints why this is not asked for.
pub fn tell_refusal<R: Host>(rt: R, why: TerminalWhy) -> Result<(), ServeFault>
    ensures { IfErr result (λ fault. fault ≡ Output) }
{
    printed(println!(rt; "refused {why}"))
}

/// What could not be printed is a fault.
fn printed(told: io::Result<()>) -> Result<(), ServeFault>
    ensures told { IsOk result ↔ IsOk told }
    ensures refused { IfErr result (λ fault. fault ≡ Output) }
{
    match told {
        Ok(()) => Ok(()),
        Err(_) => Err(ServeFault::Output),
    }
}

/// The outcome of the last event, as the terminal prints it.
pub fn last_told(letters: &[Letter<PartyOutcome>]) -> Told
    ensures { result ≡ last_told letters.now }
{
    match letters.last() {
        Some(letter) => told_of(&letter.outcome),
        None => Told::Nothing,
    }
}

fn told_of(outcome: &PartyOutcome) -> Told
    ensures { result ≡ told_of outcome.now }
{
    match outcome {
        PartyOutcome::OfNode(Ok(_)) => Told::Done,
        PartyOutcome::OfNode(Err(fault)) => Told::Refused(*fault),
        PartyOutcome::OfClient(Err(_)) => Told::Misplaced,
        _ => Told::Nothing,
    }
}
