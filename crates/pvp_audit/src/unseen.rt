//! Clients of whom there is no journal: they are taken to have asked for nothing.
ghost use Rattle.std.specs.Prelude.{◌≡◌, ◌++◌, ◌∷◌, [], if◌then◌else◌, not, IfOk, OnOk};
ghost use Rattle.pvp_types.specs.Setup.{IsValid};
ghost use Rattle.pvp_audit.specs.Gathered.{has_actor};
ghost use Rattle.pvp_audit.specs.Unseen.{HasBlanks, IsBlank, unseen_in};

use crate::gather::has_actor;
use pvp_journal::{Head, Journal, Left};
use pvp_types::Setup;
use std::alloc::{AllocError, Global};

/// The clients of a bank, in order from the operator on, of whom there is no journal. `Err` where memory is refused.
pub fn unseen_in(alloc: Global, setup: &Setup, journals: &[Journal]) -> Result<Vec<u16>, AllocError>
    requires { IsValid setup.now }
    ensures { IfOk result (λ unseen. unseen.items ≡ unseen_in setup.now journals.now) }
{
    let mut unseen = Vec::new(alloc);
    for client in 0..setup.member_count() + 1 {
        note_unseen(&mut unseen, journals, client)?;
    }
    Ok(unseen)
}

/// Notes a client of whom there is no journal.
fn note_unseen(unseen: &mut Vec<u16>, journals: &[Journal], client: u16) -> Result<(), AllocError>
    ensures { OnOk result (unseen.new.items ≡ (if not (has_actor journals.now client)
        then unseen.old.items ++ client ∷ [] else unseen.old.items)) }
{
    if !has_actor(journals, client) {
        unseen.push(client)?;
    }
    Ok(())
}

/// Journals, and behind them one without a record for each of these clients, of the first one's bank; where there is none
/// they stay none. `Err` where memory is refused.
pub fn with_blanks(
    alloc: Global,
    journals: Vec<Journal>,
    clients: &[u16],
) -> Result<Vec<Journal>, AllocError>
    ensures { IfOk result (λ all. HasBlanks journals.items clients.now all.items) }
{
    let mut journals = journals;
    let Some(first) = journals.first() else {
        return Ok(journals);
    };
    let head = first.head;
    for client in clients {
        journals.push(blank_of(alloc, head, *client))?;
    }
    Ok(journals)
}

/// A journal without a record, of this client, of the bank that has a journal of this head.
fn blank_of(alloc: Global, head: Head, client: u16) -> Journal
    ensures { IsBlank head client result }
{
    Journal {
        head: Head {
            actor: client,
            opening: None,
            ..head
        },
        history: Vec::new(alloc),
        left: Left::Nothing,
        sum: 0,
    }
}
