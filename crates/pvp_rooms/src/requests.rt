//! Copies of what a node or a client sends. Memory for them is made before the step, so that none is asked for after it.
ghost use Rattle.std.specs.Prelude.{◌≡◌, ◌+◌, ◌*◌, ◌≤◌, [], All, true, length, vec_capacity, IfOk, Ok, Err};
ghost use Rattle.vr_types.specs.Messages.{has_fixed_size};

use crate::message::Copies;
use pvp_book::Book;
use std::alloc::{AllocError, Global};
use vr_types::{Envelope, Sent, SentOf};

/// How an event came out at a node or a client: what it sent, or why it refused.
pub type Told<F> = Result<Sent<Book>, F>;

/// Room for two copies of what is sent.
#[derive(Drop)]
pub(crate) struct SentRoom {
    recorded: Vec<Envelope<Book>>,
    receipted: Vec<Envelope<Book>>,
}

impl SentRoom {
    ghost use Rattle.pvp_rooms.specs.Requests.{HasRoom};

    /// Room for an envelope to each of 2f+1 sites. `Err` where memory is refused.
    pub(crate) fn new(alloc: Global, f: u16) -> Result<Self, AllocError>
        ensures { IfOk result (HasRoom (2 * f + 1)) }
    {
        let most = 2 * usize::from(f) + 1;
        Ok(SentRoom {
            recorded: Vec::with_capacity(alloc, most)?,
            receipted: Vec::with_capacity(alloc, most)?,
        })
    }

    /// Three copies of what was sent, for answer, history and receipt. It takes no memory.
    pub(crate) fn copies<F>(self, alloc: Global, sent: Sent<Book>) -> Copies<Told<F>>
        requires room { HasRoom (length sent) self }
        requires fixed { All (λ envelope. has_fixed_size envelope.msg ≡ true) sent }
        ensures answered { result.answered ≡ Ok sent }
        ensures recorded { result.recorded ≡ Ok sent }
        ensures receipted { result.receipted ≡ Ok sent }
    {
        let recorded = copy_in_room(alloc, sent.as_slice(), self.recorded);
        let receipted = copy_in_room(alloc, sent.as_slice(), self.receipted);
        Copies {
            answered: Ok(sent),
            recorded: Ok(recorded),
            receipted: Ok(receipted),
        }
    }
}

/// A refusal, for answer, history and receipt.
pub(crate) fn refusal_copies<F: Copy>(fault: F) -> Copies<Told<F>>
    ensures answered { result.answered ≡ Err fault }
    ensures recorded { result.recorded ≡ Err fault }
    ensures receipted { result.receipted ≡ Err fault }
{
    Copies {
        answered: Err(fault),
        recorded: Err(fault),
        receipted: Err(fault),
    }
}

/// A copy of the envelopes, in room for them.
fn copy_in_room(alloc: Global, sent: &[Envelope<Book>], room: Vec<Envelope<Book>>) -> Sent<Book>
    requires empty { room.items ≡ [] }
    requires room { length sent.now ≤ vec_capacity room }
    requires fixed { All (λ envelope. has_fixed_size envelope.msg ≡ true) sent.now }
    ensures { result ≡ sent.now }
{
    let mut copies = room;
    for envelope in sent {
        let Ok(copy) = envelope.copy(alloc) else {
            unreachable!()
        };
        copies.push_reserved(copy);
    }
    SentOf::new(copies)
}
