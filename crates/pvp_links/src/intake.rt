//! What came over a stream and is not taken yet.
ghost use Rattle.std.specs.Prelude.{◌≡◌, length};

use crate::arrival::Piece;
use crate::fault::LinkFault;
use crate::hello::{HELLO_BYTES, NONCE_AT, caller_at, hello_at};
use crate::link::Link;
use crate::piece::piece_at;
use pvp_wire::drop_front;
use std::alloc::{AllocError, Global};
use std::marker::Model;

/// What came over a stream and is not taken yet.
#[derive(Drop)]
pub struct Intake {
    /// What came, from some byte on.
    held: Vec<u8>,
    /// How many bytes of it are taken.
    used: usize,
}

impl Model for Intake {
    ghost use Rattle.std.specs.Prelude.{ℕ, List, ◌≤◌, drop, length};

    ghost Value = { List ℕ };

    ghost view = { λ a. drop a.used a.held.items };

    ghost invariant = { λ a. a.used ≤ length a.held.items };
}

impl Intake {
    ghost use Rattle.std.specs.Prelude.{[], ◌++◌, ◌+◌, ◌≤◌, drop, IfOk, IfSome, OnOk, OnErr};
    ghost use Rattle.pvp_links.specs.Sealing.{hello_length};
    ghost use Rattle.pvp_links.specs.Fronts.{caller_at, nonce_at};
    ghost use Rattle.pvp_links.specs.Intakes.{TakesHello, TakesNext};

    /// An intake of a stream of which nothing came. It takes no memory.
    pub fn new(alloc: Global) -> Self
        ensures { result ≡ [] }
    {
        Intake {
            held: Vec::new(alloc),
            used: 0,
        }
    }

    /// How many bytes came and are not taken yet.
    pub fn bytes_left(&self) -> usize
        ensures { result ≡ length self.now }
    {
        self.held.len() - self.used
    }

    /// Takes a piece of the stream. `Err` where memory is refused, and then nothing has changed. What is taken already is
    /// let go once it is the larger part: so no more bytes are ever moved than were taken.
    pub fn push(&mut self, bytes: &[u8]) -> Result<(), AllocError>
        ensures taken { OnOk result (self.new ≡ self.old ++ bytes.now) }
        ensures refused { OnErr result (self.new ≡ self.old) }
    {
        if self.used > self.held.len() / 2 {
            drop_front(&mut self.held, self.used);
            self.used = 0;
        }
        self.held.extend_from_slice(bytes)
    }

    /// Who speaks, by the hello at the front, before a tag is looked at. `None` where more bytes are wanted. `Err` where the
    /// first text is no hello, or one of another bank. It takes nothing.
    pub fn caller(&self, bank: &[u8; 32]) -> Result<Option<u16>, LinkFault>
        ensures exact { result ≡ caller_at bank.now self.now }
        ensures within { IfOk result (λ caller. IfSome caller (λ _.
            4 + hello_length ≤ length self.now)) }
    {
        caller_at(&self.held[self.used..], bank)
    }

    /// What the caller drew for this stream, where its hello stands at the front. It takes nothing.
    pub fn nonce(&self) -> [u8; 16]
        requires { 4 + hello_length ≤ length self.now }
        ensures { result ≡ nonce_at self.now }
    {
        let mut nonce = [0; 16];
        let bytes = &self.held[self.used..];
        nonce.copy_from_slice(&bytes[NONCE_AT..HELLO_BYTES]);
        nonce
    }

    /// Takes a hello without a tag off the front.
    pub fn take_call(&mut self)
        requires { 4 + hello_length ≤ length self.old }
        ensures { self.new ≡ drop (4 + hello_length) self.old }
    {
        self.used += HELLO_BYTES;
    }

    /// Takes the hello of this link's peer off the front, with its tag: false where more bytes are wanted. After `Err`
    /// nothing has changed.
    pub fn take_hello(&mut self, link: &Link) -> Result<bool, LinkFault>
        ensures { TakesHello link.now self.old result self.new }
    {
        let taken = hello_at(&self.held[self.used..], link)?;
        if taken {
            self.used += HELLO_BYTES + link.tag_size();
        }
        Ok(taken)
    }

    /// Takes the next ping or frame, with its tag. `None` where more bytes are wanted. After `Err` nothing has changed.
    pub fn next(&mut self, alloc: Global, link: &Link) -> Result<Option<Piece>, LinkFault>
        ensures { TakesNext link.now self.old result self.new }
    {
        let Some((piece, size)) = piece_at(alloc, &self.held[self.used..], link)? else {
            return Ok(None);
        };
        self.used += size;
        Ok(Some(piece))
    }
}
