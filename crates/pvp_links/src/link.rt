//! The two ends of a stream, and the tags of what goes over it.
ghost use Rattle.std.specs.Prelude.{◌≡◌, true};
ghost use Rattle.pvp_links.specs.Links.{talks};

use crate::may_send;
use crate::seal::head_of;
use pvp_tags::{TAG_BYTES, stream_key, tag_of};

/// One way of a stream in one life of its bank: its two ends, the key by which texts are tagged, where they are, and how many
/// texts went that way.
#[derive(Clone, Copy)]
pub struct Link {
    me: u16,
    peer: u16,
    bank: [u8; 32],
    key: Option<[u8; 32]>,
    /// How many texts went before the next one. So none is taken twice, or out of its order.
    count: u64,
    ghost may: { talks peer me ≡ true },
}

impl Link {
    ghost use Rattle.std.specs.Prelude.{◌≤◌, IfSome};
    ghost use Rattle.pvp_links.specs.Sealing.{IsOf, IsSized, IsTag, next, over, tag_size};

    /// A link over which nothing went yet. `None` where the peer may not send to this actor.
    pub fn new(me: u16, peer: u16, bank: [u8; 32], key: Option<[u8; 32]>) -> Option<Self>
        ensures made { IsOf me peer bank key result }
        ensures sized { IfSome result (λ link. IsSized link) }
    {
        if !may_send(peer, me) {
            return None;
        }
        Some(Link {
            me,
            peer,
            bank,
            key,
            count: 0,
        })
    }

    /// The number of the actor at this end.
    pub fn me(&self) -> u16
        ensures { result ≡ self.now.me }
    {
        self.me
    }

    /// The number of the actor at the other end.
    pub fn peer(&self) -> u16
        ensures { result ≡ self.now.peer }
    {
        self.peer
    }

    /// The bank's id.
    pub fn bank(&self) -> &[u8; 32]
        ensures { result.now ≡ self.now.bank }
    {
        &self.bank
    }

    /// A new stream between the same two, for which its opener and then the other end drew these bytes. Where they share a key
    /// the stream has one of its own.
    #[tactic(auto, unfolding(crate::specs::Sealing::key_over))]
    pub fn over(&self, drawn: &[u8; 32]) -> Self
        ensures { result ≡ over drawn.now self.now }
    {
        let mut link = *self;
        link.key = match &self.key {
            Some(key) => Some(stream_key(key, &self.bank, drawn)),
            None => None,
        };
        link.count = 0;
        link
    }

    /// A text went over it.
    pub fn advance(&mut self)
        ensures { self.new ≡ next self.old }
    {
        self.count = self.count.saturating_add(1);
    }

    /// How many bytes the tag of a text has.
    #[tactic(auto, unfolding(crate::specs::Sealing::size_under))]
    pub(crate) fn tag_size(&self) -> usize
        ensures exact { result ≡ tag_size self.now }
        ensures few { result ≤ 16 }
    {
        match self.key {
            Some(_) => TAG_BYTES,
            None => 0,
        }
    }

    /// The tag of the next text that one of the two ends sends, where they share a key.
    #[tactic(auto, unfolding(crate::specs::Sealing::tag_under, crate::specs::Sealing::size_under))]
    pub(crate) fn tag(&self, sender: u16, text: &[u8]) -> Option<[u8; TAG_BYTES]>
        ensures { IsTag sender self.now text.now result }
    {
        match &self.key {
            Some(key) => Some(tag_of(key, &head_of(sender, self.count), text)),
            None => None,
        }
    }
}
