//! What holds of the streams of a writer and of the two ends of a link: functions that do nothing, whose contracts say it.
ghost use Rattle.std.specs.Prelude.{Contains, Err, List, None, Ok, Some, false, length, true, ℕ, ◌++◌, ◌+◌, ◌≡◌, ◌≢◌};
ghost use Rattle.pvp_wire.specs.declared.stamped.Stamped.{Stamped};
ghost use Rattle.pvp_links.specs.Writing.{AreWritten, HasOneEach, HasTakenAll};
ghost use Rattle.pvp_wire.specs.Fits.{IsBytes, IsSpelled};
ghost use Rattle.pvp_wire.specs.Spelling.{spelling};
ghost use Rattle.pvp_links.specs.declared.link.Link.{Link};
ghost use Rattle.pvp_links.specs.Sealing.{AreEnds, IsSized, hello_length, hello_text, ping_text, sealed_text, tag_size};
ghost use Rattle.pvp_links.specs.Fronts.{BeginsWith, IsFoundAt, IsHeard, Lives, Says, caller_at, front, hello_at, nonce_at};

use crate::fault::LinkFault;
use crate::writer::Outgoing;
use std::io::Write;

/// A stream that is still open after some frames has taken all of them that are for its receiver, whole and in order, and
/// nothing else, where at most one stream goes to each receiver.
pub fn frames_come_whole<W: Write>()
    ensures { (frames : List Stamped) (old new : List (Outgoing W)) (out : Outgoing W) →
        AreWritten (λ w. W.contents w) frames old new → HasOneEach old → Contains new out →
        HasTakenAll (λ w. W.contents w) frames old out }
{}

/// What is put at one end of a link is found at the other, whatever follows it: an envelope from the one to the other, a
/// ping, and the hello.
pub fn put_is_found()
    ensures frame { (near far : Link) (stamped : Stamped) (rest : List ℕ) → AreEnds near far →
        IsSpelled stamped → stamped.envelope.from ≡ near.me → stamped.envelope.to ≡ near.peer →
        IsFoundAt far near (spelling stamped) rest (Says stamped) }
    ensures ping { (near far : Link) (rest : List ℕ) → AreEnds near far →
        IsFoundAt far near ping_text rest Lives }
    ensures caller { (near far : Link) (nonce rest : List ℕ) → AreEnds near far → IsSized near →
        length nonce ≡ 16 →
        caller_at far.bank (sealed_text near (hello_text near.me near.bank nonce) ++ rest)
        ≡ Ok (Some near.me) }
    ensures hello { (near far : Link) (nonce rest : List ℕ) → AreEnds near far → IsSized near →
        length nonce ≡ 16 →
        hello_at far (sealed_text near (hello_text near.me near.bank nonce) ++ rest) ≡ Ok true }
{}

/// What is found was put so, to the byte, with its tag: an envelope of the link's peer to this end, a ping, and the hello
/// of the peer.
pub fn found_was_put()
    ensures frame { (link : Link) (bytes : List ℕ) (stamped : Stamped) (size : ℕ) → IsBytes bytes →
        front link bytes ≡ Ok (Some (Says stamped, size)) → IsHeard link stamped size bytes }
    ensures ping { (link : Link) (bytes : List ℕ) (size : ℕ) → IsBytes bytes →
        front link bytes ≡ Ok (Some (Lives, size)) → BeginsWith link ping_text size bytes }
    ensures hello { (link : Link) (bytes : List ℕ) → IsBytes bytes → hello_at link bytes ≡ Ok true →
        BeginsWith link (hello_text link.peer link.bank (nonce_at bytes))
        (4 + hello_length + tag_size link) bytes }
{}

/// More bytes change nothing of what stands at the front, once it is whole or wrong: so it does not matter how a stream
/// was cut.
pub fn lasts()
    ensures front { (link : Link) (bytes more : List ℕ) → front link bytes ≢ Ok None →
        front link (bytes ++ more) ≡ front link bytes }
    ensures caller { (bank bytes more : List ℕ) → caller_at bank bytes ≢ Ok None →
        caller_at bank (bytes ++ more) ≡ caller_at bank bytes }
    ensures hello { (link : Link) (bytes more : List ℕ) → hello_at link bytes ≢ Ok false →
        hello_at link (bytes ++ more) ≡ hello_at link bytes }
{}

/// Lack of memory is no fault of a stream: it is reported only where memory was refused for the
/// rows of a frame.
pub fn memory()
    ensures { (link : Link) (bytes : List ℕ) → front link bytes ≢ Err LinkFault.NoMemory }
{}
