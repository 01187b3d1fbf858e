//! A link that is read to its end.
ghost use Rattle.std.specs.Prelude.{◌≡◌, [], ◌∷◌, List};
ghost use Rattle.pvp_rooms.specs.Gates.{Hears};
ghost use Rattle.pvp_links.specs.Fronts.{Said};
ghost use Rattle.pvp_links.specs.Hearing.{HasTaken, IsHeardOut, end_at, end_with};
ghost use Rattle.pvp_links.specs.Intakes.{said_by};

use crate::arrival::Piece;
use crate::fault::LinkFault;
use crate::intake::Intake;
use crate::link::Link;
use std::alloc::Global;
use std::io::Read;
use std::sync::Wait;

/// How many bytes are read at once.
const PIECE_BYTES: usize = 16_384;

/// Takes what comes over a link, to hand it on.
pub trait Hearer {
    /// Whether this may be all that was heard so far, in order.
    ghost got: { Self → List Said → Type 0 };

    /// Takes a piece. `false` where nothing more is wanted.
    fn hear<T: Wait>(&mut self, rt: &T, piece: Piece) -> bool
        ensures { Hears got self.old self.new (said_by piece ∷ []) };
}

/// Why a link is read no longer.
#[derive(Clone, Copy, Debug, PartialEq, Eq)]
pub enum LinkEnd {
    /// The stream ended behind a whole frame.
    End,
    /// The stream ended with so many bytes left over, and nothing wrong among them.
    Cut(usize),
    /// A read failed.
    Read,
    /// What came is none of this link's.
    Wrong(LinkFault),
    /// Memory was refused.
    NoMemory,
    /// Nothing more is wanted.
    Unwanted,
}

/// Reads a link to its end, and has each piece heard, in order: those that are held already, and those that the stream
/// brings. It ends where the stream ends, a read fails, what came is none of this link's, memory is refused, or nothing
/// more is wanted; and nothing behind that is heard.
pub fn hear_all<R: Read, H: Hearer, T: Wait>(
    rt: &T,
    alloc: Global,
    link: &Link,
    held: Intake,
    reader: &mut R,
    hearer: &mut H,
) -> LinkEnd
    ensures { IsHeardOut H.got link.now held (R.remaining reader.old) (R.remaining reader.new)
        hearer.old hearer.new result }
{
    let mut at = *link;
    let mut intake = held;
    let mut buffer = [0u8; PIECE_BYTES];
    for _ in rt.forever() {
        if let Some(end) = hear_whole(rt, alloc, &mut at, &mut intake, hearer) {
            return end;
        }
        let Ok(got) = reader.read(&mut buffer) else {
            return LinkEnd::Read;
        };
        if got == 0 {
            return end_with(&intake);
        }
        let Ok(()) = intake.push(&buffer[..got]) else {
            return LinkEnd::NoMemory;
        };
    }
    unreachable!()
}

/// How a stream ends that has ended, with what is left of it.
fn end_with(intake: &Intake) -> LinkEnd
    ensures { result ≡ end_with intake.now }
{
    match intake.bytes_left() {
        0 => LinkEnd::End,
        left => LinkEnd::Cut(left),
    }
}

/// Has all heard that is whole. Answers why the link is read no longer, where that is so.
fn hear_whole<H: Hearer, T: Wait>(
    rt: &T,
    alloc: Global,
    link: &mut Link,
    intake: &mut Intake,
    hearer: &mut H,
) -> Option<LinkEnd>
    ensures { HasTaken H.got link.old link.new intake.old intake.new hearer.old hearer.new
        result }
{
    for _ in rt.forever() {
        let piece = match intake.next(alloc, link) {
            Err(fault) => return Some(end_at(fault)),
            Ok(None) => return None,
            Ok(Some(piece)) => piece,
        };
        link.advance();
        if !hearer.hear(rt, piece) {
            return Some(LinkEnd::Unwanted);
        }
    }
    unreachable!()
}

/// Why a link is read no longer at a fault.
fn end_at(fault: LinkFault) -> LinkEnd
    ensures { result ≡ end_at fault }
{
    match fault {
        LinkFault::NoMemory => LinkEnd::NoMemory,
        fault => LinkEnd::Wrong(fault),
    }
}
