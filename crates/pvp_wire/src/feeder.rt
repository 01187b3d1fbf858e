//! A reader for a stream of frames that comes in pieces.
ghost use Rattle.std.specs.Prelude.{◌≡◌, ◌≤◌, [], IfOk, OnErr, drop, length};
ghost use Rattle.pvp_wire.specs.Feeding.{Feeds, Splits, IsAt, Keeps, IsCutShort, empty};

use crate::fault::WireFault;
use crate::reading::decode;
use crate::stamped::Stamped;
use std::alloc::{AllocError, Global};
use std::marker::Model;

/// Takes a stream piece by piece, and answers its frames as they become complete. However the stream is cut, the
/// frames are the same.
#[derive(Drop)]
pub struct Feeder {
    alloc: Global,
    /// The bytes that came after the last complete frame.
    held: Vec<u8>,
    /// What is wrong with it, where nothing that follows can make it a frame.
    fault: Option<WireFault>,
}

impl Model for Feeder {
    ghost use Rattle.pvp_wire.specs.Feeding.{Fed, IsFed};

    ghost Value = { Fed };

    ghost view = { λ a. record { held = a.held.items; fault = a.fault } };

    ghost invariant = { λ a. IsFed (record { held = a.held.items; fault = a.fault }) };
}

impl Feeder {
    /// A feeder that has taken nothing. It takes no memory.
    #[tactic(auto, unfolding(crate::specs::Reading::frame_where))]
    pub fn new(alloc: Global) -> Self
        ensures { result ≡ empty }
    {
        Feeder {
            alloc,
            held: Vec::new(alloc),
            fault: None,
        }
    }

    /// How many bytes are held: those that came after the last complete frame. It takes no memory.
    pub fn held(&self) -> usize
        ensures { result ≡ length self.now.held }
    {
        self.held.len()
    }

    /// Takes the next piece of the stream, and answers the frames that are now complete, in order.
    ///
    /// If a fault follows good frames, the call answers these, and the next call the fault; without good frames the
    /// fault is returned at once. After F2 to F6 every call returns the same fault, and no piece is taken. F7 comes
    /// where memory for the piece, for its frames or for their rows was refused, and there is no fault from before, so
    /// never for an empty piece; then the feeder is unchanged, and the piece is not taken. F1 never comes: a frame
    /// that is not complete waits for more. What is held is neither moved nor read again until its frame is complete.
    pub fn feed(&mut self, piece: &[u8]) -> Result<Vec<Stamped>, WireFault>
        ensures { Feeds self.old piece.now result self.new }
    {
        if let Some(fault) = self.fault {
            return Err(fault);
        }
        let before = self.held.len();
        self.held.extend_from_slice(piece)?;
        let mut frames = Vec::new(self.alloc);
        match take_frames(self.alloc, self.held.as_slice(), &mut frames) {
            Err(refused) => {
                self.held.truncate(before);
                Err(refused.into())
            }
            Ok(front) => {
                drop_front(&mut self.held, front.used);
                self.fault = front.fault;
                match front.fault {
                    Some(fault) if frames.is_empty() => Err(fault),
                    _ => Ok(frames),
                }
            }
        }
    }
}

/// How many bytes the frames at the front of a stream take, and what is wrong behind them, where nothing that follows
/// can make it a frame.
#[derive(Clone, Copy)]
struct Front {
    used: usize,
    fault: Option<WireFault>,
}

/// Keeps all frames at the front of a stream. `Err` where memory is refused for the next frame, or for its rows.
fn take_frames(alloc: Global, bytes: &[u8], frames: &mut Vec<Stamped>) -> Result<Front, AllocError>
    requires { frames.old.items ≡ [] }
    ensures used { IfOk result (λ front. front.used ≤ length bytes.now) }
    ensures frames { IfOk result (λ front.
        Splits bytes.now frames.new.items (drop front.used bytes.now)) }
    ensures end { IfOk result (λ front. IsAt (drop front.used bytes.now) front.fault) }
    ensures refused { OnErr result (IsCutShort bytes.now frames.new) }
{
    let mut used = 0;
    loop {
        let fault = match keep_frame(alloc, &bytes[used..], frames) {
            Ok(size) => {
                used += size;
                continue;
            }
            Err(WireFault::NoMemory) => return Err(AllocError),
            Err(WireFault::Short) => None,
            Err(fault) => Some(fault),
        };
        return Ok(Front { used, fault });
    }
}

/// Keeps the frame at the front, and answers its size.
fn keep_frame(alloc: Global, bytes: &[u8], frames: &mut Vec<Stamped>) -> Result<usize, WireFault>
    ensures { Keeps frames.old bytes.now result frames.new }
{
    let (stamped, size) = decode(alloc, bytes)?;
    match frames.push(stamped) {
        Ok(()) => Ok(size),
        Err(_) => Err(WireFault::NoMemory),
    }
}

/// Drops `used` bytes from the front, and moves each of the others once. It takes no memory.
pub fn drop_front(held: &mut Vec<u8>, used: usize)
    requires { used ≤ length held.old.items }
    ensures { held.new.items ≡ drop used held.old.items }
{
    if used == 0 {
        return;
    }
    let rest = held.len() - used;
    held.copy_within(used.., 0);
    held.truncate(rest);
}
