//! The worker that writes what one actor sends.
ghost use Rattle.std.specs.Prelude.{◌≡◌, [], true, OnOk};
ghost use Rattle.std.specs.Io.KnownBytes.{Appends};
ghost use Rattle.pvp_wire.specs.Spelling.{is_wireable, spelling};
ghost use Rattle.pvp_links.specs.Writing.{place_of, Writes, HasWritten};

use crate::frame::{Frame, Order};
use crate::writers::{Lane, Writers};
use crossbeam_channel::{Receiver, unbounded};
use pvp_wire::{Stamped, encode};
use std::alloc::{AllocError, Global};
use std::io::{self, Write};
use std::sync::Wait;
use std::sync::atomic::AtomicU64;

/// A stream to another actor.
#[derive(Drop)]
pub struct Outgoing<W> {
    /// The number of the actor that reads it.
    pub to: u16,
    pub stream: W,
}

/// Takes what one actor sends off its channel, and writes each to the stream of its receiver.
#[derive(Drop)]
pub struct Writer<W> {
    from: Receiver<Order>,
    streams: Vec<Outgoing<W>>,
    /// The bytes of the frame that goes out, so that it goes in one write.
    bytes: Vec<u8>,
}

impl Writers {
    /// No writers. It takes no memory.
    pub fn new(alloc: Global) -> Self {
        Writers {
            lanes: Vec::new(alloc),
            written: AtomicU64::new(0),
        }
    }

    /// The writer of an actor, over a stream to each actor to which it sends. `Err` where memory is refused.
    pub fn add<W: Write + Drop>(
        &mut self,
        alloc: Global,
        actor: u16,
        streams: Vec<Outgoing<W>>,
    ) -> Result<Writer<W>, AllocError> {
        let (to, from) = unbounded(alloc)?;
        self.lanes.push(Lane { actor, to })?;
        Ok(Writer {
            from,
            streams,
            bytes: Vec::new(alloc),
        })
    }
}

impl<W: Write + Drop> Writer<W> {
    /// Writes until it is stopped, and then closes its streams by dropping them.
    pub(crate) fn run<T: Wait>(&mut self, rt: &T, out: &Writers)
        ensures { self.new.streams.items ≡ [] }
    {
        self.write_on(rt, out);
        self.streams.clear();
    }

    /// Writes until it is stopped. A stream to which a write failed is closed at once, since it may
    /// have taken part of a frame; what is for it from then on is lost.
    fn write_on<T: Wait>(&mut self, rt: &T, out: &Writers)
        ensures { HasWritten (λ w. W.contents w) self.old.streams.items self.new.streams.items }
    {
        for _ in rt.forever() {
            match self.from.recv(rt) {
                Ok(Order::Send(frame)) => {
                    if self.write(&frame) {
                        out.count_written();
                    }
                }
                Ok(Order::Stop) | Err(_) => break,
            }
        }
    }

    /// Writes a frame to the stream of its receiver, and says whether it did so to its end. Where memory for its bytes is
    /// refused the stream is closed too.
    fn write(&mut self, frame: &Frame) -> bool
        ensures { Writes (λ w. W.contents w) frame.now.stamped self.old.streams.items
            self.new.streams.items result }
    {
        let stamped = frame.stamped_envelope();
        let Some(at) = place_of(self.streams.as_slice(), stamped.envelope.to) else {
            return false;
        };
        let stream = &mut self.streams[at].stream;
        if write_frame(stamped, &mut self.bytes, stream).is_err() {
            self.streams.swap_remove(at);
            return false;
        }
        true
    }
}

/// The place of the stream to an actor.
fn place_of<W>(streams: &[Outgoing<W>], to: u16) -> Option<usize>
    ensures { result ≡ place_of streams.now to }
{
    streams.iter().position(|out| out.to == to)
}

/// Writes a frame to a stream in one write. The bytes before do not matter, and stay as those of the frame.
fn write_frame<W: Write>(stamped: &Stamped, bytes: &mut Vec<u8>, stream: &mut W) -> io::Result<()>
    requires { is_wireable stamped.now ≡ true }
    ensures { OnOk result
        (Appends (W.contents stream.old) (W.contents stream.new) (spelling stamped.now)) }
{
    bytes.clear();
    encode(stamped, bytes)?;
    stream.write_all(bytes.as_slice())
}
