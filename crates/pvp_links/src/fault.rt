//! Why a stream is no longer read.

use pvp_wire::WireFault;
use std::fmt;

/// Why a stream is read no longer.
#[derive(Clone, Copy, Debug, PartialEq, Eq)]
pub enum LinkFault {
    /// The first frame is no hello, or one of another actor or of another bank.
    Hello,
    /// Who opened the stream may not send to the one who took it: there is no link of the two.
    Stranger,
    /// No frame has this length: it is not 0, and not 18 to 4,194,304.
    Length,
    /// The tag is another.
    Tag,
    /// The frame says nothing, for this reason.
    Wire(WireFault),
    /// It is from another than the stream's.
    Sender,
    /// It is to another actor.
    Receiver,
    /// Memory was refused.
    NoMemory,
}

/// Writes a word, and of a frame that says nothing its code, `F2` to `F6`.
impl fmt::Display for LinkFault {
    ghost use Rattle.std.specs.Prelude.{Some};
    ghost use Rattle.pvp_links.specs.Words.{fault_word};

    ghost output = { λ fault. Some (fault_word fault) };

    fn fmt<W: fmt::Write>(&self, f: &mut fmt::Formatter<W>) -> fmt::Result {
        match self {
            LinkFault::Hello => f.write_str("no hello"),
            LinkFault::Stranger => f.write_str("a stranger"),
            LinkFault::Length => f.write_str("no length"),
            LinkFault::Tag => f.write_str("another tag"),
            LinkFault::Wire(fault) => write!(f, "{fault}"),
            LinkFault::Sender => f.write_str("another sender"),
            LinkFault::Receiver => f.write_str("another receiver"),
            LinkFault::NoMemory => f.write_str("no memory"),
        }
    }
}
