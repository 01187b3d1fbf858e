//! The mark of a folder: whether its actor was begun, and how far the journal there can be trusted.
ghost use Rattle.std.specs.Prelude.{◌≡◌, ◌≢◌, ◌↔◌, IfOk, IfSome, IfNone, IsTrue};
ghost use Rattle.pvp_places.specs.Mark.{IsWhole, Said, mark_text, said_by};

use std::alloc::{AllocError, Global};

/// What a folder's mark says: that its actor is being begun, or how far a journal can be trusted that was written since.
#[derive(Clone, Copy, Debug, PartialEq, Eq)]
pub enum Mark<'a> {
    /// The actor is being begun: not all of its folder stands yet, and nothing of it was sent.
    Begun,
    /// All of it was synced before anything that depends on it left the process.
    Synced,
    /// It was handed to the system to write, so it is whole until the machine reboots.
    Written(&'a [u8]),
}

impl Mark<'_> {
    /// Whether the journal is whole in this run of the machine, which has this name; nothing where it has none.
    pub fn is_whole_in(&self, run: &[u8]) -> bool
        ensures { IsTrue result ↔ IsWhole (said_by self.now) run.now }
    {
        match self {
            Mark::Begun => false,
            Mark::Synced => true,
            Mark::Written(other) => !run.is_empty() && *other == run,
        }
    }

    /// The text of the mark. `Err` where memory is refused.
    pub fn text(&self, alloc: Global) -> Result<Vec<u8>, AllocError>
        ensures { IfOk result (λ text. text.items ≡ mark_text (said_by self.now)) }
    {
        let mut text = Vec::new(alloc);
        match self {
            Mark::Begun => text.extend_from_slice(b"begun\n")?,
            Mark::Synced => text.extend_from_slice(b"synced\n")?,
            Mark::Written(run) => {
                text.extend_from_slice(b"written ")?;
                text.extend_from_slice(run)?;
                text.extend_from_slice(b"\n")?;
            }
        }
        Ok(text)
    }
}

/// The mark that a text is; `None` where it is none.
pub fn read_mark(text: &[u8]) -> Option<Mark<'_>>
    ensures some { IfSome result (λ mark. mark_text (said_by mark) ≡ text.now) }
    ensures none { IfNone result ((said : Said) → mark_text said ≢ text.now) }
{
    if text == b"begun\n".as_slice() {
        return Some(Mark::Begun);
    }
    if text == b"synced\n".as_slice() {
        return Some(Mark::Synced);
    }
    let run = text.strip_prefix(b"written ".as_slice())?;
    Some(Mark::Written(run.strip_suffix(b"\n".as_slice())?))
}
