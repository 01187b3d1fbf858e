//! Standard output, whose reader may leave before the end.
ghost use Rattle.std.specs.Prelude.{◌≡◌, false, OnOk, IfErr};
ghost use Rattle.std.specs.Io.{WritesAtMost};
ghost use Rattle.std.specs.IoError.{error_kind};
ghost use Rattle.std.specs.Io.KnownBytes.{WriteAppends};
ghost use Rattle.pvp_command.specs.Files.{is_gone};

use std::io::{self, ErrorKind, Write};

/// Who reads an output.
pub trait Audience {
    /// Whether it has left: nobody reads any more.
    fn has_left(&self) -> bool;
}

/// An output, and whether its reader is gone, as that of a pipe which is closed.
#[derive(Drop)]
pub struct Piped<O> {
    out: O,
    is_left: bool,
}

impl<O: Write> Piped<O> {
    /// The output as it is, whose reader is there.
    pub fn new(out: O) -> Self
        ensures out { result.out ≡ out }
        ensures there { result.is_left ≡ false }
    {
        Piped {
            out,
            is_left: false,
        }
    }
}

impl<O> Audience for Piped<O> {
    fn has_left(&self) -> bool
        ensures { result ≡ self.now.is_left }
    {
        self.is_left
    }
}

impl<O: Write> Write for Piped<O> {
    ghost contents = { λ piped. O.contents piped.out };

    fn write(&mut self, buf: &[u8]) -> io::Result<usize>
        ensures bound { WritesAtMost result buf.now }
        ensures bytes { WriteAppends (O.contents self.old.out)
            (O.contents self.new.out) result buf.now }
        ensures gone { IfErr result (λ failed. self.new.is_left ≡ is_gone (error_kind failed)) }
        ensures there { OnOk result (self.new.is_left ≡ self.old.is_left) }
    {
        match self.out.write(buf) {
            Ok(written) => Ok(written),
            Err(failed) => {
                self.is_left = matches!(failed.kind(), ErrorKind::BrokenPipe);
                Err(failed)
            }
        }
    }

    fn flush(&mut self) -> io::Result<()> {
        self.out.flush()
    }
}
