//! Files that are read by name.

ghost use Rattle.std.specs.Prelude.{◌≡◌, ◌≢◌, ◌<◌, ◌-◌, ◌^◌, IfOk, IfErr, IfSome};
ghost use Rattle.pvp_command.specs.Files.{file_fault_of, unread_of};
ghost use Rattle.pvp_command.specs.Request.{TellsFile};

use crate::fault::Fault;
use std::alloc::Global;
use std::io::{self, ErrorKind, Read};
use std::{fmt, fs};

/// Why a file was not read.
#[derive(Clone, Copy, Debug, PartialEq, Eq)]
pub enum FileFault {
    /// It could not be read, and why.
    Unread(Unread),
    /// Memory was refused.
    NoMemory,
}

impl FileFault {
    /// What it is that a file was not read with an error of this kind.
    pub fn of(kind: ErrorKind) -> Self
        ensures { result ≡ file_fault_of kind }
    {
        match kind {
            ErrorKind::OutOfMemory => FileFault::NoMemory,
            _ => FileFault::Unread(Unread::of(kind)),
        }
    }
}

/// Why a file could not be read.
#[derive(Clone, Copy, Debug, PartialEq, Eq)]
pub enum Unread {
    /// No file has this name.
    Missing,
    /// The system does not allow it.
    Forbidden,
    /// A folder has this name.
    Folder,
    /// What should be a folder in its path is none.
    NoFolder,
    /// No file can have this name.
    Name,
    /// It is larger than `MOST_BYTES`, or has no end.
    Size,
    /// The system gives another reason.
    Other,
}

impl Unread {
    /// What an error of this kind says of a file.
    fn of(kind: ErrorKind) -> Self
        ensures { result ≡ unread_of kind }
    {
        match kind {
            ErrorKind::NotFound => Unread::Missing,
            ErrorKind::PermissionDenied => Unread::Forbidden,
            ErrorKind::IsADirectory => Unread::Folder,
            ErrorKind::NotADirectory => Unread::NoFolder,
            ErrorKind::InvalidFilename | ErrorKind::InvalidInput => Unread::Name,
            _ => Unread::Other,
        }
    }
}

/// Prints the reason in words.
impl fmt::Display for Unread {
    ghost use Rattle.std.specs.Prelude.{Some};
    ghost use Rattle.pvp_command.specs.Files.{unread_text};

    ghost output = { λ why. Some (unread_text why) };

    fn fmt<W: fmt::Write>(&self, f: &mut fmt::Formatter<W>) -> fmt::Result {
        f.write_str(match self {
            Unread::Missing => "there is no such file",
            Unread::Forbidden => "the system does not allow to read it",
            Unread::Folder => "it is a folder",
            Unread::NoFolder => "a part of its path is no folder",
            Unread::Name => "no file can have this name",
            Unread::Size => "it is larger than 64 MiB, or has no end",
            Unread::Other => "the system could not read it",
        })
    }
}

/// Which file of a command it is.
#[derive(Clone, Copy, Debug, PartialEq, Eq)]
pub enum Source {
    Setup,
    Script,
    /// The journal at this place of those that are named, counted from 1.
    Journal(usize),
    /// The secret of a bank, from which its keys are made.
    Secret,
}

/// The most bytes that a file may have, but for a journal, which is read whatever its size.
pub const MOST_BYTES: u64 = 1 << 26;

/// Files that are read by name.
pub trait Files {
    ghost use Rattle.std.specs.Prelude.{Option, List, ℕ};
    ghost use Rattle.pvp_command.specs.declared.files.FileFault.{FileFault};

    /// The bytes of the file of a name, where they are known.
    ghost known: { Self → List ℕ → Option (List ℕ) };

    /// Holds of a name and of why its file may not be read.
    ghost fails: { Self → List ℕ → FileFault → Type 0 };

    /// All bytes of the file that a command reads as this.
    fn read(&self, alloc: Global, source: Source, name: &str) -> Result<Vec<u8>, FileFault>
        ensures ok { IfSome (known self.now name.now)
            (λ bytes. IfOk result (λ found. found.items ≡ bytes)) }
        ensures err { IfErr result (fails self.now name.now) };
}

/// The files of the machine, of whose bytes no contract knows.
#[derive(Drop)]
pub struct Disk<'a, R: std::rt::Files + AllocGlobal> {
    pub rt: &'a R,
}

impl<R: std::rt::Files + AllocGlobal> Files for Disk<'_, R> {
    ghost use Rattle.std.specs.Prelude.{None};

    ghost known = { λ _ _. None };

    ghost fails = { λ _ _ _. Unit {0} };

    fn read(&self, alloc: Global, source: Source, name: &str) -> Result<Vec<u8>, FileFault> {
        let most = match source {
            Source::Journal(_) => u64::MAX - 1,
            _ => MOST_BYTES,
        };
        let bytes = read_front(self.rt, alloc, name, most).map_err(|it| FileFault::of(it.kind()))?;
        if bytes.len() as u64 > most {
            return Err(FileFault::Unread(Unread::Size));
        }
        Ok(bytes)
    }
}

/// The bytes of a file; of one that is too large one more than it may have, so that no memory is asked for without end.
fn read_front<R: std::rt::Files>(
    rt: &R,
    alloc: Global,
    name: &str,
    most: u64,
) -> io::Result<Vec<u8>>
    requires { most < 2 ^ 64 - 1 }
{
    let mut bytes = Vec::new(alloc);
    fs::open(rt, name)?.take(most + 1).read_to_end(&mut bytes)?;
    Ok(bytes)
}

/// The bytes of a file of a command.
pub(crate) fn read_source<F: Files>(
    alloc: Global,
    files: &F,
    source: Source,
    name: &str,
) -> Result<Vec<u8>, Fault>
    ensures ok { IfSome (F.known files.now name.now)
        (λ bytes. IfOk result (λ found. found.items ≡ bytes)) }
    ensures err { IfErr result (TellsFile source (F.fails files.now name.now)) }
{
    match files.read(alloc, source, name) {
        Ok(bytes) => Ok(bytes),
        Err(fault) => Err(Fault::of_file(source, fault)),
    }
}
