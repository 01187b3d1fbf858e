//! Where the journals of a bank are put when a run has ended: a file for each actor.
ghost use Rattle.std.specs.Prelude.{◌≡◌, ◌∷◌, [], OnOk, IfOk, IfErr, map, string_bytes};
ghost use Rattle.std.specs.List.{Any};
ghost use Rattle.std.specs.Result.{result_err};
ghost use Rattle.std.specs.IoError.{error_kind};
ghost use Rattle.pvp_journal.specs.Fits.{IsHead};
ghost use Rattle.pvp_journal.specs.declared.head.Version.TheVariants.{Two};
ghost use Rattle.pvp_audit.specs.Shelves.{Gets, PutFails, file_of, file_name, shelf_told};

use pvp_journal::{Head, ShelfFault, Version, WriteFault, write_journal};
use pvp_parties::Party;
use pvp_rooms::Closed;
use pvp_trace::names::push_actor;
use pvp_types::Setup;
use std::alloc::{AllocError, Global};
use std::fs::{self, OpenOptions};
use std::io::{self, ErrorKind, Write};
use std::os::unix::fs::OpenOptionsExt;
use std::rt::Files;
use vr_types::Boot;

/// Why the journals of a bank were not put away.
#[derive(Clone, Copy, Debug, PartialEq, Eq)]
pub enum PutFault {
    /// V6 to V8: one of them could not be put there.
    Shelf(ShelfFault),
    /// M8: an event has no text.
    Unfit,
    NoMemory,
}

impl From<ShelfFault> for PutFault {
    ghost use Rattle.std.specs.Prelude.{◌≡◌};
    ghost use Rattle.pvp_audit.specs.declared.shelf.PutFault.TheVariants.{Shelf};

    ghost from_gives = { λ fault told. told ≡ Shelf fault };

    fn from(fault: ShelfFault) -> PutFault {
        PutFault::Shelf(fault)
    }
}

impl From<WriteFault> for PutFault {
    ghost use Rattle.std.specs.Prelude.{◌≡◌};
    ghost use Rattle.pvp_audit.specs.Shelves.{put_told};

    ghost from_gives = { λ fault told. told ≡ put_told fault };

    fn from(fault: WriteFault) -> PutFault {
        match fault {
            WriteFault::Unfit => PutFault::Unfit,
            WriteFault::NoMemory => PutFault::NoMemory,
        }
    }
}

impl From<AllocError> for PutFault {
    ghost use Rattle.std.specs.Prelude.{◌≡◌};
    ghost use Rattle.pvp_audit.specs.declared.shelf.PutFault.TheVariants.{NoMemory};

    ghost from_gives = { λ _ told. told ≡ NoMemory };

    fn from(_refused: AllocError) -> PutFault {
        PutFault::NoMemory
    }
}

/// A place for files, by names that may have folders in them.
pub trait Shelf {
    ghost use Rattle.std.specs.Prelude.{Option, List};
    ghost use Rattle.pvp_audit.specs.Shelves.{File};
    ghost use Rattle.pvp_journal.specs.declared.fault.ShelfFault.{ShelfFault};

    /// The files that were put there, in order, where they are known.
    ghost files: { Self → Option (List File) };

    /// The fault that the last call answered, where it did.
    ghost said: { Self → Option ShelfFault };

    /// Makes a folder, where there is none. One that has something in it is refused.
    fn open(&mut self, folder: &str) -> Result<(), ShelfFault>
        ensures same { files self.new ≡ files self.old }
        ensures said { said self.new ≡ result_err result };

    /// Puts a new file of these bytes there. After an `Err` a front of it may stand there.
    fn put(&mut self, name: &str, bytes: &[u8]) -> Result<(), ShelfFault>
        ensures put { OnOk result (Gets (record { name = name.now; bytes = bytes.now } ∷ [])
            (files self.old) (files self.new)) }
        ensures said { said self.new ≡ result_err result };
}

/// The files of the machine, of which no contract knows, and what its last call answered.
#[derive(Drop)]
pub struct DiskShelf<R> {
    rt: R,
    said: Option<ShelfFault>,
}

impl<R> DiskShelf<R> {
    /// The files of this machine.
    pub fn new(rt: R) -> Self
        ensures { result.rt ≡ rt }
    {
        DiskShelf { rt, said: None }
    }
}

/// Why a call of the machine failed.
fn fault_of(fault: io::Error) -> ShelfFault
    ensures { result ≡ shelf_told (error_kind fault) }
{
    match fault.kind() {
        ErrorKind::StorageFull => ShelfFault::Full,
        ErrorKind::AlreadyExists => ShelfFault::Present,
        _ => ShelfFault::Failed,
    }
}

/// What a file's owner may do with it, and nobody else: a journal has the whole business of an
/// actor, and keys speak for it.
const OWNERS: u32 = 0o600;

/// Writes a file that is not there yet.
fn write_new<R: Files>(rt: &R, name: &str, bytes: &[u8]) -> io::Result<()> {
    let mut file = OpenOptions::new()
        .write(true)
        .create_new(true)
        .mode(OWNERS)
        .open(rt, name)?;
    file.write_all(bytes)
}

/// Makes a folder, where there is none, and answers whether it has something in it.
fn has_files<R: Files + Alloc + Clone + Drop>(rt: &R, folder: &str) -> io::Result<bool> {
    fs::create_dir_all(rt, folder)?;
    Ok(fs::read_dir(rt, folder)?.next().is_some())
}

impl<R: Files + Alloc + Clone + Drop> Shelf for DiskShelf<R> {
    ghost use Rattle.std.specs.Prelude.{None};

    ghost files = { λ _. None };

    ghost said = { λ a. a.said };

    fn open(&mut self, folder: &str) -> Result<(), ShelfFault> {
        let answer = match has_files(&self.rt, folder) {
            Ok(false) => Ok(()),
            Ok(true) => Err(ShelfFault::Present),
            Err(fault) => Err(fault_of(fault)),
        };
        self.said = answer.err();
        answer
    }

    fn put(&mut self, name: &str, bytes: &[u8]) -> Result<(), ShelfFault> {
        let answer = match write_new(&self.rt, name, bytes) {
            Ok(()) => Ok(()),
            Err(fault) => Err(fault_of(fault)),
        };
        self.said = answer.err();
        answer
    }
}

/// Puts the journals of these actors of a bank into a folder that was opened, each in a file of the
/// actor's name and `.journal`: their heads with this id of the bank, and all that they took. The
/// first fault ends it: V6 to V8 as the shelf has just reported it, M8 where an event that one of
/// them took cannot be encoded.
pub fn put_journals<S: Shelf>(
    alloc: Global,
    shelf: &mut S,
    folder: &str,
    setup: &Setup,
    bank: [u8; 32],
    closed: &[Closed<Party>],
) -> Result<(), PutFault>
    ensures ok { OnOk result (Gets (map (file_of folder.now setup.now bank) closed.now)
        (S.files shelf.old) (S.files shelf.new)) }
    ensures err { IfErr result (λ fault.
        Any (λ left. PutFails (S.said shelf.new) left fault) closed.now) }
{
    for left in closed {
        put_journal(alloc, shelf, folder, setup, bank, left)?;
    }
    Ok(())
}

/// Puts the journal of one of them there.
fn put_journal<S: Shelf>(
    alloc: Global,
    shelf: &mut S,
    folder: &str,
    setup: &Setup,
    bank: [u8; 32],
    left: &Closed<Party>,
) -> Result<(), PutFault>
    ensures ok { OnOk result (Gets (file_of folder.now setup.now bank left.now ∷ [])
        (S.files shelf.old) (S.files shelf.new)) }
    ensures err { IfErr result (PutFails (S.said shelf.new) left.now) }
{
    let head = head_of(left.number, left.opening, bank);
    let mut bytes = Vec::new(alloc);
    write_journal(alloc, &head, left.history.as_slice(), &mut bytes)?;
    let name = file_name(alloc, folder, setup, left.number)?;
    shelf.put(name.as_str(), bytes.as_slice())?;
    Ok(())
}

/// The head of an actor's journal.
fn head_of(actor: u16, opening: Option<Boot>, bank: [u8; 32]) -> Head
    ensures is { result
        ≡ record { version = Two; actor = actor; opening = opening; bank = bank } }
    ensures head { IsHead result }
{
    Head {
        version: Version::Two,
        actor,
        opening,
        bank,
    }
}

/// The name of an actor's journal in a folder.
fn file_name(alloc: Global, folder: &str, setup: &Setup, actor: u16) -> Result<String, AllocError>
    ensures { IfOk result (λ name. string_bytes name ≡ file_name folder.now setup.now actor) }
{
    let mut name = String::from_str(alloc, folder)?;
    name.push_str("/")?;
    push_actor(&mut name, setup, actor)?;
    name.push_str(".journal")?;
    Ok(name)
}
