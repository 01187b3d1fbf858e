//! The folder of an actor: who serves it, what is in it, and how far that can be trusted.
ghost use Rattle.std.specs.Prelude.{◌≡◌, ◌++◌, IfOk, IfErr, codes, string_bytes};
ghost use Rattle.pvp_places.specs.declared.serving.ServeFault.TheVariants.{NoMemory};
ghost use Rattle.pvp_serve.specs.Opening.{marked_by, may_begin, may_serve};

use crate::host::Host;
use pvp_places::{FolderWhy, Mark, Paper, ServeFault, read_mark};
use std::alloc::Global;
use std::fs::{self, File, OpenOptions};
use std::io::{self, ErrorKind, Read, Write};
use std::os::unix::fs::OpenOptionsExt;
use std::thread;
use std::time::Duration;

/// How often a lock is tried, and how long after one another: a process that was killed may still hold it for a moment.
const LOCK_TRIES: u32 = 40;

const LOCK_PAUSE: u64 = 50;

/// What a file's owner may do with it, and nobody else.
const OWNERS: u32 = 0o600;

/// The file in which Linux names the run of a machine since it was started.
const RUN_FILE: &str = "/proc/sys/kernel/random/boot_id";

/// What a failed call on the folder means.
fn io_fault(failed: io::Error) -> ServeFault {
    match failed.kind() {
        ErrorKind::OutOfMemory => ServeFault::NoMemory,
        _ => ServeFault::Folder(FolderWhy::Failed),
    }
}

/// The name of a file in a folder.
pub fn name_in(alloc: Global, folder: &str, name: &str) -> Result<String, ServeFault>
    ensures whole { IfOk result (λ whole.
        string_bytes whole ≡ folder.now ++ codes "/" ++ name.now) }
    ensures refused { IfErr result (λ fault. fault ≡ NoMemory) }
{
    match format!(in alloc; "{folder}/{name}") {
        Ok(whole) => Ok(whole),
        Err(_) => Err(ServeFault::NoMemory),
    }
}

/// Makes the folder where it is not there.
pub fn make_folder<R: Host>(rt: R, folder: &str) -> Result<(), ServeFault> {
    match fs::create_dir_all(&rt, folder) {
        Ok(()) => Ok(()),
        Err(failed) => Err(io_fault(failed)),
    }
}

/// Takes the folder for this process alone, for as long as the file that is answered is open. `Err` with X8 where there is no
/// such folder.
pub fn take_folder<R: Host>(rt: R, folder: &str) -> Result<File, ServeFault> {
    let name = name_in(rt.alloc(), folder, "lock")?;
    let file = match OpenOptions::new()
        .write(true)
        .create(true)
        .open(&rt, name.as_str())
    {
        Ok(file) => file,
        Err(failed) if failed.kind() == ErrorKind::NotFound => {
            return Err(ServeFault::Folder(FolderWhy::Unbegun));
        }
        Err(failed) => return Err(io_fault(failed)),
    };
    for _ in 0..LOCK_TRIES {
        if file.try_lock().is_ok() {
            return Ok(file);
        }
        thread::sleep(&rt, Duration::from_millis(LOCK_PAUSE));
    }
    Err(ServeFault::Folder(FolderWhy::Locked))
}

/// The bytes of a file; `None` where there is none of this name.
fn bytes_of<R: Host>(rt: R, name: &str) -> io::Result<Option<Vec<u8>>> {
    let mut file = match fs::open(&rt, name) {
        Ok(file) => file,
        Err(failed) if failed.kind() == ErrorKind::NotFound => return Ok(None),
        Err(failed) => return Err(failed),
    };
    let mut bytes = Vec::new(rt.alloc());
    file.read_to_end(&mut bytes)?;
    Ok(Some(bytes))
}

/// The bytes of a file of the folder; `None` where there is none of this name.
pub fn read_in<R: Host>(rt: R, folder: &str, name: &str) -> Result<Option<Vec<u8>>, ServeFault> {
    let name = name_in(rt.alloc(), folder, name)?;
    match bytes_of(rt, name.as_str()) {
        Ok(found) => Ok(found),
        Err(failed) => Err(io_fault(failed)),
    }
}

/// The bytes of a file that has to be there.
pub fn read_paper<R: Host>(rt: R, paper: Paper, name: &str) -> Result<Vec<u8>, ServeFault> {
    match bytes_of(rt, name) {
        Ok(Some(bytes)) => Ok(bytes),
        Err(failed) if failed.kind() == ErrorKind::OutOfMemory => Err(ServeFault::NoMemory),
        _ => Err(ServeFault::File(paper)),
    }
}

/// Puts a file of these bytes there, in the place of what had its name: every crash leaves the old one or the new one.
pub fn put_in<R: Host>(rt: R, folder: &str, name: &str, bytes: &[u8]) -> Result<(), ServeFault> {
    let alloc = rt.alloc();
    let name = name_in(alloc, folder, name)?;
    let fresh = format!(in alloc; "{}.new", name.as_str())?;
    match replace(rt, folder, name.as_str(), fresh.as_str(), bytes) {
        Ok(()) => Ok(()),
        Err(failed) => Err(io_fault(failed)),
    }
}

fn replace<R: Host>(rt: R, folder: &str, name: &str, fresh: &str, bytes: &[u8]) -> io::Result<()> {
    let mut file = OpenOptions::new()
        .write(true)
        .create(true)
        .truncate(true)
        .mode(OWNERS)
        .open(&rt, fresh)?;
    file.write_all(bytes)?;
    file.sync_all()?;
    fs::rename(&rt, fresh, name)?;
    fs::open(&rt, folder)?.sync_all()
}

/// A file of the folder, open for appending, of which only so many bytes are kept.
pub fn open_journal<R: Host>(rt: R, folder: &str, kept: usize) -> Result<File, ServeFault> {
    let name = name_in(rt.alloc(), folder, "journal")?;
    match open_cut(rt, name.as_str(), kept as u64) {
        Ok(file) => Ok(file),
        Err(failed) => Err(io_fault(failed)),
    }
}

fn open_cut<R: Host>(rt: R, name: &str, kept: u64) -> io::Result<File> {
    let file = OpenOptions::new().append(true).open(&rt, name)?;
    if file.metadata()?.len() > kept {
        file.set_len(kept)?;
        file.sync_all()?;
    }
    Ok(file)
}

/// How the system names this run of the machine; nothing where it does not.
fn run_of_machine<R: Host>(rt: R) -> Vec<u8> {
    let mut run = match bytes_of(rt, RUN_FILE) {
        Ok(Some(run)) => run,
        _ => Vec::new(rt.alloc()),
    };
    if run.last() == Some(&b'\n') {
        let _end = run.pop();
    }
    run
}

/// Whether the journal of a folder is whole, by the mark that stands there.
pub fn is_whole<R: Host>(rt: R, folder: &str) -> Result<bool, ServeFault> {
    let Some(text) = read_in(rt, folder, "mark")? else {
        return Ok(false);
    };
    match read_mark(text.as_slice()) {
        Some(mark) => Ok(mark.is_whole_in(run_of_machine(rt).as_slice())),
        None => Ok(false),
    }
}

/// Marks a folder for what is written from now on.
pub fn mark_written<R: Host>(rt: R, folder: &str, syncs: bool) -> Result<(), ServeFault> {
    let run = run_of_machine(rt);
    if syncs {
        put_mark(rt, folder, Mark::Synced)
    } else {
        put_mark(rt, folder, Mark::Written(run.as_slice()))
    }
}

/// Puts a mark into a folder.
pub fn put_mark<R: Host>(rt: R, folder: &str, mark: Mark<'_>) -> Result<(), ServeFault> {
    let text = mark.text(rt.alloc())?;
    put_in(rt, folder, "mark", text.as_slice())
}

/// What the mark of a folder says of its actor.
#[derive(Clone, Copy, Debug)]
pub enum Marked {
    /// There is no mark.
    Never,
    /// The actor is being begun.
    Begun,
    /// It was begun, and may have been served.
    Served,
}

/// What the mark of a folder says of its actor.
pub fn mark_in<R: Host>(rt: R, folder: &str) -> Result<Marked, ServeFault> {
    match read_in(rt, folder, "mark")? {
        None => Ok(Marked::Never),
        Some(text) => Ok(marked_by(text.as_slice())),
    }
}

fn marked_by(text: &[u8]) -> Marked
    ensures { result ≡ marked_by text.now }
{
    if text == b"begun\n".as_slice() {
        Marked::Begun
    } else {
        Marked::Served
    }
}

/// Whether an actor may be begun in a folder of such a mark, where some of its files stand or none: nothing stands there, or
/// it was begun before and cut off.
pub fn may_begin(mark: Marked, has_files: bool) -> bool
    ensures { result ≡ may_begin mark has_files }
{
    match mark {
        Marked::Never => !has_files,
        Marked::Begun => true,
        Marked::Served => false,
    }
}

/// Whether an actor can be served from such a folder.
pub fn may_serve(mark: Marked, has_files: bool) -> bool
    ensures { result ≡ may_serve mark has_files }
{
    match mark {
        Marked::Begun => false,
        _ => has_files,
    }
}
