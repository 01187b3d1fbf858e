//! Times the feeder: how long a stream takes in pieces of several sizes, and one of twice as many frames; and the same of
//! one frame, and of one with twice as many rows. A feeder that moves all it holds at each piece shows in the last alone.
//! And how long the frame of a whole log takes to write and to read, beside a plain copy of its bytes.
//! With the word `log` it times a log: how long its rows take to push, and how long it takes to copy, whole and from its
//! second row on, and to change at its end.
//! With no words it does nothing.
#![tactic(auto)]

use pvp_types::Cmd;
use pvp_wire::{Feeder, Stamp, Stamped, decode, encode, wireable};
use std::alloc::{AllocError, Global};
use std::process::ExitCode;
use std::rt::Clock;
use std::time::Instant;
use std::{env, fmt, io};
use vr_types::{EnvelopeOf, MsgOf, RowOf, RowsOf, StartViewOf};

/// How many rows a frame of the stream has.
const ROWS: u16 = 1_000;

/// How many frames the shorter stream has.
const FRAMES: usize = 200;

/// How many rows the shorter of the great frames has.
const GREAT: u16 = 32_000;

/// How many rows a whole log has.
const LOG: u16 = 65_535;

/// How many rows the logs have that are copied and changed.
const LENGTHS: [u16; 3] = [64, 4_096, LOG];

/// How often each of them is.
const TIMES: u16 = 1_000;

/// How many bytes a piece has.
const PIECES: [usize; 3] = [1, 64, 65_536];

/// Why no time was measured.
#[derive(Clone, Copy, Debug, PartialEq, Eq)]
enum BenchFault {
    /// Memory was refused, the clock or the output failed.
    Refused,
    /// The stream was not read as it was written.
    Unread,
}

impl fmt::Display for BenchFault {
    fn fmt<W: fmt::Write>(&self, f: &mut fmt::Formatter<W>) -> fmt::Result {
        f.write_str(match self {
            BenchFault::Refused => "fault memory, clock or output",
            BenchFault::Unread => "fault stream",
        })
    }
}

impl From<AllocError> for BenchFault {
    fn from(_refused: AllocError) -> BenchFault {
        BenchFault::Refused
    }
}

impl From<io::Error> for BenchFault {
    fn from(_failed: io::Error) -> BenchFault {
        BenchFault::Refused
    }
}

/// A log with so many rows.
fn log(alloc: Global, count: u16) -> Result<RowsOf<Cmd>, AllocError> {
    let mut rows = RowsOf::new(alloc);
    for number in 0..count {
        if rows.len() < usize::from(count) {
            rows.push(RowOf {
                client: 1,
                number: u32::from(number),
                cmd: Cmd::PayOut { ccy: 1, amt: 200 },
            })?;
        }
    }
    Ok(rows)
}

/// What a site sends with a log of so many rows.
fn sent(alloc: Global, rows: u16) -> Result<Stamped, AllocError> {
    Ok(Stamped {
        stamp: Stamp {
            actor: 200,
            clock: 1,
            index: 0,
        },
        envelope: EnvelopeOf {
            from: 200,
            to: 201,
            msg: MsgOf::StartView(StartViewOf {
                view: 0,
                done: 0,
                rows: log(alloc, rows)?,
            }),
        },
    })
}

/// Its frame.
fn spelled(alloc: Global, stamped: &Stamped) -> Result<Vec<u8>, BenchFault> {
    if !wireable(stamped) {
        return Err(BenchFault::Unread);
    }
    let mut out = Vec::new(alloc);
    encode(stamped, &mut out)?;
    Ok(out)
}

/// A frame with a log of so many rows.
fn frame(alloc: Global, rows: u16) -> Result<Vec<u8>, BenchFault> {
    spelled(alloc, &sent(alloc, rows)?)
}

/// So many frames of so many rows, one after the other.
fn stream(alloc: Global, frames: usize, rows: u16) -> Result<Vec<u8>, BenchFault> {
    let one = frame(alloc, rows)?;
    let mut bytes = Vec::new(alloc);
    for _ in 0..frames {
        bytes.extend_from_slice(one.as_slice())?;
    }
    Ok(bytes)
}

/// How many frames a feeder answers of a stream in pieces of a size.
fn fed(alloc: Global, stream: &[u8], piece: usize) -> Result<usize, BenchFault> {
    let mut feeder = Feeder::new(alloc);
    let mut count: usize = 0;
    for part in stream.chunks(piece.max(1)) {
        match feeder.feed(part) {
            Ok(frames) => count = count.saturating_add(frames.len()),
            Err(_) => return Err(BenchFault::Unread),
        }
    }
    Ok(count)
}

/// How many microseconds a stream of so many frames of so many rows takes in pieces of a size.
fn time<R: AllocGlobal + Clock>(
    rt: &R,
    frames: usize,
    rows: u16,
    piece: usize,
) -> Result<u128, BenchFault> {
    let bytes = stream(rt.alloc(), frames, rows)?;
    let began = Instant::now(rt)?;
    if fed(rt.alloc(), bytes.as_slice(), piece)? != frames {
        return Err(BenchFault::Unread);
    }
    Ok(began.elapsed(rt)?.as_micros())
}

/// Prints the times of a stream and of one with twice as many frames, and of a frame and of one with twice as many rows, for
/// each size of pieces.
fn bench<R: AllocGlobal + Clock + Print>(rt: &R) -> Result<(), BenchFault> {
    for piece in PIECES {
        let once = time(rt, FRAMES, ROWS, piece)?;
        let twice = time(rt, 2 * FRAMES, ROWS, piece)?;
        rt.println(&format!(in rt.alloc();
            "pieces of {piece}: n frames {once} us, 2n {twice} us"
        )?)?;
        let once = time(rt, 1, GREAT, piece)?;
        let twice = time(rt, 1, 2 * GREAT, piece)?;
        rt.println(&format!(in rt.alloc();
            "pieces of {piece}: n rows of one frame {once} us, 2n {twice} us"
        )?)?;
    }
    Ok(())
}

/// Whether the bytes are those of a frame.
fn is_read(alloc: Global, bytes: &[u8]) -> bool {
    decode(alloc, bytes).is_ok()
}

/// Whether there is memory for a copy of the bytes.
fn is_copied(alloc: Global, bytes: &[u8]) -> bool {
    Vec::from_slice(alloc, bytes).is_ok()
}

/// How many microseconds an envelope takes to write.
fn write_time<R: AllocGlobal + Clock>(rt: &R, stamped: &Stamped) -> Result<u128, BenchFault> {
    let began = Instant::now(rt)?;
    let is_written = spelled(rt.alloc(), stamped).is_ok();
    let took = began.elapsed(rt)?.as_micros();
    if is_written {
        Ok(took)
    } else {
        Err(BenchFault::Refused)
    }
}

/// How many microseconds a frame takes to read, and how many a copy of its bytes takes.
fn read_times<R: AllocGlobal + Clock>(rt: &R, bytes: &[u8]) -> Result<(u128, u128), BenchFault> {
    let began = Instant::now(rt)?;
    let is_whole = is_read(rt.alloc(), bytes);
    let took = began.elapsed(rt)?.as_micros();
    let began = Instant::now(rt)?;
    let is_whole = is_copied(rt.alloc(), bytes) && is_whole;
    let copied = began.elapsed(rt)?.as_micros();
    if is_whole {
        Ok((took, copied))
    } else {
        Err(BenchFault::Unread)
    }
}

/// How many microseconds the frame of a whole log takes to write, to read, and to copy.
fn log_times<R: AllocGlobal + Clock>(rt: &R) -> Result<(u128, u128, u128), BenchFault> {
    let stamped = sent(rt.alloc(), LOG)?;
    let wrote = write_time(rt, &stamped)?;
    let bytes = spelled(rt.alloc(), &stamped)?;
    let (read, copied) = read_times(rt, bytes.as_slice())?;
    Ok((wrote, read, copied))
}

/// Prints the times of a whole log.
fn bench_log<R: AllocGlobal + Clock + Print>(rt: &R) -> Result<(), BenchFault> {
    let (wrote, read, copied) = log_times(rt)?;
    rt.println(&format!(in rt.alloc();
        "{LOG} rows of one frame: written in {wrote} us, read in {read} us, its bytes copied in {copied} us"
    )?)?;
    Ok(())
}

/// How many microseconds a log of so many rows takes to push.
fn push_time<R: AllocGlobal + Clock>(rt: &R, count: u16) -> Result<u128, BenchFault> {
    let began = Instant::now(rt)?;
    let rows = log(rt.alloc(), count)?;
    let took = began.elapsed(rt)?.as_micros();
    if rows.len() == usize::from(count) {
        Ok(took)
    } else {
        Err(BenchFault::Refused)
    }
}

/// How many microseconds it takes to copy the rows behind the first `base` of a log, `TIMES` times.
fn copy_time<R: AllocGlobal + Clock>(
    rt: &R,
    rows: &RowsOf<Cmd>,
    base: usize,
) -> Result<u128, BenchFault> {
    let began = Instant::now(rt)?;
    for _ in 0..TIMES {
        if base <= rows.len() {
            rows.copy_from(rt.alloc(), base)?;
        }
    }
    Ok(began.elapsed(rt)?.as_micros())
}

/// How many microseconds it takes to replace the last row of a log, `TIMES` times.
fn change_time<R: AllocGlobal + Clock>(rt: &R, rows: &mut RowsOf<Cmd>) -> Result<u128, BenchFault> {
    let began = Instant::now(rt)?;
    for _ in 0..TIMES {
        let part = log(rt.alloc(), 1)?;
        let base = rows.len().saturating_sub(1);
        if base < rows.len() && part.len() == 1 {
            rows.replace_from(base, part)?;
        }
    }
    Ok(began.elapsed(rt)?.as_micros())
}

/// Prints how long logs of several lengths take to push, to copy, and to change at their ends.
fn bench_logs<R: AllocGlobal + Clock + Print>(rt: &R) -> Result<(), BenchFault> {
    for count in LENGTHS {
        let pushed = push_time(rt, count)?;
        let mut rows = log(rt.alloc(), count)?;
        let copied = copy_time(rt, &rows, 0)?;
        let behind = copy_time(rt, &rows, 1)?;
        let changed = change_time(rt, &mut rows)?;
        rt.println(&format!(in rt.alloc();
            "{count} rows: pushed in {pushed} us; {TIMES} copies in {copied} us, {TIMES} from the second row on in \
{behind} us; the last row replaced {TIMES} times in {changed} us"
        )?)?;
    }
    Ok(())
}

/// Does what the words ask for.
fn run<R: AllocGlobal + Clock + Print>(rt: &R, is_log: bool) -> Result<(), BenchFault> {
    if is_log {
        return bench_logs(rt);
    }
    bench(rt)?;
    bench_log(rt)
}

fn main(rt: HostRuntime) -> ExitCode {
    let words: Vec<String> = match env::args(&rt).map(|words| words.collect(rt.alloc())) {
        Ok(Ok(words)) => words,
        _ => return ExitCode::from(1),
    };
    let Some(word) = words.get(1) else {
        return ExitCode::from(0);
    };
    match run(&rt, word.as_str() == "log") {
        Ok(()) => ExitCode::from(0),
        Err(_) => ExitCode::from(1),
    }
}
