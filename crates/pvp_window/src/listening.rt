//! The threads of a window: one takes connections, and each connection has one that answers its requests. None of them holds the
//! actor, or a lock on it.

use crate::look::Look;
use crate::service::{Looker, millis_of};
use crate::window::Window;
use crossbeam_channel::Sender;
use http_server::{Config, Connection, serve};
use std::alloc::Global;
use std::collections::VecDeque;
use std::hash::RandomState;
use std::io::{self, ErrorKind, Read, Write};
use std::net::{Net, Shutdown, TcpListener, TcpStream};
use std::random::RandomSource;
use std::sync::atomic::{AtomicBool, AtomicU64, Ordering};
use std::sync::{Arc, Wait};
use std::thread;
use std::thread::Threads;
use std::time::{Clock, Duration};

/// How many connections are served at once. Where one more comes, the oldest is closed, so that silent ones keep nobody out.
const MOST_CONNECTIONS: usize = 32;

/// How many threads serve connections at the most, of which some may be about to end.
const MOST_THREADS: u64 = 64;

/// How many milliseconds a request may take to come and its answer to go, behind what it waits for.
const EXCHANGE_MILLIS: u64 = 10_000;

/// How many bytes the head of a request has at the most, and its body.
const MOST_BYTES: usize = 8192;

/// Threads, a net, clocks and chance: what each thread of a process has.
pub trait Wires: Threads
    + Wait
    + Clock
    + Net<Listener = TcpListener, Stream = TcpStream>
    + RandomSource
    + AllocGlobal
    + Copy
    + Drop
    + Send
    + Sync
    + 'static {}

impl<R> Wires for R
where
    R: Threads
        + Wait
        + Clock
        + Net<Listener = TcpListener, Stream = TcpStream>
        + RandomSource
        + AllocGlobal
        + Copy
        + Drop
        + Send
        + Sync
        + 'static,
{}

/// What the connections of a window share.
#[derive(Drop)]
pub struct Shared {
    pub window: Window,
    /// The second in which the actor was looked at last, and how often in it.
    spent: AtomicU64,
    /// How many connections are served.
    open: AtomicU64,
}

impl Shared {
    /// A window that nobody looks through yet.
    pub fn new(window: Window) -> Self {
        Shared {
            window,
            spent: AtomicU64::new(0),
            open: AtomicU64::new(0),
        }
    }
}

/// A connection that is served, or has ended since.
#[derive(Drop)]
struct Guest {
    stream: TcpStream,
    has_ended: Arc<AtomicBool, Global>,
}

/// A stream that is given so long from each request on, however its bytes trickle.
#[derive(Drop)]
struct Until<'a, R: Clock + Drop> {
    rt: R,
    stream: TcpStream,
    began: &'a AtomicU64,
}

impl<'a, R: Clock + Drop> Until<'a, R> {
    /// How long is left, at least a millisecond. `Err` where nothing is.
    fn left(&self) -> io::Result<Duration> {
        let spent = millis_of(self.rt.monotonic()?).saturating_sub(
            self.began.load(Ordering::SeqCst),
        );
        if spent >= EXCHANGE_MILLIS {
            return Err(io::Error::from(ErrorKind::TimedOut));
        }
        Ok(Duration::from_millis(EXCHANGE_MILLIS - spent))
    }
}

impl<'a, R: Clock + Drop> Read for Until<'a, R> {
    fn read(&mut self, buf: &mut [u8]) -> io::Result<usize> {
        let left = self.left()?;
        self.stream.set_read_timeout(Some(left))?;
        self.stream.read(buf)
    }
}

impl<'a, R: Clock + Drop> Write for Until<'a, R> {
    fn write(&mut self, buf: &[u8]) -> io::Result<usize> {
        let left = self.left()?;
        self.stream.set_write_timeout(Some(left))?;
        self.stream.write(buf)
    }

    fn flush(&mut self) -> io::Result<()> {
        self.stream.flush()
    }
}

/// Takes each connection, in a thread of its own. It ends with the process.
pub fn show_all<R: Wires, T: From<Look> + Drop + Send + 'static>(
    rt: R,
    listener: TcpListener,
    shared: Arc<Shared, Global>,
    inbox: Sender<T>,
) {
    let mut guests = VecDeque::new(rt.alloc());
    for _ in rt.forever() {
        let Ok((stream, _from)) = listener.accept() else {
            thread::sleep(&rt, Duration::from_millis(10));
            continue;
        };
        let _taken = take(rt, stream, &shared, &inbox, &mut guests);
    }
}

/// Serves a connection in a thread of its own, where there are not too many. `Err` where memory is refused: then it is closed.
fn take<R: Wires, T: From<Look> + Drop + Send + 'static>(
    rt: R,
    stream: TcpStream,
    shared: &Arc<Shared, Global>,
    inbox: &Sender<T>,
    guests: &mut VecDeque<Guest>,
) -> io::Result<()> {
    make_room(guests)?;
    if shared.open.load(Ordering::SeqCst) >= MOST_THREADS {
        return Ok(());
    }
    let has_ended = Arc::new(rt.alloc(), AtomicBool::new(false))?;
    guests.push_back(Guest {
        stream: stream.try_clone()?,
        has_ended: Arc::try_clone(&has_ended)?,
    })?;
    let theirs = Arc::try_clone(shared)?;
    let asked = inbox.clone()?;
    shared.open.fetch_add(1, Ordering::SeqCst);
    let spawned = thread::spawn(&rt, move || attend(rt, stream, has_ended, theirs, asked));
    if spawned.is_err() {
        shared.open.fetch_sub(1, Ordering::SeqCst);
    }
    Ok(())
}

/// Forgets the connections that have ended, and closes the oldest where there are as many as may be.
fn make_room(guests: &mut VecDeque<Guest>) -> io::Result<()> {
    for _ in 0..guests.len() {
        if let Some(guest) = guests.pop_front() {
            if !guest.has_ended.load(Ordering::SeqCst) {
                guests.push_back(guest)?;
            }
        }
    }
    if guests.len() >= MOST_CONNECTIONS {
        if let Some(oldest) = guests.pop_front() {
            let _closed = oldest.stream.shutdown(Shutdown::Both);
        }
    }
    Ok(())
}

/// Answers the requests of a connection, and closes it, as another end of it is held.
fn attend<R: Wires, T: From<Look> + Drop>(
    rt: R,
    stream: TcpStream,
    has_ended: Arc<AtomicBool, Global>,
    shared: Arc<Shared, Global>,
    inbox: Sender<T>,
) {
    if let Ok(last) = stream.try_clone() {
        let _served = exchange(rt, stream, &shared, inbox);
        let _closed = last.shutdown(Shutdown::Both);
    }
    has_ended.store(true, Ordering::SeqCst);
    shared.open.fetch_sub(1, Ordering::SeqCst);
}

/// Answers the requests of a connection, until it ends or takes too long.
fn exchange<R: Wires, T: From<Look> + Drop>(
    rt: R,
    stream: TcpStream,
    shared: &Shared,
    inbox: Sender<T>,
) -> io::Result<()> {
    stream.set_nodelay(true)?;
    let began = AtomicU64::new(millis_of(rt.monotonic()?));
    let mut connection = Connection::new(rt.alloc(), RandomState::new(&rt)?, limits());
    let mut reader = Until {
        rt,
        stream: stream.try_clone()?,
        began: &began,
    };
    let mut writer = Until {
        rt,
        stream,
        began: &began,
    };
    let mut looker = Looker {
        rt,
        window: &shared.window,
        inbox,
        began: &began,
        spent: &shared.spent,
    };
    serve(&mut connection, &mut looker, &mut reader, &mut writer)
}

/// How large a request may be.
fn limits() -> Config {
    let mut config = Config::default();
    config.limits.max_head_len = MOST_BYTES;
    config.max_body_len = MOST_BYTES;
    config
}
