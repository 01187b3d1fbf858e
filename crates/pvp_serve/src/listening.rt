//! Streams that others open to a site.
ghost use Rattle.std.specs.Prelude.{ℕ, List, IfOk};
ghost use Rattle.pvp_serve.specs.Doors.{IsLetIn};

use crate::greeting::{answer, draw};
use crate::host::Wires;
use crate::inbox::{Inbox, tell};
use crate::streams::{announce, read_all, settle, tell_gone, write_all};
use crate::telling::TurnedAway;
use crossbeam_channel::Sender;
use pvp_links::{Intake, Link, LinkEnd, LinkFault};
use pvp_places::Keys;
use std::alloc::Global;
use std::collections::VecDeque;
use std::net::{Shutdown, SocketAddr, TcpListener, TcpStream};
use std::sync::Arc;
use std::sync::atomic::{AtomicBool, AtomicU64, Ordering};
use std::time::Duration;
use std::{io, thread};

/// How many streams are read at once; further ones are closed.
const MOST_STREAMS: u64 = 256;

/// How many of them may be of openers who have not shown yet who they are. Beside these a bank's sites, nodes and clients have
/// room; and as many as come while an honest opener's answer is on its way do not crowd it out.
const MOST_STRANGERS: usize = 160;

/// What each stream of a site needs to know.
#[derive(Drop)]
pub struct Door {
    pub me: u16,
    pub bank: [u8; 32],
    pub keys: Option<Keys>,
    /// How many streams are read.
    pub open: AtomicU64,
}

/// A stream whose opener may not have said yet who it is.
#[derive(Drop)]
struct Stranger {
    stream: TcpStream,
    is_known: Arc<AtomicBool, Global>,
}

/// The streams that were opened last, the oldest first.
#[derive(Drop)]
struct Strangers {
    all: VecDeque<Stranger>,
}

impl Strangers {
    /// The last that came is closed, as no thread serves it.
    fn goes(&mut self) {
        if let Some(last) = self.all.pop_back() {
            last.leaves();
        }
    }

    /// A stream more. Where there are too many the oldest is closed, if its opener has not said who it is: so who opens many
    /// and says nothing keeps nobody out who speaks at once.
    fn comes(&mut self, stream: &TcpStream, is_known: &Arc<AtomicBool, Global>) -> io::Result<()> {
        if self.all.len() >= MOST_STRANGERS {
            if let Some(oldest) = self.all.pop_front() {
                oldest.leaves();
            }
        }
        self.all.push_back(Stranger {
            stream: stream.try_clone()?,
            is_known: Arc::try_clone(is_known)?,
        })?;
        Ok(())
    }
}

impl Stranger {
    fn leaves(self) {
        if !self.is_known.load(Ordering::SeqCst) {
            let _closed = self.stream.shutdown(Shutdown::Both);
        }
    }
}

/// A stream that came, its number among all, and where from.
#[derive(Drop)]
struct Arrived {
    stream: TcpStream,
    number: u64,
    from: SocketAddr,
}

/// Takes each stream that is opened to a site, in a thread of its own. It ends with the process.
pub fn accept_all<R: Wires>(
    rt: R,
    listener: TcpListener,
    door: Arc<Door, Global>,
    inbox: Sender<Inbox>,
) {
    let mut number = 0u64;
    let mut strangers = Strangers {
        all: VecDeque::new(rt.alloc()),
    };
    for _ in rt.forever() {
        let Ok((stream, from)) = listener.accept() else {
            thread::sleep(&rt, Duration::from_millis(10));
            continue;
        };
        number = number.saturating_add(1);
        let arrived = Arrived {
            stream,
            number,
            from,
        };
        let _taken = take(rt, arrived, &door, &inbox, &mut strangers);
    }
}

/// Serves a stream in a thread of its own, where there are not too many. `Err` where memory is refused: then it is closed.
fn take<R: Wires>(
    rt: R,
    arrived: Arrived,
    door: &Arc<Door, Global>,
    inbox: &Sender<Inbox>,
    strangers: &mut Strangers,
) -> io::Result<()> {
    let theirs = Arc::try_clone(door)?;
    let told = inbox.clone()?;
    let is_known = Arc::new(rt.alloc(), AtomicBool::new(false))?;
    if door.open.load(Ordering::SeqCst) >= MOST_STREAMS {
        let _told = tell(&rt, &told, Inbox::Away(None));
        return Ok(());
    }
    strangers.comes(&arrived.stream, &is_known)?;
    door.open.fetch_add(1, Ordering::SeqCst);
    let spawned = thread::spawn(&rt, move || {
        receive(rt, arrived, &theirs, told, is_known);
        theirs.open.fetch_sub(1, Ordering::SeqCst);
    });
    if spawned.is_err() {
        door.open.fetch_sub(1, Ordering::SeqCst);
        strangers.goes();
        let _told = tell(&rt, inbox, Inbox::Away(None));
    }
    Ok(())
}

/// Serves a stream, and informs the loop where it is turned away.
fn receive<R: Wires>(
    rt: R,
    arrived: Arrived,
    door: &Door,
    inbox: Sender<Inbox>,
    is_known: Arc<AtomicBool, Global>,
) {
    let Ok(told) = inbox.clone() else {
        return;
    };
    let Arrived {
        stream,
        number,
        from,
    } = arrived;
    let mut said = None;
    if let Err(why) = welcome(rt, stream, number, door, inbox, is_known, &mut said) {
        let _told = tell(
            &rt,
            &told,
            Inbox::Away(Some(TurnedAway { why, from, said })),
        );
    }
}

/// Hears who speaks, and serves the stream to its end. `Err` where that is no actor that may talk to this one, or memory is
/// refused: then the stream is closed, of which another holds an end too, and `said` is whom it said to be, if it did.
fn welcome<R: Wires>(
    rt: R,
    stream: TcpStream,
    number: u64,
    door: &Door,
    inbox: Sender<Inbox>,
    is_known: Arc<AtomicBool, Global>,
    said: &mut Option<u16>,
) -> Result<(), LinkFault> {
    let mut stream = stream;
    let mut intake = Intake::new(rt.alloc());
    match attend(rt, &mut stream, number, &mut intake, door, &inbox, said) {
        Err(why) => {
            let _closed = stream.shutdown(Shutdown::Both);
            Err(why)
        }
        Ok((link, ended)) => {
            is_known.store(true, Ordering::SeqCst);
            read_all(rt, stream, number, link, intake, inbox, ended);
            Ok(())
        }
    }
}

/// Hears who speaks, has the loop know of the stream, and has a thread write it. Answers the link, and where its reader sees that
/// another stream has taken the place of this one.
fn attend<R: Wires>(
    rt: R,
    stream: &mut TcpStream,
    number: u64,
    intake: &mut Intake,
    door: &Door,
    inbox: &Sender<Inbox>,
    said: &mut Option<u16>,
) -> Result<(Link, Arc<AtomicBool, Global>), LinkFault>
    ensures { IfOk result (λ heard.
        (own : List ℕ) × IsLetIn door.now own heard.0 intake.new) }
{
    let _settled = settle(stream);
    let own = draw(rt)?;
    let link = answer(rt, stream, intake, door, &own, said)?;
    let Ok(theirs) = stream.try_clone() else {
        return Err(LinkFault::NoMemory);
    };
    let Some((outgoing, ended)) = announce(rt, inbox, link.peer(), number) else {
        return Err(LinkFault::NoMemory);
    };
    match thread::spawn(&rt, move || write_all(rt, theirs, link, outgoing)) {
        Ok(_thread) => Ok((link, ended)),
        Err(_) => {
            tell_gone(rt, inbox, link.peer(), number, LinkEnd::NoMemory);
            Err(LinkFault::NoMemory)
        }
    }
}
