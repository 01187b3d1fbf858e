//! Streams that an actor opens: to each site that listens for it.

use crate::greeting::{call, draw};
use crate::host::Wires;
use crate::inbox::{Inbox, tell};
use crate::streams::{announce, read_all, settle, tell_gone, write_all};
use crossbeam_channel::Sender;
use pvp_links::{Intake, Link, LinkEnd, LinkFault};
use pvp_places::Address;
use std::io::{self, ErrorKind};
use std::net::{IpAddr, Ipv4Addr, SocketAddr, TcpStream};
use std::thread;
use std::time::Duration;

/// How long a connection is waited for.
const CONNECT_SECONDS: u64 = 1;

/// The pauses between two tries, in milliseconds: they grow.
const FIRST_PAUSE: u64 = 20;

const LAST_PAUSE: u64 = 200;

/// The longest pause where somebody answers who is not the site.
const REFUSED_PAUSE: u64 = 1_000;

/// After how many tries in a row at which it does not show itself a site is reported.
const UNSHOWN_TRIES: u32 = 3;

/// How many addresses of a host are looked at.
const MOST_ADDRESSES: usize = 4;

/// Whom a thread dials, and as which of two ends.
#[derive(Drop)]
pub struct Dialed {
    pub address: Address,
    pub link: Link,
}

/// Connects to a site, again and again, and writes what is for it while the stream stands. It ends with the process.
pub fn dial<R: Wires>(rt: R, dialed: Dialed, inbox: Sender<Inbox>) {
    let mut pause = FIRST_PAUSE;
    let mut number = 0u64;
    let mut unshown = 0u32;
    for _ in rt.forever() {
        number = number.saturating_add(1);
        pause = match connect(rt, &dialed.address) {
            Err(_) => pause.saturating_mul(2).min(LAST_PAUSE),
            Ok(stream) => match hold(rt, stream, number, &dialed.link, &inbox) {
                Err(why) => {
                    unshown = unshown.saturating_add(1);
                    if unshown == UNSHOWN_TRIES {
                        let peer = dialed.link.peer();
                        let _told = tell(&rt, &inbox, Inbox::Unshown { peer, why });
                    }
                    pause.saturating_mul(2).min(REFUSED_PAUSE)
                }
                Ok(()) => {
                    unshown = 0;
                    FIRST_PAUSE
                }
            },
        };
        thread::sleep(&rt, Duration::from_millis(pause));
    }
}

/// A stream to an address of a host, the first that answers.
fn connect<R: Wires>(rt: R, address: &Address) -> io::Result<TcpStream> {
    let mut found = [SocketAddr::new(IpAddr::V4(Ipv4Addr::LOCALHOST), 0); MOST_ADDRESSES];
    let count = addresses_of(rt, address, &mut found)?;
    for at in 0..MOST_ADDRESSES {
        if at >= count {
            break;
        }
        let wait = Duration::from_secs(CONNECT_SECONDS);
        if let Ok(stream) = TcpStream::connect_timeout(&rt, &found[at], wait) {
            settle(&stream)?;
            return Ok(stream);
        }
    }
    Err(io::Error::from(ErrorKind::NotConnected))
}

/// The addresses of a host: the one that it is, or those that the system knows by its name.
pub fn addresses_of<R: Wires>(
    rt: R,
    address: &Address,
    found: &mut [SocketAddr],
) -> io::Result<usize> {
    let host = address.host.as_str();
    if let Ok(ip) = IpAddr::parse_ascii(host.as_bytes()) {
        if let Some(first) = found.first_mut() {
            *first = SocketAddr::new(ip, address.port);
            return Ok(1);
        }
    }
    rt.lookup_host(host, address.port, found)
}

/// Has the site at the other end show who it is, has the loop know of the stream, and serves it to its end. `Err` where the
/// site does not show itself, or memory is refused: then the stream is closed.
fn hold<R: Wires>(
    rt: R,
    stream: TcpStream,
    number: u64,
    pair: &Link,
    inbox: &Sender<Inbox>,
) -> Result<(), LinkFault> {
    let mut stream = stream;
    let mut intake = Intake::new(rt.alloc());
    let own = draw(rt)?;
    let link = call(rt, &mut stream, &mut intake, pair, &own)?;
    let Ok(theirs) = stream.try_clone() else {
        return Err(LinkFault::NoMemory);
    };
    let Ok(told) = inbox.clone() else {
        return Err(LinkFault::NoMemory);
    };
    let Some((outgoing, ended)) = announce(rt, inbox, link.peer(), number) else {
        return Err(LinkFault::NoMemory);
    };
    let reader = thread::spawn(&rt, move || {
        read_all(rt, theirs, number, link, intake, told, ended)
    });
    if reader.is_err() {
        tell_gone(rt, inbox, link.peer(), number, LinkEnd::NoMemory);
        return Err(LinkFault::NoMemory);
    }
    write_all(rt, stream, link, outgoing);
    Ok(())
}
