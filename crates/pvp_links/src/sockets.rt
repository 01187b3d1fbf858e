//! Streams between actors over the loopback of this machine.
ghost use Rattle.std.specs.Prelude.{◌≡◌, ◌++◌, ◌∷◌, [], IfOk, OnOk};
ghost use Rattle.pvp_links.specs.Links.{talks, links, links_from, receivers, actors_of, ends_of, goals_of, lists_of, wanted_lists};

use crate::writer::Outgoing;
use std::alloc::{AllocFailed, Global};
use std::io::{self, ErrorKind};
use std::net::{IpAddr, Ipv4Addr, Net, OpenListener, OpenStream, SocketAddr};
use std::time::Duration;
use vr_types::is_site;

/// The reading end of a stream.
#[derive(Drop)]
pub struct Incoming<S> {
    /// The number of the actor that writes it.
    pub from: u16,
    /// The number of the actor that reads it.
    pub to: u16,
    pub stream: S,
}

/// The streams that one actor writes.
#[derive(Drop)]
pub struct Sending<S> {
    pub actor: u16,
    pub streams: Vec<Outgoing<S>>,
}

/// A stream for each pair of actors of which the one may send to the other.
#[derive(Drop)]
pub struct Connected<S> {
    pub incoming: Vec<Incoming<S>>,
    pub outgoing: Vec<Sending<S>>,
}

/// Why there are no streams.
#[derive(Clone, Copy, Debug, PartialEq, Eq)]
pub enum NetFault {
    /// A listener could not be opened, or a connection not be made.
    Net,
    /// Memory was refused.
    NoMemory,
}

impl NetFault {
    ghost use Rattle.pvp_links.specs.Faults.{Tells};

    /// What it means that a call of the system failed with an error of this kind.
    pub fn of(kind: ErrorKind) -> Self
        ensures { Tells kind result }
    {
        match kind {
            ErrorKind::OutOfMemory => NetFault::NoMemory,
            _ => NetFault::Net,
        }
    }
}

/// What a failed call of the system means.
impl From<io::Error> for NetFault {
    ghost use Rattle.std.specs.IoError.{error_kind};
    ghost use Rattle.pvp_links.specs.Faults.{Tells};

    ghost from_gives = { λ failed fault. Tells (error_kind failed) fault };

    fn from(failed: io::Error) -> NetFault {
        NetFault::of(failed.kind())
    }
}

/// A refusal of memory is reported as that.
impl<T: Drop> From<AllocFailed<T>> for NetFault {
    ghost use Rattle.std.specs.Prelude.{◌≡◌};
    ghost use Rattle.pvp_links.specs.declared.sockets.NetFault.TheVariants.{NoMemory};

    ghost from_gives = { λ _ fault. fault ≡ NoMemory };

    fn from(_refused: AllocFailed<T>) -> NetFault {
        NetFault::NoMemory
    }
}

/// How many seconds a write may wait for room before its stream is given up.
const PATIENCE: u64 = 10;

/// How many strangers a listener turns away before a connection is given up.
const STRANGERS: u8 = 100;

/// A listener of one actor, and its address.
#[derive(Drop)]
struct Door<L> {
    actor: u16,
    listener: L,
    address: SocketAddr,
}

/// Whether an actor may send to another: a site to any other actor, and any other actor to a site.
pub fn may_send(from: u16, to: u16) -> bool
    ensures { result ≡ talks from to }
{
    from != to && (is_site(from) || is_site(to))
}

/// Opens a listener for each actor on 127.0.0.1, at a port that the system picks, makes a connection for each pair of
/// actors of which the one may send to the other, and closes the listeners. A write that waits longer than ten seconds
/// fails.
pub fn connect_all<N: Net>(
    net: &N,
    alloc: Global,
    actors: &[u16],
) -> Result<Connected<N::Stream>, NetFault>
    ensures incoming { IfOk result (λ made. ends_of made.incoming.items
        ≡ links actors.now actors.now) }
    ensures outgoing { IfOk result (λ made. lists_of made.outgoing.items
        ≡ wanted_lists actors.now actors.now) }
{
    let doors = open_doors(net, alloc, actors)?;
    let mut incoming = Vec::new(alloc);
    let mut outgoing = Vec::new(alloc);
    for from in actors {
        let streams = connect_one(net, alloc, *from, doors.as_slice(), &mut incoming)?;
        outgoing.push(Sending {
            actor: *from,
            streams,
        })?;
    }
    Ok(Connected { incoming, outgoing })
}

/// A listener for each actor.
fn open_doors<N: Net>(
    net: &N,
    alloc: Global,
    actors: &[u16],
) -> Result<Vec<Door<N::Listener>>, NetFault>
    ensures { IfOk result (λ doors. actors_of doors.items ≡ actors.now) }
{
    let mut doors = Vec::new(alloc);
    for actor in actors {
        let listener = net.bind(SocketAddr::new(IpAddr::V4(Ipv4Addr::LOCALHOST), 0))?;
        let address = listener.local_addr()?;
        doors.push(Door {
            actor: *actor,
            listener,
            address,
        })?;
    }
    Ok(doors)
}

/// The streams that an actor writes; their other ends are added to those that come in.
fn connect_one<N: Net>(
    net: &N,
    alloc: Global,
    from: u16,
    doors: &[Door<N::Listener>],
    incoming: &mut Vec<Incoming<N::Stream>>,
) -> Result<Vec<Outgoing<N::Stream>>, NetFault>
    ensures streams { IfOk result (λ streams. goals_of streams.items
        ≡ receivers (actors_of doors.now) from) }
    ensures incoming { OnOk result (ends_of incoming.new.items
        ≡ ends_of incoming.old.items ++ links_from (actors_of doors.now) from) }
{
    let mut streams = Vec::new(alloc);
    for door in doors {
        connect_two(net, from, door, &mut streams, incoming)?;
    }
    Ok(streams)
}

/// Adds the two ends of a connection from an actor to a listener, where the listener's actor is one to which it may send.
fn connect_two<N: Net>(
    net: &N,
    from: u16,
    door: &Door<N::Listener>,
    streams: &mut Vec<Outgoing<N::Stream>>,
    incoming: &mut Vec<Incoming<N::Stream>>,
) -> Result<(), NetFault>
    ensures streams { OnOk result (goals_of streams.new.items
        ≡ goals_of streams.old.items ++ receivers (door.now.actor ∷ []) from) }
    ensures incoming { OnOk result (ends_of incoming.new.items
        ≡ ends_of incoming.old.items ++ links_from (door.now.actor ∷ []) from) }
{
    if !may_send(from, door.actor) {
        return Ok(());
    }
    let (near, far) = connect(net, door)?;
    streams.push(Outgoing {
        to: door.actor,
        stream: near,
    })?;
    incoming.push(Incoming {
        from,
        to: door.actor,
        stream: far,
    })?;
    Ok(())
}

/// A connection to a listener: the end that writes, and the one that reads. A connection that someone else made is let go.
fn connect<N: Net>(net: &N, door: &Door<N::Listener>) -> Result<(N::Stream, N::Stream), NetFault> {
    let near = net.connect(door.address)?;
    near.set_nodelay(true)?;
    near.set_write_timeout(Some(Duration::from_secs(PATIENCE)))?;
    let mine = near.local_addr()?;
    for _ in 0..STRANGERS {
        let (far, address) = door.listener.accept()?;
        if address == mine {
            return Ok((near, far));
        }
    }
    Err(NetFault::Net)
}
