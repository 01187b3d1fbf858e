//! A process of the bank, from its words to its end.
//!
//! Functions hand on what they own as their last step, and `match` where `?` would drop an owned
//! value on a branch: that keeps their proofs cheap (docs/working.md, "How long things take").
ghost use Rattle.std.specs.Prelude.{◌≡◌, codes, map, ok_or, take, IfOk};
ghost use Rattle.pvp_tags.specs.Hmac.{hmac};
ghost use Rattle.pvp_types.specs.Setup.{IsValid};
ghost use Rattle.pvp_places.specs.Names.{actor_asked};
ghost use Rattle.pvp_serve.specs.Doors.{IsKeyWith, token_in};

use crate::answers::greet;
use crate::attending::Desk;
use crate::desk::TerminalDesk;
use crate::dialing::{Dialed, addresses_of, dial};
use crate::folder::{make_folder, read_paper, take_folder};
use crate::host::{Host, Wires};
use crate::inbox::Inbox;
use crate::lanes::Lanes;
use crate::listening::{Door, accept_all};
use crate::looks::answer_looks;
use crate::opening::{self, Place, Process, Room, SiteCell, open_other, open_site, settle};
use crate::patience::Patience;
use crate::serving::Serving;
use crate::site::SiteDesk;
use crate::ticking::{read_lines, tick};
use crossbeam_channel::{Receiver, Sender, bounded};
use pvp_journal::bank_of;
use pvp_links::Link;
use pvp_places::keys::Shared;
use pvp_places::{
    Address, Beginning, FolderWhy, Keys, Order, Paper, Peers, ServeFault, Who, actor_asked,
    push_key, read_address, read_keys, read_peers,
};
use pvp_tags::hmac;
use pvp_text::read_setup;
use pvp_types::Setup;
use pvp_window::{Look, Token, Window, show_all};
use std::alloc::{AllocError, Global};
use std::io::BufRead;
use std::net::{IpAddr, Ipv4Addr, SocketAddr, TcpListener};
use std::sync::Arc;
use std::sync::atomic::AtomicU64;
use std::thread;
use vr_types::{ActorId, BootCell, MemCell};

/// How many items may wait for the loop before who brings more has to wait.
const MOST_ITEMS: usize = 1024;

/// How many items go into one batch.
const BATCH: u32 = 512;

/// How many looks are answered behind a batch.
const MOST_LOOKS: usize = 8;

/// What a process knows of its bank.
#[derive(Drop)]
struct Bank {
    setup: Setup,
    id: [u8; 32],
    peers: Peers,
    ghost valid: { IsValid setup },
}

/// Which actor a process serves: of which bank, and how it was ordered to.
#[derive(Clone, Copy)]
struct Duty<'a, 'o> {
    order: &'a Order<'o>,
    bank: &'a Bank,
    me: u16,
}

/// Where what comes to a site comes from, beside the sites that it dials.
#[derive(Drop)]
struct Sources<L> {
    terminal: L,
    keys: Option<Keys>,
    listener: TcpListener,
}

/// Serves one actor of a bank until its terminal ends, or a fault.
pub fn serve<R: Host, L: BufRead + Drop + Send + 'static>(
    rt: R,
    terminal: L,
    order: &Order<'_>,
) -> Result<(), ServeFault> {
    let text = read_paper(rt, Paper::Setup, order.setup)?;
    let bank = bank_at(rt, order, text.as_slice())?;
    serve_bank(rt, terminal, order, &bank)
}

/// Begins one actor of a bank, once in its life: leaves in its folder what `serve` serves it from. `Err` with X9 where an actor
/// was begun there before.
pub fn begin<R: Host>(rt: R, beginning: &Beginning<'_>) -> Result<(), ServeFault> {
    let text = read_paper(rt, Paper::Setup, beginning.setup)?;
    let setup = read_setup(rt.alloc(), text.as_slice())?;
    let life = match beginning.peers {
        Some(name) => peers_of(rt, &setup, name)?.life,
        None => Vec::new(rt.alloc()),
    };
    let id = bank_of(text.as_slice(), life_of(life.as_slice()));
    let me = actor_of(&setup, beginning.who)?;
    make_folder(rt, beginning.data)?;
    let _lock = take_folder(rt, beginning.data)?;
    let place = Place::new(&setup, id, me, beginning.data, true);
    opening::begin(rt, &place)
}

/// What the bank of a setup with this text is.
fn bank_at<R: Host>(rt: R, order: &Order<'_>, text: &[u8]) -> Result<Bank, ServeFault> {
    let setup = read_setup(rt.alloc(), text)?;
    let peers = peers_of(rt, &setup, order.peers)?;
    let id = bank_of(text, life_of(peers.life.as_slice()));
    Ok(Bank { setup, id, peers })
}

/// Serves one actor of a bank.
fn serve_bank<R: Host, L: BufRead + Drop + Send + 'static>(
    rt: R,
    terminal: L,
    order: &Order<'_>,
    bank: &Bank,
) -> Result<(), ServeFault> {
    let me = actor_of(&bank.setup, order.who)?;
    let keys = keys_of(rt, &bank.setup, order.keys)?;
    let _lock = take_folder(rt, order.data)?;
    let duty = Duty { order, bank, me };
    match ActorId::of(me) {
        ActorId::Site(site) => serve_site(rt, duty, site, terminal, keys),
        _ => serve_other(rt, duty, terminal, keys),
    }
}

/// The actor that is to be served. `Err` where the bank has none (X1).
fn actor_of(setup: &Setup, who: Who<'_>) -> Result<u16, ServeFault>
    ensures { result ≡ ok_or (actor_asked setup.now who.entry) (ServeFault.Folder FolderWhy.Actor) }
{
    match actor_asked(setup, who) {
        Some(actor) => Ok(actor),
        None => Err(ServeFault::Folder(FolderWhy::Actor)),
    }
}

/// What distinguishes this life of the bank from others, by its name.
fn life_of(name: &[u8]) -> [u8; 16]
    ensures { result ≡ take 16 (hmac (codes "life") name.now) }
{
    let whole = hmac(b"life", name, &[]);
    let mut life = [0; 16];
    life.copy_from_slice(&whole[..16]);
    life
}

fn peers_of<R: Host>(rt: R, setup: &Setup, name: &str) -> Result<Peers, ServeFault> {
    let text = read_paper(rt, Paper::Peers, name)?;
    match read_peers(rt.alloc(), setup, text.as_slice()) {
        Ok(peers) => Ok(peers),
        Err(fault) => Err(ServeFault::of_place(Paper::Peers, fault)),
    }
}

fn keys_of<R: Host>(rt: R, setup: &Setup, name: Option<&str>) -> Result<Option<Keys>, ServeFault> {
    let Some(name) = name else {
        return Ok(None);
    };
    let text = read_paper(rt, Paper::Keys, name)?;
    match read_keys(rt.alloc(), setup, text.as_slice()) {
        Ok(keys) => Ok(Some(keys)),
        Err(fault) => Err(ServeFault::of_place(Paper::Keys, fault)),
    }
}

/// The tokens of those who may read a window, as their file has them.
fn tokens_of<R: Host>(
    rt: R,
    setup: &Setup,
    name: Option<&str>,
) -> Result<Option<Vec<Token>>, ServeFault> {
    match keys_of(rt, setup, name)? {
        Some(keys) => Ok(Some(tokens_in(rt.alloc(), keys.shared())?)),
        None => Ok(None),
    }
}

/// The tokens that are such keys.
fn tokens_in(alloc: Global, keys: &[Shared]) -> Result<Vec<Token>, AllocError>
    ensures { IfOk result (λ tokens. tokens.items ≡ map token_in keys.now) }
{
    let mut tokens = Vec::new(alloc);
    for key in keys {
        tokens.push(token_in(alloc, key)?)?;
    }
    Ok(tokens)
}

/// The token that is such a key: its digits.
fn token_in(alloc: Global, key: &Shared) -> Result<Token, AllocError>
    ensures { IfOk result (λ it. it ≡ token_in key.now) }
{
    let mut digits = String::new(alloc);
    push_key(&mut digits, &key.key)?;
    Ok(Token::new(key.actor, digits.as_str().as_bytes()))
}

/// Serves a site.
fn serve_site<R: Host, L: BufRead + Drop + Send + 'static>(
    rt: R,
    duty: Duty<'_, '_>,
    site: u16,
    terminal: L,
    keys: Option<Keys>,
) -> Result<(), ServeFault> {
    let listener = listener_of(rt, duty.order, &duty.bank.peers, site)?;
    let sources = Sources {
        terminal,
        keys,
        listener,
    };
    match site_of(rt, duty, site) {
        Ok(serving) => keep_site(rt, duty, site, sources, serving),
        Err(fault) => Err(fault),
    }
}

/// Serves a site that was opened.
fn keep_site<R: Host, L: BufRead + Drop + Send + 'static, C: BootCell>(
    rt: R,
    duty: Duty<'_, '_>,
    site: u16,
    sources: Sources<L>,
    serving: Process<C>,
) -> Result<(), ServeFault> {
    let mut serving = serving;
    host_site(rt, duty, site, sources, &mut serving)
}

/// Opens the streams of a site, and attends to it until it is done.
fn host_site<R: Host, L: BufRead + Drop + Send + 'static, C: BootCell>(
    rt: R,
    duty: Duty<'_, '_>,
    site: u16,
    sources: Sources<L>,
    serving: &mut Process<C>,
) -> Result<(), ServeFault> {
    let inbox = open_streams(rt, duty, site, sources)?;
    let Duty { order, bank, .. } = duty;
    let sites = 2 * bank.setup.faults() + 1;
    let patience = Patience::new(order.patience, order.beat);
    let desk = SiteDesk::new(bank.setup.copy()?, sites, patience, order.stays);
    let mut desk = Desk::Site(desk);
    attend_site(rt, bank, &inbox, &mut desk, serving)
}

/// A site, as its folder has it.
fn site_of<R: Host>(
    rt: R,
    duty: Duty<'_, '_>,
    site: u16,
) -> Result<Process<SiteCell<R>>, ServeFault> {
    let Duty { order, bank, me } = duty;
    let place = Place::new(&bank.setup, bank.id, me, order.data, order.syncs);
    process_of(rt, &place, open_site(rt, &place, site))
}

/// A node or a client, as its folder has it.
fn other_of<R: Host>(rt: R, duty: Duty<'_, '_>) -> Result<Process<MemCell>, ServeFault> {
    let Duty { order, bank, me } = duty;
    let place = Place::new(&bank.setup, bank.id, me, order.data, order.syncs);
    process_of(rt, &place, open_other(rt, &place))
}

/// A room that was opened, and is served over no stream yet.
fn process_of<R: Host, C: BootCell>(
    rt: R,
    place: &Place<'_>,
    opened: Result<Room<C>, ServeFault>,
) -> Result<Process<C>, ServeFault> {
    match settle(rt, place, opened) {
        Ok(room) => Ok(Serving::new(place.me, place.syncs, room, Lanes::new(rt.alloc()))),
        Err(fault) => Err(fault),
    }
}

/// Has threads dial the sites before a site, listen for others, and bring ticks and lines. Answers what they bring.
fn open_streams<R: Host, L: BufRead + Drop + Send + 'static>(
    rt: R,
    duty: Duty<'_, '_>,
    site: u16,
    sources: Sources<L>,
) -> Result<Receiver<Inbox>, ServeFault> {
    let (sender, inbox) = bounded(rt.alloc(), MOST_ITEMS)?;
    match start_site(rt, duty, site, sources, &sender) {
        Ok(()) => Ok(inbox),
        Err(fault) => Err(fault),
    }
}

/// Starts what brings items to the loop of a site.
fn start_site<R: Host, L: BufRead + Drop + Send + 'static>(
    rt: R,
    duty: Duty<'_, '_>,
    site: u16,
    sources: Sources<L>,
    inbox: &Sender<Inbox>,
) -> Result<(), ServeFault> {
    let Sources {
        terminal,
        keys,
        listener,
    } = sources;
    dial_sites(rt, duty, &keys, site, inbox)?;
    listen(rt, duty, listener, keys, inbox)?;
    start_window(rt, duty, inbox)?;
    start_ticking(rt, duty.order.beat, terminal, inbox)
}

/// Attends to a site until it is done.
fn attend_site<R: Host, C: BootCell>(
    rt: R,
    bank: &Bank,
    inbox: &Receiver<Inbox>,
    desk: &mut Desk,
    serving: &mut Process<C>,
) -> Result<(), ServeFault> {
    let _letters = serving.flush(&rt, rt.alloc(), false)?;
    desk.tell(rt, serving.me(), serving.standing());
    attend(rt, bank, inbox, desk, serving)
}

/// Serves a node or a client.
fn serve_other<R: Host, L: BufRead + Drop + Send + 'static>(
    rt: R,
    duty: Duty<'_, '_>,
    terminal: L,
    keys: Option<Keys>,
) -> Result<(), ServeFault> {
    match other_of(rt, duty) {
        Ok(serving) => keep_other(rt, duty, terminal, &keys, serving),
        Err(fault) => Err(fault),
    }
}

/// Serves a node or a client that was opened.
fn keep_other<R: Host, L: BufRead + Drop + Send + 'static, C: BootCell>(
    rt: R,
    duty: Duty<'_, '_>,
    terminal: L,
    keys: &Option<Keys>,
    serving: Process<C>,
) -> Result<(), ServeFault> {
    let mut serving = serving;
    host_other(rt, duty, terminal, keys, &mut serving)
}

/// Opens the streams of a node or a client, and attends to it until it is done.
fn host_other<R: Host, L: BufRead + Drop + Send + 'static, C: BootCell>(
    rt: R,
    duty: Duty<'_, '_>,
    terminal: L,
    keys: &Option<Keys>,
    serving: &mut Process<C>,
) -> Result<(), ServeFault> {
    let inbox = dial_all(rt, duty, terminal, keys)?;
    let setup = duty.bank.setup.copy()?;
    greet(rt, serving.request())?;
    let desk = TerminalDesk::new(rt.alloc(), setup, duty.order.stays, serving.request());
    let mut desk = Desk::Terminal(desk);
    attend(rt, duty.bank, &inbox, &mut desk, serving)
}

/// Has threads dial all sites, and bring ticks and lines. Answers what they bring.
fn dial_all<R: Host, L: BufRead + Drop + Send + 'static>(
    rt: R,
    duty: Duty<'_, '_>,
    terminal: L,
    keys: &Option<Keys>,
) -> Result<Receiver<Inbox>, ServeFault> {
    let (sender, inbox) = bounded(rt.alloc(), MOST_ITEMS)?;
    dial_sites(rt, duty, keys, 2 * duty.bank.setup.faults() + 1, &sender)?;
    start_window(rt, duty, &sender)?;
    start_ticking(rt, duty.order.beat, terminal, &sender)?;
    Ok(inbox)
}

/// Takes what comes, batch by batch, until the desk is done or a fault: each batch is written, and only then sent or shown.
fn attend<R: Host, C: BootCell>(
    rt: R,
    bank: &Bank,
    inbox: &Receiver<Inbox>,
    desk: &mut Desk,
    serving: &mut Process<C>,
) -> Result<(), ServeFault> {
    for _ in rt.forever() {
        let Ok(first) = inbox.recv(&rt) else {
            break;
        };
        let Batch { items, looks, .. } = batch_behind(rt, inbox, first)?;
        let items = desk.sift(rt.alloc(), serving.nonce(), items)?;
        let goes_on = take_batch(rt, items, desk, serving)?;
        let _letters = serving.flush(&rt, rt.alloc(), false)?;
        desk.tell(rt, serving.me(), serving.standing());
        answer_looks(&rt, rt.alloc(), &bank.setup, serving, looks);
        if !goes_on {
            break;
        }
    }
    Ok(())
}

/// What the loop takes at once.
#[derive(Drop)]
struct Batch {
    items: Vec<Inbox>,
    looks: Vec<Look>,
    has_tick: bool,
}

impl Batch {
    /// Puts an item behind those that are there. Ticks that waited behind other work count once. Looks beyond the first are
    /// dropped, and their windows say that the actor is busy.
    fn put(&mut self, item: Inbox) -> Result<(), AllocError> {
        match item {
            Inbox::Look(look) => {
                if self.looks.len() < MOST_LOOKS {
                    self.looks.push(look)?;
                }
            }
            Inbox::Tick => {
                if !self.has_tick {
                    self.has_tick = true;
                    self.items.push(Inbox::Tick)?;
                }
            }
            item => self.items.push(item)?,
        }
        Ok(())
    }
}

/// An item and what waits behind it, up to a batch.
fn batch_behind<R: Host>(
    rt: R,
    inbox: &Receiver<Inbox>,
    first: Inbox,
) -> Result<Batch, ServeFault> {
    let mut batch = Batch {
        items: Vec::new(rt.alloc()),
        looks: Vec::new(rt.alloc()),
        has_tick: false,
    };
    batch.put(first)?;
    for _ in 1..BATCH {
        let Ok(next) = inbox.try_recv(&rt) else {
            break;
        };
        batch.put(next)?;
    }
    Ok(batch)
}

/// Takes a batch. `false` where the desk is done.
fn take_batch<R: Host, C: BootCell>(
    rt: R,
    batch: Vec<Inbox>,
    desk: &mut Desk,
    serving: &mut Process<C>,
) -> Result<bool, ServeFault> {
    for item in batch {
        if !desk.take(rt, serving, item)? {
            return Ok(false);
        }
    }
    Ok(true)
}

/// Has a thread for each site before a place dial it.
fn dial_sites<R: Wires>(
    rt: R,
    duty: Duty<'_, '_>,
    keys: &Option<Keys>,
    before: u16,
    inbox: &Sender<Inbox>,
) -> Result<(), ServeFault> {
    let Duty { bank, me, .. } = duty;
    for place in bank.peers.places.as_slice() {
        if place.site >= before {
            continue;
        }
        let peer = ActorId::Site(place.site).number();
        let key = key_with(keys, peer)?;
        let Some(link) = Link::new(me, peer, bank.id, key) else {
            continue;
        };
        let address = Address {
            host: String::from_str(rt.alloc(), place.address.host.as_str())?,
            port: place.address.port,
        };
        start_dialing(rt, Dialed { address, link }, inbox)?;
    }
    Ok(())
}

/// The key with a peer; none where frames are not tagged.
fn key_with(keys: &Option<Keys>, peer: u16) -> Result<Option<[u8; 32]>, ServeFault>
    ensures { IsKeyWith keys.now peer result }
{
    match keys {
        None => Ok(None),
        Some(keys) => match keys.with(peer) {
            None => Err(ServeFault::Missing {
                paper: Paper::Keys,
                actor: peer,
            }),
            key => Ok(key),
        },
    }
}

fn start_dialing<R: Wires>(rt: R, dialed: Dialed, inbox: &Sender<Inbox>) -> Result<(), ServeFault> {
    let inbox = inbox.clone()?;
    match thread::spawn(&rt, move || dial(rt, dialed, inbox)) {
        Ok(_thread) => Ok(()),
        Err(_) => Err(ServeFault::Net),
    }
}

/// Has a thread put ticks, and another lines of the terminal, into the inbox.
fn start_ticking<R: Wires, L: BufRead + Drop + Send + 'static>(
    rt: R,
    beat: u32,
    terminal: L,
    inbox: &Sender<Inbox>,
) -> Result<(), ServeFault> {
    let ticks = inbox.clone()?;
    let lines = inbox.clone()?;
    let ticker = thread::spawn(&rt, move || tick(rt, beat, ticks));
    let reader = thread::spawn(&rt, move || read_lines(rt, terminal, lines));
    match (ticker, reader) {
        (Ok(_ticks), Ok(_lines)) => Ok(()),
        _ => Err(ServeFault::Net),
    }
}

/// The listener of a site, at its own address. Without keys it is of this machine alone, unless the network is trusted.
fn listener_of<R: Wires>(
    rt: R,
    order: &Order<'_>,
    peers: &Peers,
    site: u16,
) -> Result<TcpListener, ServeFault> {
    let Some(own) = peers.places.iter().find(|place| place.site == site) else {
        return Err(ServeFault::Folder(FolderWhy::Actor));
    };
    let is_open = order.keys.is_some() || order.trusts_network;
    bind(rt, &own.address, is_open, FolderWhy::Open)
}

/// A listener at an address, which has to be one of this machine where it may not be open to others.
fn bind<R: Wires>(
    rt: R,
    address: &Address,
    is_open: bool,
    why: FolderWhy,
) -> Result<TcpListener, ServeFault> {
    let mut found = [SocketAddr::new(IpAddr::V4(Ipv4Addr::LOCALHOST), 0); 1];
    match addresses_of(rt, address, &mut found) {
        Ok(count) if count > 0 => {}
        _ => return Err(ServeFault::Net),
    }
    if !is_open && !found[0].ip().is_loopback() {
        return Err(ServeFault::Folder(why));
    }
    match TcpListener::bind(&rt, found[0]) {
        Ok(listener) => Ok(listener),
        Err(_) => Err(ServeFault::Net),
    }
}

/// Has a thread show the actor over HTTP, where that is asked for: at an address of this machine, or to those who have a token.
fn start_window<R: Host>(
    rt: R,
    duty: Duty<'_, '_>,
    inbox: &Sender<Inbox>,
) -> Result<(), ServeFault> {
    let Some(word) = duty.order.http else {
        return Ok(());
    };
    let Some(address) = read_address(rt.alloc(), word.as_bytes())? else {
        return Err(ServeFault::Net);
    };
    let setup = duty.bank.setup.copy()?;
    let tokens = tokens_of(rt, &setup, duty.order.http_token)?;
    let listener = bind(rt, &address, tokens.is_some(), FolderWhy::Window)?;
    let others = duty.order.http_peers.unwrap_or("");
    let window = Window::new(rt.alloc(), setup, word, others, tokens)?;
    let shared: Arc<pvp_window::Shared, Global> = Arc::new(
        rt.alloc(),
        pvp_window::Shared::new(window),
    )?;
    let inbox = inbox.clone()?;
    match thread::spawn(&rt, move || show_all(rt, listener, shared, inbox)) {
        Ok(_thread) => Ok(()),
        Err(_) => Err(ServeFault::Net),
    }
}

/// Has a thread take the streams that others open.
fn listen<R: Wires>(
    rt: R,
    duty: Duty<'_, '_>,
    listener: TcpListener,
    keys: Option<Keys>,
    inbox: &Sender<Inbox>,
) -> Result<(), ServeFault> {
    let door = Door {
        me: duty.me,
        bank: duty.bank.id,
        keys,
        open: AtomicU64::new(0),
    };
    let door: Arc<Door, Global> = Arc::new(rt.alloc(), door)?;
    let inbox = inbox.clone()?;
    match thread::spawn(&rt, move || accept_all(rt, listener, door, inbox)) {
        Ok(_thread) => Ok(()),
        Err(_) => Err(ServeFault::Net),
    }
}
