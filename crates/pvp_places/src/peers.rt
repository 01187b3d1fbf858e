//! The peers file: where the sites of a bank listen.
ghost use Rattle.std.specs.Prelude.{◌≡◌, ◌==◌, map, IfOk};
ghost use Rattle.std.specs.List.{list_any};
ghost use Rattle.pvp_places.specs.PeersFile.{
  has_place,
  is_missing,
  lines_in,
  listens,
  missing_site,
  peers_in,
  read_as,
  with_life,
  with_peer,
  with_site,
};
ghost use Rattle.pvp_places.specs.Reading.{AddsLine, Reads, with_line};

use crate::address::{Address, read_address};
use crate::fault::{LineFault, PlaceFault, PlaceWhy};
use crate::names::site_named;
use crate::words::{is_skipped, two_words};
use pvp_text::next_line;
use pvp_types::Setup;
use std::alloc::Global;
use vr_types::{FIRST_SITE, MOST_SITES};

/// Where a site listens.
#[derive(Debug, Drop)]
pub struct Place {
    pub site: u16,
    pub address: Address,
}

/// What a peers file says.
#[derive(Debug, Drop)]
pub struct Peers {
    /// A place for each site, in the order of the file.
    pub places: Vec<Place>,
    /// How this life of the bank is named; nothing where no line names it.
    pub life: Vec<u8>,
}

/// Reads a peers file: a line `s0 HOST:PORT` for each site of the bank, and at most one `bank
/// NAME`, which names this life of the bank. Lines without words and those that begin with `#` are
/// skipped. The first wrong line is reported, then the first site that has none.
pub fn read_peers(alloc: Global, setup: &Setup, bytes: &[u8]) -> Result<Peers, PlaceFault>
    ensures { Reads read_as result (peers_in setup.now bytes.now) }
{
    let peers = read_lines(alloc, setup, bytes)?;
    match missing_site(setup, peers.places.as_slice()) {
        Some(site) => Err(PlaceFault::Missing(FIRST_SITE + site)),
        None => Ok(peers),
    }
}

/// What all lines say.
fn read_lines(alloc: Global, setup: &Setup, bytes: &[u8]) -> Result<Peers, PlaceFault>
    ensures { Reads read_as result (lines_in setup.now bytes.now) }
{
    let mut peers = Peers {
        places: Vec::new(alloc),
        life: Vec::new(alloc),
    };
    let mut number = 1;
    let mut rest = bytes;
    while let Some((line, after)) = next_line(rest) {
        if let Err(fault) = peers.read_line(alloc, setup, line) {
            return Err(fault.at(number));
        }
        number += 1;
        rest = after;
    }
    Ok(peers)
}

impl Peers {
    /// Keeps what a line says, behind what was read before it.
    fn read_line(&mut self, alloc: Global, setup: &Setup, line: &[u8]) -> Result<(), LineFault>
        ensures { AddsLine result (read_as self.new)
            (with_line (with_peer setup.now) (read_as self.old) line.now) }
    {
        if is_skipped(line) {
            return Ok(());
        }
        match two_words(line) {
            None => Err(LineFault::Wrong(PlaceWhy::Form)),
            Some((name, rest)) if name == b"bank".as_slice() => self.read_life(rest),
            Some((name, rest)) => self.read_place(alloc, setup, name, rest),
        }
    }

    /// Keeps what a line `bank NAME` says.
    fn read_life(&mut self, name: &[u8]) -> Result<(), LineFault>
        ensures { AddsLine result (read_as self.new) (with_life (read_as self.old) name.now) }
    {
        if !self.life.is_empty() {
            return Err(LineFault::Wrong(PlaceWhy::Twice));
        }
        self.life.extend_from_slice(name)?;
        Ok(())
    }

    /// Keeps what a line of a site's name says.
    fn read_place(
        &mut self,
        alloc: Global,
        setup: &Setup,
        name: &[u8],
        text: &[u8],
    ) -> Result<(), LineFault>
        ensures { AddsLine result (read_as self.new)
            (with_site setup.now (read_as self.old) name.now text.now) }
    {
        let Some(site) = site_named(setup, name) else {
            return Err(LineFault::Wrong(PlaceWhy::Name));
        };
        if has_place(self.places.as_slice(), site) {
            return Err(LineFault::Wrong(PlaceWhy::Twice));
        }
        let Some(address) = read_address(alloc, text)? else {
            return Err(LineFault::Wrong(PlaceWhy::Address));
        };
        self.places.push(Place { site, address })?;
        Ok(())
    }
}

/// Whether a site has a place.
fn has_place(places: &[Place], site: u16) -> bool
    ensures { result ≡ has_place (map listens places.now) site }
{
    is_among(places, site)
}

fn is_among(places: &[Place], site: u16) -> bool
    ensures { result ≡ list_any (λ p. p.site == site) places.now }
{
    places.iter().any(|place| place.site == site)
}

/// The first site of the bank that has no place.
fn missing_site(setup: &Setup, places: &[Place]) -> Option<u16>
    ensures { result ≡ missing_site setup.now (map listens places.now) }
{
    (0..u16::from(MOST_SITES)).find(|site| is_missing(setup, places, *site))
}

/// Whether the bank has a site, and the site no place.
fn is_missing(setup: &Setup, places: &[Place], site: u16) -> bool
    ensures { result ≡ is_missing setup.now (map listens places.now) site }
{
    u64::from(site) < setup.sites && !has_place(places, site)
}
