//! The actors of a bank, in order of their numbers.
ghost use Rattle.std.specs.Prelude.{◌≡◌, ◌+◌, ◌*◌, ◌≤◌, ◌++◌, length, IfOk, OnOk};
ghost use Rattle.std.specs.List.{list_all, range_with_len};
ghost use Rattle.pvp_types.specs.Setup.{IsValid, faults};
ghost use Rattle.pvp_rooms.specs.Closing.{fresh_seats};
ghost use Rattle.pvp_live.specs.Bank.{numbers_of, opened_new};
ghost use Rattle.pvp_live.specs.Seating.{AreNew};

use pvp_parties::{Party, PartyCellOf, PartySeat, client_cell, node_cell, site_cell};
use pvp_rooms::Closed;
use pvp_types::Setup;
use std::alloc::{AllocError, Global};
use vr_types::{BootCell, FIRST_NODE, FIRST_SITE};

/// The cells of a bank's actors, with a seat each for every other actor and one for the script.
#[derive(Drop)]
pub struct Bank<C: BootCell> {
    /// In order of their numbers.
    pub cells: Vec<PartyCellOf<C>>,
    /// The seats for the script, by cell.
    pub own: Vec<PartySeat>,
    /// The others, by cell.
    pub seats: Vec<Vec<PartySeat>>,
}

impl<C: BootCell> Bank<C> {
    /// The actors of a bank as they open, each site over one of these boot cells. `Err` where memory is refused.
    pub fn open(alloc: Global, setup: &Setup, boots: Vec<C>) -> Result<Self, AllocError>
        requires valid { IsValid setup.now }
        requires sites { length boots.items ≡ 2 * faults setup.now + 1 }
        ensures { IfOk result (λ bank. AreNew bank.cells.items bank.own.items) }
    {
        let mut bank = Bank {
            cells: Vec::new(alloc),
            own: Vec::new(alloc),
            seats: Vec::new(alloc),
        };
        let seats = count_of(setup);
        bank.add_clients(alloc, setup, seats)?;
        bank.add_nodes(alloc, setup, seats)?;
        bank.add_sites(alloc, setup, boots, seats)?;
        Ok(bank)
    }

    /// Adds a cell with its seats, of which the last is for the script.
    fn add(&mut self, made: (PartyCellOf<C>, Vec<PartySeat>)) -> Result<(), AllocError>
        requires some { 1 ≤ made.0.seats }
        requires fresh { made.1.items ≡ fresh_seats made.0.seats made.0.number }
        requires new { AreNew self.old.cells.items self.old.own.items }
        ensures { OnOk result (AreNew self.new.cells.items self.new.own.items) }
    {
        let (cell, mut seats) = made;
        let own = seats.pop().unwrap();
        self.cells.push(cell)?;
        self.own.push(own)?;
        self.seats.push(seats)?;
        Ok(())
    }

    /// Adds the operator and the members.
    fn add_clients(&mut self, alloc: Global, setup: &Setup, seats: u16) -> Result<(), AllocError>
        requires valid { IsValid setup.now }
        requires some { 1 ≤ seats }
        requires new { AreNew self.old.cells.items self.old.own.items }
        ensures { OnOk result (AreNew self.new.cells.items self.new.own.items) }
    {
        for client in 0..setup.member_count() + 1 {
            self.add(client_cell(alloc, setup, client, seats)?)?;
        }
        Ok(())
    }

    /// Adds the nodes.
    fn add_nodes(&mut self, alloc: Global, setup: &Setup, seats: u16) -> Result<(), AllocError>
        requires valid { IsValid setup.now }
        requires some { 1 ≤ seats }
        requires new { AreNew self.old.cells.items self.old.own.items }
        ensures { OnOk result (AreNew self.new.cells.items self.new.own.items) }
    {
        for ccy in 0..setup.currency_count() {
            self.add(node_cell(alloc, setup, ccy, seats)?)?;
        }
        Ok(())
    }

    /// Adds the sites, one over each of these boot cells.
    fn add_sites(
        &mut self,
        alloc: Global,
        setup: &Setup,
        boots: Vec<C>,
        seats: u16,
    ) -> Result<(), AllocError>
        requires valid { IsValid setup.now }
        requires sites { length boots.items ≡ 2 * faults setup.now + 1 }
        requires some { 1 ≤ seats }
        requires new { AreNew self.old.cells.items self.old.own.items }
        ensures { OnOk result (AreNew self.new.cells.items self.new.own.items) }
    {
        for (site, boot) in boots.into_iter().enumerate() {
            self.add(site_cell(alloc, setup, site as u16, boot, seats)?)?;
        }
        Ok(())
    }
}

/// The numbers of a bank's actors: the operator and the members, the nodes, the sites. `Err` where memory is refused.
pub fn numbers_of(alloc: Global, setup: &Setup) -> Result<Vec<u16>, AllocError>
    requires { IsValid setup.now }
    ensures { IfOk result (λ numbers. numbers.items ≡ numbers_of setup.now) }
{
    let mut numbers = Vec::new(alloc);
    add_range(&mut numbers, 0, setup.member_count() + 1)?;
    add_range(&mut numbers, FIRST_NODE, u16::from(setup.currency_count()))?;
    add_range(&mut numbers, FIRST_SITE, 2 * setup.faults() + 1)?;
    Ok(numbers)
}

/// How many actors a bank has.
fn count_of(setup: &Setup) -> u16
    requires { IsValid setup.now }
    ensures { 1 ≤ result }
{
    setup.member_count() + 1 + u16::from(setup.currency_count()) + 2 * setup.faults() + 1
}

/// Adds so many numbers from one on.
fn add_range(numbers: &mut Vec<u16>, first: u16, count: u16) -> Result<(), AllocError>
    requires { first + count ≤ 65535 }
    ensures { OnOk result (numbers.new.items ≡ numbers.old.items ++ range_with_len first count) }
{
    for at in 0..count {
        numbers.push(first + at)?;
    }
    Ok(())
}

/// Whether each site of a bank opened over a new cell.
pub fn began_new(closed: &[Closed<Party>]) -> bool
    ensures { result ≡ list_all opened_new closed.now }
{
    closed.iter().all(opened_new)
}

/// Whether it opened over a new cell, if over any.
fn opened_new(one: &Closed<Party>) -> bool
    ensures { result ≡ opened_new one.now }
{
    match one.opening {
        Some(boot) => boot.is_new(),
        None => true,
    }
}
