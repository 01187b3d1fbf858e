//! The rows that were executed along a run, and what each came to.

ghost use Rattle.std.specs.Prelude.{◌≡◌, [], IfOk, OnOk};
ghost use Rattle.pvp_types.specs.Setup.{IsValid};
ghost use Rattle.pvp_book.specs.Ledger.{opening};
ghost use Rattle.pvp_picture.specs.Replay.{StayAnswered};

use pvp_book::Book;
use pvp_types::{Cmd, Reply, Setup};
use pvp_world::World;
use std::alloc::{AllocError, Global};
use vr_site::Replica;
use vr_types::{MAX_ROWS, MemCell, RowOf};

/// A row that was executed, and what it came to.
#[derive(Clone, Copy, Debug, PartialEq, Eq)]
pub struct Executed {
    pub row: RowOf<Cmd>,
    pub reply: Reply,
}

/// The rows that any site has executed, in the log's order, which is the same at all of them.
#[derive(Drop)]
pub struct Executions {
    /// A book that went through these rows.
    book: Book,
    rows: Vec<Executed>,
    /// How many they were before the first step, and after each.
    counts: Vec<usize>,
}

impl Executions {
    /// None yet, of a bank of this setup. `Err` where memory is refused.
    pub fn new(alloc: Global, setup: &Setup) -> Result<Self, AllocError>
        requires { IsValid setup.now }
        ensures rows { IfOk result (λ executions. executions.rows.items ≡ []) }
        ensures book { IfOk result (λ executions. executions.book ≡ opening setup.now) }
    {
        Ok(Executions {
            book: Book::fresh(alloc, setup)?,
            rows: Vec::new(alloc),
            counts: Vec::new(alloc),
        })
    }

    /// Notes what the sites of a world have executed after one more step. `Err` where memory is refused.
    pub fn note(&mut self, world: &World<MemCell>) -> Result<(), AllocError>
        ensures { OnOk result (StayAnswered self.old self.new) }
    {
        for number in 0..2 * world.setup().faults() + 1 {
            if let Some(site) = world.site(number) {
                self.note_site(site)?;
            }
        }
        self.counts.push(self.rows.len())?;
        Ok(())
    }

    /// Notes the rows that a site has executed and none did before.
    fn note_site(&mut self, site: &Replica<Book, MemCell>) -> Result<(), AllocError>
        ensures { OnOk result (StayAnswered self.old self.new) }
    {
        for place in self.rows.len()..site.done() {
            if let Some(row) = site.row(place + 1) {
                self.execute(row)?;
            }
        }
        Ok(())
    }

    /// Executes one more row.
    fn execute(&mut self, row: RowOf<Cmd>) -> Result<(), AllocError>
        ensures { OnOk result (StayAnswered self.old self.new) }
    {
        if self.book.applied() as usize >= MAX_ROWS {
            return Ok(());
        }
        let reply = self.book.apply(row.client, row.cmd)?;
        self.rows.push(Executed { row, reply })?;
        Ok(())
    }

    /// How many rows were executed before the step at a place, and up to it.
    pub fn counts_at(&self, place: usize) -> (usize, usize) {
        let before = self.counts.get(place).copied().unwrap_or(0);
        let after = self
            .counts
            .get(place.saturating_add(1))
            .copied()
            .unwrap_or(0);
        (before, after)
    }

    /// The row at a place, counted from 1, and what it came to.
    pub fn row(&self, place: usize) -> Option<Executed> {
        self.rows.get(place.checked_sub(1)?).copied()
    }
}
