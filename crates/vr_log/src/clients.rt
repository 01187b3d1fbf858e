//! The clients' table of a site: for each client its newest request, and the last answer to it.
ghost use Rattle.std.specs.Prelude.{◌≡◌, ℕ, ◌*◌, ◌==◌, ◌<◌, ◌≤◌, ◌++◌, List, Some, None, length, take, OnOk, OnErr, if◌then◌else◌};
ghost use Rattle.vr_types.specs.declared.row.RowOf.{RowOf};
ghost use Rattle.vr_types.specs.Rows.{newest};
ghost use Rattle.vr_types.specs.Pages.{page_rows};
ghost use Rattle.vr_log.specs.Clients.{HavePlaces, executed_of, rows_at};

use std::alloc::{AllocError, Global};
use vr_types::{Machine, PAGE_ROWS, RowOf, RowsOf};

/// The number of a client's newest row, 0 for none, and the number of its last executed row, with the answer to it.
#[derive(Clone, Copy)]
struct ClientOf<R> {
    newest: u32,
    answer: Option<(u32, R)>,
}

impl<R> ClientOf<R> {
    /// A client that has sent nothing.
    fn new() -> Self
        ensures { result ≡ record { newest = 0; answer = None } }
    {
        ClientOf {
            newest: 0,
            answer: None,
        }
    }

    /// The number of its last executed row, 0 for none.
    fn executed(&self) -> u32
        ensures { result ≡ executed_of self.now }
    {
        match &self.answer {
            Some((number, _)) => *number,
            None => 0,
        }
    }
}

/// For each client the number of its newest row, and what it was last answered. Clients have small numbers, so each
/// has its own place; a client without one has sent nothing.
#[derive(Drop)]
pub struct ClientsOf<R> {
    alloc: Global,
    table: Vec<ClientOf<R>>,
}

/// The clients of a machine.
pub type Clients<M> = ClientsOf<<M as Machine>::Reply>;

impl<R: Copy> ClientsOf<R> {
    ghost use Rattle.vr_types.specs.Rows.{newest};
    ghost use Rattle.vr_log.specs.Clients.{executed_in, known_in, newest_in, reply_in};

    /// No client has sent anything. It takes no memory.
    pub fn new(alloc: Global) -> Self
        ensures newest { (client : ℕ) → newest_in result client ≡ 0 }
        ensures reply { (client : ℕ) → reply_in result client ≡ None }
    {
        ClientsOf {
            alloc,
            table: Vec::new(alloc),
        }
    }

    /// The number of a client's newest row, 0 for none. It takes no memory.
    pub fn newest(&self, client: u16) -> u32
        ensures { result ≡ newest_in self.now client }
    {
        self.known(client).newest
    }

    /// Notes the number of a client's newest row. An `Err` leaves the table as it was.
    pub fn note(&mut self, client: u16, number: u32) -> Result<(), AllocError>
        ensures ok { OnOk result ((q : ℕ) →
            newest_in self.new q ≡ (if client == q then number else newest_in self.old q)) }
        ensures err { OnErr result ((q : ℕ) → newest_in self.new q ≡ newest_in self.old q) }
        ensures replies { (q : ℕ) → reply_in self.new q ≡ reply_in self.old q }
    {
        self.reach(client)?;
        self.set_newest(client, number);
        Ok(())
    }

    /// Notes the number of the newest row of a client that has a place.
    fn set_newest(&mut self, client: u16, number: u32)
        requires { client < length self.old.table.items }
        ensures newest { (q : ℕ) →
            newest_in self.new q ≡ (if client == q then number else newest_in self.old q) }
        ensures replies { (q : ℕ) → reply_in self.new q ≡ reply_in self.old q }
        ensures places { length self.new.table.items ≡ length self.old.table.items }
    {
        self.table[usize::from(client)].newest = number;
    }

    /// The number of a client's last executed row, and the answer to it. It takes no memory.
    pub fn reply(&self, client: u16) -> Option<(u32, R)>
        ensures { result ≡ reply_in self.now client }
    {
        self.known(client).answer
    }

    /// Notes that a client's row of this number was executed, with this answer. An `Err` leaves the table as it was.
    pub fn answered(&mut self, client: u16, number: u32, reply: R) -> Result<(), AllocError>
        ensures ok { OnOk result ((q : ℕ) →
            reply_in self.new q ≡ (if client == q then Some (number, reply)
            else reply_in self.old q)) }
        ensures err { OnErr result ((q : ℕ) → reply_in self.new q ≡ reply_in self.old q) }
        ensures newest { (q : ℕ) → newest_in self.new q ≡ newest_in self.old q }
    {
        self.reach(client)?;
        self.table[usize::from(client)].answer = Some((number, reply));
        Ok(())
    }

    /// What is known of a client.
    fn known(&self, client: u16) -> ClientOf<R>
        ensures { result ≡ known_in self.now client }
    {
        match self.table.get(usize::from(client)) {
            Some(known) => *known,
            None => ClientOf::new(),
        }
    }

    /// Makes a client's place where there is none. An `Err` leaves the table as it was.
    fn reach(&mut self, client: u16) -> Result<(), AllocError>
        ensures known { (q : ℕ) → known_in self.new q ≡ known_in self.old q }
        ensures there { OnOk result (client < length self.new.table.items) }
        ensures places { length self.old.table.items ≤ length self.new.table.items }
    {
        let place = usize::from(client);
        if place < self.table.len() {
            return Ok(());
        }
        self.table.resize(place + 1, ClientOf::new())
    }

    /// Notes the rows that are put at the end of a log. After an `Err` this may only be dropped.
    pub fn note_rows<C: Copy>(&mut self, rows: &RowsOf<C>) -> Result<(), AllocError>
        ensures ok { OnOk result ((log : List (RowOf C)) →
            ((q : ℕ) → newest_in self.old q ≡ newest log q) →
            (q : ℕ) → newest_in self.new q ≡ newest (log ++ rows.now) q) }
        ensures replies { (q : ℕ) → reply_in self.new q ≡ reply_in self.old q }
    {
        for page in 0..page_count(rows) {
            self.note_page(page_at(rows, page))?;
        }
        Ok(())
    }

    /// Notes the rows of a page that are put at the end of a log. After an `Err` this may only be dropped.
    fn note_page<C: Copy>(&mut self, page: &[RowOf<C>]) -> Result<(), AllocError>
        ensures ok { OnOk result ((log : List (RowOf C)) →
            ((q : ℕ) → newest_in self.old q ≡ newest log q) →
            (q : ℕ) → newest_in self.new q ≡ newest (log ++ page.now) q) }
        ensures replies { (q : ℕ) → reply_in self.new q ≡ reply_in self.old q }
    {
        for row in page {
            self.note(row.client, row.number)?;
        }
        Ok(())
    }

    /// Sets the newest numbers anew from a log whose first `done` rows were executed: only the rows behind these are
    /// read. The answers stay. An `Err` leaves the table as it was.
    pub fn rebuild<C: Copy>(&mut self, log: &RowsOf<C>, done: usize) -> Result<(), AllocError>
        ensures ok { OnOk result (((q : ℕ) →
            executed_in self.old q ≡ newest (take done log.now) q) →
            (q : ℕ) → newest_in self.new q ≡ newest log.now q) }
        ensures err { OnErr result ((q : ℕ) → newest_in self.new q ≡ newest_in self.old q) }
        ensures replies { (q : ℕ) → reply_in self.new q ≡ reply_in self.old q }
    {
        self.reach_all(log, done)?;
        self.forget_waiting();
        for at in done..log.len() {
            let row = log.row(at);
            self.set_newest(row.client, row.number);
        }
        Ok(())
    }

    /// Makes the places of the clients of all rows from this one on. An `Err` leaves the table as it was.
    fn reach_all<C: Copy>(&mut self, log: &RowsOf<C>, from: usize) -> Result<(), AllocError>
        ensures known { (q : ℕ) → known_in self.new q ≡ known_in self.old q }
        ensures there { OnOk result (HavePlaces self.new from (length log.now) log.now) }
    {
        for at in from..log.len() {
            self.reach(log.row(at).client)?;
        }
        Ok(())
    }

    /// Makes the last executed row of each client its newest.
    fn forget_waiting(&mut self)
        ensures newest { (q : ℕ) → newest_in self.new q ≡ executed_in self.old q }
        ensures replies { (q : ℕ) → reply_in self.new q ≡ reply_in self.old q }
        ensures places { length self.new.table.items ≡ length self.old.table.items }
    {
        for place in 0..self.table.len() {
            self.table[place].newest = self.table[place].executed();
        }
    }
}

/// On how many pages the rows of a list lie.
fn page_count<C: Copy>(rows: &RowsOf<C>) -> usize
    ensures { length rows.now ≤ page_rows * result }
{
    rows.len().div_ceil(PAGE_ROWS)
}

/// The rows of a page; none behind the last one.
pub(crate) fn page_at<C: Copy>(rows: &RowsOf<C>, page: usize) -> &[RowOf<C>]
    ensures { result.now ≡ rows_at rows.now page }
{
    match rows.page(page) {
        Some(lent) => lent,
        None => &[],
    }
}
