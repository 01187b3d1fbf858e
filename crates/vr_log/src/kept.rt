//! What a running site stores: its log, its clients' table, its machine, and how many rows are executed.
ghost use Rattle.std.specs.Prelude.{◌≡◌, ℕ, ◌+◌, ◌<◌, ◌≤◌, ◌++◌, ◌∷◌, [], Some, slice_get, filter_map, IfOk, OnOk, IsTrue, ◌↔◌, length, max, min, take};
ghost use Rattle.std.specs.List.{starts_with};

use crate::clients::{Clients, page_at};
use std::alloc::{AllocError, Global};
use vr_types::{MAX_ROWS, Machine, PAGE_ROWS, Row, Rows, RowsOf, is_same};

/// A site's log: it is a list of rows, as messages carry them.
pub type Log<M> = Rows<M>;

/// The answer to a client's request, with the client and the number of the request.
#[derive(Clone, Copy, Debug, PartialEq, Eq)]
pub struct AnswerOf<R> {
    pub client: u16,
    pub number: u32,
    pub reply: R,
}

/// An answer of a machine.
pub type Answer<M> = AnswerOf<<M as Machine>::Reply>;

/// The log, the clients' table, the machine, and how many rows of the log the machine has executed.
#[derive(Drop)]
pub struct Kept<M: Machine> {
    pub log: Log<M>,
    pub clients: Clients<M>,
    pub machine: M,
    pub done: u16,
}

impl<M: Machine> Kept<M> {
    ghost use Rattle.vr_types.specs.Choice.{Choice, IsRight};
    ghost use Rattle.vr_types.specs.Rows.{is_same_row as same_row};
    ghost use Rattle.vr_types.specs.Step.{places_between};
    ghost use Rattle.vr_log.specs.Kept.{IsKept, IsReady, KeepsExecuted, answer_to};

    /// Puts a row at the log's end. After an `Err` this may only be dropped.
    pub fn append(&mut self, row: Row<M>) -> Result<(), AllocError>
        requires { length self.old.log < MAX_ROWS }
        ensures log { OnOk result (self.new.log ≡ self.old.log ++ row ∷ []) }
        ensures done { self.new.done ≡ self.old.done }
        ensures machine { self.new.machine ≡ self.old.machine }
        ensures kept { OnOk result ((start : M) → IsKept M.Machine start self.old →
            IsKept M.Machine start self.new) }
    {
        self.clients.note(row.client, row.number)?;
        self.log.push(row)?;
        Ok(())
    }

    /// Whether the log that has these rows after its first `base` still begins with the executed rows. It takes no
    /// memory.
    pub fn keeps_executed(&self, base: usize, rows: &RowsOf<M::Cmd>) -> bool
        requires ready { IsReady M.Machine self.now }
        requires base { base ≤ length self.now.log }
        ensures same { (f : ℕ) (choose : Choice M.Cmd) → IsRight f choose →
            result ≡ starts_with (same_row choose.same) (take base self.now.log ++ rows.now)
            (take self.now.done self.now.log) }
        ensures keeps { IsTrue result →
            KeepsExecuted self.now (take base self.now.log ++ rows.now) }
    {
        let done = self.done as usize;
        let _len = self.log.len();
        if base + rows.len() < done {
            return false;
        }
        let start = if base == 0 {
            same_pages::<M>(&self.log, rows, done)
        } else {
            base
        };
        for at in start..done {
            if !is_same_row::<M>(rows.row(at - base), self.log.row(at)) {
                return false;
            }
        }
        true
    }

    /// Keeps the first `base` rows of the log, and puts these behind them. With `base` 0 the rows are moved, not
    /// copied. Rows that are executed already are not noted again in the clients' table. After an `Err` this may only
    /// be dropped.
    pub fn take_rows(&mut self, base: usize, rows: RowsOf<M::Cmd>) -> Result<(), AllocError>
        requires base { base ≤ length self.old.log }
        requires few { base + length rows ≤ MAX_ROWS }
        ensures log { OnOk result (self.new.log ≡ take base self.old.log ++ rows) }
        ensures done { self.new.done ≡ self.old.done }
        ensures machine { self.new.machine ≡ self.old.machine }
        ensures kept { OnOk result ((start : M) →
            KeepsExecuted self.old (take base self.old.log ++ rows) →
            IsKept M.Machine start self.old → IsKept M.Machine start self.new) }
        ensures ready { OnOk result (KeepsExecuted self.old (take base self.old.log ++ rows) →
            IsReady M.Machine self.old → IsReady M.Machine self.new) }
    {
        if base == self.log.len() {
            self.clients.note_rows(&rows)?;
            return self.log.replace_from(base, rows);
        }
        self.log.replace_from(base, rows)?;
        self.clients.rebuild(&self.log, self.done as usize)
    }

    /// Executes the rows up to this place, as far as the log goes, and gives their answers in order.
    /// After an `Err` this may only be dropped.
    pub fn execute(&mut self, alloc: Global, upto: u16) -> Result<Vec<Answer<M>>, AllocError>
        requires { IsReady M.Machine self.old }
        ensures done { OnOk result (self.new.done ≡ max self.old.done
            (min upto (length self.old.log))) }
        ensures log { self.new.log ≡ self.old.log }
        ensures ready { OnOk result (IsReady M.Machine self.new) }
        ensures kept { OnOk result ((start : M) → IsKept M.Machine start self.old →
            IsKept M.Machine start self.new) }
        ensures answers { IfOk result (λ answers. (start : M) → IsKept M.Machine start self.old →
            answers.items ≡ filter_map (answer_to M.Machine start self.old.log)
            (places_between self.old.done self.new.done)) }
    {
        let mut answers = Vec::new(alloc);
        let end = (upto as usize).min(self.log.len());
        while (self.done as usize) < end {
            let row = self.log.row(self.done as usize);
            let answer = self.execute_next(row)?;
            answers.push(answer)?;
        }
        Ok(answers)
    }

    /// Executes the rows up to this place, as far as the log goes, and keeps no answers: a backup sends none. After an
    /// `Err` this may only be dropped.
    pub fn advance(&mut self, upto: u16) -> Result<(), AllocError>
        requires { IsReady M.Machine self.old }
        ensures done { OnOk result (self.new.done ≡ max self.old.done
            (min upto (length self.old.log))) }
        ensures log { self.new.log ≡ self.old.log }
        ensures ready { OnOk result (IsReady M.Machine self.new) }
        ensures kept { OnOk result ((start : M) → IsKept M.Machine start self.old →
            IsKept M.Machine start self.new) }
    {
        let last = (upto as usize).min(self.log.len());
        while (self.done as usize) < last {
            let row = self.log.row(self.done as usize);
            let _answer = self.execute_next(row)?;
        }
        Ok(())
    }

    /// Executes the next row. After an `Err` this may only be dropped.
    fn execute_next(&mut self, row: Row<M>) -> Result<Answer<M>, AllocError>
        requires row { slice_get self.old.log self.old.done ≡ Some row }
        requires ready { IsReady M.Machine self.old }
        ensures done { OnOk result (self.new.done ≡ self.old.done + 1) }
        ensures log { self.new.log ≡ self.old.log }
        ensures ready { OnOk result (IsReady M.Machine self.new) }
        ensures kept { OnOk result ((start : M) → IsKept M.Machine start self.old →
            IsKept M.Machine start self.new) }
        ensures answer { IfOk result (λ answer. (start : M) → IsKept M.Machine start self.old →
            answer_to M.Machine start self.old.log (self.old.done + 1) ≡ Some answer) }
    {
        let _len = self.log.len();
        let reply = self.machine.apply(row.client, row.cmd)?;
        self.clients.answered(row.client, row.number, reply)?;
        self.done += 1;
        Ok(AnswerOf {
            client: row.client,
            number: row.number,
            reply,
        })
    }
}

/// How many of the first rows of two lists are the same, counted in whole pages, and at most `most`.
fn same_pages<M: Machine>(a: &Rows<M>, b: &Rows<M>, most: usize) -> usize
    ensures few { result ≤ most }
    ensures same { take result a.now ≡ take result b.now }
{
    let whole = most / PAGE_ROWS;
    for page in 0..whole {
        if !is_same_page::<M>(page_at(a, page), page_at(b, page)) {
            return page * PAGE_ROWS;
        }
    }
    whole * PAGE_ROWS
}

/// Whether the rows of two pages are the same.
fn is_same_page<M: Machine>(a: &[Row<M>], b: &[Row<M>]) -> bool
    ensures { IsTrue result → a.now ≡ b.now }
{
    if a.len() != b.len() {
        return false;
    }
    for at in 0..a.len() {
        if !is_same_row::<M>(a[at], b[at]) {
            return false;
        }
    }
    true
}

/// Whether two rows are the same.
fn is_same_row<M: Machine>(a: Row<M>, b: Row<M>) -> bool
    ensures { IsTrue result ↔ (a ≡ b) }
{
    a.client == b.client && a.number == b.number && is_same::<M>(a.cmd, b.cmd)
}
