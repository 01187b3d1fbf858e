//! The pages on which the rows of a log lie.
ghost use Rattle.std.specs.Prelude.{◌≡◌, ◌≢◌, ◌+◌, ◌-◌, ◌*◌, ◌==◌, ◌<◌, ◌≤◌, ◌%◌, ◌++◌, ◌∷◌, [], Some, slice_get, slice_range, IfOk, IsOk, OnOk, OnErr, length, take, drop, option_map, vec_capacity};
ghost use Rattle.vr_types.specs.Pages.{page_of, page_rows};

use crate::limits::{MAX_ROWS, PAGE_ROWS};
use crate::row::RowOf;
use std::alloc::{AllocError, Global};
use std::marker::Model;
use std::mem;
use std::sync::Arc;

/// Rows of a log, at most 65,535, on pages of 64. The room of a page is taken all at once. All pages but the last are
/// full; they never change, and copies share them. In clauses they are the list of the rows.
#[derive(Drop)]
pub struct PagedRows<C> {
    alloc: Global,
    full: Vec<Arc<Vec<RowOf<C>>>>,
    last: Vec<RowOf<C>>,
}

impl<C> Model for PagedRows<C> {
    ghost use Rattle.std.specs.Prelude.{List};
    ghost use Rattle.vr_types.specs.declared.row.RowOf.{RowOf};
    ghost use Rattle.vr_types.specs.Pages.{AreOnPages, rows_on};

    ghost Value = { List (RowOf C) };

    ghost view = { λ a. rows_on a.full.items a.last };

    ghost invariant = { λ a. AreOnPages a.full.items a.last };
}

impl<C: Copy> PagedRows<C> {
    /// No rows. It takes no memory.
    pub fn new(alloc: Global) -> Self
        ensures { result ≡ [] }
    {
        PagedRows {
            alloc,
            full: Vec::new(alloc),
            last: Vec::new(alloc),
        }
    }

    /// How many rows there are.
    pub fn len(&self) -> usize
        ensures length { result ≡ length self.now }
        ensures few { result ≤ MAX_ROWS }
    {
        self.full.len() * PAGE_ROWS + self.last.len()
    }

    /// Whether there is no row.
    pub fn is_empty(&self) -> bool
        ensures { result ≡ (length self.now == 0) }
    {
        self.last.is_empty()
    }

    /// The row at an index, counted from 0.
    pub fn get(&self, at: usize) -> Option<RowOf<C>>
        ensures { result ≡ slice_get self.now at }
    {
        if at < self.len() {
            Some(self.row(at))
        } else {
            None
        }
    }

    /// The row at an index within the list, counted from 0.
    pub fn row(&self, at: usize) -> RowOf<C>
        requires { at < length self.now }
        ensures { slice_get self.now at ≡ Some result }
    {
        let page = at / PAGE_ROWS;
        let within = at % PAGE_ROWS;
        if page < self.full.len() {
            let rows: &Vec<RowOf<C>> = &self.full[page];
            rows[within]
        } else {
            self.last[within]
        }
    }

    /// The rows of a page, counted from 0: rows 64p + 1 to 64p + 64 of page p, as far as there are rows; `None` where
    /// there are none. It takes no memory.
    pub fn page(&self, page: usize) -> Option<&[RowOf<C>]>
        ensures { option_map (λ lent. lent.now) result ≡ page_of self.now page }
    {
        if page < self.full.len() {
            let lent: &Vec<RowOf<C>> = &self.full[page];
            Some(lent.as_slice())
        } else if page == self.full.len() && !self.last.is_empty() {
            Some(self.last.as_slice())
        } else {
            None
        }
    }

    /// Puts a row at the end. Memory is taken only where a page begins, that is at lengths that are multiples of 64.
    /// An `Err` leaves the rows as they were.
    pub fn push(&mut self, row: RowOf<C>) -> Result<(), AllocError>
        requires { length self.old < MAX_ROWS }
        ensures ok { OnOk result (self.new ≡ self.old ++ row ∷ []) }
        ensures err { OnErr result (self.new ≡ self.old) }
        ensures room { length self.old % page_rows ≢ 0 → IsOk result }
    {
        if self.last.len() % PAGE_ROWS != 0 {
            self.last.push(row)?;
            return Ok(());
        }
        let mut page = Vec::with_capacity(self.alloc, PAGE_ROWS)?;
        page.push(row)?;
        self.full.reserve(1)?;
        let before = mem::replace(&mut self.last, page);
        if before.is_empty() {
            return Ok(());
        }
        match Arc::new(self.alloc, before) {
            Ok(shared) => {
                self.full.push(shared)?;
                Ok(())
            }
            Err(refused) => {
                self.last = refused.value;
                Err(AllocError)
            }
        }
    }

    /// Appends the rows of others from an index up to another, which is left out. After an `Err` this may only be
    /// dropped.
    fn append(&mut self, others: &PagedRows<C>, from: usize, to: usize) -> Result<(), AllocError>
        requires order { from ≤ to }
        requires there { to ≤ length others.now }
        requires few { length self.old + (to - from) ≤ MAX_ROWS }
        ensures { OnOk result (self.new ≡ self.old ++ slice_range others.now from to) }
    {
        for at in from..to {
            self.push(others.row(at))?;
        }
        Ok(())
    }

    /// Keeps the first `base` rows, and puts the new ones behind them. An `Err` leaves the rows as they were.
    pub fn replace_from(&mut self, base: usize, part: PagedRows<C>) -> Result<(), AllocError>
        requires some { 0 < base }
        requires base { base ≤ length self.old }
        requires few { base + length part ≤ MAX_ROWS }
        ensures ok { OnOk result (self.new ≡ take base self.old ++ part) }
        ensures err { OnErr result (self.new ≡ self.old) }
    {
        // the pages in front of the one with the last row that stays
        let whole = (base - 1) / PAGE_ROWS;
        let tail = self.joined(whole * PAGE_ROWS, base, part)?;
        let PagedRows { mut full, last, .. } = tail;
        self.full.reserve(full.len())?;
        self.full.truncate(whole);
        self.full.append(&mut full)?;
        self.last = last;
        Ok(())
    }

    /// The rows from an index up to another, with the new ones behind them. Where the former make one whole page, the
    /// pages of the latter are moved, not copied.
    fn joined(&self, from: usize, to: usize, part: PagedRows<C>) -> Result<PagedRows<C>, AllocError>
        requires order { from ≤ to }
        requires there { to ≤ length self.now }
        requires few { to - from + length part ≤ MAX_ROWS }
        ensures { IfOk result (λ rows. rows ≡ slice_range self.now from to ++ part) }
    {
        let mut rows = PagedRows::new(self.alloc);
        rows.append(self, from, to)?;
        if rows.len() == PAGE_ROWS && !part.is_empty() {
            return rows.in_front(part);
        }
        rows.append(&part, 0, part.len())?;
        Ok(rows)
    }

    /// These rows, which make one whole page, with others behind them, whose pages are moved, not copied.
    fn in_front(self, part: PagedRows<C>) -> Result<PagedRows<C>, AllocError>
        requires page { length self ≡ page_rows }
        requires some { 0 < length part }
        requires few { page_rows + length part ≤ MAX_ROWS }
        ensures { IfOk result (λ rows. rows ≡ self ++ part) }
    {
        let PagedRows {
            alloc,
            last: page,
            ..
        } = self;
        let PagedRows {
            full: mut behind,
            last,
            ..
        } = part;
        let first = Arc::new(alloc, page)?;
        let mut full = Vec::new(alloc);
        full.reserve(behind.len())?;
        full.push(first)?;
        full.append(&mut behind)?;
        Ok(PagedRows { alloc, full, last })
    }

    /// The rows after the first `base`. Where they begin at the start of a page, all pages but the last are shared,
    /// not copied.
    pub fn copy_from(&self, alloc: Global, base: usize) -> Result<PagedRows<C>, AllocError>
        requires { base ≤ length self.now }
        ensures { IfOk result (λ rows. rows ≡ drop base self.now) }
    {
        if base % PAGE_ROWS == 0 {
            return self.pages_from(alloc, base / PAGE_ROWS);
        }
        let mut rows = PagedRows::new(alloc);
        rows.append(self, base, self.len())?;
        Ok(rows)
    }

    /// The rows from a page on, pages counted from 0. All pages but the last are shared, not copied.
    fn pages_from(&self, alloc: Global, page: usize) -> Result<PagedRows<C>, AllocError>
        requires { page_rows * page ≤ length self.now }
        ensures { IfOk result (λ rows. rows ≡ drop (page_rows * page) self.now) }
    {
        if page > self.full.len() {
            return Ok(PagedRows::new(alloc));
        }
        let full = Vec::from_clones(alloc, &self.full[page..])?;
        let last = copy_of_page(alloc, &self.last)?;
        Ok(PagedRows { alloc, full, last })
    }
}

/// A copy of the rows of a page, with room for a whole page where there are rows.
fn copy_of_page<C: Copy>(alloc: Global, page: &Vec<RowOf<C>>) -> Result<Vec<RowOf<C>>, AllocError>
    ensures items { IfOk result (λ copy. copy.items ≡ page.now.items) }
    ensures room { IfOk result (λ copy. 0 < length page.now.items → page_rows ≤ vec_capacity copy) }
{
    if page.is_empty() {
        return Ok(Vec::new(alloc));
    }
    let mut copy = Vec::with_capacity(alloc, PAGE_ROWS)?;
    copy.extend_from_slice(page.as_slice())?;
    Ok(copy)
}
