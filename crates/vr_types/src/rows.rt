//! A list of rows that sites keep and messages carry.
ghost use Rattle.std.specs.Prelude.{◌≡◌, ◌≢◌, ◌+◌, ◌*◌, ◌==◌, ◌<◌, ◌≤◌, ◌%◌, ◌++◌, ◌∷◌, [], Some, slice_get, IfOk, IsOk, OnOk, OnErr, length, take, drop, option_map};
ghost use Rattle.vr_types.specs.Pages.{page_of, page_rows};

use crate::limits::MAX_ROWS;
use crate::machine::Machine;
use crate::paged::PagedRows;
use crate::row::RowOf;
use std::alloc::{AllocError, Global};
use std::marker::Model;

/// Rows of a log, at most 65,535, as a site keeps them and as a message carries them. In a message they take up one
/// pointer: they lie on pages behind it, which copies share. In clauses they are the list of the rows.
#[derive(Drop)]
pub struct RowsOf<C> {
    alloc: Global,
    /// The pages, once there was a row.
    pages: Option<Box<PagedRows<C>>>,
}

/// Rows of a machine's log.
pub type Rows<M> = RowsOf<<M as Machine>::Cmd>;

impl<C> Model for RowsOf<C> {
    ghost use Rattle.std.specs.Prelude.{List, [], length, ◌≤◌};
    ghost use Rattle.vr_types.specs.declared.limits.TheConstants.{MAX_ROWS};
    ghost use Rattle.vr_types.specs.declared.row.RowOf.{RowOf};
    ghost use Rattle.std.specs.Option.{option_map_or};

    ghost Value = { List (RowOf C) };

    ghost view = { λ a. option_map_or (λ pages. pages.value) a.pages [] };

    ghost invariant = { λ a. length (option_map_or (λ pages. pages.value) a.pages []) ≤ MAX_ROWS };
}

impl<C: Copy> RowsOf<C> {
    /// No rows. It takes no memory.
    pub fn new(alloc: Global) -> Self
        ensures { result ≡ [] }
    {
        RowsOf { alloc, pages: None }
    }

    /// The rows of these pages.
    fn of(alloc: Global, pages: PagedRows<C>) -> Result<Self, AllocError>
        ensures { IfOk result (λ rows. rows ≡ pages) }
    {
        let pages = Box::new(alloc, pages)?;
        Ok(RowsOf {
            alloc,
            pages: Some(pages),
        })
    }

    /// How many rows there are.
    pub fn len(&self) -> usize
        ensures length { result ≡ length self.now }
        ensures few { result ≤ MAX_ROWS }
    {
        match &self.pages {
            None => 0,
            Some(pages) => pages.len(),
        }
    }

    /// Whether there is no row.
    pub fn is_empty(&self) -> bool
        ensures { result ≡ (length self.now == 0) }
    {
        match &self.pages {
            None => true,
            Some(pages) => pages.is_empty(),
        }
    }

    /// The row at an index, counted from 0.
    pub fn get(&self, at: usize) -> Option<RowOf<C>>
        ensures { result ≡ slice_get self.now at }
    {
        match &self.pages {
            None => None,
            Some(pages) => pages.get(at),
        }
    }

    /// The row at an index within the list, counted from 0.
    pub fn row(&self, at: usize) -> RowOf<C>
        requires { at < length self.now }
        ensures { slice_get self.now at ≡ Some result }
    {
        match &self.pages {
            None => unreachable!(),
            Some(pages) => pages.row(at),
        }
    }

    /// The rows of a page, counted from 0: rows 64p + 1 to 64p + 64 of page p, as far as there are rows; `None` where
    /// there are none. It takes no memory.
    pub fn page(&self, page: usize) -> Option<&[RowOf<C>]>
        ensures { option_map (λ lent. lent.now) result ≡ page_of self.now page }
    {
        match &self.pages {
            None => None,
            Some(pages) => pages.page(page),
        }
    }

    /// Puts a row at the end. Memory is taken only where a page begins, that is at lengths that are multiples of 64.
    /// An `Err` leaves the rows as they were.
    pub fn push(&mut self, row: RowOf<C>) -> Result<(), AllocError>
        requires { length self.old < MAX_ROWS }
        ensures ok { OnOk result (self.new ≡ self.old ++ row ∷ []) }
        ensures err { OnErr result (self.new ≡ self.old) }
        ensures room { length self.old % page_rows ≢ 0 → IsOk result }
    {
        match &mut self.pages {
            Some(pages) => pages.push(row),
            None => {
                let mut pages = PagedRows::new(self.alloc);
                pages.push(row)?;
                self.pages = Some(Box::new(self.alloc, pages)?);
                Ok(())
            }
        }
    }

    /// Keeps the first `base` rows, and puts the new ones behind them. With `base` 0 the rows are moved, not copied.
    /// An `Err` leaves the rows as they were.
    pub fn replace_from(&mut self, base: usize, part: RowsOf<C>) -> Result<(), AllocError>
        requires base { base ≤ length self.old }
        requires few { base + length part ≤ MAX_ROWS }
        ensures ok { OnOk result (self.new ≡ take base self.old ++ part) }
        ensures err { OnErr result (self.new ≡ self.old) }
    {
        if base == 0 {
            *self = part;
            return Ok(());
        }
        match &mut self.pages {
            None => unreachable!(),
            Some(pages) => pages.replace_from(base, part.into_pages()),
        }
    }

    /// Their pages.
    fn into_pages(self) -> PagedRows<C>
        ensures { result ≡ self }
    {
        match self.pages {
            None => PagedRows::new(self.alloc),
            Some(pages) => Box::into_inner(pages),
        }
    }

    /// The rows after the first `base`. Where they begin at the start of a page, all pages but the last are shared,
    /// not copied.
    pub fn copy_from(&self, alloc: Global, base: usize) -> Result<RowsOf<C>, AllocError>
        requires { base ≤ length self.now }
        ensures { IfOk result (λ rows. rows ≡ drop base self.now) }
    {
        match &self.pages {
            None => Ok(RowsOf::new(alloc)),
            Some(pages) => RowsOf::of(alloc, pages.copy_from(alloc, base)?),
        }
    }

    /// A copy of the rows. All pages but the last are shared, not copied.
    pub fn copy(&self, alloc: Global) -> Result<Self, AllocError>
        ensures { IfOk result (λ copy. copy ≡ self.now) }
    {
        self.copy_from(alloc, 0)
    }
}
