//! The parts that sites are made of: rows, the clients' table, a cell, what is known of boots.

use self::Look::{Len, Page, Row};
use crate::sites::events::{known, row, rows};
use fixtures::Ask;
use std::alloc::{AllocError, Global};
use std::process::Abort;
use std::test::Fail;
use vr_log::ClientsOf;
use vr_types::{Boot, BootCell, Known, MAX_ROWS, MemCell, RowOf, RowsOf};

/// Adds a row that has its place as its number.
fn push_next(rows: &mut RowsOf<Ask>) -> Result<(), AllocError> {
    if rows.len() < MAX_ROWS {
        rows.push(row(rows.len() as u32 + 1))?;
    }
    Ok(())
}

/// Rows of these many requests, numbered from 1.
fn numbered(alloc: Global, count: u32) -> Result<RowsOf<Ask>, AllocError> {
    let mut rows = RowsOf::new(alloc);
    for _ in 0..count {
        push_next(&mut rows)?;
    }
    Ok(rows)
}

/// How many rows a page has, and the number of its first; 0 and 0 for no page.
fn page_of(rows: &RowsOf<Ask>, page: usize) -> (usize, u32) {
    match rows.page(page) {
        Some(lent) => (lent.len(), lent.first().map_or(0, |row| row.number)),
        None => (0, 0),
    }
}

/// What is looked at in rows, and what is to stand there.
#[derive(Clone, Copy)]
enum Look {
    /// There are so many.
    Len(usize),
    /// Behind so many stands client 5's request of this number, or none.
    Row(usize, Option<u32>),
    /// The page of this place has so many rows, of which the first has this number; 0 and 0 where there is no such page.
    Page(usize, usize, u32),
}

/// Whether rows have what is looked for.
fn has(rows: &RowsOf<Ask>, look: Look) -> bool {
    match look {
        Look::Len(len) => rows.len() == len && rows.is_empty() == (len == 0),
        Look::Row(before, number) => rows.get(before) == number.map(row),
        Look::Page(page, len, first) => page_of(rows, page) == (len, first),
    }
}

/// Each look finds what is to stand there.
fn shows(rt: &impl Abort, rows: &RowsOf<Ask>, looks: &[Look]) {
    for (at, look) in looks.iter().enumerate() {
        assert!(rt; has(rows, *look), "look {at}");
    }
}

#[test]
fn rows_are_read_and_copied(rt: HostRuntime) -> Result<(), Fail> {
    const LONGER: &[Look] = &[Len(3), Row(2, Some(3)), Row(3, None)];
    const COPY: &[Look] = &[Len(2), Page(0, 2, 1), Page(1, 0, 0), Row(1, Some(2))];
    shows(&rt, &RowsOf::new(rt.alloc()), &[Len(0)]);
    let mut rows = numbered(rt.alloc(), 2)?;
    let copy = rows.copy(rt.alloc())?;
    push_next(&mut rows)?;
    shows(&rt, &rows, LONGER);
    shows(&rt, &copy, COPY);
    Ok(())
}

/// Of 64 rows.
const FULL: &[Look] = &[
    Len(64),
    Page(0, 64, 1),
    Page(1, 0, 0),
    Row(63, Some(64)),
    Row(64, None),
];

/// Of 65 rows.
const FOLLOWED: &[Look] = &[
    Len(65),
    Page(0, 64, 1),
    Page(1, 1, 65),
    Row(63, Some(64)),
    Row(64, Some(65)),
    Row(65, None),
];

#[test]
fn full_page_is_followed_by_a_new_one(rt: HostRuntime) -> Result<(), Fail> {
    let mut rows = numbered(rt.alloc(), 63)?;
    shows(&rt, &rows, &[Page(0, 63, 1)]);
    push_next(&mut rows)?;
    shows(&rt, &rows, FULL);
    push_next(&mut rows)?;
    shows(&rt, &rows, FOLLOWED);
    Ok(())
}

/// Where memory for the new page is refused, as in a run with that request refused, the 64 rows stay, and take the next one
/// then.
#[test]
fn refused_row_leaves_a_full_page(rt: HostRuntime) -> Result<(), Fail> {
    let mut rows = numbered(rt.alloc(), 64)?;
    if push_next(&mut rows).is_err() {
        shows(&rt, &rows, FULL);
        push_next(&mut rows)?;
    }
    shows(&rt, &rows, FOLLOWED);
    Ok(())
}

#[test]
fn longest_log_ends_one_short_of_a_full_page(rt: HostRuntime) -> Result<(), Fail> {
    const LONGEST: &[Look] = &[
        Len(65_535),
        Page(1023, 63, 65_473),
        Page(1024, 0, 0),
        Row(65_534, Some(65_535)),
    ];
    shows(&rt, &numbered(rt.alloc(), 65_535)?, LONGEST);
    Ok(())
}

/// Puts others in place of the rows behind so many.
fn replace(rows: &mut RowsOf<Ask>, before: usize, part: RowsOf<Ask>) -> Result<(), AllocError> {
    if before <= rows.len() && before.saturating_add(part.len()) <= MAX_ROWS {
        rows.replace_from(before, part)?;
    }
    Ok(())
}

/// A copy of the rows behind so many.
fn tail_of(alloc: Global, rows: &RowsOf<Ask>, before: usize) -> Result<RowsOf<Ask>, AllocError> {
    if before <= rows.len() {
        rows.copy_from(alloc, before)
    } else {
        Ok(RowsOf::new(alloc))
    }
}

#[test]
fn rows_behind_a_part_that_stays_lie_on_pages(rt: HostRuntime) -> Result<(), Fail> {
    const ROWS: &[Look] = &[
        Len(200),
        Page(1, 64, 65),
        Row(99, Some(100)),
        Row(100, Some(1)),
        Page(3, 8, 93),
    ];
    const TAIL: &[Look] = &[Len(70), Page(0, 64, 31), Page(1, 6, 95)];
    let alloc = rt.alloc();
    let mut rows = numbered(alloc, 200)?;
    replace(&mut rows, 100, numbered(alloc, 100)?)?;
    shows(&rt, &rows, ROWS);
    shows(&rt, &tail_of(alloc, &rows, 130)?, TAIL);
    Ok(())
}

#[test]
fn log_takes_rows_at_its_end_and_in_its_middle(rt: HostRuntime) -> Result<(), Fail> {
    const LOG: &[Look] = &[Len(3), Row(1, Some(3)), Row(3, None)];
    let alloc = rt.alloc();
    let mut log = numbered(alloc, 2)?;
    shows(&rt, &tail_of(alloc, &log, 1)?, &[Len(1)]);
    replace(&mut log, 1, rows(alloc, &[3, 4])?)?;
    shows(&rt, &log, LOG);
    Ok(())
}

fn has_newest(rt: &impl Abort, clients: &ClientsOf<u64>, client: u16, number: u32) {
    assert!(rt; clients.newest(client) == number);
}

fn has_reply(rt: &impl Abort, clients: &ClientsOf<u64>, client: u16, reply: Option<(u32, u64)>) {
    assert!(rt; clients.reply(client) == reply);
}

#[test]
fn clients_are_noted_and_answered(rt: HostRuntime) -> Result<(), Fail> {
    let alloc = rt.alloc();
    let mut clients: ClientsOf<u64> = ClientsOf::new(alloc);
    clients.note(5, 2)?;
    clients.answered(5, 1, 70)?;
    has_newest(&rt, &clients, 5, 2);
    has_newest(&rt, &clients, 6, 0);
    clients.rebuild(&rows(alloc, &[1])?, 1)?;
    has_newest(&rt, &clients, 5, 1);
    clients.rebuild(&rows(alloc, &[1, 4])?, 1)?;
    has_newest(&rt, &clients, 5, 4);
    has_reply(&rt, &clients, 5, Some((1, 70)));
    has_reply(&rt, &clients, 6, None);
    Ok(())
}

/// Saves a value; whether that was done, what the cell then has, and how often it failed.
fn saved(cell: &mut MemCell, boot: Boot) -> (bool, Boot, u64) {
    let is_done = cell.save(boot).is_ok();
    (is_done, cell.load(), cell.failures())
}

#[test]
fn cell_fails_once_and_counts_it(rt: HostRuntime) -> Result<(), Fail> {
    let first = Boot { boots: 1 };
    let second = Boot { boots: 2 };
    let mut cell = MemCell::failing(2, false);
    for (boot, want) in [
        (first, (true, first, 0)),
        (second, (false, first, 1)),
        (second, (true, second, 1)),
    ] {
        assert!(rt; saved(&mut cell, boot) == want);
    }
    Ok(())
}

/// The message is behind the first site, and is not at the last.
fn is_outdated(rt: &impl Abort, mine: &Known, told: &Known) {
    assert!(rt; mine.is_outdated(0, told) && !mine.is_outdated(2, told));
}

fn learn(mine: &mut Known, told: &Known) {
    if told.len() <= mine.len() {
        mine.learn(told);
    }
}

/// Three sites have these boots, and a fourth is not known of.
fn has_boots(rt: &impl Abort, known: &Known, boots: [u32; 3]) {
    let [first, second, third] = boots;
    assert!(rt;
        [known.get(0), known.get(1), known.get(2), known.get(3)] == [first, second, third, 0]
    );
    assert!(rt; known.len() == 3);
}

fn note_one(known: &mut Known) {
    if known.len() == 3 {
        known.note(1, 7);
    }
}

#[test]
fn what_is_known_only_grows(rt: HostRuntime) -> Result<(), Fail> {
    let mut mine = known(&[1, 0, 5]);
    let told = known(&[0, 2, 9]);
    is_outdated(&rt, &mine, &told);
    learn(&mut mine, &told);
    has_boots(&rt, &mine, [1, 2, 9]);
    let copy = mine;
    note_one(&mut mine);
    has_boots(&rt, &mine, [1, 7, 9]);
    has_boots(&rt, &copy, [1, 2, 9]);
    Ok(())
}
