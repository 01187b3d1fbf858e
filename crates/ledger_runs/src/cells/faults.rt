//! Each fault, once.

use self::Case::{Bytes, CutOff, Lost};
use crate::cells::opened::{OLD, has_count, is_made, store};
use pvp_cell::{CutStore, MemStore, OpenFault, Store, create_cell, read_cell};
use std::alloc::Global;
use std::test::Fail;
use vr_types::Boot;

/// What stands in a store.
#[derive(Clone, Copy)]
enum Case {
    /// No cell.
    Lost,
    /// These bytes in the place of a cell.
    Bytes(&'static [u8]),
    /// A cell with the old count; the store is cut off after so many calls.
    CutOff(u64),
}

/// What comes of opening each.
const CASES: &[(Case, Result<u32, OpenFault>)] = &[
    (Lost, Err(OpenFault::Lost)),
    (Bytes(&[]), Err(OpenFault::Length)),
    (Bytes(&[0; 7]), Err(OpenFault::Length)),
    (Bytes(&[0; 16]), Err(OpenFault::Length)),
    (
        Bytes(b"\x00\x00\x00\x07\xff\xff\xff\xf9"),
        Err(OpenFault::Damaged),
    ),
    (CutOff(0), Err(OpenFault::Store)),
    (CutOff(4), Err(OpenFault::Store)),
    (CutOff(5), Ok(OLD)),
];

/// Whether that comes of it.
fn is_right(alloc: Global, case: Case, want: Result<u32, OpenFault>) -> bool {
    match case {
        Lost => has_count(alloc, MemStore::new(), want),
        Bytes(bytes) => bytes.len() <= 16 && has_count(alloc, MemStore::of(bytes), want),
        CutOff(calls) => has_count(alloc, CutStore::new(store(false), calls), want),
    }
}

#[test]
fn each_fault_is_told(rt: HostRuntime) -> Result<(), Fail> {
    for (at, (case, want)) in CASES.iter().enumerate() {
        assert!(rt; is_right(rt.alloc(), *case, *want), "case {at}");
    }
    Ok(())
}

/// Whether a cell is made in a store, or refused so.
fn makes<S: Store>(alloc: Global, store: &mut S, want: Result<(), OpenFault>) -> bool {
    create_cell(alloc, store) == want
}

/// Whether a cell is made in a store once alone, and is then a new one.
fn makes_once<S: Store>(alloc: Global, store: &mut S) -> bool {
    makes(alloc, store, Ok(()))
        && makes(alloc, store, Err(OpenFault::Present))
        && read_cell(alloc, store) == Ok(Boot::new())
}

#[test]
fn a_cell_is_made_once(rt: HostRuntime) -> Result<(), Fail> {
    assert!(rt; makes_once(rt.alloc(), &mut MemStore::new()));
    Ok(())
}

/// Whether a cell that is there is not made, and stays.
fn stays(alloc: Global) -> bool {
    let mut store = store(false);
    makes(alloc, &mut store, Err(OpenFault::Present)) && has_count(alloc, store.crash(), Ok(OLD))
}

#[test]
fn a_cell_that_is_there_stays(rt: HostRuntime) -> Result<(), Fail> {
    assert!(rt; stays(rt.alloc()));
    Ok(())
}

#[test]
fn a_store_that_fails_is_told(rt: HostRuntime) -> Result<(), Fail> {
    let cut = CutStore::new(MemStore::new(), 4);
    assert!(rt; is_made(rt.alloc(), cut, Some(OpenFault::Store)));
    Ok(())
}
