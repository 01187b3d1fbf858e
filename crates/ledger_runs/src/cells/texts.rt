//! Texts of cells.

use pvp_cell::{OpenFault, StoreFault, boot_of, text_of};
use std::test::Fail;
use vr_types::Boot;

/// A count, and its text.
const TEXTS: &[(u32, [u8; 8])] = &[
    (0, [0, 0, 0, 0, 255, 255, 255, 255]),
    (1, [0, 0, 0, 1, 255, 255, 255, 254]),
    (256, [0, 0, 1, 0, 255, 255, 254, 255]),
    (0x0102_0304, [1, 2, 3, 4, 254, 253, 252, 251]),
    (u32::MAX, [255, 255, 255, 255, 0, 0, 0, 0]),
];

/// Bytes that are no text of a cell, and why.
const NO_TEXTS: &[(&[u8], OpenFault)] = &[
    (&[], OpenFault::Length),
    (&[0, 0, 0, 1, 255, 255, 255], OpenFault::Length),
    (&[0, 0, 0, 1, 255, 255, 255, 254, 0], OpenFault::Length),
    (&[0, 0, 0, 0, 0, 0, 0, 0], OpenFault::Damaged),
    (&[0, 0, 0, 1, 0, 0, 0, 1], OpenFault::Damaged),
    (&[0, 0, 0, 2, 255, 255, 255, 254], OpenFault::Damaged),
    (&[1, 0, 0, 0, 255, 255, 255, 254], OpenFault::Damaged),
];

/// Whether a count is written as this text, and read from it.
fn has_text(boots: u32, text: [u8; 8]) -> bool {
    text_of(Boot { boots }) == text && boot_of(&text) == Ok(Boot { boots })
}

#[test]
fn a_text_is_read_as_it_is_written(rt: HostRuntime) -> Result<(), Fail> {
    for (boots, text) in TEXTS {
        assert!(rt; has_text(*boots, *text), "of {boots}");
    }
    Ok(())
}

#[test]
fn other_bytes_are_refused(rt: HostRuntime) -> Result<(), Fail> {
    for (at, (bytes, why)) in NO_TEXTS.iter().enumerate() {
        assert!(rt; boot_of(*bytes) == Err(*why), "text {at}");
    }
    Ok(())
}

#[test]
fn a_fault_of_a_store_is_one_of_a_cell(rt: HostRuntime) -> Result<(), Fail> {
    assert!(rt; OpenFault::from(StoreFault::Failed) == OpenFault::Store);
    assert!(rt; OpenFault::from(StoreFault::NoMemory) == OpenFault::NoMemory);
    Ok(())
}
