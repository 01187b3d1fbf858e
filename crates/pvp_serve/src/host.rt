//! What a process of the bank needs of its machine.
pub use pvp_window::Wires;
use std::fs::{File, Files};
use std::io::{Eprint, Print};

/// Files and what prints too: what the loop of a process has.
pub trait Host: Wires + Files<File = File> + Print + Eprint {}

impl<R> Host for R
where
    R: Wires + Files<File = File> + Print + Eprint,
{}
