//! The texts that the program reads and prints: setups, scripts, and what a run of a script writes.
#![tactic(auto)]

pub mod book;
pub mod laws;
pub mod script;
pub mod setup;

pub use book::{RunFault, run_book};
pub use script::{
    Field, Form, Kind, Kinds, Line, LineCode, LineFault, Row, Statement, Value, Word, WordFault,
    amount, commands, cut, firsts, next_line, next_word, read_script, value_of,
};
pub use setup::{TextFault, read_parts, read_setup};
