//! The program's tests that take a reader, a writer or a machine of their own: files for which there is no memory, writers that
//! fail, a machine without a net, and live runs that are played again. What the built program prints of files is held by
//! `.ci/texts`. It has tests alone, so that the crates below are proved once.
#![tactic(auto)]

#[cfg(test)]
mod files;
#[cfg(test)]
mod lives;
