//! Tests of what lies below the actors, over public names alone: one site, the bank's book, nodes and world, and what is read and
//! written. They stand in one crate above those that they test: so those are proved once, and what they stand on is loaded once.
#![tactic(auto)]

#[cfg(test)]
mod bank;
#[cfg(test)]
mod cells;
#[cfg(test)]
mod sites;
#[cfg(test)]
mod tags;
#[cfg(test)]
mod wire;
