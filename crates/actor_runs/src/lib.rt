//! Tests of the bank's actors, over public names alone: how they are posted at, what they keep, and how they are judged.
//! They stand in one crate above those that they test: so those are proved once, and what they stand on is loaded once.
#![tactic(auto)]

#[cfg(test)]
mod intake;
#[cfg(test)]
mod journals;
#[cfg(test)]
mod live;
#[cfg(test)]
mod logs;
#[cfg(test)]
mod parties;
