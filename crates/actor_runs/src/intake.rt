//! What comes over a stream between two processes, whole, cut and altered.

mod ends;
mod hellos;
mod pieces;
mod worked;
