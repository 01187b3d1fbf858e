//! Streams that are posted at actors behind locks, and systems at work.

mod common;
mod frames;
mod kinds;
mod loopback;
mod streams;
mod systems;
