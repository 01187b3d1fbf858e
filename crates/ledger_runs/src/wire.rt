//! Frames and streams.

mod faults;
mod great;
mod sent;
mod streams;
mod worked;
