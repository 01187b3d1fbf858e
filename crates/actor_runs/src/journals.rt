//! The bytes of journals, whole, cut and altered.

pub mod again;
mod broken;
mod faults;
mod kinds;
mod old;
pub mod sealed;
pub mod whole;
mod worked;
