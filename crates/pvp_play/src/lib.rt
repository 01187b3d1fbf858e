//! A script played in the bank's world, and the printed books of a world.
#![tactic(auto)]

pub mod books;
pub mod cells;
pub mod chaos;
pub mod lines;
pub mod notes;
pub mod passing;
pub mod player;

pub use books::print_books;
pub use cells::Fail;
pub use chaos::rage;
pub use lines::{do_line, play, play_failing, trace};
pub use notes::Telling;
pub use player::Player;
