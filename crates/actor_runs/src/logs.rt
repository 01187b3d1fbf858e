//! Rooms whose history is in a journal, over a log in memory that fails, ways back, and histories
//! that are judged.

mod back;
mod histories;
mod old;
mod resumed;
mod rooms;
mod versions;
