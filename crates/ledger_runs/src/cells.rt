//! Boot cells that are files, over stores that fail and folders.

mod failing;
mod faults;
mod folders;
mod killed;
mod opened;
mod texts;
