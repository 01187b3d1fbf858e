//! Runs of one site over a machine that adds numbers: each line of the table of events once with ample memory, its whole
//! outcome compared.

mod change;
mod events;
mod normal;
mod parts;
mod recovery;
mod refused_memory;
mod transfer;
mod trial;
