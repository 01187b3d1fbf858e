//! The bank's book and its nodes, one site that keeps the book, and a run of the whole world. What
//! else several sites do is tested by plays of the built program.

mod book;
mod falls;
mod nodes;
mod one_site;
mod ways;
mod world;
