//! The state of a running site.
use crate::kept::Kept;
use vr_types::{Known, Machine, RowsOf, Status};

/// A STARTVIEWCHANGE of the site's view.
#[derive(Drop)]
pub struct StartOf {
    /// The site that sent it.
    pub from: u16,
    /// The boot numbers that this site knew.
    pub known: Known,
}

/// A vote for the site's view, kept by the primary of that view.
#[derive(Drop)]
pub struct VoteOf<C> {
    /// The site that votes.
    pub from: u16,
    pub last_normal: u32,
    pub done: u16,
    pub log: RowsOf<C>,
    /// The boot numbers that the voter knew.
    pub known: Known,
}

/// A site that is normal or changes its view.
#[derive(Drop)]
pub struct Running<M: Machine> {
    pub status: Status,
    pub view: u32,
    /// The last view in which the site was normal.
    pub last_normal: u32,
    pub kept: Kept<M>,
    /// The boot numbers that the site knows.
    pub known: Known,
    /// For each site the place up to which it acknowledged the log in this view.
    pub acked: Vec<u16>,
    /// The first STARTVIEWCHANGE of each site, of this view.
    pub starts: Vec<StartOf>,
    /// Whether the site's own DOVIEWCHANGE of this view is made.
    pub voted: bool,
    /// The first DOVIEWCHANGE of each site, at the primary of this view.
    pub votes: Vec<VoteOf<M::Cmd>>,
}
