//! The post: what was sent is put on it, and reported.
ghost use Rattle.std.specs.Prelude.{◌≡◌, ◌≢◌, ◌+◌, ◌≤◌, ◌++◌, [], None, length, IfOk, IsOk, OnOk, OnErr, IsErrOf, Err, vec_len, vec_capacity};
ghost use Rattle.vr_types.specs.declared.event.SiteFault.TheVariants.{CellFault};
ghost use Rattle.vr_types.specs.Cell.{HasRisen};
ghost use Rattle.pvp_types.specs.declared.setup.Setup.{Setup};
ghost use Rattle.pvp_world.specs.Steps.{IsReport, is_fall};
ghost use Rattle.pvp_world.specs.Serving.{Serves};

use crate::report::Report;
use pvp_book::Book;
use std::alloc::{AllocError, Global};
use vr_site::Replica;
use vr_types::{BootCell, Envelope, Event, SiteFault, Why};

/// The greatest number of envelopes that a node or a client sends at once: one to each site.
pub const MOST_SENT: usize = 7;

/// A site handles an event, and what it sends is put on the post. If memory is refused for the post, the site falls.
pub fn serve<C: BootCell>(
    alloc: Global,
    site: &mut Replica<Book, C>,
    event: Event<Book>,
    post: &mut Vec<Envelope<Book>>,
) -> Result<Report, SiteFault>
    ensures serves { (setup : Setup) (i : _) →
        Serves C.held setup i site.old site.new event post.old.items post.new.items result }
    ensures cause { IsErrOf result CellFault →
        HasRisen (C.faults site.old.cell) (C.faults site.new.cell) }
    ensures counted { result ≢ Err CellFault → C.faults site.new.cell ≡ C.faults site.old.cell }
    ensures reliable { C.is_reliable site.old.cell →
        C.is_reliable site.new.cell × (result ≢ Err CellFault) }
{
    let out = match site.handle(alloc, event) {
        Ok(out) => out,
        Err(fault) => return Err(fault),
    };
    match put(post, out.sent, out.dropped) {
        Ok(report) => Ok(report),
        Err(_) => {
            site.fall();
            Err(SiteFault::NoMemory)
        }
    }
}

/// Whether a site's fault leaves it down; all others leave it as it was.
pub fn is_fall(fault: SiteFault) -> bool
    ensures { result ≡ is_fall fault }
{
    matches!(fault, SiteFault::NoMemory | SiteFault::CellFault)
}

/// Puts what was sent on the post. `Err` where memory is refused, and the post is then as it was; to put nothing never
/// fails.
fn put(
    post: &mut Vec<Envelope<Book>>,
    mut sent: Vec<Envelope<Book>>,
    dropped: Option<Why>,
) -> Result<Report, AllocError>
    ensures posted { OnOk result (post.new.items ≡ post.old.items ++ sent.items) }
    ensures report { IfOk result (IsReport post.old.items post.new.items dropped) }
    ensures err { OnErr result (post.new.items ≡ post.old.items) }
    ensures nothing { sent.items ≡ [] → IsOk result }
{
    let count = sent.len();
    if count == 0 {
        return Ok(Report {
            first: 0,
            count,
            dropped,
        });
    }
    let first = post.len() + 1;
    post.append(&mut sent)?;
    Ok(Report {
        first,
        count,
        dropped,
    })
}

/// Puts what was sent on a post that must have room for it.
pub fn put_in_room(post: &mut Vec<Envelope<Book>>, mut sent: Vec<Envelope<Book>>) -> Report
    requires { vec_len post.old + length sent.items ≤ vec_capacity post.old }
    ensures posted { post.new.items ≡ post.old.items ++ sent.items }
    ensures report { IsReport post.old.items post.new.items None result }
{
    let count = sent.len();
    let first = if count == 0 { 0 } else { post.len() + 1 };
    let _put = post.append(&mut sent);
    Report {
        first,
        count,
        dropped: None,
    }
}
