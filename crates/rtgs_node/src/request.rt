//! How a client's request is sent to the sites.
ghost use Rattle.std.specs.Prelude.{◌≡◌, ◌≤◌, IfOk};
ghost use Rattle.rtgs_node.specs.Node.{to_sites};

use pvp_book::Book;
use pvp_types::Cmd;
use std::alloc::{AllocError, Global};
use vr_types::{Envelope, EnvelopeOf, FIRST_SITE, MsgOf, RequestOf};

/// A client's REQUEST of this number to each of 2f+1 sites, in ascending order (section 4 of 'Viewstamped Replication
/// Revisited', MIT-CSAIL-TR-2012-021, sends it only to the primary at first). `Err` where memory is refused.
pub fn to_sites(
    alloc: Global,
    f: u16,
    client: u16,
    number: u32,
    cmd: Cmd,
) -> Result<Vec<Envelope<Book>>, AllocError>
    requires { f ≤ 3 }
    ensures { IfOk result (λ sent. sent.items ≡ to_sites f client number cmd) }
{
    (0..2 * f + 1)
        .map(|site| EnvelopeOf {
            from: client,
            to: FIRST_SITE + site,
            msg: MsgOf::Request(RequestOf { number, cmd }),
        })
        .collect(alloc)
}
