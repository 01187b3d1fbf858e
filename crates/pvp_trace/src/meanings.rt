//! What the codes of a step's faults mean, and why a site drops an event, in words.

ghost use Rattle.std.specs.Prelude.{◌≡◌};
ghost use Rattle.pvp_trace.specs.Meanings.{meaning as meaning_of, site_meaning as site_meaning_of, node_meaning as node_meaning_of, why_text};

use pvp_world::WorldFault;
use rtgs_node::NodeFault;
use vr_types::{SiteFault, Why};

/// What a step's fault means.
pub fn meaning(fault: WorldFault) -> &'static str
    ensures { result.now ≡ meaning_of fault }
{
    match fault {
        WorldFault::NoSuchEnvelope => "no envelope has this number",
        WorldFault::NoSuchActor => "there is no such actor",
        WorldFault::Outstanding => "the client still waits for an answer",
        WorldFault::Site(fault) => site_meaning(fault),
        WorldFault::Node(fault) => node_meaning(fault),
        WorldFault::Spent => "the client has no greater request number",
        WorldFault::NoMemory => "memory was refused",
    }
}

/// What a site's fault means.
fn site_meaning(fault: SiteFault) -> &'static str
    ensures { result.now ≡ site_meaning_of fault }
{
    match fault {
        SiteFault::NoMemory => "memory was refused, and the site is down",
        SiteFault::CellFault => "the boot cell did not save, and the site is down",
        SiteFault::NotUp => "the site is down",
        SiteFault::AlreadyUp => "the site is not down",
        SiteFault::ViewsSpent => "there is no greater view",
        SiteFault::BootsSpent => "there is no greater boot number",
        SiteFault::NotMine => "not for this site, or of a sender who may not send it",
    }
}

/// What a node's fault means.
fn node_meaning(fault: NodeFault) -> &'static str
    ensures { result.now ≡ node_meaning_of fault }
{
    match fault {
        NodeFault::Short => "the account that pays is short",
        NodeFault::UnknownMember => "there is no such member",
        NodeFault::BadAmount => "the amount is not 1 to 1000000000000",
        NodeFault::NoMemory => "memory was refused",
        NodeFault::Spent => "the node has 65535 such payments",
        NodeFault::NotMine => "not for this node",
        NodeFault::Closed => "the member's account is closed",
    }
}

/// Why a site dropped an event.
pub fn reason(why: Why) -> &'static str
    ensures { result.now ≡ why_text why }
{
    match why {
        Why::Status => "the site's status takes no part in it",
        Why::View => "it is of another view",
        Why::NotPrimary => "another site is the primary",
        Why::Known => "the site has it already",
        Why::Stale => "it is of an earlier time, or does not fit the log",
        Why::Full => "the log is full",
    }
}
