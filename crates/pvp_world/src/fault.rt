//! The faults of a world, and how they are printed.
ghost use Rattle.std.specs.Prelude.{◌≡◌};
ghost use Rattle.pvp_world.specs.Fault.{site_fault_text};
ghost use Rattle.pvp_world.specs.Steps.{told_as};

use headline::ClientFault;
use rtgs_node::NodeFault;
use std::fmt;
use vr_types::SiteFault;

/// Why a step was not taken.
#[derive(Clone, Copy, Debug, PartialEq, Eq)]
pub enum WorldFault {
    /// G1: no envelope has this number.
    NoSuchEnvelope,
    /// G2: there is no such actor.
    NoSuchActor,
    /// G3: the client still waits for the answer to its last request.
    Outstanding,
    /// S1 to S7: the site does not handle this.
    Site(SiteFault),
    /// N1 to N7: the node does not handle this.
    Node(NodeFault),
    /// C1: the client's request numbers are spent.
    Spent,
    /// G5: memory was refused for the trail, the post, a client, or the copy of an envelope that is delivered.
    NoMemory,
}

impl WorldFault {
    /// The world's fault for a client's fault.
    pub fn of_client(fault: ClientFault) -> Self
        ensures { result ≡ told_as fault }
    {
        match fault {
            ClientFault::Outstanding => WorldFault::Outstanding,
            ClientFault::Spent => WorldFault::Spent,
            ClientFault::NoMemory => WorldFault::NoMemory,
        }
    }
}

/// Why a fall was not taken as it was asked for.
#[derive(Clone, Copy, Debug, PartialEq, Eq)]
pub enum FallFault {
    /// Why the step has no fall: it would not be taken, or it is not one of a site (G2). Or S1 or S2, which the site
    /// met as it fell over another value.
    Step(WorldFault),
    /// G6: the site's cell then holds another value than the one asked for, and that is what the step saves.
    Elsewhere,
}

/// Prints the fault's code; for an actor's fault its own: S1 to S7, N1 to N7 or C1.
impl fmt::Display for WorldFault {
    ghost use Rattle.std.specs.Prelude.{Some};
    ghost use Rattle.pvp_world.specs.Fault.{fault_text};

    ghost output = { λ fault. Some (fault_text fault) };

    fn fmt<W: fmt::Write>(&self, f: &mut fmt::Formatter<W>) -> fmt::Result {
        match self {
            WorldFault::NoSuchEnvelope => f.write_str("G1"),
            WorldFault::NoSuchActor => f.write_str("G2"),
            WorldFault::Outstanding => f.write_str("G3"),
            WorldFault::Site(fault) => f.write_str(site_code(*fault)),
            WorldFault::Node(fault) => write!(f, "{fault}"),
            WorldFault::Spent => f.write_str("C1"),
            WorldFault::NoMemory => f.write_str("G5"),
        }
    }
}

/// The code of a site's fault.
fn site_code(fault: SiteFault) -> &'static str
    ensures { result.now ≡ site_fault_text fault }
{
    match fault {
        SiteFault::NoMemory => "S1",
        SiteFault::CellFault => "S2",
        SiteFault::NotUp => "S3",
        SiteFault::AlreadyUp => "S4",
        SiteFault::ViewsSpent => "S5",
        SiteFault::BootsSpent => "S6",
        SiteFault::NotMine => "S7",
    }
}

/// Prints the fault's code: the step's, or G6.
impl fmt::Display for FallFault {
    ghost use Rattle.std.specs.Prelude.{Some};
    ghost use Rattle.pvp_world.specs.Fault.{fall_fault_text};

    ghost output = { λ fault. Some (fall_fault_text fault) };

    fn fmt<W: fmt::Write>(&self, f: &mut fmt::Formatter<W>) -> fmt::Result {
        match self {
            FallFault::Step(fault) => write!(f, "{fault}"),
            FallFault::Elsewhere => f.write_str("G6"),
        }
    }
}
