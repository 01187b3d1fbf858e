//! The status of the sites during a run, as each is seen under its lock.
ghost use Rattle.std.specs.Prelude.{◌≡◌, IfOk};
ghost use Rattle.pvp_live.specs.Sightings.{AreLooks, IsLook, sighting_of};

use pvp_parties::{PartyCellOf, PartyOf};
use pvp_rooms::Sight;
use std::alloc::{AllocError, Global};
use std::sync::Wait;
use vr_types::{BootCell, Status, is_site};

/// What is seen of a site: its status.
#[derive(Clone, Copy, Debug, PartialEq, Eq)]
pub struct Sighting {
    /// Its number as an actor.
    pub actor: u16,
    pub status: Status,
    /// 0 at a site that is down or recovers.
    pub view: u32,
}

/// Where an actor stands, if it is a site.
pub fn sighting_of<C: BootCell>(party: &PartyOf<C>) -> Option<Sighting>
    ensures { result ≡ sighting_of party.now }
{
    let PartyOf::Site(site) = party else {
        return None;
    };
    let replica = site.actor();
    Some(Sighting {
        actor: site.number(),
        status: replica.status(),
        view: replica.view(),
    })
}

/// What one look at an actor shows.
#[derive(Drop)]
struct Look {
    /// Where it stood, if it is a site.
    sighting: Option<Sighting>,
}

impl<C: BootCell> Sight<PartyOf<C>> for Look {
    ghost use Rattle.pvp_live.specs.Sightings.{sighting_of};

    ghost sees = { λ party look. look.sighting ≡ sighting_of party };

    fn see(&mut self, actor: &PartyOf<C>) {
        self.sighting = sighting_of(actor);
    }
}

/// Where the sites of these actors stand, each looked at once, in order. Another step may come between two looks. `Err`
/// where memory is refused.
pub fn look_at_sites<R: Wait, C: BootCell>(
    rt: &R,
    alloc: Global,
    cells: &[PartyCellOf<C>],
) -> Result<Vec<Option<Sighting>>, AllocError>
    ensures { IfOk result (λ looks. AreLooks C.BootCell cells.now looks.items) }
{
    let mut looks = Vec::new(alloc);
    for cell in cells {
        if is_site(cell.number()) {
            looks.push(look_at(rt, cell))?;
        }
    }
    Ok(looks)
}

/// Where the actor of a cell stands at this moment, if it is a site. It takes no memory.
fn look_at<R: Wait, C: BootCell>(rt: &R, cell: &PartyCellOf<C>) -> Option<Sighting>
    ensures { IsLook C.BootCell result }
{
    let mut look = Look { sighting: None };
    cell.look(rt, &mut look);
    look.sighting
}
