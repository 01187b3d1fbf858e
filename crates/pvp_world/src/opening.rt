//! The world before anything was done.
ghost use Rattle.std.specs.Prelude.{◌≡◌, ◌+◌, ◌*◌, ◌∷◌, length, map, IfOk};
ghost use Rattle.pvp_types.specs.Setup.{IsValid, faults};
ghost use Rattle.rtgs_node.specs.Node.{opening_node};
ghost use Rattle.headline.specs.Client.{opening_client};
ghost use Rattle.vr_types.specs.Site.{opening_site};
ghost use Rattle.pvp_world.specs.World.{AreEach, IsSite, IsNode, IsClient};

use crate::client::Client;
use pvp_book::Book;
use pvp_types::Setup;
use rtgs_node::Node;
use std::alloc::{AllocError, Global};
use vr_site::Replica;
use vr_types::{Boot, BootCell, Config};

/// The values that cells hold. `Err` where memory is refused.
pub fn held_by<C: BootCell>(alloc: Global, cells: &[C]) -> Result<Vec<Boot>, AllocError>
    ensures { IfOk result (λ held. held.items ≡ map C.held cells.now) }
{
    cells.iter().map(|cell| cell.load()).collect(alloc)
}

/// A site over each cell. `Err` where memory is refused.
pub fn sites_over<C: BootCell>(
    alloc: Global,
    setup: &Setup,
    cells: Vec<C>,
) -> Result<Vec<Replica<Book, C>>, AllocError>
    requires valid { IsValid setup.now }
    requires count { length cells.items ≡ 2 * faults setup.now + 1 }
    ensures cells { IfOk result (λ sites. map (λ site. site.cell) sites.items ≡ cells.items) }
    ensures sites { IfOk result (λ sites. AreEach (IsSite C.held setup.now) sites.items
        (map (opening_site (faults setup.now)) (map C.held cells.items))) }
{
    let f = setup.faults();
    let mut sites = Vec::with_capacity(alloc, cells.len())?;
    for (me, cell) in cells.into_iter().enumerate() {
        let config = Config { f, me: me as u16 };
        sites.push(Replica::new(alloc, config, setup.copy()?, cell)?)?;
    }
    Ok(sites)
}

/// A node for each currency. `Err` where memory is refused.
pub fn nodes_of(alloc: Global, setup: &Setup) -> Result<Vec<Node>, AllocError>
    requires { IsValid setup.now }
    ensures { IfOk result (λ nodes. AreEach (IsNode setup.now) nodes.items
        (map (λ currency. opening_node) setup.now.currencies)) }
{
    let mut nodes = Vec::with_capacity(alloc, setup.currencies.len())?;
    for ccy in 0..setup.currency_count() {
        nodes.push(Node::new(alloc, setup, ccy)?)?;
    }
    Ok(nodes)
}

/// The operator and the members. `Err` where memory is refused.
pub fn clients_of(alloc: Global, setup: &Setup) -> Result<Vec<Client>, AllocError>
    requires { IsValid setup.now }
    ensures { IfOk result (λ clients. AreEach (IsClient setup.now) clients.items
        (opening_client ∷ map (λ member. opening_client) setup.now.members)) }
{
    let mut clients = Vec::with_capacity(alloc, setup.members.len() + 1)?;
    for number in 0..setup.member_count() + 1 {
        clients.push(Client::new(setup, number))?;
    }
    Ok(clients)
}
