//! How actors are numbered: the operator is 0, members follow from 1, nodes from 101, sites from 200.
ghost use Rattle.std.specs.Prelude.{◌≡◌};
ghost use Rattle.vr_types.specs.Actors as actors;

use crate::limits::{MOST_MEMBERS, MOST_NODES, MOST_SITES};

/// The number of the first currency's node.
pub const FIRST_NODE: u16 = 101;

/// The number of site 0.
pub const FIRST_SITE: u16 = 200;

/// An actor, by its kind and its number among those.
#[derive(Clone, Copy, Debug, PartialEq, Eq)]
pub enum ActorId {
    /// The operator, 0, or a member, from 1.
    Client(u16),
    /// The node of the currency of this number, from 0.
    Node(u16),
    /// The site of this number, from 0.
    Site(u16),
}

impl ActorId {
    /// The actor of a number: a site from 200 on, a node from 101 on, a client below.
    pub fn of(number: u16) -> Self
        ensures { result ≡ actors.id_of number }
    {
        if number >= FIRST_SITE {
            ActorId::Site(number - FIRST_SITE)
        } else if number >= FIRST_NODE {
            ActorId::Node(number - FIRST_NODE)
        } else {
            ActorId::Client(number)
        }
    }

    /// Its number among the sites, where it is one.
    pub fn site(self) -> Option<u16>
        ensures { result ≡ actors.site_in self }
    {
        match self {
            ActorId::Site(site) => Some(site),
            ActorId::Node(_) | ActorId::Client(_) => None,
        }
    }

    /// Its number among all actors; the greatest where it would be above that.
    pub fn number(self) -> u16
        ensures { result ≡ actors.number_of self }
    {
        match self {
            ActorId::Client(client) => client,
            ActorId::Node(ccy) => FIRST_NODE.saturating_add(ccy),
            ActorId::Site(site) => FIRST_SITE.saturating_add(site),
        }
    }
}

/// Whether an actor is a site: the numbers of sites are above all others.
pub fn is_site(actor: u16) -> bool
    ensures { result ≡ actors.is_site actor }
{
    actor >= FIRST_SITE
}

/// Whether an actor is a client: the operator, a member or a node.
pub fn is_client(actor: u16) -> bool
    ensures { result ≡ actors.is_client actor }
{
    actor <= MOST_MEMBERS || FIRST_NODE <= actor && actor < FIRST_NODE + MOST_NODES
}

/// Whether a number is an actor's: a client's or a site's.
pub fn is_actor(actor: u16) -> bool
    ensures { result ≡ actors.is_actor actor }
{
    is_client(actor) || FIRST_SITE <= actor && actor < FIRST_SITE + MOST_SITES
}
