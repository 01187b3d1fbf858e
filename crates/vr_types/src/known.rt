//! The boot numbers that a site knows of the sites of its group.
ghost use Rattle.std.specs.Prelude.{◌≡◌, ◌<◌, ◌≤◌, ◌==◌, ◌++◌, ◌∷◌, [], length, slice_set};
ghost use Rattle.vr_types.specs.declared.limits.TheConstants.{MOST_SITES};
ghost use Rattle.vr_types.specs.Site.{boot_of, no_boots};
ghost use Rattle.vr_types.specs.Step.{greater};

use crate::limits::MOST_SITES;
use std::marker::Model;

/// How many boot numbers there is room for.
const PLACES: usize = MOST_SITES as usize;

/// For each site, in order, the greatest boot number that is known; 0 where none is. In clauses it is the list of
/// these. The numbers are stored in the value itself, so none of its calls takes memory.
#[derive(Clone, Copy)]
pub struct Known {
    boots: [u32; PLACES],
    sites: u16,
}

impl Model for Known {
    ghost use Rattle.std.specs.Prelude.{◌-◌, ◌++◌, List, ℕ, take, replicate, length};
    ghost use Rattle.vr_types.specs.declared.limits.TheConstants.{MOST_SITES};
    ghost use Rattle.vr_types.specs.Boots.{AreBoots, sites_back, boots_back};

    ghost Value = { List ℕ };

    ghost view = { λ a. take a.sites a.boots };

    ghost invariant = { λ a. AreBoots a.boots a.sites };

    ghost inverse = { λ known. record {
      boots = known ++ replicate (MOST_SITES - length known) 0;
      sites = length known;
    } };

    ghost inverse_ok = { λ a h i. record {
      boots = boots_back a.boots a.sites h i;
      sites = sites_back a.boots a.sites h i;
    } };
}

impl Known {
    ghost use Rattle.vr_types.specs.Step.{is_outdated};

    /// The list for no site.
    pub fn new() -> Self
        ensures { result ≡ [] }
    {
        Known {
            boots: [0; PLACES],
            sites: 0,
        }
    }

    /// The list for 2f+1 sites, with no boot number known.
    pub fn of_none(f: u16) -> Self
        requires { f ≤ 3 }
        ensures { result ≡ no_boots f }
    {
        Known {
            boots: [0; PLACES],
            sites: 2 * f + 1,
        }
    }

    /// For how many sites it has a place: seven at most.
    pub fn len(&self) -> usize
        ensures is { result ≡ length self.now }
        ensures most { result ≤ MOST_SITES }
    {
        usize::from(self.sites)
    }

    /// Whether it has no site.
    pub fn is_empty(&self) -> bool
        ensures { result ≡ (length self.now == 0) }
    {
        self.sites == 0
    }

    /// The boot number of a site; 0 where none is known, or where the list has no such site.
    pub fn get(&self, site: u16) -> u32
        ensures { result ≡ boot_of self.now site }
    {
        self.as_slice().get(usize::from(site)).copied().unwrap_or(0)
    }

    /// The boot numbers, in order of the sites.
    pub fn as_slice(&self) -> &[u32]
        ensures { result.now ≡ self.now }
    {
        &self.boots[..self.len()]
    }

    /// Adds one more site at the end, with its boot number.
    pub fn push(&mut self, boot: u32)
        requires { length self.old < MOST_SITES }
        ensures { self.new ≡ self.old ++ boot ∷ [] }
    {
        self.boots[self.len()] = boot;
        self.sites += 1;
    }

    /// Sets the boot number of a site, whatever was known of it.
    pub fn note(&mut self, site: u16, boot: u32)
        requires { site < length self.old }
        ensures { self.new ≡ slice_set self.old site boot }
    {
        self.boots[usize::from(site)] = boot;
    }

    /// Takes each of the sender's boot numbers that is greater than the one known here.
    pub fn learn(&mut self, told: &Known)
        requires { length told.now ≤ length self.old }
        ensures { self.new ≡ greater self.old told.now }
    {
        for site in 0..told.len() as u16 {
            self.note(site, self.get(site).max(told.get(site)));
        }
    }

    /// Whether a message of this sender, which then knew these boot numbers, is of an earlier boot of it than is known
    /// here.
    pub fn is_outdated(&self, from: u16, told: &Known) -> bool
        ensures { result ≡ is_outdated self.now from told.now }
    {
        told.get(from) < self.get(from)
    }
}
