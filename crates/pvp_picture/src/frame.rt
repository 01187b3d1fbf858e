//! What a picture is asked to show, beside its steps.

ghost use Rattle.std.specs.Prelude.{◌≡◌};
ghost use Rattle.pvp_picture.specs.Scene.{has, is_shown};

use std::alloc::Global;

/// What stands above a picture, and whose lifelines it has.
#[derive(Debug, Drop)]
pub struct Frame<'a> {
    pub title: Option<&'a str>,
    /// The names of the actors that alone have lifelines, where any are named.
    pub only: Vec<&'a str>,
    /// The names of actors that have none.
    pub hide: Vec<&'a str>,
}

impl Frame<'_> {
    /// All that a picture can show.
    pub fn whole(alloc: Global) -> Self {
        Frame {
            title: None,
            only: Vec::new(alloc),
            hide: Vec::new(alloc),
        }
    }

    /// Whether nothing is asked for.
    pub fn is_whole(&self) -> bool {
        self.title.is_none() && self.only.is_empty() && self.hide.is_empty()
    }

    /// Whether the actor of a name has a lifeline.
    pub fn shows(&self, name: &str) -> bool
        ensures { result ≡ is_shown self.now.only.items self.now.hide.items name.now }
    {
        (self.only.is_empty() || has(self.only.as_slice(), name))
            && !has(self.hide.as_slice(), name)
    }
}

/// Whether a name is among these.
fn has(names: &[&str], name: &str) -> bool
    ensures { result ≡ has names.now name.now }
{
    names.iter().any(|other| *other == name)
}
