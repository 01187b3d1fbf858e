//! The boot numbers that a sender knew of the sites.
ghost use Rattle.std.specs.Prelude.{◌≤◌, false};
ghost use Rattle.vr_types.specs.declared.limits.TheConstants.{MOST_SITES};
ghost use Rattle.pvp_wire.specs.Shape.{number_at, items_from};
ghost use Rattle.pvp_wire.specs.Layout as layout;
ghost use Rattle.pvp_wire.specs.Reading.{Finds};

use crate::fault::WireFault;
use crate::fields::{site_count_at, u32_at};
use vr_types::Known;

/// The boot numbers of `count` sites.
fn boots_from(count: u8, bytes: &[u8]) -> Result<(Known, &[u8]), WireFault>
    requires { count ≤ MOST_SITES }
    ensures { Finds (λ x. (x.0, x.1.now)) result (items_from (number_at 4) false count bytes.now) }
{
    let mut known = Known::new();
    let mut rest = bytes;
    for _ in 0..count {
        let (boot, after) = u32_at(rest)?;
        known.push(boot);
        rest = after;
    }
    Ok((known, rest))
}

/// The number of sites, then the boot number of each. It takes no memory.
#[tactic(auto, unfolding(crate::specs::Layout::boots))]
pub fn boots_at(bytes: &[u8]) -> Result<(Known, &[u8]), WireFault>
    ensures { Finds (λ x. (x.0, x.1.now)) result (layout.boots.read false bytes.now) }
{
    let (count, rest) = site_count_at(bytes)?;
    boots_from(count, rest)
}
