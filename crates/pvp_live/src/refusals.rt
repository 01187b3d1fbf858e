//! Which lines of a script were refused.
ghost use Rattle.std.specs.Prelude.{◌≡◌};
ghost use Rattle.pvp_live.specs.Refusals.{refused_after};

use pvp_world::WorldFault;
use std::fmt;

/// The lines of a script that were refused. Printed as `3 lines were refused: the first, line 4, G2`, and where it is one
/// as `1 line was refused: line 4, G2`.
#[derive(Clone, Copy, Debug, PartialEq, Eq)]
pub struct Refused {
    /// How many were refused, at least one.
    pub count: u32,
    /// The number of the first.
    pub line: u32,
    /// Why that was refused.
    pub fault: WorldFault,
}

impl fmt::Display for Refused {
    ghost use Rattle.std.specs.Prelude.{Some};
    ghost use Rattle.pvp_live.specs.Refusals.{refused_text};

    ghost output = { λ refused. Some (refused_text refused) };

    fn fmt<W: fmt::Write>(&self, f: &mut fmt::Formatter<W>) -> fmt::Result {
        let Refused { count, line, fault } = self;
        if *count == 1 {
            write!(f, "1 line was refused: line {line}, {fault}")
        } else {
            write!(
                f,
                "{count} lines were refused: the first, line {line}, {fault}"
            )
        }
    }
}

/// The lines that were refused, once one more was played that was refused for this fault, if for any: the first stays.
pub fn refused_after(
    before: Option<Refused>,
    line: u32,
    fault: Option<WorldFault>,
) -> Option<Refused>
    ensures { result ≡ refused_after before line fault }
{
    let Some(fault) = fault else {
        return before;
    };
    Some(match before {
        Some(first) => Refused {
            count: first.count.saturating_add(1),
            ..first
        },
        None => Refused {
            count: 1,
            line,
            fault,
        },
    })
}
