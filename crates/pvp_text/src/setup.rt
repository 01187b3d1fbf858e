//! Setup files: JSON texts that say what a bank is set up with.

ghost use Rattle.std.specs.Prelude.{◌≡◌, IfOk};
ghost use Rattle.pvp_types.specs.Setup.{IsValid};
ghost use Rattle.serde_json.specs.View.{view};
ghost use Rattle.pvp_text.specs.declared.setup.TextFault.TheVariants.{NoMemory};
ghost use Rattle.pvp_text.specs.Reading.{Reads};
ghost use Rattle.pvp_text.specs.SetupText.{tree, setup_where, parts_where, text_fault_is_memory, itself};

mod tree;

use self::tree::FromTree;
use pvp_types::{Setup, SetupFault};
use serde_json::Value;
use std::alloc::{AllocError, Global};
use std::fmt;

/// Why a text was not read as a setup: of several faults the first in this order, memory aside.
#[derive(Clone, Copy, Debug, PartialEq, Eq)]
pub enum TextFault {
    /// J1: the text is no JSON, is no UTF-8, or nests deeper than 127.
    NotJson,
    /// J2: a member is missing or of the wrong type. A number has to be digits alone, below 2^64.
    BadMember,
    /// J3: memory was refused.
    NoMemory,
    /// K1 to K9: the rule that the setup breaks.
    BadSetup(SetupFault),
}

impl From<AllocError> for TextFault {
    ghost from_gives = { λ _ fault. fault ≡ NoMemory };

    fn from(_refused: AllocError) -> TextFault {
        TextFault::NoMemory
    }
}

/// J3 where memory was refused, and else J1.
impl From<serde_json::Error> for TextFault {
    ghost use Rattle.pvp_text.specs.SetupText.{Tells};

    ghost from_gives = { λ refusal fault. Tells refusal fault };

    fn from(refusal: serde_json::Error) -> TextFault {
        if refusal.is_memory() {
            TextFault::NoMemory
        } else {
            TextFault::NotJson
        }
    }
}

/// Prints what the program reports of the fault: `json J1`, `json J2`, `memory`, or `setup` and the
/// rule's code.
impl fmt::Display for TextFault {
    ghost use Rattle.std.specs.Prelude.{Some};
    ghost use Rattle.pvp_text.specs.SetupText.{fault_text};

    ghost output = { λ fault. Some (fault_text fault) };

    fn fmt<W: fmt::Write>(&self, f: &mut fmt::Formatter<W>) -> fmt::Result {
        match self {
            TextFault::NotJson => f.write_str("json J1"),
            TextFault::BadMember => f.write_str("json J2"),
            TextFault::NoMemory => f.write_str("memory"),
            TextFault::BadSetup(rule) => write!(f, "setup {rule}"),
        }
    }
}

/// The setup that a text is, which meets every rule of a setup.
///
/// Members of an object that a setup does not have are ignored, and of a name that stands twice
/// the last value counts. J3 may come in place of any other answer, but for the text without bytes,
/// which takes no memory.
#[tactic(auto, unfolding(crate::specs::SetupText::setup_where))]
pub fn read_setup(alloc: Global, bytes: &[u8]) -> Result<Setup, TextFault>
    ensures exact { Reads itself text_fault_is_memory result
        (λ refused. setup_where refused bytes.now) }
    ensures valid { IfOk result IsValid }
{
    let tree = read_tree(alloc, bytes)?;
    let setup = Setup::from_tree(alloc, &tree)?;
    match setup.check() {
        Ok(()) => Ok(setup),
        Err(rule) => Err(TextFault::BadSetup(rule)),
    }
}

/// The parts of the setup that a text is, whatever rules it breaks.
///
/// The faults are those of `read_setup` but for the rules', and J3 may come in place of any other answer.
#[tactic(auto, unfolding(crate::specs::SetupText::parts_where))]
pub fn read_parts(alloc: Global, bytes: &[u8]) -> Result<Setup, TextFault>
    ensures { Reads itself text_fault_is_memory result
        (λ refused. parts_where refused bytes.now) }
{
    let tree = read_tree(alloc, bytes)?;
    Setup::from_tree(alloc, &tree)
}

/// The tree of a JSON text.
fn read_tree(alloc: Global, bytes: &[u8]) -> Result<Value, TextFault>
    ensures { Reads view text_fault_is_memory result (λ refused. tree refused bytes.now) }
{
    Ok(Value::from_slice(alloc, bytes)?)
}
