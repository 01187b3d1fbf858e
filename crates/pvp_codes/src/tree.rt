//! Which part of a setup's tree is missing or of the wrong type.

ghost use Rattle.std.specs.Prelude.{◌≡◌};
ghost use Rattle.serde_json.specs.Find.{get};
ghost use Rattle.serde_json.specs.View.{view, items_view};
ghost use Rattle.pvp_codes.specs.Tree as spec;
ghost use Rattle.pvp_codes.specs.Tree.{Check, Tells};
ghost use Rattle.pvp_codes.specs.declared.tree.Fault.TheVariants.{NoMemory};

use pvp_types::{Currency, List, Member, Name, Setup};
use serde_json::Value;
use std::alloc::{AllocError, Global};
use std::fmt;

/// What is wrong with a part of a setup's tree.
#[derive(Clone, Copy, Debug, PartialEq, Eq)]
pub enum Flaw {
    /// The object has no member of that name.
    Missing,
    /// It is no number in digits alone, below 2^64.
    NotNumber,
    NotText,
    NotList,
    NotObject,
}

/// Says in words what is wrong.
impl fmt::Display for Flaw {
    ghost use Rattle.std.specs.Prelude.{Some};

    ghost output = { λ flaw. Some (spec.flaw_text flaw) };

    fn fmt<W: fmt::Write>(&self, f: &mut fmt::Formatter<W>) -> fmt::Result {
        f.write_str(match self {
            Flaw::Missing => "missing",
            Flaw::NotNumber => "no number in digits alone, below 2^64",
            Flaw::NotText => "no text",
            Flaw::NotList => "no list",
            Flaw::NotObject => "no object",
        })
    }
}

/// Why a tree is no setup's.
#[derive(Debug, Drop)]
pub enum Fault {
    /// A part is wrong. The path is as in `.members[3].name`, with list items numbered from 0; that of the whole is empty.
    Wrong { path: String, flaw: Flaw },
    /// Memory was refused.
    NoMemory,
}

impl From<AllocError> for Fault {
    ghost from_gives = { λ _ fault. fault ≡ NoMemory };

    fn from(_refused: AllocError) -> Fault {
        Fault::NoMemory
    }
}

/// Looks for the first part of a text that is missing or of the wrong type. A text without a tree has no parts.
pub fn check_text(alloc: Global, bytes: &[u8]) -> Result<(), Fault>
    ensures { Tells result (spec.wrong_in bytes.now) }
{
    match Value::from_slice(alloc, bytes) {
        Ok(tree) => Setup::check_tree(alloc, &tree),
        Err(refusal) if refusal.is_memory() => Err(Fault::NoMemory),
        Err(_) => Ok(()),
    }
}

/// What a part of the tree is to be.
trait Part: Drop {
    ghost finds: { Check };

    fn check_tree(alloc: Global, tree: &Value) -> Result<(), Fault>
        ensures { Tells result (finds (view tree.now)) };
}

impl Part for u64 {
    ghost finds = { spec.number };

    fn check_tree(alloc: Global, tree: &Value) -> Result<(), Fault> {
        here_unless(alloc, tree.is_u64(), Flaw::NotNumber)
    }
}

impl Part for Name {
    ghost finds = { spec.text };

    fn check_tree(alloc: Global, tree: &Value) -> Result<(), Fault> {
        here_unless(alloc, tree.is_string(), Flaw::NotText)
    }
}

impl<T: Part> Part for List<T> {
    ghost finds = { spec.list T.finds };

    fn check_tree(alloc: Global, tree: &Value) -> Result<(), Fault> {
        match tree.as_array() {
            Some(items) => each_of::<T>(alloc, items.as_slice()),
            None => here_unless(alloc, false, Flaw::NotList),
        }
    }
}

impl Part for Currency {
    ghost finds = { spec.currency };

    fn check_tree(alloc: Global, tree: &Value) -> Result<(), Fault> {
        object(alloc, tree)?;
        member::<Name>(alloc, tree, "code")?;
        member::<u64>(alloc, tree, "rate")?;
        member::<u64>(alloc, tree, "haircut")
    }
}

impl Part for Member {
    ghost finds = { spec.bank_member };

    fn check_tree(alloc: Global, tree: &Value) -> Result<(), Fault> {
        object(alloc, tree)?;
        member::<Name>(alloc, tree, "name")?;
        member::<u64>(alloc, tree, "aggregate")?;
        member::<List<u64>>(alloc, tree, "short")?;
        member::<List<u64>>(alloc, tree, "deposit")
    }
}

impl Part for Setup {
    ghost finds = { spec.setup };

    fn check_tree(alloc: Global, tree: &Value) -> Result<(), Fault> {
        object(alloc, tree)?;
        member::<u64>(alloc, tree, "sites")?;
        member::<List<Currency>>(alloc, tree, "currencies")?;
        member::<List<Member>>(alloc, tree, "members")
    }
}

/// Looks at an object's member of that name.
fn member<T: Part>(alloc: Global, tree: &Value, name: &str) -> Result<(), Fault>
    ensures { Tells result (spec.member T.finds name.now (view tree.now)) }
{
    match member_of::<T>(alloc, tree, name) {
        Err(Fault::Wrong { path, flaw }) => {
            let path = format!(in alloc; ".{name}{path}")?;
            Err(Fault::Wrong { path, flaw })
        }
        other => other,
    }
}

/// Looks at an object's member of that name, with the path that begins behind it.
fn member_of<T: Part>(alloc: Global, tree: &Value, name: &str) -> Result<(), Fault>
    ensures { Tells result (spec.member_of T.finds (get name.now (view tree.now))) }
{
    match tree.get(name) {
        Some(part) => T::check_tree(alloc, part),
        None => here_unless(alloc, false, Flaw::Missing),
    }
}

/// Looks at each of some items.
fn each_of<T: Part>(alloc: Global, items: &[Value]) -> Result<(), Fault>
    ensures { Tells result (spec.each_of T.finds 0 (items_view items.now)) }
{
    for (place, item) in items.iter().enumerate() {
        item_at::<T>(alloc, place, item)?;
    }
    Ok(())
}

/// Looks at an item, which stands at a place.
fn item_at<T: Part>(alloc: Global, place: usize, item: &Value) -> Result<(), Fault>
    ensures { Tells result (spec.item_at T.finds place (view item.now)) }
{
    match T::check_tree(alloc, item) {
        Err(Fault::Wrong { path, flaw }) => {
            let path = format!(in alloc; "[{place}]{path}")?;
            Err(Fault::Wrong { path, flaw })
        }
        other => other,
    }
}

/// Looks whether a part is an object.
fn object(alloc: Global, tree: &Value) -> Result<(), Fault>
    ensures { Tells result (spec.object (view tree.now)) }
{
    here_unless(alloc, tree.is_object(), Flaw::NotObject)
}

/// The part itself is wrong, unless it is well.
fn here_unless(alloc: Global, is_well: bool, flaw: Flaw) -> Result<(), Fault>
    ensures { Tells result (spec.here_unless is_well flaw) }
{
    if is_well {
        return Ok(());
    }
    let path = String::new(alloc);
    Err(Fault::Wrong { path, flaw })
}
