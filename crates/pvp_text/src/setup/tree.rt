//! Reading the parts of a JSON tree.

ghost use Rattle.serde_json.specs.Data.{Data};
ghost use Rattle.serde_json.specs.Find.{as_array};
ghost use Rattle.serde_json.specs.View.{view, items_view};
ghost use Rattle.pvp_text.specs.Reading.{Reads};
ghost use Rattle.pvp_text.specs.SetupText.{Kind, number, text, list, member, currency, bank_member, setup, text_fault_is_memory, itself};
ghost use Rattle.pvp_text.specs.Steadiness.{steady-number, steady-text, steady-list, steady-currency, steady-bank_member, steady-setup};

use crate::setup::TextFault;
use pvp_types::{Currency, List, Member, Name, Setup};
use serde_json::Value;
use std::alloc::Global;

/// What a part of the tree can be read as.
pub(super) trait FromTree: Drop {
    ghost use Rattle.pvp_text.specs.Reading.{IsSteady};

    ghost kind: { Kind Self };

    fn from_tree(alloc: Global, tree: &Value) -> Result<Self, TextFault>
        ensures { Reads itself text_fault_is_memory result
            (λ refused. kind refused (view tree.now)) };

    ghost steady: { (tree : Data) → IsSteady (λ refused. kind refused tree) };
}

/// An object's member of that name.
fn member<T: FromTree>(alloc: Global, tree: &Value, name: &str) -> Result<T, TextFault>
    ensures { Reads itself text_fault_is_memory result
        (λ refused. member T.kind name.now refused (view tree.now)) }
{
    let part = tree.get(name).ok_or(TextFault::BadMember)?;
    T::from_tree(alloc, part)
}

impl FromTree for u64 {
    ghost kind = { number };

    ghost steady = { steady-number };

    fn from_tree(_alloc: Global, tree: &Value) -> Result<u64, TextFault> {
        tree.as_u64().ok_or(TextFault::BadMember)
    }
}

impl FromTree for Name {
    ghost kind = { text };

    ghost steady = { steady-text };

    fn from_tree(alloc: Global, tree: &Value) -> Result<Name, TextFault> {
        let text = tree.as_str().ok_or(TextFault::BadMember)?;
        Ok(Name::new(alloc, text)?)
    }
}

impl<T: FromTree> FromTree for List<T> {
    ghost kind = { list T.kind };

    ghost steady = { steady-list T.kind T.steady };

    fn from_tree(alloc: Global, tree: &Value) -> Result<List<T>, TextFault> {
        let items = tree.as_array().ok_or(TextFault::BadMember)?;
        let mut list = List::new(alloc);
        for item in items {
            list.push(T::from_tree(alloc, item)?)?;
        }
        Ok(list)
    }
}

impl FromTree for Currency {
    ghost kind = { currency };

    ghost steady = { steady-currency };

    #[tactic(auto, unfolding(crate::specs::SetupText::currency))]
    fn from_tree(alloc: Global, tree: &Value) -> Result<Currency, TextFault> {
        Ok(Currency {
            code: member(alloc, tree, "code")?,
            rate: member(alloc, tree, "rate")?,
            haircut: member(alloc, tree, "haircut")?,
        })
    }
}

impl FromTree for Member {
    ghost kind = { bank_member };

    ghost steady = { steady-bank_member };

    #[tactic(auto, unfolding(crate::specs::SetupText::bank_member))]
    fn from_tree(alloc: Global, tree: &Value) -> Result<Member, TextFault> {
        Ok(Member {
            name: member(alloc, tree, "name")?,
            aggregate: member(alloc, tree, "aggregate")?,
            short: member(alloc, tree, "short")?,
            deposit: member(alloc, tree, "deposit")?,
        })
    }
}

impl FromTree for Setup {
    ghost kind = { setup };

    ghost steady = { steady-setup };

    #[tactic(auto, unfolding(crate::specs::SetupText::setup))]
    fn from_tree(alloc: Global, tree: &Value) -> Result<Setup, TextFault> {
        Ok(Setup {
            sites: member(alloc, tree, "sites")?,
            currencies: member(alloc, tree, "currencies")?,
            members: member(alloc, tree, "members")?,
        })
    }
}
