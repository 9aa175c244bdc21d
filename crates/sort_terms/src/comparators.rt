// The comparators of an order (RFC 8620, section 5.5).
ghost use Rattle.std.specs.Prelude.{◌≡◌, ◌++◌, List, true, IfOk, OnOk, map};
ghost use Rattle.sort_terms.specs.declared.comparators.Comparator.{Comparator as TheComparator};
ghost use Rattle.std.specs.Option.{unwrap_or};
ghost use Rattle.jm_json.specs.Json.{tree_of};
ghost use Rattle.method_args.specs.Arguments.{as_flag};
ghost use Rattle.sort_terms.specs.Forms.{comparator_in, comparator_of, comparator_with, comparators_from, comparators_of, if_any, is_ascending, keyword_in};

use crate::forms::read_comparator_property;
use crate::properties::Property;
use jm_base::{Kind, NoMemory, Text};
use jm_json::{Json, Members};
use method_args::read_text;
use std::alloc::Global;

/// A comparator, with its keyword in lower case, or an empty one.
#[derive(Drop)]
pub(crate) struct Comparator {
    pub property: Property,
    pub ascending: bool,
    pub keyword: Text,
}

fn read_flag_or_true(value: &Json) -> bool
    ensures { result ≡ unwrap_or (as_flag (tree_of value.now)) true }
{
    match value {
        Json::Bool(flag) => *flag,
        Json::Null | Json::Int(_) | Json::Text(_) | Json::List(_) | Json::Object(_) => true,
    }
}

/// Returns whether a comparator is ascending: it is, unless its `isAscending` is false (RFC 8620,
/// section 5.5).
pub fn is_ascending(members: &Members) -> bool
    ensures { result ≡ is_ascending members.now }
{
    match members.get("isAscending") {
        Some(value) => read_flag_or_true(value),
        None => true,
    }
}

fn read_comparator_keyword(alloc: Global, members: &Members) -> Result<Text, NoMemory>
    ensures { IfOk result (λ k. k ≡ keyword_in members.now) }
{
    match read_text(members, "keyword") {
        Some(keyword) => Ok(Text::from_string(keyword.as_str().to_ascii_lowercase(alloc)?)),
        None => Text::from_str(alloc, ""),
    }
}

fn build_comparator(
    alloc: Global,
    members: &Members,
    property: Property,
) -> Result<Comparator, NoMemory>
    ensures { IfOk result (λ c. c ≡ comparator_with members.now property) }
{
    let keyword = read_comparator_keyword(alloc, members)?;
    Ok(Comparator {
        property,
        ascending: is_ascending(members),
        keyword,
    })
}

fn read_comparator_members(
    alloc: Global,
    kind: Kind,
    members: &Members,
) -> Result<Option<Comparator>, NoMemory>
    ensures { IfOk result (λ c. c ≡ comparator_in kind members.now) }
{
    match read_comparator_property(kind, members) {
        Some(property) => Ok(Some(build_comparator(alloc, members, property)?)),
        None => Ok(None),
    }
}

fn read_comparator(alloc: Global, kind: Kind, tree: &Json) -> Result<Option<Comparator>, NoMemory>
    ensures { IfOk result (λ c. c ≡ comparator_of kind (tree_of tree.now)) }
{
    match tree.as_object() {
        Some(members) => read_comparator_members(alloc, kind, members),
        None => Ok(None),
    }
}

fn push_any(all: &mut Vec<Comparator>, comparator: Option<Comparator>) -> Result<(), NoMemory>
    ensures { OnOk result ((rest : List TheComparator)
        → all.new.items ++ rest ≡ all.old.items ++ if_any comparator rest) }
{
    match comparator {
        Some(comparator) => {
            all.push(comparator)?;
            Ok(())
        }
        None => Ok(()),
    }
}

fn read_comparator_items(
    alloc: Global,
    kind: Kind,
    items: &[Json],
) -> Result<Vec<Comparator>, NoMemory>
    ensures { IfOk result (λ cs. cs.items ≡ comparators_from kind (map tree_of items.now)) }
{
    let mut all = Vec::new(alloc);
    for item in items {
        push_any(&mut all, read_comparator(alloc, kind, item)?)?;
    }
    Ok(all)
}

/// Returns the comparators of an order.
#[tactic(auto, using(jm_json::proofs::Lists::lists_back))]
pub(crate) fn read_comparators(
    alloc: Global,
    kind: Kind,
    tree: &Json,
) -> Result<Vec<Comparator>, NoMemory>
    ensures { IfOk result (λ cs. cs.items ≡ comparators_of kind (tree_of tree.now)) }
{
    match tree {
        Json::List(items) => read_comparator_items(alloc, kind, items.as_slice()),
        Json::Null | Json::Bool(_) | Json::Int(_) | Json::Text(_) | Json::Object(_) => {
            Ok(Vec::new(alloc))
        }
    }
}
