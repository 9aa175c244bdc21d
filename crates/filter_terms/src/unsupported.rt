// The first condition or member that no filter has (RFC 8620, section 5.5).
ghost use Rattle.std.specs.Prelude.{◌≡◌, cond, codes, bytes_eq, option_map, map};
ghost use Rattle.jm_json.specs.Json.{member_of, tree_of};
ghost use Rattle.jm_json.specs.Tree.{fields_of, object, trees_of};
ghost use Rattle.filter_terms.specs.Forms.{if_extra, unknown_in, unsupported, unsupported_items, unsupported_list, unsupported_members};

use crate::terms::find_term;
use jm_base::Kind;
use jm_json::{Json, Member, Members};

fn find_unknown_condition(kind: Kind, members: &[Member]) -> Option<&str>
    ensures { option_map (λ s. s.now) result
        ≡ unknown_in kind (fields_of (map member_of members.now)) }
{
    for member in members {
        if find_term(kind, member.name.as_str()).is_none() {
            return Some(member.name.as_str());
        }
    }
    None
}

fn keep_extra_name(name: &str) -> Option<&str>
    ensures { option_map (λ s. s.now) result ≡ if_extra name.now }
{
    if name == "operator" { None } else { Some(name) }
}

/// Returns the name of the first condition or member of an operator that no filter of the kind has,
/// or `None`.
#[cycle(unsupported)]
pub(crate) fn find_unsupported_name(kind: Kind, tree: &Json) -> Option<&str>
    ensures { option_map (λ s. s.now) result ≡ unsupported kind (tree_of tree.now) }
{
    match tree {
        Json::Object(members) => find_unsupported_in_object(kind, members),
        Json::Null | Json::Bool(_) | Json::Int(_) | Json::Text(_) | Json::List(_) => None,
    }
}

#[tactic(auto, using(jm_json::proofs::Lists::lists_back))]
#[cycle(unsupported)]
fn find_unsupported_in_object(kind: Kind, members: &Members) -> Option<&str>
    ensures { option_map (λ s. s.now) result ≡ unsupported kind (object (fields_of members.now)) }
{
    match members.get("operator") {
        Some(_) => find_unsupported_in_members(kind, members.as_slice()),
        None => find_unknown_condition(kind, members.as_slice()),
    }
}

#[cycle(unsupported)]
fn find_unsupported_in_members(kind: Kind, members: &[Member]) -> Option<&str>
    ensures { option_map (λ s. s.now) result
        ≡ unsupported_members kind (fields_of (map member_of members.now)) }
{
    for member in members {
        if let Some(name) = find_unsupported_in_member(kind, member) {
            return Some(name);
        }
    }
    None
}

#[cycle(unsupported)]
fn find_unsupported_in_member(kind: Kind, member: &Member) -> Option<&str>
    ensures { option_map (λ s. s.now) result
        ≡ cond (bytes_eq member.now.name (codes "conditions"))
        (unsupported_list kind (tree_of member.now.value)) (if_extra member.now.name) }
{
    if member.name.as_str() == "conditions" {
        find_unsupported_in_list(kind, &member.value)
    } else {
        keep_extra_name(member.name.as_str())
    }
}

#[cycle(unsupported)]
fn find_unsupported_in_list(kind: Kind, value: &Json) -> Option<&str>
    ensures { option_map (λ s. s.now) result ≡ unsupported_list kind (tree_of value.now) }
{
    match value {
        Json::List(items) => find_unsupported_in_items(kind, items.as_slice()),
        Json::Null | Json::Bool(_) | Json::Int(_) | Json::Text(_) | Json::Object(_) => None,
    }
}

#[cycle(unsupported)]
fn find_unsupported_in_items(kind: Kind, items: &[Json]) -> Option<&str>
    ensures { option_map (λ s. s.now) result
        ≡ unsupported_items kind (trees_of (map tree_of items.now)) }
{
    for item in items {
        if let Some(name) = find_unsupported_name(kind, item) {
            return Some(name);
        }
    }
    None
}
