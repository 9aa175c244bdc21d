// The first fault of a tree that is no order (RFC 8620, section 5.5).
ghost use Rattle.std.specs.Prelude.{◌≡◌, Some, map, option_map};
ghost use Rattle.jm_json.specs.Find.{as_object};
ghost use Rattle.jm_json.specs.Json.{tree_of};
ghost use Rattle.method_args.specs.Arguments.{find_invalid};
ghost use Rattle.sort_terms.specs.Forms.{keyword_forms, plain_forms, if_collation, if_property, invalid, invalid_comparator, invalid_items, invalid_member, property_in, unsupported, unsupported_comparator, unsupported_items, unsupported_member};

use crate::properties::{Property, find_property, needs_keyword};
use jm_base::{Kind, Text};
use jm_json::{Json, Members};
use method_args::{Argument, Presence, Shape, find_invalid, read_text};

/// Returns the property that a comparator names, if the kind has it.
pub(crate) fn read_comparator_property(kind: Kind, members: &Members) -> Option<Property>
    ensures { result ≡ property_in kind members.now }
{
    match read_text(members, "property") {
        Some(name) => find_property(kind, name.as_str()),
        None => None,
    }
}

fn find_invalid_plain(members: &Members) -> Option<&'static str>
    ensures { option_map (λ s. s.now) result ≡ find_invalid plain_forms members.now }
{
    find_invalid(
        members,
        &[
            Argument {
                name: "collation",
                presence: Presence::Optional,
                shape: Shape::String,
            },
            Argument {
                name: "isAscending",
                presence: Presence::Optional,
                shape: Shape::Flag,
            },
            Argument {
                name: "property",
                presence: Presence::Required,
                shape: Shape::String,
            },
        ],
    )
}

fn find_invalid_with_keyword(members: &Members) -> Option<&'static str>
    ensures { option_map (λ s. s.now) result ≡ find_invalid keyword_forms members.now }
{
    find_invalid(
        members,
        &[
            Argument {
                name: "collation",
                presence: Presence::Optional,
                shape: Shape::String,
            },
            Argument {
                name: "isAscending",
                presence: Presence::Optional,
                shape: Shape::Flag,
            },
            Argument {
                name: "keyword",
                presence: Presence::Required,
                shape: Shape::String,
            },
            Argument {
                name: "property",
                presence: Presence::Required,
                shape: Shape::String,
            },
        ],
    )
}

fn find_invalid_member(kind: Kind, members: &Members) -> Option<&'static str>
    ensures { option_map (λ s. s.now) result ≡ invalid_member kind members.now }
{
    if needs_keyword(read_comparator_property(kind, members)) {
        find_invalid_with_keyword(members)
    } else {
        find_invalid_plain(members)
    }
}

fn find_invalid_comparator(kind: Kind, tree: &Json) -> Option<&'static str>
    ensures { option_map (λ s. s.now) result
        ≡ invalid_comparator kind (as_object (tree_of tree.now)) }
{
    match tree.as_object() {
        Some(members) => find_invalid_member(kind, members),
        None => Some(""),
    }
}

fn find_invalid_items(kind: Kind, items: &[Json]) -> Option<&'static str>
    ensures { option_map (λ s. s.now) result ≡ invalid_items kind (map tree_of items.now) }
{
    for item in items {
        if let Some(name) = find_invalid_comparator(kind, item) {
            return Some(name);
        }
    }
    None
}

/// Returns the name of the first member that is missing or of a wrong kind, the empty name if the
/// tree or a comparator is of a wrong kind, or `None`.
#[tactic(auto, using(jm_json::proofs::Lists::lists_back))]
pub(crate) fn find_invalid_in_sort(kind: Kind, tree: &Json) -> Option<&'static str>
    ensures { option_map (λ s. s.now) result ≡ invalid kind (tree_of tree.now) }
{
    match tree {
        Json::Null => None,
        Json::List(items) => find_invalid_items(kind, items.as_slice()),
        Json::Bool(_) | Json::Int(_) | Json::Text(_) | Json::Object(_) => Some(""),
    }
}

fn find_unsupported_collation(name: Option<&Text>) -> Option<&'static str>
    ensures { option_map (λ s. s.now) result ≡ if_collation (option_map (λ t. t.now) name.entry) }
{
    match name {
        None => None,
        Some(name) => {
            if name.as_str() == "i;ascii-casemap" {
                None
            } else {
                Some("collation")
            }
        }
    }
}

fn find_unsupported_property(property: Option<Property>) -> Option<&'static str>
    ensures { option_map (λ s. s.now) result ≡ if_property property }
{
    match property {
        None => Some("property"),
        Some(_) => None,
    }
}

fn find_unsupported_member(kind: Kind, members: &Members) -> Option<&'static str>
    ensures { option_map (λ s. s.now) result ≡ unsupported_member kind members.now }
{
    match find_unsupported_collation(read_text(members, "collation")) {
        Some(name) => Some(name),
        None => find_unsupported_property(read_comparator_property(kind, members)),
    }
}

fn find_unsupported_comparator(kind: Kind, tree: &Json) -> Option<&'static str>
    ensures { option_map (λ s. s.now) result
        ≡ unsupported_comparator kind (as_object (tree_of tree.now)) }
{
    match tree.as_object() {
        Some(members) => find_unsupported_member(kind, members),
        None => None,
    }
}

fn find_unsupported_items(kind: Kind, items: &[Json]) -> Option<&'static str>
    ensures { option_map (λ s. s.now) result ≡ unsupported_items kind (map tree_of items.now) }
{
    for item in items {
        if let Some(name) = find_unsupported_comparator(kind, item) {
            return Some(name);
        }
    }
    None
}

/// Returns the name of the first member that names no property or collation, or `None`.
#[tactic(auto, using(jm_json::proofs::Lists::lists_back))]
pub(crate) fn find_unsupported_in_sort(kind: Kind, tree: &Json) -> Option<&'static str>
    ensures { option_map (λ s. s.now) result ≡ unsupported kind (tree_of tree.now) }
{
    match tree {
        Json::List(items) => find_unsupported_items(kind, items.as_slice()),
        Json::Null | Json::Bool(_) | Json::Int(_) | Json::Text(_) | Json::Object(_) => None,
    }
}
