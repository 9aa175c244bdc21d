// Where the lists of a cache's file are not of their form.
ghost use Rattle.std.specs.Prelude.{◌≡◌, [], IfOk, codes, map, option_map};
ghost use Rattle.std.specs.List.{list_any};
ghost use Rattle.jm_json.specs.Json.{tree_of};
ghost use Rattle.jm_json.specs.LeastPlaces.{least_from};
ghost use Rattle.method_args.specs.Places.{at_name, member_places};
ghost use Rattle.mail_view.specs.RecordPlaces.{members_places, object_places};
ghost use Rattle.client_cache.specs.CacheForms.{filter_places, first_list_forms, is_filter, is_name_of, is_new_name, is_small, is_sort, known_filter, known_sort, last_list_forms, list_forms, list_item_places, list_items_places, lists_places, name_in, sort_places, state_places};

use crate::limits::{MAX_LISTS, MAX_TERM_BYTES, MAX_TERM_DEPTH};
use crate::record_places::{choose_flag, choose_string, is_null};
use filter_terms::{TermFault, read_filter};
use jm_base::{Kind, NoMemory, Text};
use jm_json::{Json, Members, depth, write};
use method_args::{
    choose_in_ids_of, choose_member, choose_value, make_item_pointer, read_state_of, read_text,
};
use sort_terms::read_order;
use std::alloc::Global;

// ---- filters and sorts

// Returns whether a tree nests no deeper than a filter or a sort may, and its text is no longer.
fn is_small(alloc: Global, tree: &Json) -> Result<bool, NoMemory>
    ensures { IfOk result (λ b. b ≡ is_small (tree_of tree.now)) }
{
    let text = write(alloc, tree)?;
    Ok(depth(tree) <= MAX_TERM_DEPTH && text.len() <= MAX_TERM_BYTES)
}

// Returns whether a query of emails takes a filter.
fn is_known_filter(alloc: Global, tree: &Json) -> Result<bool, NoMemory>
    ensures { IfOk result (λ b. b ≡ known_filter (tree_of tree.now)) }
{
    match read_filter(alloc, Kind::Email, tree) {
        Ok(_) => Ok(true),
        Err(TermFault::Invalid(_)) => Ok(false),
        Err(TermFault::Unsupported(_)) => Ok(false),
        Err(TermFault::NoMemory) => Err(NoMemory),
    }
}

fn is_known_sort(alloc: Global, tree: &Json) -> Result<bool, NoMemory>
    ensures { IfOk result (λ b. b ≡ known_sort (tree_of tree.now)) }
{
    match read_order(alloc, Kind::Email, tree) {
        Ok(_) => Ok(true),
        Err(TermFault::Invalid(_)) => Ok(false),
        Err(TermFault::Unsupported(_)) => Ok(false),
        Err(TermFault::NoMemory) => Err(NoMemory),
    }
}

fn is_filter(alloc: Global, tree: &Json) -> Result<bool, NoMemory>
    ensures { IfOk result (λ b. b ≡ is_filter (tree_of tree.now)) }
{
    let is_small = is_small(alloc, tree)?;
    Ok(is_small && is_known_filter(alloc, tree)?)
}

fn is_sort(alloc: Global, tree: &Json) -> Result<bool, NoMemory>
    ensures { IfOk result (λ b. b ≡ is_sort (tree_of tree.now)) }
{
    let is_small = is_small(alloc, tree)?;
    Ok(is_small && is_known_sort(alloc, tree)?)
}

fn choose_filter(
    alloc: Global,
    least: Option<Text>,
    pointer: &Text,
    list: &Members,
) -> Result<Option<Text>, NoMemory>
    ensures { IfOk result (λ o. o ≡ least_from least
        (member_places filter_places pointer.now (codes "filter") list.now)) }
{
    match list.get("filter") {
        Some(value) => {
            let is_valid = is_filter(alloc, value)?;
            choose_member(alloc, least, pointer, "filter", is_valid)
        }
        None => choose_member(alloc, least, pointer, "filter", false),
    }
}

fn choose_sort(
    alloc: Global,
    least: Option<Text>,
    pointer: &Text,
    list: &Members,
) -> Result<Option<Text>, NoMemory>
    ensures { IfOk result (λ o. o ≡ least_from least
        (member_places sort_places pointer.now (codes "sort") list.now)) }
{
    match list.get("sort") {
        Some(value) => {
            let is_valid = is_sort(alloc, value)?;
            choose_member(alloc, least, pointer, "sort", is_valid)
        }
        None => choose_member(alloc, least, pointer, "sort", false),
    }
}

// ---- members of a list

fn choose_state_value(
    alloc: Global,
    least: Option<Text>,
    pointer: &Text,
    value: &Json,
) -> Result<Option<Text>, NoMemory>
    ensures { IfOk result (λ o. o ≡ least_from least
        (state_places (at_name pointer.now (codes "state")) (tree_of value.now))) }
{
    if is_null(value) {
        return Ok(least);
    }
    choose_member(
        alloc,
        least,
        pointer,
        "state",
        read_state_of(value).is_some(),
    )
}

/// Returns the least of a place, if there is one, and the place of the member `state` of the object
/// at `pointer` if it is neither a state nor null.
pub(crate) fn choose_state(
    alloc: Global,
    least: Option<Text>,
    pointer: &Text,
    members: &Members,
) -> Result<Option<Text>, NoMemory>
    ensures { IfOk result (λ o. o ≡ least_from least
        (member_places state_places pointer.now (codes "state") members.now)) }
{
    match members.get("state") {
        Some(value) => choose_state_value(alloc, least, pointer, value),
        None => choose_member(alloc, least, pointer, "state", false),
    }
}

fn choose_in_first_members(
    alloc: Global,
    least: Option<Text>,
    pointer: &Text,
    list: &Members,
) -> Result<Option<Text>, NoMemory>
    ensures { IfOk result (λ o. o ≡ least_from least
        (members_places first_list_forms pointer.now list.now)) }
{
    let least = choose_flag(alloc, least, pointer, list, "collapse")?;
    let least = choose_filter(alloc, least, pointer, list)?;
    choose_in_ids_of(alloc, least, pointer, Kind::Email, list, "ids")
}

fn choose_in_last_members(
    alloc: Global,
    least: Option<Text>,
    pointer: &Text,
    list: &Members,
) -> Result<Option<Text>, NoMemory>
    ensures { IfOk result (λ o. o ≡ least_from least
        (members_places last_list_forms pointer.now list.now)) }
{
    let least = choose_string(alloc, least, pointer, list, "name")?;
    let least = choose_sort(alloc, least, pointer, list)?;
    choose_state(alloc, least, pointer, list)
}

fn choose_in_members(
    alloc: Global,
    least: Option<Text>,
    pointer: &Text,
    value: &Json,
) -> Result<Option<Text>, NoMemory>
    ensures { IfOk result (λ o. o ≡ least_from least
        (object_places list_forms pointer.now (tree_of value.now))) }
{
    match value.as_object() {
        Some(list) => {
            let least = choose_in_first_members(alloc, least, pointer, list)?;
            choose_in_last_members(alloc, least, pointer, list)
        }
        None => choose_value(least, pointer, false),
    }
}

// ---- names

// Lends the name of a list.
fn name_of<'a>(value: &'a Json) -> Option<&'a Text>
    ensures { option_map (λ t. t.now) result ≡ name_in (tree_of value.now) }
{
    match value.as_object() {
        Some(list) => read_text(list, "name"),
        None => None,
    }
}

fn is_name_of(name: &Text, value: &Json) -> bool
    ensures { result ≡ is_name_of name.now (name_in (tree_of value.now)) }
{
    match name_of(value) {
        Some(other) => name.as_bytes() == other.as_bytes(),
        None => false,
    }
}

// Returns whether one of some lists has a name.
fn is_taken(name: &Text, lists: &[Json]) -> bool
    ensures { result
        ≡ list_any (is_name_of name.now) (map (λ j. name_in (tree_of j)) lists.now) }
{
    for list in lists {
        if is_name_of(name, list) {
            return true;
        }
    }
    false
}

// Returns whether a list may follow those before by its name.
fn is_new(before: &[Json], value: &Json) -> bool
    ensures { result
        ≡ is_new_name (map (λ j. name_in (tree_of j)) before.now) (name_in (tree_of value.now)) }
{
    match name_of(value) {
        Some(name) => before.len() < MAX_LISTS && !is_taken(name, before),
        None => true,
    }
}

// ---- lists

fn choose_in_list(
    alloc: Global,
    least: Option<Text>,
    pointer: &Text,
    before: &[Json],
    value: &Json,
) -> Result<Option<Text>, NoMemory>
    ensures { IfOk result (λ o. o ≡ least_from least
        (list_item_places (map (λ j. name_in (tree_of j)) before.now) pointer.now
        (tree_of value.now))) }
{
    let least = choose_in_members(alloc, least, pointer, value)?;
    choose_member(alloc, least, pointer, "name", is_new(before, value))
}

fn choose_in_items(
    alloc: Global,
    least: Option<Text>,
    pointer: &Text,
    items: &[Json],
) -> Result<Option<Text>, NoMemory>
    ensures { IfOk result (λ o. o ≡ least_from least
        (list_items_places pointer.now [] (map tree_of items.now))) }
{
    let mut least = least;
    for index in 0..items.len() {
        let list = make_item_pointer(alloc, pointer, index)?;
        least = choose_in_list(alloc, least, &list, &items[..index], &items[index])?;
    }
    Ok(least)
}

/// Returns the least of a place, if there is one, and the places at which the value at `pointer` is
/// not the lists of a cache's file.
pub(crate) fn choose_in_lists(
    alloc: Global,
    least: Option<Text>,
    pointer: &Text,
    value: &Json,
) -> Result<Option<Text>, NoMemory>
    ensures { IfOk result (λ o. o ≡ least_from least
        (lists_places pointer.now (tree_of value.now))) }
{
    match value.as_list() {
        Some(items) => choose_in_items(alloc, least, pointer, items.as_slice()),
        None => choose_value(least, pointer, false),
    }
}
