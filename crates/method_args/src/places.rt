// Where the values of a response are not of their form: the least JSON Pointer in byte order.
ghost use Rattle.std.specs.Prelude.{◌≡◌, IfOk, map};
ghost use Rattle.jm_json.specs.Json.{tree_of};
ghost use Rattle.jm_json.specs.LeastPlaces.{least_from};
ghost use Rattle.method_args.specs.Places.{added_item_places, added_member_places, added_places, at_index, at_name, id_places, ids_places, item_places, member_places, place_unless};

use crate::added::{read_added_index, read_added_item, read_added_number};
use crate::ids::read_id_of;
use jm_base::{Kind, NoMemory, Text};
use jm_json::{Json, Members, choose_least, push_index, push_name};
use std::alloc::Global;

/// Returns the least of a place, if there is one, and the pointer of a value that is not of its
/// form.
pub fn choose_value(
    least: Option<Text>,
    pointer: &Text,
    is_valid: bool,
) -> Result<Option<Text>, NoMemory>
    ensures { IfOk result (λ o. o ≡ least_from least (place_unless is_valid pointer.now)) }
{
    if is_valid {
        return Ok(least);
    }
    Ok(choose_least(least, pointer.copy()?))
}

/// Returns the pointer of a member, by the pointer of its object (RFC 6901, section 3).
pub fn make_member_pointer(alloc: Global, pointer: &Text, name: &str) -> Result<Text, NoMemory>
    ensures { IfOk result (λ p. p ≡ at_name pointer.now name.now) }
{
    let mut member = pointer.copy()?;
    push_name(alloc, &mut member, name)?;
    Ok(member)
}

/// Returns the pointer of an item, by the pointer of its list (RFC 6901, section 4).
pub fn make_item_pointer(alloc: Global, pointer: &Text, index: usize) -> Result<Text, NoMemory>
    ensures { IfOk result (λ p. p ≡ at_index pointer.now index) }
{
    let mut item = pointer.copy()?;
    push_index(alloc, &mut item, index)?;
    Ok(item)
}

/// Returns the least of a place, if there is one, and the pointer of a member of the object at
/// `pointer` that is not of its form.
pub fn choose_member(
    alloc: Global,
    least: Option<Text>,
    pointer: &Text,
    name: &str,
    is_valid: bool,
) -> Result<Option<Text>, NoMemory>
    ensures { IfOk result
        (λ o. o ≡ least_from least (place_unless is_valid (at_name pointer.now name.now))) }
{
    if is_valid {
        return Ok(least);
    }
    Ok(choose_least(least, make_member_pointer(alloc, pointer, name)?))
}

// Returns the least of a place, if there is one, and the pointer of an item that is not of its
// form.
fn choose_item(
    alloc: Global,
    least: Option<Text>,
    pointer: &Text,
    index: usize,
    is_valid: bool,
) -> Result<Option<Text>, NoMemory>
    ensures { IfOk result
        (λ o. o ≡ least_from least (place_unless is_valid (at_index pointer.now index))) }
{
    if is_valid {
        return Ok(least);
    }
    Ok(choose_least(least, make_item_pointer(alloc, pointer, index)?))
}

fn choose_in_id_items(
    alloc: Global,
    least: Option<Text>,
    pointer: &Text,
    kind: Kind,
    items: &[Json],
) -> Result<Option<Text>, NoMemory>
    ensures { IfOk result (λ o. o ≡ least_from least
        (item_places (id_places kind) pointer.now 0 (map tree_of items.now))) }
{
    let mut least = least;
    for (index, item) in items.iter().enumerate() {
        let is_valid = read_id_of(kind, item).is_some();
        least = choose_item(alloc, least, pointer, index, is_valid)?;
    }
    Ok(least)
}

/// Returns the least of a place, if there is one, and the places at which the value at `pointer` is
/// no list of identifiers of records of a kind: its own, or that of each item that is none.
pub fn choose_in_ids(
    alloc: Global,
    least: Option<Text>,
    pointer: &Text,
    kind: Kind,
    value: &Json,
) -> Result<Option<Text>, NoMemory>
    ensures { IfOk result
        (λ o. o ≡ least_from least (ids_places kind pointer.now (tree_of value.now))) }
{
    match value.as_list() {
        Some(items) => choose_in_id_items(alloc, least, pointer, kind, items.as_slice()),
        None => choose_value(least, pointer, false),
    }
}

/// Returns the least of a place, if there is one, and the places at which a member of the object at
/// `pointer` is no list of identifiers of records of a kind.
pub fn choose_in_ids_of(
    alloc: Global,
    least: Option<Text>,
    pointer: &Text,
    kind: Kind,
    members: &Members,
    name: &str,
) -> Result<Option<Text>, NoMemory>
    ensures { IfOk result (λ o. o ≡ least_from least
        (member_places (ids_places kind) pointer.now name.now members.now)) }
{
    let member = make_member_pointer(alloc, pointer, name)?;
    match members.get(name) {
        Some(value) => choose_in_ids(alloc, least, &member, kind, value),
        None => choose_value(least, &member, false),
    }
}

fn choose_in_added_members(
    alloc: Global,
    least: Option<Text>,
    pointer: &Text,
    kind: Kind,
    item: &Members,
) -> Result<Option<Text>, NoMemory>
    ensures { IfOk result
        (λ o. o ≡ least_from least (added_member_places kind pointer.now item.now)) }
{
    let has_id = read_added_number(kind, item).is_some();
    let least = choose_member(alloc, least, pointer, "id", has_id)?;
    let has_index = read_added_index(item).is_some();
    choose_member(alloc, least, pointer, "index", has_index)
}

fn choose_in_added_item(
    alloc: Global,
    least: Option<Text>,
    pointer: &Text,
    kind: Kind,
    value: &Json,
) -> Result<Option<Text>, NoMemory>
    ensures { IfOk result
        (λ o. o ≡ least_from least (added_item_places kind pointer.now (tree_of value.now))) }
{
    match value.as_object() {
        Some(item) => choose_in_added_members(alloc, least, pointer, kind, item),
        None => choose_value(least, pointer, false),
    }
}

// Returns the least of a place and those in an item. A pointer is made only for an item that is not
// of its form.
#[tactic(auto, using(crate::proofs::NoPlaces::added_without_places))]
fn choose_in_added_at(
    alloc: Global,
    least: Option<Text>,
    pointer: &Text,
    index: usize,
    kind: Kind,
    value: &Json,
) -> Result<Option<Text>, NoMemory>
    ensures { IfOk result (λ o. o ≡ least_from least
        (added_item_places kind (at_index pointer.now index) (tree_of value.now))) }
{
    if read_added_item(kind, value).is_some() {
        return Ok(least);
    }
    let item = make_item_pointer(alloc, pointer, index)?;
    choose_in_added_item(alloc, least, &item, kind, value)
}

fn choose_in_added_items(
    alloc: Global,
    least: Option<Text>,
    pointer: &Text,
    kind: Kind,
    items: &[Json],
) -> Result<Option<Text>, NoMemory>
    ensures { IfOk result (λ o. o ≡ least_from least
        (item_places (added_item_places kind) pointer.now 0 (map tree_of items.now))) }
{
    let mut least = least;
    for (index, item) in items.iter().enumerate() {
        least = choose_in_added_at(alloc, least, pointer, index, kind, item)?;
    }
    Ok(least)
}

/// Returns the least of a place, if there is one, and the places at which the value at `pointer` is
/// no list of objects with an identifier of a record of a kind and an index (RFC 8620, section
/// 5.6): its own, or those in its items.
pub fn choose_in_added(
    alloc: Global,
    least: Option<Text>,
    pointer: &Text,
    kind: Kind,
    value: &Json,
) -> Result<Option<Text>, NoMemory>
    ensures { IfOk result
        (λ o. o ≡ least_from least (added_places kind pointer.now (tree_of value.now))) }
{
    match value.as_list() {
        Some(items) => choose_in_added_items(alloc, least, pointer, kind, items.as_slice()),
        None => choose_value(least, pointer, false),
    }
}

/// Returns the least of a place, if there is one, and the places at which a member of the object at
/// `pointer` is no list of objects with an identifier of a record of a kind and an index.
pub fn choose_in_added_of(
    alloc: Global,
    least: Option<Text>,
    pointer: &Text,
    kind: Kind,
    members: &Members,
    name: &str,
) -> Result<Option<Text>, NoMemory>
    ensures { IfOk result (λ o. o ≡ least_from least
        (member_places (added_places kind) pointer.now name.now members.now)) }
{
    let member = make_member_pointer(alloc, pointer, name)?;
    match members.get(name) {
        Some(value) => choose_in_added(alloc, least, &member, kind, value),
        None => choose_value(least, &member, false),
    }
}
