// The response to a call of a /get method, read (RFC 8620, section 5.1).
ghost use Rattle.std.specs.Prelude.{◌≡◌, ◌==◌, codes, not, filter, length, map, option_map, IfOk};
ghost use Rattle.jm_base.specs.Splices.{has};
ghost use Rattle.jm_json.specs.Json.{tree_of};
ghost use Rattle.jm_json.specs.LeastPlaces.{least_from};
ghost use Rattle.method_args.specs.Ids.{id_in};
ghost use Rattle.method_args.specs.Places.{at_index, place_unless};
ghost use Rattle.reply_readers.specs.Objects.{both_places, is_left, items_of, left_after, left_after_all, left_after_items, left_after_list, list_places, not_found_places, object_in, object_number, object_of, object_places, objects_from, objects_in, objects_member_places, objects_of, objects_of_members, objects_places, objects_reply_places, record_number, unknown_places};

use crate::members::{has_text, read_ids_of, read_state};
use jm_base::{Kind, NoMemory, Numbers, Sequence, Text};
use jm_json::{Items, Json, Members};
use method_args::{
    choose_member, choose_value, make_item_pointer, make_member_pointer, read_id_of,
};
use std::alloc::Global;
use std::collections::VecDeque;

/// An object of a response: the number of its record, and the object itself, with its identifier.
#[derive(Drop)]
pub struct ReadObject {
    pub number: u64,
    pub object: Json,
}

/// The objects that were read, the records that are not there, and the state (RFC 8620, section
/// 5.1). Contracts see them as `Objects`, by `objects_of`.
#[derive(Drop)]
pub struct ReadObjects {
    /// The objects of `list`, in its order.
    pub objects: Sequence<ReadObject>,
    /// The numbers of the records of `notFound`.
    pub unknown: Numbers,
    /// The position of `state`.
    pub state: u64,
}

fn read_record_number(kind: Kind, object: &Members) -> Option<u64>
    ensures { result ≡ record_number kind object.now }
{
    match object.get("id") {
        Some(id) => read_id_of(kind, id),
        None => None,
    }
}

fn read_object_number(kind: Kind, value: &Json) -> Option<u64>
    ensures { result ≡ object_number kind (tree_of value.now) }
{
    match value.as_object() {
        Some(object) => read_record_number(kind, object),
        None => None,
    }
}

fn has_number(numbers: &[u64], number: u64) -> bool
    ensures { result ≡ has numbers.now number }
{
    for other in numbers {
        if *other == number {
            return true;
        }
    }
    false
}

fn is_left(left: &[u64], number: Option<u64>) -> bool
    ensures { result ≡ is_left left.now number }
{
    match number {
        Some(number) => has_number(left, number),
        None => false,
    }
}

fn remove_number(left: &mut Vec<u64>, number: u64)
    ensures { left.new.items ≡ filter (λ m. not (m == number)) left.old.items }
{
    left.retain(|other| *other != number);
}

fn take_number(left: &mut Vec<u64>, number: Option<u64>)
    ensures { left.new.items ≡ left_after left.old.items number }
{
    match number {
        Some(number) => remove_number(left, number),
        None => {}
    }
}

fn choose_in_object(
    alloc: Global,
    least: Option<Text>,
    pointer: &Text,
    kind: Kind,
    left: &[u64],
    value: &Json,
) -> Result<Option<Text>, NoMemory>
    ensures { IfOk result
        (λ o. o ≡ least_from least (object_places kind pointer.now left.now (tree_of value.now))) }
{
    match value.as_object() {
        Some(object) => {
            let is_valid = is_left(left, read_record_number(kind, object));
            choose_member(alloc, least, pointer, "id", is_valid)
        }
        None => choose_value(least, pointer, false),
    }
}

// Returns the least of a place and those in an item. A pointer is made only for an item that is not
// of its form.
#[tactic(auto, using(crate::proofs::LeftRecords::object_without_places))]
fn choose_in_object_at(
    alloc: Global,
    least: Option<Text>,
    pointer: &Text,
    index: usize,
    kind: Kind,
    left: &[u64],
    value: &Json,
) -> Result<Option<Text>, NoMemory>
    ensures { IfOk result (λ o. o ≡ least_from least
        (object_places kind (at_index pointer.now index) left.now (tree_of value.now))) }
{
    if is_left(left, read_object_number(kind, value)) {
        return Ok(least);
    }
    let object = make_item_pointer(alloc, pointer, index)?;
    choose_in_object(alloc, least, &object, kind, left, value)
}

fn choose_in_list(
    alloc: Global,
    least: Option<Text>,
    pointer: &Text,
    kind: Kind,
    left: &mut Vec<u64>,
    values: &[Json],
) -> Result<Option<Text>, NoMemory>
    ensures least { IfOk result (λ o. o ≡ least_from least
        (objects_places kind pointer.now 0 left.old.items (map tree_of values.now))) }
    ensures left { IfOk result (λ _. left.new.items
        ≡ left_after_all (object_number kind) left.old.items (map tree_of values.now)) }
{
    let mut least = least;
    for (index, value) in values.iter().enumerate() {
        least = choose_in_object_at(alloc, least, pointer, index, kind, left.as_slice(), value)?;
        take_number(left, read_object_number(kind, value));
    }
    Ok(least)
}

fn choose_item(
    alloc: Global,
    least: Option<Text>,
    pointer: &Text,
    index: usize,
    is_valid: bool,
) -> Result<Option<Text>, NoMemory>
    ensures { IfOk result
        (λ o. o ≡ least_from least (place_unless is_valid (at_index pointer.now index))) }
{
    if is_valid {
        return Ok(least);
    }
    let item = make_item_pointer(alloc, pointer, index)?;
    choose_value(least, &item, false)
}

fn choose_in_unknown(
    alloc: Global,
    least: Option<Text>,
    pointer: &Text,
    kind: Kind,
    left: &mut Vec<u64>,
    values: &[Json],
) -> Result<Option<Text>, NoMemory>
    ensures least { IfOk result (λ o. o ≡ least_from least
        (unknown_places kind pointer.now 0 left.old.items (map tree_of values.now))) }
    ensures left { IfOk result (λ _. left.new.items
        ≡ left_after_all (id_in kind) left.old.items (map tree_of values.now)) }
{
    let mut least = least;
    for (index, value) in values.iter().enumerate() {
        let number = read_id_of(kind, value);
        least = choose_item(
            alloc,
            least,
            pointer,
            index,
            is_left(left.as_slice(), number),
        )?;
        take_number(left, number);
    }
    Ok(least)
}

fn find_items<'a>(members: &'a Members, name: &str) -> Option<&'a Items>
    ensures { option_map (λ ts. ts.now) result ≡ items_of name.now members.now }
{
    match members.get(name) {
        Some(value) => value.as_list(),
        None => None,
    }
}

fn choose_in_list_member(
    alloc: Global,
    least: Option<Text>,
    pointer: &Text,
    kind: Kind,
    left: &mut Vec<u64>,
    members: &Members,
) -> Result<Option<Text>, NoMemory>
    ensures least { IfOk result (λ o. o ≡ least_from least
        (list_places kind left.old.items pointer.now members.now)) }
    ensures left { IfOk result
        (λ _. left.new.items ≡ left_after_list kind left.old.items members.now) }
{
    let list = make_member_pointer(alloc, pointer, "list")?;
    match find_items(members, "list") {
        Some(items) => choose_in_list(alloc, least, &list, kind, left, items.as_slice()),
        None => choose_value(least, &list, false),
    }
}

fn choose_in_unknown_member(
    alloc: Global,
    least: Option<Text>,
    pointer: &Text,
    kind: Kind,
    left: &mut Vec<u64>,
    members: &Members,
) -> Result<Option<Text>, NoMemory>
    ensures least { IfOk result (λ o. o ≡ least_from least
        (not_found_places kind left.old.items pointer.now members.now)) }
    ensures left { IfOk result (λ _. left.new.items
        ≡ left_after_items (id_in kind) left.old.items (items_of (codes "notFound") members.now)) }
{
    let unknown = make_member_pointer(alloc, pointer, "notFound")?;
    match find_items(members, "notFound") {
        Some(items) => choose_in_unknown(alloc, least, &unknown, kind, left, items.as_slice()),
        None => choose_value(least, &unknown, false),
    }
}

fn choose_in_both(
    alloc: Global,
    least: Option<Text>,
    pointer: &Text,
    kind: Kind,
    asked: &[u64],
    members: &Members,
) -> Result<Option<Text>, NoMemory>
    ensures { IfOk result
        (λ o. o ≡ least_from least (both_places kind asked.now pointer.now members.now)) }
{
    let mut left = Vec::from_slice(alloc, asked)?;
    let in_list = choose_in_list_member(alloc, least, pointer, kind, &mut left, members)?;
    let in_both = choose_in_unknown_member(alloc, in_list, pointer, kind, &mut left, members)?;
    choose_member(alloc, in_both, pointer, "list", left.is_empty())
}

fn choose_in_members(
    alloc: Global,
    least: Option<Text>,
    pointer: &Text,
    kind: Kind,
    account: &str,
    asked: &[u64],
    members: &Members,
) -> Result<Option<Text>, NoMemory>
    ensures { IfOk result (λ o. o ≡ least_from least
        (objects_member_places kind account.now asked.now pointer.now members.now)) }
{
    let is_account = has_text(members, "accountId", account);
    let least = choose_member(alloc, least, pointer, "accountId", is_account)?;
    let least = choose_in_both(alloc, least, pointer, kind, asked, members)?;
    let has_state = read_state(members, "state").is_some();
    choose_member(alloc, least, pointer, "state", has_state)
}

/// Returns the least of a place, if there is one, and the places at which the arguments at
/// `pointer` are no objects and unknown identifiers of these records of a kind in an account, each
/// once. If a record is missing, the member `list` is such a place.
pub fn choose_in_objects(
    alloc: Global,
    least: Option<Text>,
    pointer: &Text,
    kind: Kind,
    account: &str,
    asked: &[u64],
    args: &Json,
) -> Result<Option<Text>, NoMemory>
    ensures { IfOk result (λ o. o ≡ least_from least
        (objects_reply_places kind account.now asked.now pointer.now (tree_of args.now))) }
{
    match args.as_object() {
        Some(members) => choose_in_members(alloc, least, pointer, kind, account, asked, members),
        None => choose_value(least, pointer, false),
    }
}

fn read_object(kind: Kind, value: Json) -> Option<ReadObject>
    ensures { option_map object_of result ≡ object_in kind (tree_of value) }
{
    match read_object_number(kind, &value) {
        Some(number) => Some(ReadObject {
            number,
            object: value,
        }),
        None => None,
    }
}

fn read_list(
    alloc: Global,
    kind: Kind,
    values: Items,
) -> Result<Option<Sequence<ReadObject>>, NoMemory>
    ensures { IfOk result (λ o. option_map (map object_of) o ≡ objects_from kind values) }
{
    let mut objects: Sequence<ReadObject> = Sequence::new(alloc);
    let mut rest = VecDeque::from_vec(values.into_vec());
    while let Some(value) = rest.pop_front() {
        match read_object(kind, value) {
            Some(object) => objects.push(object)?,
            None => return Ok(None),
        }
    }
    Ok(Some(objects))
}

fn take_items(members: &mut Members, name: &str) -> Option<Items>
    ensures { result ≡ items_of name.now members.old }
{
    match members.remove(name) {
        Some(value) => value.into_items(),
        None => None,
    }
}

fn read_members(
    alloc: Global,
    kind: Kind,
    members: Members,
) -> Result<Option<ReadObjects>, NoMemory>
    ensures { IfOk result (λ o. option_map objects_of o ≡ objects_of_members kind members) }
{
    let Some(unknown) = read_ids_of(alloc, kind, &members, "notFound")? else {
        return Ok(None);
    };
    let Some(state) = read_state(&members, "state") else {
        return Ok(None);
    };
    let mut members = members;
    let Some(list) = take_items(&mut members, "list") else {
        return Ok(None);
    };
    drop(members);
    match read_list(alloc, kind, list)? {
        Some(objects) => Ok(Some(ReadObjects {
            objects,
            unknown,
            state,
        })),
        None => Ok(None),
    }
}

/// Returns the objects, the unknown records and the state that the arguments of a response say, or
/// `None` if they do not say them. Which records they are is not looked at: see
/// [`choose_in_objects`].
pub fn read_objects(alloc: Global, kind: Kind, args: Json) -> Result<Option<ReadObjects>, NoMemory>
    ensures { IfOk result (λ o. option_map objects_of o ≡ objects_in kind (tree_of args)) }
{
    match args.into_members() {
        Some(members) => read_members(alloc, kind, members),
        None => Ok(None),
    }
}
