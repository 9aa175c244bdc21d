// The items of `added` in a response: records that a result list gained (RFC 8620, section 5.6).
ghost use Rattle.std.specs.Prelude.{◌≡◌, IfOk, map};
ghost use Rattle.jm_json.specs.Json.{tree_of};
ghost use Rattle.method_args.specs.Added.{added_from, added_in, added_index, added_item_in, added_number, item_of_members};
ghost use Rattle.method_args.specs.Arguments.{as_count};

use crate::ids::read_id_of;
use crate::values::check_unsigned;
use jm_base::{AddedItem, Kind, NoMemory, Sequence};
use jm_json::{Json, Members};
use std::alloc::Global;

/// Returns the number of the record of a kind whose identifier is the member `id`, if it is one.
pub(crate) fn read_added_number(kind: Kind, item: &Members) -> Option<u64>
    ensures { result ≡ added_number kind item.now }
{
    match item.get("id") {
        Some(id) => read_id_of(kind, id),
        None => None,
    }
}

fn read_unsigned(value: &Json) -> Option<u64>
    ensures { result ≡ as_count (tree_of value.now) }
{
    match value {
        Json::Int(number) => check_unsigned(*number),
        Json::Null | Json::Bool(_) | Json::Text(_) | Json::List(_) | Json::Object(_) => None,
    }
}

/// Returns the UnsignedInt of the member `index`, if it is one (RFC 8620, section 1.3).
pub(crate) fn read_added_index(item: &Members) -> Option<u64>
    ensures { result ≡ added_index item.now }
{
    match item.get("index") {
        Some(index) => read_unsigned(index),
        None => None,
    }
}

fn read_item_of(kind: Kind, item: &Members) -> Option<AddedItem>
    ensures { result ≡ item_of_members kind item.now }
{
    let number = read_added_number(kind, item)?;
    let index = read_added_index(item)?;
    Some(AddedItem { number, index })
}

/// Returns the record of a kind and the index that a value says, if it says them.
pub(crate) fn read_added_item(kind: Kind, value: &Json) -> Option<AddedItem>
    ensures { result ≡ added_item_in kind (tree_of value.now) }
{
    match value.as_object() {
        Some(item) => read_item_of(kind, item),
        None => None,
    }
}

fn read_items(
    alloc: Global,
    kind: Kind,
    values: &[Json],
) -> Result<Option<Sequence<AddedItem>>, NoMemory>
    ensures { IfOk result (λ o. o ≡ added_from kind (map tree_of values.now)) }
{
    let mut items: Sequence<AddedItem> = Sequence::new(alloc);
    for value in values {
        match read_added_item(kind, value) {
            Some(item) => items.push(item)?,
            None => return Ok(None),
        }
    }
    Ok(Some(items))
}

/// Returns the records of a kind and the indices that the items of a list say, or `None` if the
/// value is no list of objects with an identifier of the kind and an index (RFC 8620, section 5.6).
pub fn read_added(
    alloc: Global,
    kind: Kind,
    value: &Json,
) -> Result<Option<Sequence<AddedItem>>, NoMemory>
    ensures { IfOk result (λ o. o ≡ added_in kind (tree_of value.now)) }
{
    match value.as_list() {
        Some(items) => read_items(alloc, kind, items.as_slice()),
        None => Ok(None),
    }
}
