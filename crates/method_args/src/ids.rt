// The identifiers of records and the states in a response (RFC 8620, sections 1.2 and 5.1).
ghost use Rattle.std.specs.Prelude.{◌≡◌, IfOk, IsTrue, map};
ghost use Rattle.jm_json.specs.Json.{tree_of};
ghost use Rattle.method_args.specs.Ids.{id_in, id_number, id_trees, ids_from, ids_in, number_by, state_in};

use jm_base::{Id, Kind, NoMemory, Numbers, id_text, read_id, read_state};
use jm_json::{Items, Json};
use std::alloc::Global;

/// Returns the identifiers of records of a kind, by their numbers.
pub fn make_ids(alloc: Global, kind: Kind, numbers: &[u64]) -> Result<Items, NoMemory>
    ensures { IfOk result (λ ts. ts ≡ id_trees kind numbers.now) }
{
    let mut ids = Items::with_room(alloc, numbers.len())?;
    for number in numbers {
        let id = Id {
            kind,
            number: *number,
        };
        ids.push(Json::Text(id_text(alloc, &id)?))?;
    }
    Ok(ids)
}

fn is_same_kind(one: Kind, other: Kind) -> bool
    ensures same { IsTrue result → one ≡ other }
    ensures other { one ≡ other → IsTrue result }
{
    one == other
}

// Returns the number of the record of a kind whose identifier a string is.
fn read_number(kind: Kind, string: &[u8]) -> Option<u64>
    ensures { result ≡ id_number kind string.now }
{
    match read_id(string) {
        Ok(id) => if is_same_kind(id.kind, kind) {
            Some(id.number)
        } else {
            None
        },
        Err(_) => None,
    }
}

/// Returns the number of the record of a kind whose identifier a value is, if it is one.
pub fn read_id_of(kind: Kind, value: &Json) -> Option<u64>
    ensures { result ≡ id_in kind (tree_of value.now) }
{
    match value.as_text() {
        Some(text) => read_number(kind, text.as_bytes()),
        None => None,
    }
}

// Returns the numbers of values that are all identifiers of records of a kind.
fn read_all_ids(alloc: Global, kind: Kind, values: &[Json]) -> Result<Option<Numbers>, NoMemory>
    ensures { IfOk result (λ o. o ≡ ids_from kind (map tree_of values.now)) }
{
    let mut numbers = Numbers::new(alloc);
    for value in values {
        match read_id_of(kind, value) {
            Some(number) => numbers.push(number)?,
            None => return Ok(None),
        }
    }
    Ok(Some(numbers))
}

/// Returns the numbers of the records of a list of identifiers, or `None` if the value is no list
/// of identifiers of records of this kind.
pub fn read_ids(alloc: Global, kind: Kind, value: &Json) -> Result<Option<Numbers>, NoMemory>
    ensures { IfOk result (λ o. o ≡ ids_in kind (tree_of value.now)) }
{
    match value.as_list() {
        Some(items) => read_all_ids(alloc, kind, items.as_slice()),
        None => Ok(None),
    }
}

// Returns the position of the state whose text a string is.
fn read_position(string: &[u8]) -> Option<u64>
    ensures { result ≡ number_by string.now }
{
    match read_state(string) {
        Ok(position) => Some(position),
        Err(_) => None,
    }
}

/// Returns the position of the state whose text a value is, if it is one (RFC 8620, section 5.1).
pub fn read_state_of(value: &Json) -> Option<u64>
    ensures { result ≡ state_in (tree_of value.now) }
{
    match value.as_text() {
        Some(text) => read_position(text.as_bytes()),
        None => None,
    }
}
