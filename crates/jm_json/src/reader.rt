// Reads JSON bytes (RFC 8259) as a tree.
ghost use Rattle.std.specs.Prelude.{◌≡◌, ◌≤◌, IsUtf8, Some, None, IfOk, IfErr, OnOk, MatchResult, MatchOption, decimal, true, false};
ghost use Rattle.json.specs.Lex.{tokens};
ghost use Rattle.serde_json.specs.Data.{array, object};
ghost use Rattle.jm_json.specs.Containers.{containers_in};
ghost use Rattle.jm_json.specs.declared.containers.TheConstants.{MAX_CONTAINERS};
ghost use Rattle.jm_json.specs.Reading as reading;
ghost use Rattle.jm_json.specs.Reading.{reading_of};
ghost use Rattle.jm_json.specs.Causes.{IsCauseOf};
ghost use Rattle.serde_json.specs.View.{view, number_view, items_view, members_view};
ghost use Rattle.serde_json.specs.Find.{of_integer};
ghost use Rattle.jm_json.specs.Tree.{trees_of, fields_of};
ghost use Rattle.jm_json.specs.Json.{tree_of};
ghost use Rattle.jm_json.specs.JsonValues.{data_of, items_of, members_of};
ghost use Rattle.jm_json.specs.Integers.{is_whole, first_invalid, first_invalid_item, first_invalid_member, under, pointer_part};
ghost use Rattle.jm_json.specs.Faults.{IsUnder, Refuses};

use crate::containers::has_few_containers;
use crate::path_parts::push_escaped;
use crate::tree::{Items, Json, Members};
use jm_base::{NUMBER_LIMIT, NoMemory, Text};
use serde_json::{Map, Number, Value};
use std::alloc::{AllocError, Global};

/// How many arrays and objects may be open at one byte of a text that is read.
pub const MAX_DEPTH: usize = 127;

// The integers that are read are below this limit, and above its negative.
const INTEGER_LIMIT: i64 = NUMBER_LIMIT as i64;

/// Why bytes are not read: they are no JSON, a number is no integer within the limits (`NotWhole`
/// has its JSON Pointer, RFC 6901), or an allocation failed.
#[derive(Debug, Drop)]
pub enum ReadFault {
    NotJson,
    NotWhole(Text),
    NoMemory,
}

#[derive(Drop)]
enum Misfit {
    NotWhole(Text),
    NoMemory,
}

impl From<AllocError> for Misfit {
    ghost use Rattle.std.specs.Prelude.{◌≡◌};
    ghost use Rattle.jm_json.specs.declared.reader.Misfit.TheVariants.{NoMemory};

    ghost from_gives = { λ _ e. e ≡ NoMemory };

    fn from(_refused: AllocError) -> Misfit {
        Misfit::NoMemory
    }
}

impl From<NoMemory> for Misfit {
    ghost use Rattle.std.specs.Prelude.{◌≡◌};
    ghost use Rattle.jm_json.specs.declared.reader.Misfit.TheVariants.{NoMemory};

    ghost from_gives = { λ _ e. e ≡ NoMemory };

    fn from(_refused: NoMemory) -> Misfit {
        Misfit::NoMemory
    }
}

/// Reads JSON bytes, nested at most `MAX_DEPTH` deep, all of whose numbers are integers below 2^53
/// and above -2^53. Of members with one key the last counts. The pointer of `NotWhole` names the
/// first number of another form in the order of the keys. A text that has more than
/// `MAX_CONTAINERS` objects and lists is answered by `NoMemory`.
pub fn read(alloc: Global, bytes: &[u8]) -> Result<Json, ReadFault>
    ensures reading { MatchResult result (λ t. reading_of bytes.now ≡ reading.whole (tree_of t))
        (λ e. IsCauseOf e (reading_of bytes.now)) }
    ensures few { OnOk result (containers_in (tokens bytes.now) ≤ MAX_CONTAINERS) }
{
    match simdutf8::compat::from_utf8(bytes) {
        Ok(text) => read_text(alloc, text),
        Err(_) => Err(ReadFault::NotJson),
    }
}

fn read_text(alloc: Global, text: &str) -> Result<Json, ReadFault>
    requires { IsUtf8 text.now }
    ensures reading { MatchResult result (λ t. reading_of text.now ≡ reading.whole (tree_of t))
        (λ e. IsCauseOf e (reading_of text.now)) }
    ensures few { OnOk result (containers_in (tokens text.now) ≤ MAX_CONTAINERS) }
{
    if !has_few_containers(alloc, text) {
        return Err(ReadFault::NoMemory);
    }
    read_value(alloc, text)
}

// Reads a text as a value of serde_json, and moves the value into a tree.
fn read_value(alloc: Global, text: &str) -> Result<Json, ReadFault>
    requires { IsUtf8 text.now }
    ensures { MatchResult result (λ t. reading_of text.now ≡ reading.whole (tree_of t))
        (λ e. IsCauseOf e (reading_of text.now)) }
{
    let value = match Value::from_str(alloc, text) {
        Ok(value) => value,
        Err(e) => {
            if e.is_memory() {
                return Err(ReadFault::NoMemory);
            }
            return Err(ReadFault::NotJson);
        }
    };
    match build_tree(alloc, value) {
        Ok(tree) => Ok(tree),
        Err(Misfit::NotWhole(path)) => Err(ReadFault::NotWhole(path)),
        Err(Misfit::NoMemory) => Err(ReadFault::NoMemory),
    }
}

// Moves a value into a tree.
#[cycle(tree)]
fn build_tree(alloc: Global, value: Value) -> Result<Json, Misfit>
    ensures ok { IfOk result (λ t. data_of (tree_of t) ≡ view value) }
    ensures whole { IfOk result (λ t. first_invalid (view value) ≡ None) }
    ensures err { IfErr result (λ e. Refuses e (view value)) }
{
    match value {
        Value::Null => Ok(Json::Null),
        Value::Bool(b) => Ok(Json::Bool(b)),
        Value::Number(number) => match read_integer(&number) {
            Some(z) => Ok(Json::Int(z)),
            None => Err(Misfit::NotWhole(Text::from_str(alloc, "")?)),
        },
        Value::String(text) => Ok(Json::Text(Text::from_string(text))),
        Value::Array(values) => Ok(Json::List(build_items(alloc, values)?)),
        Value::Object(values) => Ok(Json::Object(build_members(alloc, values)?)),
    }
}

fn read_integer(number: &Number) -> Option<i64>
    ensures { MatchOption result (is_whole (number_view number.now) ≡ false)
        (λ z. (is_whole (number_view number.now) ≡ true)
        × (number_view number.now ≡ of_integer z)) }
{
    match number.as_i64() {
        Some(z) => {
            if -INTEGER_LIMIT < z && z < INTEGER_LIMIT {
                Some(z)
            } else {
                None
            }
        }
        None => None,
    }
}

#[cycle(tree)]
fn build_items(alloc: Global, values: Vec<Value>) -> Result<Items, Misfit>
    ensures ok { IfOk result (λ ts. items_of (trees_of ts) ≡ items_view values.items) }
    ensures whole { IfOk result (λ ts. first_invalid_item 0 (items_view values.items) ≡ None) }
    ensures err { IfErr result (λ e. Refuses e (array (items_view values.items))) }
{
    let mut items = Items::with_room(alloc, values.len())?;
    for value in values {
        match build_tree(alloc, value) {
            Ok(tree) => items.push(tree)?,
            Err(fault) => return Err(move_fault_to_list(alloc, items.as_slice().len(), fault)),
        }
    }
    Ok(items)
}

#[cycle(tree)]
fn build_members(alloc: Global, values: Map<String, Value>) -> Result<Members, Misfit>
    ensures ok { IfOk result (λ ms. members_of (fields_of ms) ≡ members_view values.entries) }
    ensures whole { IfOk result
        (λ ms. first_invalid_member (members_view values.entries) ≡ None) }
    ensures err { IfErr result (λ e. Refuses e (object (members_view values.entries))) }
{
    let mut members = Members::with_room(alloc, values.len())?;
    for (name, value) in values {
        match build_tree(alloc, value) {
            Ok(tree) => members.push(Text::from_string(name), tree)?,
            Err(fault) => return Err(move_fault_to_object(alloc, name.as_str(), fault)),
        }
    }
    Ok(members)
}

// Makes the fault of an item a fault of its list.
fn move_fault_to_list(alloc: Global, index: usize, fault: Misfit) -> Misfit
    ensures { IsUnder (decimal index) fault result }
{
    match fault {
        Misfit::NotWhole(path) => match join_index_and_path(alloc, index, path) {
            Ok(path) => Misfit::NotWhole(path),
            Err(NoMemory) => Misfit::NoMemory,
        },
        Misfit::NoMemory => Misfit::NoMemory,
    }
}

// Makes the fault of a member's value a fault of its object.
fn move_fault_to_object(alloc: Global, key: &str, fault: Misfit) -> Misfit
    ensures { IsUnder (pointer_part key.now) fault result }
{
    match fault {
        Misfit::NotWhole(path) => match join_key_and_path(alloc, key, path) {
            Ok(path) => Misfit::NotWhole(path),
            Err(NoMemory) => Misfit::NoMemory,
        },
        Misfit::NoMemory => Misfit::NoMemory,
    }
}

fn join_index_and_path(alloc: Global, index: usize, path: Text) -> Result<Text, NoMemory>
    ensures { IfOk result (λ t. t ≡ under (decimal index) path) }
{
    let rest = path.as_str();
    Ok(Text::from_string(format!(in alloc; "/{index}{rest}")?))
}

fn join_key_and_path(alloc: Global, key: &str, path: Text) -> Result<Text, NoMemory>
    ensures { IfOk result (λ t. t ≡ under (pointer_part key.now) path) }
{
    let mut bytes = vec![in alloc; b'/']?;
    push_escaped(&mut bytes, key.as_bytes())?;
    bytes.extend_from_slice(path.as_bytes())?;
    match Text::from_utf8(bytes) {
        Some(text) => Ok(text),
        None => Err(NoMemory),
    }
}
