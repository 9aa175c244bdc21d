// The values of the members of a response.
ghost use Rattle.std.specs.Prelude.{◌≡◌, ◌==◌, IfOk};
ghost use Rattle.jm_json.specs.Json.{tree_of};
ghost use Rattle.method_args.specs.Arguments.{as_count, as_flag, passes};
ghost use Rattle.reply_readers.specs.Members.{flag_of, has_count, has_state, has_text, ids_of, state_of};

use jm_base::{Kind, NoMemory, Numbers};
use jm_json::{Json, Members};
use method_args::{check_unsigned, read_ids, read_state_of, read_text};
use std::alloc::Global;

/// Returns the numbers of the records of a list of identifiers of a kind, if the member is one.
pub(crate) fn read_ids_of(
    alloc: Global,
    kind: Kind,
    members: &Members,
    name: &str,
) -> Result<Option<Numbers>, NoMemory>
    ensures { IfOk result (λ o. o ≡ ids_of kind name.now members.now) }
{
    match members.get(name) {
        Some(value) => read_ids(alloc, kind, value),
        None => Ok(None),
    }
}

/// Returns the position of a state, if the member is its text.
pub(crate) fn read_state(members: &Members, name: &str) -> Option<u64>
    ensures { result ≡ state_of name.now members.now }
{
    match members.get(name) {
        Some(value) => read_state_of(value),
        None => None,
    }
}

fn read_flag_of(value: &Json) -> Option<bool>
    ensures { result ≡ as_flag (tree_of value.now) }
{
    match value {
        Json::Bool(flag) => Some(*flag),
        Json::Null | Json::Int(_) | Json::Text(_) | Json::List(_) | Json::Object(_) => None,
    }
}

/// Returns the boolean, if the member is one.
pub(crate) fn read_flag(members: &Members, name: &str) -> Option<bool>
    ensures { result ≡ flag_of name.now members.now }
{
    match members.get(name) {
        Some(value) => read_flag_of(value),
        None => None,
    }
}

/// Returns whether the member is this string.
pub(crate) fn has_text(members: &Members, name: &str, string: &str) -> bool
    ensures { result ≡ has_text name.now string.now members.now }
{
    match read_text(members, name) {
        Some(text) => text.as_bytes() == string.as_bytes(),
        None => false,
    }
}

/// Returns whether the member is the text of this state.
pub(crate) fn has_state(members: &Members, name: &str, position: u64) -> bool
    ensures { result ≡ has_state name.now position members.now }
{
    match read_state(members, name) {
        Some(state) => state == position,
        None => false,
    }
}

fn read_count_of(value: &Json) -> Option<u64>
    ensures { result ≡ as_count (tree_of value.now) }
{
    match value {
        Json::Int(number) => check_unsigned(*number),
        Json::Null | Json::Bool(_) | Json::Text(_) | Json::List(_) | Json::Object(_) => None,
    }
}

fn is_count(value: &Json, count: u64) -> bool
    ensures { result ≡ passes (λ n. n == count) (as_count (tree_of value.now)) }
{
    match read_count_of(value) {
        Some(number) => number == count,
        None => false,
    }
}

/// Returns whether the member is this number.
pub(crate) fn has_count(members: &Members, name: &str, count: u64) -> bool
    ensures { result ≡ has_count name.now count members.now }
{
    match members.get(name) {
        Some(value) => is_count(value, count),
        None => false,
    }
}
