// The values of arguments (RFC 8620, sections 1.3, 3.2 and 5).
ghost use Rattle.std.specs.Prelude.{◌≡◌, map, option_map, option_and_then, IfOk};
ghost use Rattle.jm_json.specs.Find.{as_object, as_text, texts_from};
ghost use Rattle.jm_json.specs.Json.{tree_of};
ghost use Rattle.method_args.specs.Arguments.{account_in, as_strings, count_by, count_in, flag_by, flag_in, given, integer_in, number_of, if_unsigned, object_in, strings_in, text_in};

use jm_base::{NoMemory, Text};
use jm_json::{Json, Members};
use std::alloc::Global;

/// Returns the value of an argument, or `None` if it is absent or null.
pub fn find_given<'a>(members: &'a Members, name: &str) -> Option<&'a Json>
    ensures { option_map (λ t. tree_of t.now) result ≡ given name.now members.now }
{
    match members.get(name) {
        Some(Json::Null) => None,
        other => other,
    }
}

/// Returns the string of an argument, or `None` if the argument is absent or no string.
pub fn read_text<'a>(members: &'a Members, name: &str) -> Option<&'a Text>
    ensures { option_map (λ t. t.now) result ≡ text_in name.now members.now }
{
    members.get(name)?.as_text()
}

/// Returns the string of `accountId`, or `None` if it is absent or no string (RFC 8620, section 5).
pub fn read_account<'a>(members: &'a Members) -> Option<&'a Text>
    ensures { option_map (λ t. t.now) result ≡ account_in members.now }
{
    read_text(members, "accountId")
}

/// Returns the members of an argument, or `None` if the argument is absent or no object.
pub fn read_object<'a>(members: &'a Members, name: &str) -> Option<&'a Members>
    ensures { option_map (λ ms. ms.now) result ≡ object_in name.now members.now }
{
    members.get(name)?.as_object()
}

// Returns the strings of a list all of whose items are strings.
fn collect_strings<'a>(alloc: Global, items: &'a [Json]) -> Result<Option<Vec<&'a str>>, NoMemory>
    ensures { IfOk result
        (λ o. option_map (λ v. map (λ t. t.now) v.items) o ≡ texts_from (map tree_of items.now)) }
{
    let mut strings = Vec::new(alloc);
    for item in items {
        match item.as_text() {
            Some(text) => strings.push(text.as_str())?,
            None => return Ok(None),
        }
    }
    Ok(Some(strings))
}

/// Returns the strings of a value, which are lent, or `None` if the value is no list of strings.
pub fn lend_strings<'a>(alloc: Global, value: &'a Json) -> Result<Option<Vec<&'a str>>, NoMemory>
    ensures { IfOk result
        (λ o. option_map (λ v. map (λ t. t.now) v.items) o ≡ as_strings (tree_of value.now)) }
{
    match value.as_list() {
        Some(items) => collect_strings(alloc, items.as_slice()),
        None => Ok(None),
    }
}

/// Returns the strings of an argument, which are lent, or `None` if the argument is absent, null or
/// no list of strings.
pub fn read_strings<'a>(
    alloc: Global,
    members: &'a Members,
    name: &str,
) -> Result<Option<Vec<&'a str>>, NoMemory>
    ensures { IfOk result
        (λ o. option_map (λ v. map (λ t. t.now) v.items) o ≡ strings_in name.now members.now) }
{
    match find_given(members, name) {
        Some(value) => lend_strings(alloc, value),
        None => Ok(None),
    }
}

fn read_flag_value(value: Option<&Json>) -> Option<bool>
    ensures { result ≡ flag_by (option_map (λ t. tree_of t.now) value.entry) }
{
    match value {
        None => Some(false),
        Some(Json::Bool(flag)) => Some(*flag),
        Some(_) => None,
    }
}

/// Returns the boolean of an argument, false if the argument is absent, or `None` if it is no
/// boolean.
pub fn read_flag(members: &Members, name: &str) -> Option<bool>
    ensures { result ≡ flag_in name.now members.now }
{
    read_flag_value(members.get(name))
}

/// Returns the number if it is an UnsignedInt, and else `None` (RFC 8620, section 1.3).
pub fn check_unsigned(number: i64) -> Option<u64>
    ensures { result ≡ if_unsigned number }
{
    if number < 0 {
        return None;
    }
    Some(number as u64)
}

fn count_by(value: Option<&Json>) -> Option<u64>
    ensures { result ≡ count_by (option_map (λ t. tree_of t.now) value.entry) }
{
    match value {
        None => Some(0),
        Some(Json::Int(number)) => check_unsigned(*number),
        Some(_) => None,
    }
}

/// Returns the UnsignedInt of an argument, 0 if the argument is absent, or `None` if it is no
/// UnsignedInt (RFC 8620, section 1.3).
pub fn read_count(members: &Members, name: &str) -> Option<u64>
    ensures { result ≡ count_in name.now members.now }
{
    count_by(members.get(name))
}

fn read_number(value: Option<&Json>) -> Option<i64>
    ensures { result ≡ option_and_then number_of (option_map (λ t. tree_of t.now) value.entry) }
{
    match value {
        Some(Json::Int(number)) => Some(*number),
        _ => None,
    }
}

/// Returns the integer of an argument, or `None` if the argument is absent or no integer.
pub fn read_integer(members: &Members, name: &str) -> Option<i64>
    ensures { result ≡ integer_in name.now members.now }
{
    read_number(members.get(name))
}
