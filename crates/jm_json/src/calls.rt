// The calls of a request, or the responses of a Response, moved out of a tree (RFC 8620, sections
// 3.2 to 3.4).
ghost use Rattle.std.specs.Prelude.{◌≡◌, IfOk, option_map, option_and_then, map};
ghost use Rattle.jm_json.specs.Json.{tree_of};
ghost use Rattle.jm_json.specs.Find.{as_text, as_list, as_object};
ghost use Rattle.jm_json.specs.Invocations.{call_of};
ghost use Rattle.jm_json.specs.Calls.{call_from, call_of_items, call_of_parts, calls_from, calls_in_response};

use crate::invocation::{Invocation, Invocations};
use crate::tree::{Items, Json};
use jm_base::NoMemory;
use std::alloc::Global;
use std::collections::VecDeque;

/// Returns the responses to calls that a Response has: those of its `methodResponses`, if that is a
/// list of lists of a string, an object and a string (RFC 8620, section 3.4).
pub fn read_responses(alloc: Global, response: Json) -> Result<Option<Invocations>, NoMemory>
    ensures { IfOk result (λ o. o ≡ calls_in_response (tree_of response)) }
{
    match response.into_members() {
        Some(members) => {
            let mut members = members;
            match members.take_value("methodResponses") {
                Some(responses) => read_calls(alloc, responses),
                None => Ok(None),
            }
        }
        None => Ok(None),
    }
}

/// Returns the calls of a list, if all of its items are calls: lists of a string, an object and a
/// string (RFC 8620, section 3.2).
pub fn read_calls(alloc: Global, calls: Json) -> Result<Option<Invocations>, NoMemory>
    ensures { IfOk result (λ o. o ≡ option_and_then calls_from (as_list (tree_of calls))) }
{
    match calls.into_items() {
        Some(items) => read_items(alloc, items),
        None => Ok(None),
    }
}

fn read_items(alloc: Global, items: Items) -> Result<Option<Invocations>, NoMemory>
    ensures { IfOk result (λ o. o ≡ calls_from items) }
{
    let mut calls = Invocations::new(alloc);
    let mut rest = VecDeque::from_vec(items.into_vec());
    while let Some(item) = rest.pop_front() {
        match read_call(item) {
            Some(call) => calls.push(call)?,
            None => return Ok(None),
        }
    }
    Ok(Some(calls))
}

fn read_call(item: Json) -> Option<Invocation>
    ensures { option_map call_of result ≡ call_from (tree_of item) }
{
    match item.into_items() {
        Some(items) => read_parts(items.into_vec()),
        None => None,
    }
}

fn read_parts(items: Vec<Json>) -> Option<Invocation>
    ensures { option_map call_of result ≡ call_of_items (map tree_of items.items) }
{
    let mut rest = VecDeque::from_vec(items);
    let Some(name) = rest.pop_front() else {
        return None;
    };
    let Some(args) = rest.pop_front() else {
        return None;
    };
    let Some(id) = rest.pop_front() else {
        return None;
    };
    if !rest.is_empty() {
        return None;
    }
    read_three(name, args, id)
}

fn read_three(name: Json, args: Json, id: Json) -> Option<Invocation>
    ensures { option_map call_of result
        ≡ call_of_parts (as_text (tree_of name)) (as_object (tree_of args)) (tree_of args)
        (as_text (tree_of id)) }
{
    let Some(name) = name.into_text() else {
        return None;
    };
    if args.as_object().is_none() {
        return None;
    }
    let Some(id) = id.into_text() else {
        return None;
    };
    Some(Invocation { name, args, id })
}
