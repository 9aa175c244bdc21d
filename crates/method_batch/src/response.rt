// The Response to a request as a tree (RFC 8620, section 3.4).
ghost use Rattle.std.specs.Prelude.{◌≡◌, ◌++◌, IfOk, OnOk, OnErr, List, map};
ghost use Rattle.serde_json.specs.Written.{compact_text};
ghost use Rattle.jm_json.specs.Json.{tree_of};
ghost use Rattle.jm_json.specs.JsonValues.{data_of};
ghost use Rattle.jm_json.specs.Invocations.{call_of};
ghost use Rattle.jm_json.specs.Responses.{call_tree};
ghost use Rattle.method_batch.specs.Outcome.{created_member, response_tree};

use crate::created::build_id_members;
use crate::progress::Progress;
use jm_base::{Bytes, NoMemory, Text};
use jm_json::{Invocation, Invocations, Items, Json, Made, Members, write_after, write_responses};
use std::alloc::Global;
use std::collections::VecDeque;

// The state of the session (RFC 8620, section 2), which never changes.
const SESSION_STATE: &str = "0";

/// Returns the tree of the Response to a request that came this far, which is moved into it. It has
/// `createdIds` if the request had them.
pub(crate) fn build_response(alloc: Global, shows: bool, after: Progress) -> Result<Json, NoMemory>
    ensures { IfOk result (λ t. tree_of t ≡ response_tree shows after) }
{
    let Progress { responses, made } = after;
    let items = call_lists(alloc, responses)?;
    let mut members = build_created_members(alloc, shows, made)?;
    members.set(alloc, "methodResponses", Json::List(items))?;
    let state = Text::from_str(alloc, SESSION_STATE)?;
    members.set(alloc, "sessionState", Json::Text(state))?;
    Ok(Json::Object(members))
}

/// Adds the compact text of the Response to a request that came this far, after what is there. It
/// has `createdIds` if the request had them. If memory runs out, the bytes are unchanged.
pub(crate) fn write_response(
    alloc: Global,
    shows: bool,
    after: Progress,
    out: &mut Bytes,
) -> Result<(), NoMemory>
    ensures ok { OnOk result (out.new ≡ out.old
        ++ compact_text (data_of (response_tree shows after))) }
    ensures err { OnErr result (out.new ≡ out.old) }
{
    if shows {
        let tree = build_response(alloc, shows, after)?;
        return write_after(alloc, out, &tree);
    }
    write_responses(alloc, out, after.responses.as_slice(), SESSION_STATE)
}

fn build_created_members(alloc: Global, shows: bool, made: Made) -> Result<Members, NoMemory>
    ensures { IfOk result (λ ms. ms ≡ created_member shows made) }
{
    let mut members = Members::new(alloc);
    if shows {
        let ids = build_id_members(alloc, made)?;
        members.set(alloc, "createdIds", Json::Object(ids))?;
        return Ok(members);
    }
    Ok(members)
}

fn call_lists(alloc: Global, responses: Invocations) -> Result<Items, NoMemory>
    ensures { IfOk result (λ ts. ts ≡ map call_tree responses) }
{
    let mut items = Items::new(alloc);
    let mut rest = VecDeque::from_vec(responses.into_vec());
    while let Some(response) = rest.pop_front() {
        items.push(call_list(alloc, response)?)?;
    }
    Ok(items)
}

fn call_list(alloc: Global, call: Invocation) -> Result<Json, NoMemory>
    ensures { IfOk result (λ t. tree_of t ≡ call_tree (call_of call)) }
{
    let Invocation { name, args, id } = call;
    let mut items = Items::with_room(alloc, 3)?;
    items.push(Json::Text(name))?;
    items.push(args)?;
    items.push(Json::Text(id))?;
    Ok(Json::List(items))
}
