// The arguments of a call, with each reference replaced by what it refers to.
ghost use Rattle.std.specs.Prelude.{◌≡◌, ◌≤◌, ◌+◌, ◌&&◌, [], true, false, Some, map, drop, is_some, option_map, MatchResult, MatchOption};
ghost use Rattle.jm_json.specs.Json.{tree_of, member_of};
ghost use Rattle.jm_json.specs.Find.{find};
ghost use Rattle.jm_json.specs.Invocations.{call_of};
ghost use Rattle.result_refs.specs.References.{resolution, resolution_of, resolved, unless_both, arguments, argument, clashes, referred, asked, taken, response_of, text_at, is_marked};
ghost use Rattle.result_refs.specs.Causes.{IsFaultOf, Fails};
ghost use Rattle.result_refs.specs.Costs.{reference_bytes, argument_bytes, arguments_bytes, referred_bytes, asked_bytes, taken_bytes};

use crate::RefFault;
use crate::path::pick;
use jm_base::Text;
use jm_json::{Invocation, Json, Member, MemberRuns, Members};
use std::alloc::Global;
use std::collections::VecDeque;

/// Returns the arguments of a call in which each member whose name begins with `#` is replaced: the
/// name loses the mark, and the value is what the reference names in the responses up to here (RFC
/// 8620, section 3.7). The first response with the id of a reference is taken, and its name must be
/// that of the reference. The other members are moved.
///
/// What the references take (`reference_bytes`) is taken from the room, in bytes, which is what is
/// left for the request. If the room does not suffice, this ends out of memory. Fails with
/// `BadReference` if a reference names nothing, and otherwise with `Both` if a name is given with
/// and without the mark.
#[tactic(auto, using(jm_json::proofs::Lists::lists_back))]
pub fn resolve(
    alloc: Global,
    room: &mut u64,
    args: Json,
    responses: &[Invocation],
) -> Result<Json, RefFault>
    ensures found { MatchResult result
        (λ t. resolution (tree_of args) (map call_of responses.now) ≡ resolved (tree_of t))
        (λ e. IsFaultOf e (resolution (tree_of args) (map call_of responses.now))) }
    ensures room { MatchResult result
        (λ _. reference_bytes (tree_of args) (map call_of responses.now) + room.new ≤ room.old)
        (λ _. room.new ≤ room.old) }
{
    match args {
        Json::Object(members) => resolve_members(alloc, room, members, responses),
        args => Ok(args),
    }
}

fn resolve_members(
    alloc: Global,
    room: &mut u64,
    members: Members,
    responses: &[Invocation],
) -> Result<Json, RefFault>
    ensures found { MatchResult result
        (λ t. resolution_of members (map call_of responses.now) ≡ resolved (tree_of t))
        (λ e. IsFaultOf e (resolution_of members (map call_of responses.now))) }
    ensures room { MatchResult result
        (λ _. arguments_bytes members (map call_of responses.now) + room.new ≤ room.old)
        (λ _. room.new ≤ room.old) }
{
    let clash = has_clash(&members, members.as_slice());
    match replace_members(alloc, room, members, responses) {
        Ok(found) => reject_clash(clash, found),
        Err(fault) => Err(fault),
    }
}

fn reject_clash(clash: bool, members: Members) -> Result<Json, RefFault>
    ensures { MatchResult result (λ t. unless_both clash members ≡ resolved (tree_of t))
        (λ e. IsFaultOf e (unless_both clash members)) }
{
    if clash {
        return Err(RefFault::Both);
    }
    Ok(Json::Object(members))
}

fn replace_members(
    alloc: Global,
    room: &mut u64,
    members: Members,
    responses: &[Invocation],
) -> Result<Members, RefFault>
    ensures found { MatchResult result
        (λ ms. arguments [] members (map call_of responses.now) ≡ Some ms)
        (λ e. Fails e (arguments [] members (map call_of responses.now))) }
    ensures room { MatchResult result
        (λ _. arguments_bytes members (map call_of responses.now) + room.new ≤ room.old)
        (λ _. room.new ≤ room.old) }
{
    let mut found = MemberRuns::new(alloc);
    let mut rest = VecDeque::from_vec(members.into_vec());
    while let Some(member) = rest.pop_front() {
        match replace(alloc, room, member, responses) {
            Ok(put) => found = found.put(alloc, put.name, put.value)?,
            Err(fault) => return Err(fault),
        }
    }
    Ok(found.into_members(alloc)?)
}

fn replace(
    alloc: Global,
    room: &mut u64,
    member: Member,
    responses: &[Invocation],
) -> Result<Member, RefFault>
    ensures found { MatchResult result
        (λ m. argument (member_of member) (map call_of responses.now) ≡ Some (member_of m))
        (λ e. Fails e (argument (member_of member) (map call_of responses.now))) }
    ensures room { MatchResult result
        (λ _. argument_bytes (member_of member) (map call_of responses.now) + room.new ≤ room.old)
        (λ _. room.new ≤ room.old) }
{
    match strip_mark(member.name.as_str()) {
        Some(name) => match refer(alloc, room, &member.value, responses) {
            Ok(value) => Ok(Member {
                name: Text::from_str(alloc, name)?,
                value,
            }),
            Err(fault) => Err(fault),
        },
        None => Ok(member),
    }
}

// Returns a name without its mark, if it has one.
fn strip_mark(name: &str) -> Option<&str>
    ensures { MatchOption result (is_marked name.now ≡ false)
        (λ n. (is_marked name.now ≡ true) × (n.now ≡ drop 1 name.now)) }
{
    name.strip_prefix('#')
}

fn refer(
    alloc: Global,
    room: &mut u64,
    reference: &Json,
    responses: &[Invocation],
) -> Result<Json, RefFault>
    ensures found { MatchResult result
        (λ t. referred (tree_of reference.now) (map call_of responses.now) ≡ Some (tree_of t))
        (λ e. Fails e (referred (tree_of reference.now) (map call_of responses.now))) }
    ensures room { MatchResult result
        (λ _. referred_bytes (tree_of reference.now) (map call_of responses.now)
        + room.new ≤ room.old)
        (λ _. room.new ≤ room.old) }
{
    match reference.as_object() {
        Some(members) => ask(alloc, room, members, responses),
        None => Err(RefFault::BadReference),
    }
}

fn ask(
    alloc: Global,
    room: &mut u64,
    members: &Members,
    responses: &[Invocation],
) -> Result<Json, RefFault>
    ensures found { MatchResult result
        (λ t. asked members.now (map call_of responses.now) ≡ Some (tree_of t))
        (λ e. Fails e (asked members.now (map call_of responses.now))) }
    ensures room { MatchResult result
        (λ _. asked_bytes members.now (map call_of responses.now) + room.new ≤ room.old)
        (λ _. room.new ≤ room.old) }
{
    let Some(id) = find_text_member(members, "resultOf") else {
        return Err(RefFault::BadReference);
    };
    let Some(name) = find_text_member(members, "name") else {
        return Err(RefFault::BadReference);
    };
    let Some(path) = find_text_member(members, "path") else {
        return Err(RefFault::BadReference);
    };
    take(alloc, room, id, name, path, responses)
}

fn find_text_member<'a>(members: &'a Members, key: &str) -> Option<&'a Text>
    ensures { option_map (λ t. t.now) result ≡ text_at key.now members.now }
{
    match members.get(key) {
        Some(value) => value.as_text(),
        None => None,
    }
}

fn take(
    alloc: Global,
    room: &mut u64,
    id: &Text,
    name: &Text,
    path: &Text,
    responses: &[Invocation],
) -> Result<Json, RefFault>
    ensures found { MatchResult result
        (λ t. taken id.now name.now path.now (map call_of responses.now) ≡ Some (tree_of t))
        (λ e. Fails e (taken id.now name.now path.now (map call_of responses.now))) }
    ensures room { MatchResult result
        (λ _. taken_bytes id.now name.now path.now (map call_of responses.now)
        + room.new ≤ room.old)
        (λ _. room.new ≤ room.old) }
{
    match find_response(id.as_str(), responses) {
        Some(response) => {
            if response.name.as_str() != name.as_str() {
                return Err(RefFault::BadReference);
            }
            pick(alloc, room, &response.args, path.as_bytes())
        }
        None => Err(RefFault::BadReference),
    }
}

fn find_response<'a>(id: &str, responses: &'a [Invocation]) -> Option<&'a Invocation>
    ensures { option_map (λ r. call_of r.now) result
        ≡ response_of id.now (map call_of responses.now) }
{
    for response in responses {
        if response.id.as_str() == id {
            return Some(response);
        }
    }
    None
}

fn has_clash(all: &Members, members: &[Member]) -> bool
    ensures { result ≡ clashes (map member_of members.now) all.now }
{
    for member in members {
        if is_given_twice(all, member.name.as_str()) {
            return true;
        }
    }
    false
}

// Returns whether a name has the mark and there is a member of the name without it.
fn is_given_twice(all: &Members, name: &str) -> bool
    ensures { result ≡ (is_marked name.now && is_some (find (drop 1 name.now) all.now)) }
{
    match strip_mark(name) {
        Some(plain) => all.get(plain).is_some(),
        None => false,
    }
}
