// What the path of a reference names: a JSON Pointer (RFC 6901) in which `*` means the items
// of a list (RFC 8620, section 3.7).
ghost use Rattle.std.specs.Prelude.{◌≡◌, ◌≤◌, ◌+◌, ◌++◌, Some, map, option_and_then, MatchResult, OnOk};
ghost use Rattle.jm_json.specs.Json.{tree_of};
ghost use Rattle.jm_json.specs.Find.{as_list};
ghost use Rattle.jm_json.specs.Pointer.{cut, child as child_of};
ghost use Rattle.result_refs.specs.References.{own_items, gathered, step, walked, picked};
ghost use Rattle.result_refs.specs.Parts.{later_parts};
ghost use Rattle.result_refs.specs.Causes.{Fails};
ghost use Rattle.result_refs.specs.Costs.{gathered_bytes, step_bytes, parts_bytes, path_bytes, child_bytes};

use crate::RefFault;
use crate::room::{copy_within, take_room, take_scan};
use jm_base::NoMemory;
use jm_json::{Items, Json, find_child, part_end};
use std::alloc::Global;

// Returns a copy of what a path names in a tree.
pub(crate) fn pick(
    alloc: Global,
    room: &mut u64,
    tree: &Json,
    path: &[u8],
) -> Result<Json, RefFault>
    ensures found { MatchResult result
        (λ t. picked path.now (tree_of tree.now) ≡ Some (tree_of t))
        (λ e. Fails e (picked path.now (tree_of tree.now))) }
    ensures room { MatchResult result
        (λ _. path_bytes path.now (tree_of tree.now) + room.new ≤ room.old)
        (λ _. room.new ≤ room.old) }
{
    if path.is_empty() {
        return Ok(copy_within(alloc, tree, room)?);
    }
    if path[0] != b'/' {
        return Err(RefFault::BadReference);
    }
    walk(alloc, room, tree, &path[1..])
}

#[cycle(walk)]
fn walk(alloc: Global, room: &mut u64, tree: &Json, path: &[u8]) -> Result<Json, RefFault>
    ensures found { MatchResult result
        (λ t. walked (cut path.now) (tree_of tree.now) ≡ Some (tree_of t))
        (λ e. Fails e (walked (cut path.now) (tree_of tree.now))) }
    ensures room { MatchResult result
        (λ _. parts_bytes (cut path.now) (tree_of tree.now) + room.new ≤ room.old)
        (λ _. room.new ≤ room.old) }
{
    let (part, more) = path.split_at(part_end(path));
    take_step(alloc, room, tree, part, more)
}

#[cycle(walk)]
fn take_step(
    alloc: Global,
    room: &mut u64,
    tree: &Json,
    part: &[u8],
    more: &[u8],
) -> Result<Json, RefFault>
    ensures found { MatchResult result
        (λ t. step part.now (walked (later_parts more.now)) (tree_of tree.now) ≡ Some (tree_of t))
        (λ e. Fails e (step part.now (walked (later_parts more.now)) (tree_of tree.now))) }
    ensures room { MatchResult result
        (λ _. step_bytes part.now (parts_bytes (later_parts more.now)) (tree_of tree.now)
        + room.new ≤ room.old) (λ _. room.new ≤ room.old) }
{
    match tree.as_list() {
        Some(items) => take_list_step(alloc, room, tree, items, part, more),
        None => take_child(alloc, room, tree, part, more),
    }
}

#[cycle(walk)]
fn take_list_step(
    alloc: Global,
    room: &mut u64,
    tree: &Json,
    items: &Items,
    part: &[u8],
    more: &[u8],
) -> Result<Json, RefFault>
    requires { as_list (tree_of tree.now) ≡ Some items.now }
    ensures found { MatchResult result
        (λ t. step part.now (walked (later_parts more.now)) (tree_of tree.now) ≡ Some (tree_of t))
        (λ e. Fails e (step part.now (walked (later_parts more.now)) (tree_of tree.now))) }
    ensures room { MatchResult result
        (λ _. step_bytes part.now (parts_bytes (later_parts more.now)) (tree_of tree.now)
        + room.new ≤ room.old) (λ _. room.new ≤ room.old) }
{
    if part == b"*".as_slice() {
        match gather(alloc, room, items.as_slice(), more) {
            Ok(found) => Ok(Json::List(found)),
            Err(fault) => Err(fault),
        }
    } else {
        take_child(alloc, room, tree, part, more)
    }
}

#[cycle(walk)]
fn take_child(
    alloc: Global,
    room: &mut u64,
    tree: &Json,
    part: &[u8],
    more: &[u8],
) -> Result<Json, RefFault>
    ensures found { MatchResult result
        (λ t. option_and_then (walked (later_parts more.now)) (child_of part.now (tree_of tree.now))
        ≡ Some (tree_of t))
        (λ e. Fails e
        (option_and_then (walked (later_parts more.now))
        (child_of part.now (tree_of tree.now)))) }
    ensures room { MatchResult result
        (λ _. child_bytes part.now (parts_bytes (later_parts more.now)) (tree_of tree.now)
        + room.new ≤ room.old) (λ _. room.new ≤ room.old) }
{
    take_scan(room, tree, part)?;
    match find_child(tree, part) {
        Some(next) => walk_on(alloc, room, next, more),
        None => Err(RefFault::BadReference),
    }
}

// Returns a copy of what the parts after the first one name. They begin with a slash, or there are
// none.
#[cycle(walk)]
fn walk_on(alloc: Global, room: &mut u64, tree: &Json, path: &[u8]) -> Result<Json, RefFault>
    ensures found { MatchResult result
        (λ t. walked (later_parts path.now) (tree_of tree.now) ≡ Some (tree_of t))
        (λ e. Fails e (walked (later_parts path.now) (tree_of tree.now))) }
    ensures room { MatchResult result
        (λ _. parts_bytes (later_parts path.now) (tree_of tree.now) + room.new ≤ room.old)
        (λ _. room.new ≤ room.old) }
{
    if path.is_empty() {
        return Ok(copy_within(alloc, tree, room)?);
    }
    walk(alloc, room, tree, &path[1..])
}

#[cycle(walk)]
fn gather(alloc: Global, room: &mut u64, items: &[Json], path: &[u8]) -> Result<Items, RefFault>
    ensures found { MatchResult result
        (λ ts. gathered (walked (later_parts path.now)) (map tree_of items.now) ≡ Some ts)
        (λ e. Fails e (gathered (walked (later_parts path.now)) (map tree_of items.now))) }
    ensures room { MatchResult result
        (λ _. gathered_bytes (parts_bytes (later_parts path.now)) (map tree_of items.now) + room.new
        ≤ room.old) (λ _. room.new ≤ room.old) }
{
    take_room(room, items.len() + 1)?;
    let mut found = Items::with_room(alloc, items.len())?;
    for item in items {
        match walk_on(alloc, room, item, path) {
            Ok(value) => add(&mut found, value)?,
            Err(fault) => return Err(fault),
        }
    }
    Ok(found)
}

// Adds a value at the end, or its items if it is a list.
fn add(found: &mut Items, value: Json) -> Result<(), NoMemory>
    ensures { OnOk result (found.new ≡ found.old ++ own_items (tree_of value)) }
{
    match value {
        Json::List(items) => found.append(items),
        value => found.push(value),
    }
}
