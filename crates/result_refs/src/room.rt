// The room that is left for the references of a request, and what takes from it.
ghost use Rattle.std.specs.Prelude.{◌≡◌, ◌≤◌, ◌+◌, ◌*◌, ⊤, map, IfOk, OnOk, OnErr, MatchOption};
ghost use Rattle.jm_json.specs.Tree.{trees_of, fields_of};
ghost use Rattle.jm_json.specs.Json.{tree_of, member_of};
ghost use Rattle.result_refs.specs.Room.{value_bytes, items_bytes, members_bytes};
ghost use Rattle.result_refs.specs.Costs.{scan_bytes};
ghost use Rattle.result_refs.specs.declared.room.TheConstants.{VALUE_BYTES};

use jm_base::NoMemory;
use jm_json::{Json, Member, copy};
use std::alloc::Global;

/// The most bytes that the references of one request may take in all, as they are counted: 64 MiB.
pub const MAX_REFERENCE_BYTES: u64 = 67108864;

// The bytes that are counted for each value that is copied, made or visited, besides those of the
// strings and keys that are copied, and for each name that a part with `~` is compared with.
const VALUE_BYTES: u64 = 64;

/// Takes the bytes of so many values from the room. If the room does not suffice, this ends out of
/// memory, and takes nothing.
pub(crate) fn take_room(room: &mut u64, count: usize) -> Result<(), NoMemory>
    ensures ok { OnOk result (room.new + VALUE_BYTES * count ≡ room.old) }
    ensures err { OnErr result (room.new ≡ room.old) }
{
    let count = count as u64;
    if *room / VALUE_BYTES < count {
        return Err(NoMemory);
    }
    *room -= VALUE_BYTES * count;
    Ok(())
}

/// Takes from the room what finding a part of a path in a value costs. A part with `~` is compared
/// with the name of each member, and any other is found without a scan. If the room does not
/// suffice, this ends out of memory, and takes nothing.
pub(crate) fn take_scan(room: &mut u64, tree: &Json, part: &[u8]) -> Result<(), NoMemory>
    ensures ok { OnOk result (scan_bytes part.now (tree_of tree.now) + room.new ≤ room.old) }
    ensures err { OnErr result (room.new ≡ room.old) }
{
    match tree.as_object() {
        Some(members) => {
            if part.contains(&b'~') {
                return take_room(room, members.as_slice().len());
            }
            Ok(())
        }
        None => Ok(()),
    }
}

/// Copies a JSON value, and takes its bytes from the room. If the room does not suffice, this ends
/// out of memory, and nothing is copied.
pub(crate) fn copy_within(alloc: Global, tree: &Json, room: &mut u64) -> Result<Json, NoMemory>
    ensures copy { IfOk result (λ t. t ≡ tree.now) }
    ensures room { OnOk result (room.new + value_bytes (tree_of tree.now) ≡ room.old) }
    ensures err { OnErr result (room.new ≡ room.old) }
{
    match compute_room_after(tree, *room) {
        Some(left) => {
            let copied = copy(alloc, tree)?;
            *room = left;
            Ok(copied)
        }
        None => Err(NoMemory),
    }
}

// Returns the room that is left once a value has been taken from it, and none where it does not
// suffice.
#[cycle(room)]
fn compute_room_after(tree: &Json, room: u64) -> Option<u64>
    ensures { MatchOption result ⊤ (λ left. left + value_bytes (tree_of tree.now) ≡ room) }
{
    if room < VALUE_BYTES {
        return None;
    }
    let left = room - VALUE_BYTES;
    match tree {
        Json::Text(text) => {
            let length = text.as_bytes().len() as u64;
            if left < length {
                None
            } else {
                Some(left - length)
            }
        }
        Json::List(items) => compute_room_after_items(items.as_slice(), left),
        Json::Object(members) => compute_room_after_members(members.as_slice(), left),
        _ => Some(left),
    }
}

#[cycle(room)]
fn compute_room_after_items(items: &[Json], room: u64) -> Option<u64>
    ensures { MatchOption result ⊤
        (λ left. left + items_bytes (trees_of (map tree_of items.now)) ≡ room) }
{
    let mut left = room;
    for item in items {
        match compute_room_after(item, left) {
            Some(rest) => left = rest,
            None => return None,
        }
    }
    Some(left)
}

#[cycle(room)]
fn compute_room_after_members(members: &[Member], room: u64) -> Option<u64>
    ensures { MatchOption result ⊤
        (λ left. left + members_bytes (fields_of (map member_of members.now)) ≡ room) }
{
    let mut left = room;
    for member in members {
        let length = member.name.as_bytes().len() as u64;
        if left < length {
            return None;
        }
        match compute_room_after(&member.value, left - length) {
            Some(rest) => left = rest,
            None => return None,
        }
    }
    Some(left)
}
