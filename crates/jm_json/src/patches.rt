// Changes a tree by a patch (RFC 8620, section 5.3).
ghost use Rattle.std.specs.Prelude.{◌≡◌, ◌<◌, ◌&&◌, ◌||◌, [], ◌∷◌, ◌++◌, true, Some, None, map, length, is_some, not, option_map, drop, IfOk, OnOk, MatchResult};
ghost use Rattle.jm_json.specs.Json.{tree_of, member_of};
ghost use Rattle.jm_json.specs.Find.{as_object, find};
ghost use Rattle.jm_json.specs.Order.{KeysRise};
ghost use Rattle.jm_json.specs.KeyIndices.{IsKeyIndex};
ghost use Rattle.jm_json.specs.Pointer.{cut};
ghost use Rattle.jm_json.specs.Patch.{at_member, goes_on, is_prefix, is_placed as is_placed_at, member_named, set_member, changed, all_changed, first_invalid_path, patched, patching, patching_by};
ghost use Rattle.jm_json.specs.Patching.{ExplainsPatch};

use crate::copies::copy;
use crate::path_parts::{is_name, unescape_part};
use crate::paths::{find_member, part_end, skip_byte};
use crate::tree::{Json, KeyIndex, Member, Members, place_of};
use jm_base::{NoMemory, Text};
use std::alloc::Global;

/// Why a patch is rejected: `BadPatch` has its first invalid path in the order of the keys, or the
/// empty string if the patch is no object; `NoMemory` says that an allocation failed.
#[derive(Debug, Drop)]
pub enum PatchFault {
    BadPatch(Text),
    NoMemory,
}

impl From<NoMemory> for PatchFault {
    ghost use Rattle.std.specs.Prelude.{◌≡◌};
    ghost use Rattle.jm_json.specs.declared.patches.PatchFault.TheVariants.{NoMemory};

    ghost from_gives = { λ _ e. e ≡ NoMemory };

    fn from(_refused: NoMemory) -> PatchFault {
        PatchFault::NoMemory
    }
}

/// Returns the tree changed by a patch, which is an object whose names are JSON Pointers without
/// the slash that they begin with (RFC 8620, section 5.3). The tree is changed in place. Null
/// removes the value at a path, and every other value replaces it.
///
/// Fails with `BadPatch` if a path is invalid: if it is a prefix of another path by parts, or if
/// some part but the last names no member of an object, or if the last isn't a name in an object.
pub fn patch(alloc: Global, tree: Json, patch: &Json) -> Result<Json, PatchFault>
    ensures { MatchResult result
        (λ t. patching (tree_of tree) (tree_of patch.now) ≡ patched (tree_of t))
        (λ e. ExplainsPatch e (patching (tree_of tree) (tree_of patch.now))) }
{
    match patch.as_object() {
        Some(changes) => patch_members(alloc, tree, changes.as_slice()),
        None => Err(PatchFault::BadPatch(Text::from_str(alloc, "")?)),
    }
}

fn patch_members(alloc: Global, tree: Json, changes: &[Member]) -> Result<Json, PatchFault>
    requires { KeysRise (map member_of changes.now) }
    ensures { MatchResult result
        (λ t. patching_by (map member_of changes.now) (tree_of tree) ≡ patched (tree_of t))
        (λ e. ExplainsPatch e (patching_by (map member_of changes.now) (tree_of tree))) }
{
    match find_invalid_path(alloc, &tree, changes)? {
        Some(path) => Err(PatchFault::BadPatch(path.copy()?)),
        None => Ok(change_all(alloc, tree, changes)?),
    }
}

fn find_invalid_path<'a>(
    alloc: Global,
    tree: &Json,
    changes: &'a [Member],
) -> Result<Option<&'a Text>, NoMemory>
    requires { KeysRise (map member_of changes.now) }
    ensures { IfOk result (λ o. option_map (λ p. p.now) o
        ≡ first_invalid_path (map member_of changes.now) (map member_of changes.now)
        (tree_of tree.now)) }
{
    for change in changes {
        if is_invalid(alloc, tree, changes, change.name.as_bytes())? {
            return Ok(Some(&change.name));
        }
    }
    Ok(None)
}

fn is_invalid(alloc: Global, tree: &Json, changes: &[Member], path: &[u8]) -> Result<bool, NoMemory>
    requires { KeysRise (map member_of changes.now) }
    ensures { IfOk result (λ b. b
        ≡ (is_prefix path.now (map member_of changes.now)
        || not (is_placed_at (cut path.now) (tree_of tree.now)))) }
{
    if has_longer(alloc, changes, path)? {
        return Ok(true);
    }
    Ok(!is_placed(tree, path))
}

// Returns whether this path is a prefix of another one. The first of the longer paths is at the
// index where this path with a slash after it would be.
fn has_longer(alloc: Global, changes: &[Member], path: &[u8]) -> Result<bool, NoMemory>
    requires { KeysRise (map member_of changes.now) }
    ensures { IfOk result (λ b. b ≡ is_prefix path.now (map member_of changes.now)) }
{
    let mut slashed = Vec::from_slice(alloc, path)?;
    slashed.push(b'/')?;
    let place = place_of(changes, slashed.as_slice());
    Ok(has_longer_at(changes, path, place))
}

fn has_longer_at(changes: &[Member], path: &[u8], place: KeyIndex) -> bool
    requires rise { KeysRise (map member_of changes.now) }
    requires place { IsKeyIndex place (path.now ++ 47 ∷ []) (map member_of changes.now) }
    ensures { result ≡ is_prefix path.now (map member_of changes.now) }
{
    match place {
        KeyIndex::Held(_) => true,
        KeyIndex::New(at) => if at < changes.len() {
            is_path_prefix(path, changes[at].name.as_bytes())
        } else {
            false
        },
    }
}

// Returns whether the longer path is the path, a slash and more.
fn is_path_prefix(path: &[u8], longer: &[u8]) -> bool
    ensures { result ≡ goes_on path.now longer.now }
{
    let mut rest = longer;
    for b in path {
        match skip_byte(rest, *b) {
            Some(more) => rest = more,
            None => return false,
        }
    }
    begins_with_slash(rest)
}

fn begins_with_slash(path: &[u8]) -> bool
    ensures { result ≡ goes_on [] path.now }
{
    !path.is_empty() && path[0] == b'/'
}

// Returns whether each part of a path but the last names a member that is there, and the last is a
// name in an object.
fn is_placed(tree: &Json, path: &[u8]) -> bool
    ensures { result ≡ is_placed_at (cut path.now) (tree_of tree.now) }
{
    let mut target = tree;
    let mut rest = path;
    let mut end = part_end(rest);
    'parts: while end < rest.len() {
        let (part, more) = rest.split_at(end);
        match member(target, part) {
            Some(next) => target = next,
            None => return false,
        }
        rest = &more[1..];
        end = part_end(rest);
    }
    target.as_object().is_some() && is_name(rest)
}

fn member<'a>(tree: &'a Json, part: &[u8]) -> Option<&'a Json>
    ensures { option_map (λ j. tree_of j.now) result ≡ member_named part.now (tree_of tree.now) }
{
    match tree.as_object() {
        Some(members) => find_member(members.as_slice(), part),
        None => None,
    }
}

fn change_all(alloc: Global, tree: Json, changes: &[Member]) -> Result<Json, NoMemory>
    ensures { IfOk result
        (λ t. tree_of t ≡ all_changed (map member_of changes.now) (tree_of tree)) }
{
    let mut tree = tree;
    for member in changes {
        tree = change(alloc, tree, member.name.as_bytes(), &member.value)?;
    }
    Ok(tree)
}

#[cycle(change)]
fn change(alloc: Global, tree: Json, path: &[u8], value: &Json) -> Result<Json, NoMemory>
    ensures { IfOk result
        (λ t. tree_of t ≡ changed (cut path.now) (tree_of value.now) (tree_of tree)) }
{
    let (part, more) = path.split_at(part_end(path));
    match tree {
        Json::Object(members) => match unescape_part(alloc, part)? {
            Some(name) => Ok(Json::Object(change_member(alloc, members, name, more, value)?)),
            None => Ok(Json::Object(members)),
        },
        tree => Ok(tree),
    }
}

#[cycle(change)]
fn change_member(
    alloc: Global,
    members: Members,
    name: Text,
    more: &[u8],
    value: &Json,
) -> Result<Members, NoMemory>
    requires { KeysRise members }
    ensures last { IfOk result
        (λ ms. length more.now ≡ 0 → ms ≡ set_member name (tree_of value.now) members) }
    ensures inner { IfOk result (λ ms. 0 < length more.now
        → ms ≡ at_member name (changed (cut (drop 1 more.now)) (tree_of value.now))
        (find name members) members) }
{
    let mut members = members;
    if more.is_empty() {
        put_or_remove(alloc, &mut members, name, value)?;
        return Ok(members);
    }
    match members.take_value(name.as_str()) {
        Some(inner) => {
            let inner = change(alloc, inner, &more[1..], value)?;
            members.put(name, inner)?;
            Ok(members)
        }
        None => Ok(members),
    }
}

fn put_or_remove(
    alloc: Global,
    members: &mut Members,
    name: Text,
    value: &Json,
) -> Result<(), NoMemory>
    ensures { OnOk result (members.new ≡ set_member name (tree_of value.now) members.old) }
{
    match value {
        Json::Null => drop(members.remove(name.as_str())),
        value => members.put(name, copy(alloc, value)?)?,
    }
    Ok(())
}
