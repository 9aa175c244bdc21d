// JSON Pointer (RFC 6901): the value that a path names in a tree.
ghost use Rattle.std.specs.Prelude.{◌≡◌, ◌≢◌, ◌≤◌, ◌<◌, ◌^◌, ℕ, [], ◌∷◌, Some, None, map, length, take, drop, option_map, option_and_then, decimal, bytes_eq, IsTrue, MatchOption};
ghost use Rattle.jm_json.specs.Json.{tree_of, member_of};
ghost use Rattle.jm_json.specs.Find.{find};
ghost use Rattle.jm_json.specs.Order.{KeysRise};
ghost use Rattle.jm_json.specs.Integers.{pointer_byte, pointer_part};
ghost use Rattle.jm_json.specs.Pointer.{cut, name_of, item_named, child as child_of, followed, pointed, stripped};

use crate::tree::{Json, Member, find_value};

/// Returns the value that a JSON Pointer names in a tree, if it names one (RFC 6901). An index of a
/// list is decimal, with no leading zero. It takes no memory.
pub fn pointer<'a>(tree: &'a Json, path: &[u8]) -> Option<&'a Json>
    ensures { option_map (λ j. tree_of j.now) result ≡ pointed path.now (tree_of tree.now) }
{
    if path.is_empty() {
        return Some(tree);
    }
    if path[0] != b'/' {
        return None;
    }
    follow(tree, &path[1..])
}

fn follow<'a>(tree: &'a Json, path: &[u8]) -> Option<&'a Json>
    ensures { option_map (λ j. tree_of j.now) result ≡ followed (cut path.now) (tree_of tree.now) }
{
    let mut target = tree;
    let mut rest = path;
    let mut end = part_end(rest);
    'parts: while end < rest.len() {
        let (part, more) = rest.split_at(end);
        target = find_child(target, part)?;
        rest = &more[1..];
        end = part_end(rest);
    }
    find_child(target, rest)
}

/// Returns the byte offset at which the first part of a path ends: at the first slash, else at the
/// path's end.
pub fn part_end(path: &[u8]) -> usize
    ensures within { result ≤ length path.now }
    ensures last { result ≡ length path.now → cut path.now ≡ path.now ∷ [] }
    ensures more { result < length path.now → cut path.now ≡ take result path.now
        ∷ cut (drop 1 (drop result path.now)) }
{
    for (i, b) in path.iter().enumerate() {
        if *b == b'/' {
            return i;
        }
    }
    path.len()
}

/// Returns what one part of a path names in a value: a member of an object, or an item of a list.
#[tactic(auto, using(crate::proofs::Lists::lists_back))]
pub fn find_child<'a>(tree: &'a Json, part: &[u8]) -> Option<&'a Json>
    ensures { option_map (λ j. tree_of j.now) result ≡ child_of part.now (tree_of tree.now) }
{
    match tree {
        Json::List(items) => find_item(items.as_slice(), part),
        Json::Object(members) => find_member(members.as_slice(), part),
        _ => None,
    }
}

fn find_item<'a>(items: &'a [Json], part: &[u8]) -> Option<&'a Json>
    ensures { option_map (λ j. tree_of j.now) result
        ≡ item_named 0 part.now (map tree_of items.now) }
{
    match index_of(part) {
        Some(index) => if index < items.len() {
            Some(&items[index])
        } else {
            None
        },
        None => None,
    }
}

fn index_of(part: &[u8]) -> Option<usize>
    ensures { MatchOption result ((n : ℕ) → n < 2 ^ 64 → decimal n ≢ part.now)
        (λ n. decimal n ≡ part.now) }
{
    let Ok(text) = std::str::from_utf8(part) else {
        return None;
    };
    match text.parse::<usize>() {
        Ok(n) => if itoa::Buffer::new().format(n).as_bytes() == part {
            Some(n)
        } else {
            None
        },
        Err(_) => None,
    }
}

// Returns the value of the member that a part names. A part without escapes is itself the name.
pub(crate) fn find_member<'a>(members: &'a [Member], part: &[u8]) -> Option<&'a Json>
    requires { KeysRise (map member_of members.now) }
    ensures { option_map (λ j. tree_of j.now) result
        ≡ option_and_then (λ k. find k (map member_of members.now)) (name_of part.now) }
{
    if is_plain(part) {
        return find_value(members, part);
    }
    find_escaped_member(members, part)
}

fn is_plain(part: &[u8]) -> bool
    ensures { IsTrue result → name_of part.now ≡ Some part.now }
{
    for b in part {
        if *b == b'~' || *b == b'/' {
            return false;
        }
    }
    true
}

fn find_escaped_member<'a>(members: &'a [Member], part: &[u8]) -> Option<&'a Json>
    ensures { option_map (λ j. tree_of j.now) result
        ≡ option_and_then (λ k. find k (map member_of members.now)) (name_of part.now) }
{
    for member in members {
        if is_written(member.name.as_bytes(), part) {
            return Some(&member.value);
        }
    }
    None
}

// Returns whether a name is escaped as this part.
fn is_written(name: &[u8], part: &[u8]) -> bool
    ensures { result ≡ bytes_eq (pointer_part name.now) part.now }
{
    let mut rest = part;
    for b in name {
        match strip(rest, *b) {
            Some(more) => rest = more,
            None => return false,
        }
    }
    rest.is_empty()
}

// Returns the rest of a part after an escaped byte, if the part begins with it.
fn strip<'a>(part: &'a [u8], byte: u8) -> Option<&'a [u8]>
    ensures { option_map (λ m. m.now) result ≡ stripped (pointer_byte byte) part.now }
{
    match byte {
        b'~' => skip_byte(skip_byte(part, b'~')?, b'0'),
        b'/' => skip_byte(skip_byte(part, b'~')?, b'1'),
        _ => skip_byte(part, byte),
    }
}

pub(crate) fn skip_byte<'a>(part: &'a [u8], byte: u8) -> Option<&'a [u8]>
    ensures { option_map (λ m. m.now) result ≡ stripped (byte ∷ []) part.now }
{
    if part.is_empty() || part[0] != byte {
        return None;
    }
    Some(&part[1..])
}
