// Whether two JSON trees are equal.
ghost use Rattle.std.specs.Prelude.{bytes_eq, map, Decides, ◌&&◌, ◌≡◌};
ghost use Rattle.jm_json.specs.Json.{member_of, tree_of};
ghost use Rattle.jm_json.specs.Tree.{boolean, fields_of, list, null, number, object, text, trees_of};
ghost use Rattle.jm_json.specs.Equality.{are_same_fields, are_same_trees, is_same};

use crate::tree::{Json, Member};
use jm_base::Text;

/// Returns whether two trees are equal. Of two objects the keys and the values are.
#[tactic(auto, using(crate::proofs::Equal::is_same_decides))]
pub fn is_same_tree(left: &Json, right: &Json) -> bool
    ensures value { result ≡ is_same (tree_of left.now) (tree_of right.now) }
    ensures equal { Decides result (tree_of left.now ≡ tree_of right.now) }
{
    is_same(left, right)
}

fn is_null(tree: &Json) -> bool
    ensures { result ≡ is_same null (tree_of tree.now) }
{
    match tree {
        Json::Null => true,
        Json::Bool(_) | Json::Int(_) | Json::Text(_) | Json::List(_) | Json::Object(_) => false,
    }
}

fn is_truth(truth: bool, tree: &Json) -> bool
    ensures { result ≡ is_same (boolean truth) (tree_of tree.now) }
{
    match tree {
        Json::Bool(other) => truth == *other,
        Json::Null | Json::Int(_) | Json::Text(_) | Json::List(_) | Json::Object(_) => false,
    }
}

fn is_number(value: i64, tree: &Json) -> bool
    ensures { result ≡ is_same (number value) (tree_of tree.now) }
{
    match tree {
        Json::Int(other) => value == *other,
        Json::Null | Json::Bool(_) | Json::Text(_) | Json::List(_) | Json::Object(_) => false,
    }
}

fn is_text(value: &Text, tree: &Json) -> bool
    ensures { result ≡ is_same (text value.now) (tree_of tree.now) }
{
    match tree {
        Json::Text(other) => value == other,
        Json::Null | Json::Bool(_) | Json::Int(_) | Json::List(_) | Json::Object(_) => false,
    }
}

#[cycle(same)]
fn is_same(left: &Json, right: &Json) -> bool
    ensures { result ≡ is_same (tree_of left.now) (tree_of right.now) }
{
    match left {
        Json::Null => is_null(right),
        Json::Bool(truth) => is_truth(*truth, right),
        Json::Int(value) => is_number(*value, right),
        Json::Text(value) => is_text(value, right),
        Json::List(items) => is_list(items.as_slice(), right),
        Json::Object(members) => is_object(members.as_slice(), right),
    }
}

#[cycle(same)]
fn is_list(items: &[Json], tree: &Json) -> bool
    ensures { result ≡ is_same (list (trees_of (map tree_of items.now))) (tree_of tree.now) }
{
    match tree {
        Json::List(others) => are_same_items(items, others.as_slice()),
        Json::Null | Json::Bool(_) | Json::Int(_) | Json::Text(_) | Json::Object(_) => false,
    }
}

#[cycle(same)]
fn is_object(members: &[Member], tree: &Json) -> bool
    ensures { result ≡ is_same (object (fields_of (map member_of members.now))) (tree_of tree.now) }
{
    match tree {
        Json::Object(others) => are_same_members(members, others.as_slice()),
        Json::Null | Json::Bool(_) | Json::Int(_) | Json::Text(_) | Json::List(_) => false,
    }
}

#[cycle(same)]
fn are_same_items(left: &[Json], right: &[Json]) -> bool
    ensures { result
        ≡ are_same_trees (trees_of (map tree_of left.now)) (trees_of (map tree_of right.now)) }
{
    if left.len() != right.len() {
        return false;
    }
    for i in 0..left.len() {
        let item = &left[i];
        let other = &right[i];
        if !is_same(item, other) {
            return false;
        }
    }
    true
}

#[cycle(same)]
fn is_same_member(left: &Member, right: &Member) -> bool
    ensures { result
        ≡ (bytes_eq left.now.name right.now.name
        && is_same (tree_of left.now.value) (tree_of right.now.value)) }
{
    left.name == right.name && is_same(&left.value, &right.value)
}

#[cycle(same)]
fn are_same_members(left: &[Member], right: &[Member]) -> bool
    ensures { result
        ≡ are_same_fields (fields_of (map member_of left.now))
        (fields_of (map member_of right.now)) }
{
    if left.len() != right.len() {
        return false;
    }
    for i in 0..left.len() {
        if !is_same_member(&left[i], &right[i]) {
            return false;
        }
    }
    true
}
