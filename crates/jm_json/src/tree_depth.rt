// How deep the lists and objects of a tree nest.
ghost use Rattle.std.specs.Prelude.{◌≡◌, ◌-◌, ◌^◌, map, min};
ghost use Rattle.jm_json.specs.Depth.{depth_of, fields_depth, trees_depth};
ghost use Rattle.jm_json.specs.Json.{tree_of, member_of};
ghost use Rattle.jm_json.specs.JsonValues.{data_of};
ghost use Rattle.jm_json.specs.Tree.{trees_of, fields_of};
ghost use Rattle.serde_json.specs.Data as json;

use crate::tree::{Json, Member};

/// Returns how deep the lists and objects of a tree nest: 0 if it is neither. Of a depth that is no
/// `usize` it is the greatest `usize`.
#[tactic(auto, using(crate::proofs::Nesting::depth_of_data))]
pub fn depth(tree: &Json) -> usize
    ensures depth { result ≡ min (depth_of (tree_of tree.now)) (2 ^ 64 - 1) }
    ensures data { json.depth (data_of (tree_of tree.now)) ≡ depth_of (tree_of tree.now) }
{
    measure_depth(tree)
}

#[cycle(depths)]
fn measure_depth(tree: &Json) -> usize
    ensures { result ≡ min (depth_of (tree_of tree.now)) (2 ^ 64 - 1) }
{
    match tree {
        Json::List(items) => measure_items(items.as_slice()).saturating_add(1),
        Json::Object(members) => measure_members(members.as_slice()).saturating_add(1),
        Json::Null | Json::Bool(_) | Json::Int(_) | Json::Text(_) => 0,
    }
}

#[cycle(depths)]
fn measure_items(items: &[Json]) -> usize
    ensures { result ≡ min (trees_depth (trees_of (map tree_of items.now))) (2 ^ 64 - 1) }
{
    let mut deepest: usize = 0;
    for item in items {
        deepest = deepest.max(measure_depth(item));
    }
    deepest
}

#[cycle(depths)]
fn measure_members(members: &[Member]) -> usize
    ensures { result ≡ min (fields_depth (fields_of (map member_of members.now))) (2 ^ 64 - 1) }
{
    let mut deepest: usize = 0;
    for member in members {
        deepest = deepest.max(measure_depth(&member.value));
    }
    deepest
}
