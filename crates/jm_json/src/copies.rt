// Copies of trees.
ghost use Rattle.std.specs.Prelude.{◌≡◌, IfOk, map};
ghost use Rattle.jm_json.specs.Json.{tree_of, member_of};
ghost use Rattle.jm_json.specs.Order.{KeysRise};

use crate::tree::{Items, Json, Member, Members};
use jm_base::NoMemory;
use std::alloc::Global;

/// Returns a copy of a tree.
#[cycle(copies)]
pub fn copy(alloc: Global, tree: &Json) -> Result<Json, NoMemory>
    ensures { IfOk result (λ t. t ≡ tree.now) }
{
    match tree {
        Json::Null => Ok(Json::Null),
        Json::Bool(b) => Ok(Json::Bool(*b)),
        Json::Int(z) => Ok(Json::Int(*z)),
        Json::Text(text) => Ok(Json::Text(text.copy()?)),
        Json::List(items) => Ok(Json::List(copy_items(alloc, items.as_slice())?)),
        Json::Object(members) => Ok(Json::Object(copy_members(alloc, members.as_slice())?)),
    }
}

#[cycle(copies)]
fn copy_items(alloc: Global, items: &[Json]) -> Result<Items, NoMemory>
    ensures { IfOk result (λ ts. ts ≡ map tree_of items.now) }
{
    let mut copies = Items::with_room(alloc, items.len())?;
    for item in items {
        copies.push(copy(alloc, item)?)?;
    }
    Ok(copies)
}

#[cycle(copies)]
fn copy_members(alloc: Global, members: &[Member]) -> Result<Members, NoMemory>
    requires { KeysRise (map member_of members.now) }
    ensures { IfOk result (λ ms. ms ≡ map member_of members.now) }
{
    let mut copies = Members::with_room(alloc, members.len())?;
    for member in members {
        copies.push(member.name.copy()?, copy(alloc, &member.value)?)?;
    }
    Ok(copies)
}
