// Writes the text of a cache's file.
ghost use Rattle.std.specs.Prelude.{◌≡◌, ◌≤◌, [], None, ◌∷◌, ◌++◌, IfOk, OnOk, codes, map};
ghost use Rattle.jm_json.specs.Json.{tree_of, member_of};
ghost use Rattle.jm_json.specs.Order.{KeysRise, put};
ghost use Rattle.jm_json.specs.Tree.{boolean, list, text, trees_of};
ghost use Rattle.method_args.specs.Ids.{id_trees};
ghost use Rattle.serde_json.specs.Data.{depth};
ghost use Rattle.serde_json.specs.Read.{max_depth};
ghost use Rattle.jm_json.specs.Integers.{first_invalid};
ghost use Rattle.jm_json.specs.JsonValues.{data_of};
ghost use Rattle.client_cache.specs.CacheForms.{cache_places};
ghost use Rattle.client_cache.specs.CacheReading.{IsTextOf, NumbersFit};
ghost use Rattle.jm_base.specs.declared.identifiers.Kind.TheVariants.{Email as OfEmail};
ghost use Rattle.client_cache.specs.Caches.{cache_text, cache_tree, kind_tree, list_tree, state_tree, text_or_null};
ghost use Rattle.client_cache.specs.Views.{kind_view, list_view};

use crate::cache::Cache;
use crate::kinds::CachedKind;
use crate::lists::CachedList;
use jm_base::{Bytes, Kind, NoMemory, Text, state_text};
use jm_json::{Items, Json, Member, Members, copy, write};
use method_args::make_ids;
use std::alloc::Global;

fn copy_records(alloc: Global, records: &[Member]) -> Result<Members, NoMemory>
    requires { KeysRise (map member_of records.now) }
    ensures { IfOk result (λ ms. ms ≡ map member_of records.now) }
{
    let mut copies = Members::with_room(alloc, records.len())?;
    for record in records {
        copies.push(record.name.copy()?, copy(alloc, &record.value)?)?;
    }
    Ok(copies)
}

fn build_text(text: &Option<Text>) -> Result<Json, NoMemory>
    ensures { IfOk result (λ t. tree_of t ≡ text_or_null text.now) }
{
    match text {
        Some(text) => Ok(Json::Text(text.copy()?)),
        None => Ok(Json::Null),
    }
}

fn build_state(alloc: Global, state: Option<u64>) -> Result<Json, NoMemory>
    ensures { IfOk result (λ t. tree_of t ≡ state_tree state) }
{
    match state {
        Some(position) => Ok(Json::Text(state_text(alloc, position)?)),
        None => Ok(Json::Null),
    }
}

fn build_kind(alloc: Global, kind: &CachedKind) -> Result<Json, NoMemory>
    ensures { IfOk result (λ t. tree_of t ≡ kind_tree (kind_view kind.now)) }
{
    let state = build_state(alloc, kind.state)?;
    let records = copy_records(alloc, kind.records.as_slice())?;
    let mut members = Members::new(alloc);
    members.set(alloc, "list", Json::Object(records))?;
    members.set(alloc, "state", state)?;
    Ok(Json::Object(members))
}

// Sets what the query of a list is, and the emails that the list has.
fn set_query(alloc: Global, members: &mut Members, kept: &CachedList) -> Result<(), NoMemory>
    ensures { OnOk result (members.new
        ≡ put (codes "ids") (list (trees_of (id_trees OfEmail kept.now.ids)))
        (put (codes "filter") (tree_of kept.now.filter)
        (put (codes "collapse") (boolean kept.now.collapse) members.old))) }
{
    members.set(alloc, "collapse", Json::Bool(kept.collapse))?;
    members.set(alloc, "filter", copy(alloc, &kept.filter)?)?;
    let ids = make_ids(alloc, Kind::Email, kept.ids.as_slice())?;
    members.set(alloc, "ids", Json::List(ids))
}

// Sets the name, the sort and the state of a list.
fn set_name(alloc: Global, members: &mut Members, kept: &CachedList) -> Result<(), NoMemory>
    ensures { OnOk result (members.new ≡ put (codes "state") (state_tree kept.now.state)
        (put (codes "sort") (tree_of kept.now.sort)
        (put (codes "name") (text kept.now.name) members.old))) }
{
    members.set(alloc, "name", Json::Text(kept.name.copy()?))?;
    members.set(alloc, "sort", copy(alloc, &kept.sort)?)?;
    members.set(alloc, "state", build_state(alloc, kept.state)?)
}

fn build_list(alloc: Global, kept: &CachedList) -> Result<Json, NoMemory>
    ensures { IfOk result (λ t. tree_of t ≡ list_tree (list_view kept.now)) }
{
    let mut members = Members::new(alloc);
    set_query(alloc, &mut members, kept)?;
    set_name(alloc, &mut members, kept)?;
    Ok(Json::Object(members))
}

fn build_lists(alloc: Global, lists: &[CachedList]) -> Result<Items, NoMemory>
    ensures { IfOk result (λ ts. ts ≡ map list_tree (map list_view lists.now)) }
{
    let mut items = Items::with_room(alloc, lists.len())?;
    for kept in lists {
        items.push(build_list(alloc, kept)?)?;
    }
    Ok(items)
}

// Sets the account and the kinds but mailboxes and threads.
fn set_first(alloc: Global, members: &mut Members, cache: &Cache) -> Result<(), NoMemory>
    ensures { OnOk result (members.new
        ≡ put (codes "email") (kind_tree cache.now.emails)
        (put (codes "account") (text_or_null cache.now.account) members.old)) }
{
    members.set(alloc, "account", build_text(&cache.account)?)?;
    members.set(alloc, "email", build_kind(alloc, &cache.emails)?)
}

// Sets the lists, mailboxes and threads.
fn set_last(alloc: Global, members: &mut Members, cache: &Cache) -> Result<(), NoMemory>
    ensures { OnOk result (members.new
        ≡ put (codes "thread") (kind_tree cache.now.threads)
        (put (codes "mailbox") (kind_tree cache.now.mailboxes)
        (put (codes "lists") (list (trees_of (map list_tree cache.now.lists))) members.old))) }
{
    let lists = build_lists(alloc, cache.lists.as_slice())?;
    members.set(alloc, "lists", Json::List(lists))?;
    members.set(alloc, "mailbox", build_kind(alloc, &cache.mailboxes)?)?;
    members.set(alloc, "thread", build_kind(alloc, &cache.threads)?)
}

fn build_cache(alloc: Global, cache: &Cache) -> Result<Json, NoMemory>
    ensures { IfOk result (λ t. tree_of t ≡ cache_tree cache.now) }
{
    let mut members = Members::new(alloc);
    set_first(alloc, &mut members, cache)?;
    set_last(alloc, &mut members, cache)?;
    Ok(Json::Object(members))
}

/// Returns the text of a cache's file. It is read as the same cache if it is of the form, nests at
/// most as deep as `jm_json` reads, and its numbers are integers below 2^53 and above -2^53.
pub fn cache_bytes(alloc: Global, cache: &Cache) -> Result<Bytes, NoMemory>
    ensures text { IfOk result (λ b. b ≡ cache_text cache.now) }
    ensures reads_back { IfOk result (λ b. NumbersFit cache.now
        → cache_places (cache_tree cache.now) ≡ []
        → depth (data_of (cache_tree cache.now)) ≤ max_depth
        → first_invalid (data_of (cache_tree cache.now)) ≡ None → IsTextOf b cache.now) }
{
    let tree = build_cache(alloc, cache)?;
    write(alloc, &tree)
}
