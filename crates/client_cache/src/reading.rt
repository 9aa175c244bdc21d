// Reads a cache from the text of its file.
ghost use Rattle.std.specs.Prelude.{◌≡◌, [], ◌∷◌, IfErr, IfOk, OnOk, map, option_and_then, unwrap_or};
ghost use Rattle.jm_base.specs.declared.identifiers.Kind.TheVariants.{Email as OfEmail};
ghost use Rattle.jm_json.specs.Find.{as_list, as_object, find};
ghost use Rattle.jm_json.specs.Json.{tree_of};
ghost use Rattle.jm_json.specs.Patch.{take_away};
ghost use Rattle.method_args.specs.Ids.{ids_in};
ghost use Rattle.client_cache.specs.Views.{kind_view, list_view};
ghost use Rattle.client_cache.specs.CacheForms.{cache_places, text_places};
ghost use Rattle.client_cache.specs.CacheReading.{IsTextOf, cache_in, cache_of_members, ids_at, kind_of_members, list_in, list_of_members, lists_at, members_at, members_of_tree, state_at, text_at, text_or_empty, tree_at};
ghost use Rattle.client_cache.specs.Faults.{IsFaultOf};

use crate::cache::Cache;
use crate::cache_places::find_bad_place;
use crate::fault::CacheFault;
use crate::kinds::{CachedKind, Records};
use crate::lists::CachedList;
use jm_base::{Kind, NoMemory, Numbers, Sequence, Text};
use jm_json::{Items, Json, Members, ReadFault, copy, read};
use method_args::{read_flag, read_ids, read_state_of, read_text};
use std::alloc::Global;
use std::collections::VecDeque;

// ---- values

fn into_members(alloc: Global, tree: Json) -> Members
    ensures { result ≡ members_of_tree (tree_of tree) }
{
    match tree.into_members() {
        Some(members) => members,
        None => Members::new(alloc),
    }
}

// Takes the members of the object at a name.
fn take_members(alloc: Global, members: &mut Members, name: &str) -> Members
    ensures value { result ≡ members_at name.now members.old }
    ensures rest { members.new ≡ take_away name.now members.old }
{
    match members.remove(name) {
        Some(value) => into_members(alloc, value),
        None => Members::new(alloc),
    }
}

fn copy_text(members: &Members, name: &str) -> Result<Option<Text>, NoMemory>
    ensures { IfOk result (λ o. o ≡ text_at name.now members.now) }
{
    match read_text(members, name) {
        Some(text) => Ok(Some(text.copy()?)),
        None => Ok(None),
    }
}

fn copy_string(alloc: Global, members: &Members, name: &str) -> Result<Text, NoMemory>
    ensures { IfOk result (λ t. t ≡ text_or_empty name.now members.now) }
{
    match read_text(members, name) {
        Some(text) => text.copy(),
        None => Text::from_str(alloc, ""),
    }
}

fn copy_tree(alloc: Global, members: &Members, name: &str) -> Result<Json, NoMemory>
    ensures { IfOk result (λ t. tree_of t ≡ tree_at name.now members.now) }
{
    match members.get(name) {
        Some(value) => copy(alloc, value),
        None => Ok(Json::Null),
    }
}

fn read_state(members: &Members, name: &str) -> Option<u64>
    ensures { result ≡ state_at name.now members.now }
{
    match members.get(name) {
        Some(value) => read_state_of(value),
        None => None,
    }
}

fn read_numbers(alloc: Global, members: &Members, name: &str) -> Result<Option<Numbers>, NoMemory>
    ensures { IfOk result (λ o. o ≡ option_and_then (ids_in OfEmail) (find name.now members.now)) }
{
    match members.get(name) {
        Some(value) => read_ids(alloc, Kind::Email, value),
        None => Ok(None),
    }
}

fn read_email_ids(alloc: Global, members: &Members, name: &str) -> Result<Numbers, NoMemory>
    ensures { IfOk result (λ ns. ns ≡ ids_at name.now members.now) }
{
    match read_numbers(alloc, members, name)? {
        Some(numbers) => Ok(numbers),
        None => Ok(Numbers::new(alloc)),
    }
}

// ---- a kind and a list

fn read_kind(alloc: Global, members: Members) -> CachedKind
    ensures { kind_view result ≡ kind_of_members members }
{
    let state = read_state(&members, "state");
    let mut members = members;
    let records = take_members(alloc, &mut members, "list");
    CachedKind {
        records: Records::of_members(records),
        state,
    }
}

fn read_list_members(alloc: Global, members: &Members) -> Result<CachedList, NoMemory>
    ensures { IfOk result (λ l. list_view l ≡ list_of_members members.now) }
{
    let collapse = match read_flag(members, "collapse") {
        Some(flag) => flag,
        None => false,
    };
    Ok(CachedList {
        name: copy_string(alloc, members, "name")?,
        filter: copy_tree(alloc, members, "filter")?,
        sort: copy_tree(alloc, members, "sort")?,
        collapse,
        ids: read_email_ids(alloc, members, "ids")?,
        state: read_state(members, "state"),
    })
}

fn read_list(alloc: Global, value: Json) -> Result<CachedList, NoMemory>
    ensures { IfOk result (λ l. list_view l ≡ list_in (tree_of value)) }
{
    let members = into_members(alloc, value);
    read_list_members(alloc, &members)
}

fn read_lists(alloc: Global, items: Items) -> Result<Sequence<CachedList>, NoMemory>
    ensures { IfOk result (λ ls. map list_view ls ≡ map list_in items) }
{
    let mut lists: Sequence<CachedList> = Sequence::new(alloc);
    let mut rest = VecDeque::from_vec(items.into_vec());
    while let Some(value) = rest.pop_front() {
        lists.push(read_list(alloc, value)?)?;
    }
    Ok(lists)
}

// Takes the items of the list at a name.
fn take_items(alloc: Global, members: &mut Members, name: &str) -> Items
    ensures value { result ≡ unwrap_or (option_and_then as_list (find name.now members.old)) [] }
    ensures rest { members.new ≡ take_away name.now members.old }
{
    match members.remove(name) {
        Some(value) => into_items(alloc, value),
        None => Items::new(alloc),
    }
}

fn into_items(alloc: Global, tree: Json) -> Items
    ensures { result ≡ unwrap_or (as_list (tree_of tree)) [] }
{
    match tree.into_items() {
        Some(items) => items,
        None => Items::new(alloc),
    }
}

// ---- the cache

fn build_cache(alloc: Global, members: Members) -> Result<Cache, NoMemory>
    ensures { IfOk result (λ c. c ≡ cache_of_members members) }
{
    let account = copy_text(&members, "account")?;
    let mut members = members;
    let lists = take_items(alloc, &mut members, "lists");
    let lists = read_lists(alloc, lists)?;
    let emails = take_members(alloc, &mut members, "email");
    let mailboxes = take_members(alloc, &mut members, "mailbox");
    let threads = take_members(alloc, &mut members, "thread");
    Ok(Cache {
        account,
        mailboxes: read_kind(alloc, mailboxes),
        emails: read_kind(alloc, emails),
        threads: read_kind(alloc, threads),
        lists,
    })
}

// Reads the tree of a file.
fn read_tree(alloc: Global, tree: Json) -> Result<Cache, CacheFault>
    ensures says { IfOk result (λ c. c ≡ cache_in (tree_of tree)) }
    ensures form { OnOk result (cache_places (tree_of tree) ≡ []) }
    ensures fault { IfErr result (λ e. IsFaultOf e (cache_places (tree_of tree))) }
{
    match find_bad_place(alloc, &tree)? {
        Some(place) => Err(CacheFault::BadCache(place)),
        None => {
            let members = into_members(alloc, tree);
            Ok(build_cache(alloc, members)?)
        }
    }
}

// Returns the fault of bytes that are bad as a whole.
fn find_whole_fault(alloc: Global) -> CacheFault
    ensures { IsFaultOf result ([] ∷ []) }
{
    match Text::from_str(alloc, "") {
        Ok(place) => CacheFault::BadCache(place),
        Err(_) => CacheFault::NoMemory,
    }
}

// Returns the fault of bytes in which this place alone is bad.
fn name_place(place: Text) -> CacheFault
    ensures { IsFaultOf result (place ∷ []) }
{
    CacheFault::BadCache(place)
}

/// Reads a cache from the text of its file, of the form that `specs/Caches.antt` shows. Other
/// members are ignored.
///
/// Fails with `BadCache` if the text is not of the form. It carries the least bad place in byte
/// order as a JSON Pointer (RFC 6901): the empty one if the bytes are no JSON text, and the one of
/// the first number that is no integer, in the order of keys, if there is one. Fails with
/// `NoMemory` if an allocation fails, or the text has more objects and lists than `jm_json` reads.
pub fn read_cache(alloc: Global, bytes: &[u8]) -> Result<Cache, CacheFault>
    ensures ok { IfOk result (IsTextOf bytes.now) }
    ensures fault { IfErr result (λ e. IsFaultOf e (text_places bytes.now)) }
{
    match read(alloc, bytes) {
        Ok(tree) => read_tree(alloc, tree),
        Err(ReadFault::NotJson) => Err(find_whole_fault(alloc)),
        Err(ReadFault::NotWhole(place)) => Err(name_place(place)),
        Err(ReadFault::NoMemory) => Err(CacheFault::NoMemory),
    }
}
