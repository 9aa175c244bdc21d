// Where the tree of a cache's file is not of its form.
ghost use Rattle.std.specs.Prelude.{◌≡◌, None, IfOk, codes, map};
ghost use Rattle.jm_base.specs.declared.identifiers.Kind.TheVariants.{Mailbox as OfMailbox, Email as OfEmail, Thread as OfThread};
ghost use Rattle.jm_json.specs.Json.{member_of, tree_of};
ghost use Rattle.jm_json.specs.LeastPlaces.{least_from};
ghost use Rattle.method_args.specs.Places.{member_places};
ghost use Rattle.mail_view.specs.RecordPlaces.{members_places, object_places};
ghost use Rattle.client_cache.specs.CacheForms.{cache_forms, cache_places, entry_places, kind_places, lists_places, records_places};

use crate::ids::read_number;
use crate::list_places::{choose_in_lists, choose_state};
use crate::record_places::{choose_in_record, choose_nullable_string};
use jm_base::{Kind, NoMemory, Text};
use jm_json::{Json, Member, Members};
use method_args::{choose_member, choose_value, make_member_pointer};
use std::alloc::Global;

// ---- kinds

fn choose_in_entries(
    alloc: Global,
    least: Option<Text>,
    pointer: &Text,
    kind: Kind,
    entries: &[Member],
) -> Result<Option<Text>, NoMemory>
    ensures { IfOk result (λ o. o ≡ least_from least
        (entry_places kind pointer.now (map member_of entries.now))) }
{
    let mut least = least;
    for entry in entries {
        let id = entry.name.as_str();
        let is_id = read_number(kind, id.as_bytes()).is_some();
        least = choose_member(alloc, least, pointer, id, is_id)?;
        let record = make_member_pointer(alloc, pointer, id)?;
        least = choose_in_record(alloc, least, &record, kind, &entry.value)?;
    }
    Ok(least)
}

fn choose_in_records(
    alloc: Global,
    least: Option<Text>,
    pointer: &Text,
    kind: Kind,
    value: &Json,
) -> Result<Option<Text>, NoMemory>
    ensures { IfOk result (λ o. o ≡ least_from least
        (records_places kind pointer.now (tree_of value.now))) }
{
    match value.as_object() {
        Some(entries) => choose_in_entries(alloc, least, pointer, kind, entries.as_slice()),
        None => choose_value(least, pointer, false),
    }
}

fn choose_records(
    alloc: Global,
    least: Option<Text>,
    pointer: &Text,
    kind: Kind,
    members: &Members,
) -> Result<Option<Text>, NoMemory>
    ensures { IfOk result (λ o. o ≡ least_from least
        (member_places (records_places kind) pointer.now (codes "list") members.now)) }
{
    match members.get("list") {
        Some(value) => {
            let records = make_member_pointer(alloc, pointer, "list")?;
            choose_in_records(alloc, least, &records, kind, value)
        }
        None => choose_member(alloc, least, pointer, "list", false),
    }
}

fn choose_in_kind(
    alloc: Global,
    least: Option<Text>,
    pointer: &Text,
    kind: Kind,
    value: &Json,
) -> Result<Option<Text>, NoMemory>
    ensures { IfOk result (λ o. o ≡ least_from least
        (kind_places kind pointer.now (tree_of value.now))) }
{
    match value.as_object() {
        Some(members) => {
            let least = choose_records(alloc, least, pointer, kind, members)?;
            choose_state(alloc, least, pointer, members)
        }
        None => choose_value(least, pointer, false),
    }
}

fn choose_kind(
    alloc: Global,
    least: Option<Text>,
    pointer: &Text,
    kind: Kind,
    cache: &Members,
    name: &str,
) -> Result<Option<Text>, NoMemory>
    ensures { IfOk result (λ o. o ≡ least_from least
        (member_places (kind_places kind) pointer.now name.now cache.now)) }
{
    match cache.get(name) {
        Some(value) => {
            let member = make_member_pointer(alloc, pointer, name)?;
            choose_in_kind(alloc, least, &member, kind, value)
        }
        None => choose_member(alloc, least, pointer, name, false),
    }
}

// ---- the cache

fn choose_lists(
    alloc: Global,
    least: Option<Text>,
    pointer: &Text,
    cache: &Members,
) -> Result<Option<Text>, NoMemory>
    ensures { IfOk result (λ o. o ≡ least_from least
        (member_places lists_places pointer.now (codes "lists") cache.now)) }
{
    match cache.get("lists") {
        Some(value) => {
            let lists = make_member_pointer(alloc, pointer, "lists")?;
            choose_in_lists(alloc, least, &lists, value)
        }
        None => choose_member(alloc, least, pointer, "lists", false),
    }
}

fn choose_in_members(
    alloc: Global,
    pointer: &Text,
    cache: &Members,
) -> Result<Option<Text>, NoMemory>
    ensures { IfOk result
        (λ o. o ≡ least_from None (members_places cache_forms pointer.now cache.now)) }
{
    let least = choose_nullable_string(alloc, None, pointer, cache, "account")?;
    let least = choose_kind(alloc, least, pointer, Kind::Email, cache, "email")?;
    let least = choose_lists(alloc, least, pointer, cache)?;
    let least = choose_kind(alloc, least, pointer, Kind::Mailbox, cache, "mailbox")?;
    choose_kind(alloc, least, pointer, Kind::Thread, cache, "thread")
}

fn choose_in_cache(alloc: Global, pointer: &Text, tree: &Json) -> Result<Option<Text>, NoMemory>
    ensures { IfOk result
        (λ o. o ≡ least_from None (object_places cache_forms pointer.now (tree_of tree.now))) }
{
    match tree.as_object() {
        Some(cache) => choose_in_members(alloc, pointer, cache),
        None => choose_value(None, pointer, false),
    }
}

/// Returns the least of the places at which the tree of a cache's file is not of its form.
pub(crate) fn find_bad_place(alloc: Global, tree: &Json) -> Result<Option<Text>, NoMemory>
    ensures { IfOk result (λ o. o ≡ least_from None (cache_places (tree_of tree.now))) }
{
    let root = Text::from_str(alloc, "")?;
    choose_in_cache(alloc, &root, tree)
}
