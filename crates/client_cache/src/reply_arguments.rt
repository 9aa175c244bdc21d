// Where the arguments of a response are not of their form: the least JSON Pointer in byte order.
ghost use Rattle.std.specs.Prelude.{◌≡◌, None, Some, Err, IfOk, codes, length, map};
ghost use Rattle.jm_base.specs.Splices.{splice};
ghost use Rattle.jm_base.specs.declared.identifiers.Kind.TheVariants.{Email as OfEmail};
ghost use Rattle.jm_json.specs.Find.{as_object};
ghost use Rattle.jm_json.specs.Json.{tree_of};
ghost use Rattle.jm_json.specs.LeastPlaces.{least_from};
ghost use Rattle.method_args.specs.Places.{item_places, list_places, member_places, places_in};
ghost use Rattle.mail_view.specs.RecordPlaces.{record_places};
ghost use Rattle.reply_readers.specs.Deltas.{added_of};
ghost use Rattle.reply_readers.specs.Members.{ids_of};
ghost use Rattle.reply_readers.specs.Results.{results_places};
ghost use Rattle.client_cache.specs.ReplyForms.{arguments_places, get_list_places, get_places, index_places, list_changes_places, method_at, splice_places, spliced_places};
ghost use Rattle.client_cache.specs.Requests.{account_of, list_at, next_asked};
ghost use Rattle.client_cache.specs.RoundViews.{round_of, step_of};
ghost use Rattle.client_cache.specs.declared.limits.TheConstants.{MAX_RESULTS};

use crate::cache::Cache;
use crate::limits::MAX_RESULTS;
use crate::record_places::choose_in_record;
use crate::requests::{
    changes_name, get_name, lend_account, lend_list, lend_next_asked, query_name,
};
use crate::rounds::{Round, Step};
use jm_base::{AddedItem, Kind, NoMemory, Numbers, Sequence, SpliceFault, Text, splice};
use jm_json::{Json, Members};
use method_args::{
    choose_member, choose_value, make_item_pointer, make_member_pointer, read_added, read_ids,
};
use reply_readers::{choose_in_delta, choose_in_objects, choose_in_page, choose_in_results};
use std::alloc::Global;

// ---- objects

fn choose_in_record_items(
    alloc: Global,
    least: Option<Text>,
    pointer: &Text,
    kind: Kind,
    items: &[Json],
) -> Result<Option<Text>, NoMemory>
    ensures { IfOk result (λ o. o ≡ least_from least
        (item_places (record_places kind) pointer.now 0 (map tree_of items.now))) }
{
    let mut least = least;
    for (index, item) in items.iter().enumerate() {
        let record = make_item_pointer(alloc, pointer, index)?;
        least = choose_in_record(alloc, least, &record, kind, item)?;
    }
    Ok(least)
}

fn choose_in_record_list(
    alloc: Global,
    least: Option<Text>,
    pointer: &Text,
    kind: Kind,
    value: &Json,
) -> Result<Option<Text>, NoMemory>
    ensures { IfOk result (λ o. o ≡ least_from least
        (list_places (record_places kind) pointer.now (tree_of value.now))) }
{
    match value.as_list() {
        Some(items) => choose_in_record_items(alloc, least, pointer, kind, items.as_slice()),
        None => choose_value(least, pointer, false),
    }
}

fn choose_records(
    alloc: Global,
    least: Option<Text>,
    pointer: &Text,
    kind: Kind,
    members: &Members,
) -> Result<Option<Text>, NoMemory>
    ensures { IfOk result (λ o. o ≡ least_from least
        (member_places (list_places (record_places kind)) pointer.now (codes "list")
        members.now)) }
{
    match members.get("list") {
        Some(value) => {
            let list = make_member_pointer(alloc, pointer, "list")?;
            choose_in_record_list(alloc, least, &list, kind, value)
        }
        None => choose_member(alloc, least, pointer, "list", false),
    }
}

fn choose_in_get_list(
    alloc: Global,
    least: Option<Text>,
    pointer: &Text,
    kind: Kind,
    args: &Json,
) -> Result<Option<Text>, NoMemory>
    ensures { IfOk result
        (λ o. o ≡ least_from least (get_list_places kind pointer.now (tree_of args.now))) }
{
    match args.as_object() {
        Some(members) => choose_records(alloc, least, pointer, kind, members),
        None => choose_value(least, pointer, false),
    }
}

fn choose_in_get(
    alloc: Global,
    least: Option<Text>,
    pointer: &Text,
    kind: Kind,
    account: &str,
    asked: &[u64],
    args: &Json,
) -> Result<Option<Text>, NoMemory>
    ensures { IfOk result (λ o. o ≡ least_from least
        (get_places kind account.now asked.now pointer.now (tree_of args.now))) }
{
    let least = choose_in_objects(alloc, least, pointer, kind, account, asked, args)?;
    choose_in_get_list(alloc, least, pointer, kind, args)
}

// ---- changes of a list

/// Returns what changes make of a list, or the index of the first item that is past it at its turn.
pub(crate) fn splice_list(
    alloc: Global,
    ids: &[u64],
    removed: &[u64],
    added: &[AddedItem],
) -> Result<Result<Numbers, u64>, NoMemory>
    ensures { IfOk result (λ r. r ≡ splice ids.now removed.now added.now) }
{
    let mut list = Vec::from_slice(alloc, ids)?;
    match splice(alloc, &mut list, removed, added) {
        Ok(()) => Ok(Ok(Numbers::from_vec(list))),
        Err(SpliceFault::BadIndex(index)) => Ok(Err(index)),
        Err(SpliceFault::NoMemory) => Err(NoMemory),
    }
}

fn choose_index(
    alloc: Global,
    least: Option<Text>,
    pointer: &Text,
    index: u64,
) -> Result<Option<Text>, NoMemory>
    ensures { IfOk result (λ o. o ≡ least_from least (index_places pointer.now (Err index))) }
{
    let added = make_member_pointer(alloc, pointer, "added")?;
    let item = make_item_pointer(alloc, &added, index as usize)?;
    choose_member(alloc, least, &item, "index", false)
}

fn choose_in_spliced(
    alloc: Global,
    least: Option<Text>,
    pointer: &Text,
    ids: &[u64],
    removed: &[u64],
    added: &[AddedItem],
) -> Result<Option<Text>, NoMemory>
    ensures { IfOk result (λ o. o ≡ least_from least
        (index_places pointer.now (splice ids.now removed.now added.now))) }
{
    match splice_list(alloc, ids, removed, added)? {
        Ok(_) => Ok(least),
        Err(index) => choose_index(alloc, least, pointer, index),
    }
}

fn read_removed(alloc: Global, delta: &Members) -> Result<Option<Numbers>, NoMemory>
    ensures { IfOk result (λ o. o ≡ ids_of OfEmail (codes "removed") delta.now) }
{
    match delta.get("removed") {
        Some(value) => read_ids(alloc, Kind::Email, value),
        None => Ok(None),
    }
}

fn read_added_of(alloc: Global, delta: &Members) -> Result<Option<Sequence<AddedItem>>, NoMemory>
    ensures { IfOk result (λ o. o ≡ added_of OfEmail (codes "added") delta.now) }
{
    match delta.get("added") {
        Some(value) => read_added(alloc, Kind::Email, value),
        None => Ok(None),
    }
}

fn choose_in_added(
    alloc: Global,
    least: Option<Text>,
    pointer: &Text,
    ids: &[u64],
    removed: &[u64],
    delta: &Members,
) -> Result<Option<Text>, NoMemory>
    ensures { IfOk result (λ o. o ≡ least_from least (spliced_places ids.now pointer.now
        (Some removed.now) (added_of OfEmail (codes "added") delta.now))) }
{
    match read_added_of(alloc, delta)? {
        Some(added) => choose_in_spliced(alloc, least, pointer, ids, removed, added.as_slice()),
        None => Ok(least),
    }
}

fn choose_in_splice(
    alloc: Global,
    least: Option<Text>,
    pointer: &Text,
    ids: &[u64],
    delta: &Members,
) -> Result<Option<Text>, NoMemory>
    ensures { IfOk result
        (λ o. o ≡ least_from least (splice_places ids.now pointer.now delta.now)) }
{
    match read_removed(alloc, delta)? {
        Some(removed) => choose_in_added(alloc, least, pointer, ids, removed.as_slice(), delta),
        None => Ok(least),
    }
}

fn choose_in_list_splice(
    alloc: Global,
    least: Option<Text>,
    pointer: &Text,
    ids: &[u64],
    args: &Json,
) -> Result<Option<Text>, NoMemory>
    ensures { IfOk result (λ o. o ≡ least_from least
        (places_in (splice_places ids.now pointer.now) pointer.now
        (as_object (tree_of args.now)))) }
{
    match args.as_object() {
        Some(delta) => choose_in_splice(alloc, least, pointer, ids, delta),
        None => choose_value(least, pointer, false),
    }
}

fn choose_in_list_changes(
    alloc: Global,
    least: Option<Text>,
    pointer: &Text,
    account: &str,
    ids: &[u64],
    since: u64,
    args: &Json,
) -> Result<Option<Text>, NoMemory>
    ensures { IfOk result (λ o. o ≡ least_from least (list_changes_places account.now ids.now since
        pointer.now (tree_of args.now))) }
{
    let least = choose_in_delta(alloc, least, pointer, Kind::Email, account, since, args)?;
    choose_in_list_splice(alloc, least, pointer, ids, args)
}

/// Lends the emails of the list with an index: none if there is no such list.
pub(crate) fn lend_list_ids(cache: &Cache, index: usize) -> &[u64]
    ensures { result.now ≡ (list_at index cache.now).ids }
{
    match lend_list(cache, index) {
        Some(list) => list.ids.as_slice(),
        None => &[],
    }
}

// ---- arguments

fn choose_in_next_get(
    alloc: Global,
    pointer: &Text,
    cache: &Cache,
    round: &Round,
    kind: Kind,
    args: &Json,
) -> Result<Option<Text>, NoMemory>
    ensures { IfOk result (λ o. o ≡ least_from None (get_places kind (account_of cache.now)
        (next_asked (round_of round.now)) pointer.now (tree_of args.now))) }
{
    let account = lend_account(cache);
    choose_in_get(
        alloc,
        None,
        pointer,
        kind,
        account,
        lend_next_asked(round),
        args,
    )
}

fn choose_in_next_page(
    alloc: Global,
    pointer: &Text,
    cache: &Cache,
    round: &Round,
    kind: Kind,
    args: &Json,
) -> Result<Option<Text>, NoMemory>
    ensures { IfOk result (λ o. o ≡ least_from None (results_places kind (account_of cache.now)
        (length (round_of round.now).results) MAX_RESULTS pointer.now (tree_of args.now))) }
{
    let account = lend_account(cache);
    let position = round.results.len() as u64;
    choose_in_results(
        alloc,
        None,
        pointer,
        kind,
        account,
        position,
        MAX_RESULTS,
        args,
    )
}

/// Returns the least of the places in the arguments of the response to the call of a step.
pub(crate) fn choose_in_arguments(
    alloc: Global,
    pointer: &Text,
    cache: &Cache,
    round: &Round,
    step: Step,
    args: &Json,
) -> Result<Option<Text>, NoMemory>
    ensures { IfOk result (λ o. o ≡ least_from None (arguments_places cache.now
        (round_of round.now) (step_of step) pointer.now (tree_of args.now))) }
{
    let account = lend_account(cache);
    match step {
        Step::Session | Step::Done => Ok(None),
        Step::Changes(kind, since) => {
            choose_in_page(alloc, None, pointer, kind, account, since, args)
        }
        Step::Changed(kind, _) => choose_in_next_get(alloc, pointer, cache, round, kind, args),
        Step::Results(kind, _) => choose_in_next_page(alloc, pointer, cache, round, kind, args),
        Step::Records(kind, _) => choose_in_next_get(alloc, pointer, cache, round, kind, args),
        Step::ThreadState => {
            choose_in_get(alloc, None, pointer, Kind::Thread, account, &[], args)
        }
        Step::EmailState(_) => {
            choose_in_get(alloc, None, pointer, Kind::Email, account, &[], args)
        }
        Step::Threads(_) => { choose_in_next_get(alloc, pointer, cache, round, Kind::Thread, args) }
        Step::ListChanges(index, since) => {
            let ids = lend_list_ids(cache, index);
            choose_in_list_changes(alloc, None, pointer, account, ids, since, args)
        }
        Step::ListResults(_, _) => {
            choose_in_next_page(alloc, pointer, cache, round, Kind::Email, args)
        }
    }
}

/// Returns the name of the method that a step calls.
pub(crate) fn method_at(step: Step) -> &'static str
    ensures { result.now ≡ method_at (step_of step) }
{
    match step {
        Step::Session | Step::Done => "",
        Step::Changes(kind, _) => changes_name(kind),
        Step::Changed(kind, _) => get_name(kind),
        Step::Results(kind, _) => query_name(kind),
        Step::Records(kind, _) => get_name(kind),
        Step::ThreadState => get_name(Kind::Thread),
        Step::EmailState(_) => get_name(Kind::Email),
        Step::Threads(_) => get_name(Kind::Thread),
        Step::ListChanges(_, _) => "Email/queryChanges",
        Step::ListResults(_, _) => "Email/query",
    }
}
