// The response to a call of a /query method, read (RFC 8620, section 5.5).
ghost use Rattle.std.specs.Prelude.{◌≡◌, [], Some, option_map, IfErr, IfOk};
ghost use Rattle.jm_json.specs.Json.{tree_of};
ghost use Rattle.jm_json.specs.Find.{as_list};
ghost use Rattle.jm_json.specs.LeastPlaces.{least_from};
ghost use Rattle.reply_readers.specs.Members.{IsLeastPlace};
ghost use Rattle.reply_readers.specs.Results.{has_few, is_short, results_in, results_member_places, results_of_members, results_places};

use crate::fault::PlaceFault;
use crate::members::{has_count, has_text, read_flag, read_ids_of, read_state};
use jm_base::{Kind, NoMemory, Numbers, Text};
use jm_json::{Json, Members};
use method_args::{choose_in_ids_of, choose_member, choose_value};
use std::alloc::Global;

/// The results of a query that were read, from the position that was asked for (RFC 8620, section
/// 5.5).
#[derive(Drop)]
pub struct ReadResults {
    /// The numbers of the records, in the order of the results.
    pub ids: Numbers,
    /// The position of `queryState`.
    pub state: u64,
}

fn is_short(value: &Json, limit: usize) -> bool
    ensures { result ≡ is_short limit (as_list (tree_of value.now)) }
{
    match value.as_list() {
        Some(items) => items.as_slice().len() <= limit,
        None => true,
    }
}

fn has_few(members: &Members, name: &str, limit: usize) -> bool
    ensures { result ≡ has_few name.now limit members.now }
{
    match members.get(name) {
        Some(value) => is_short(value, limit),
        None => true,
    }
}

fn choose_in_members(
    alloc: Global,
    least: Option<Text>,
    pointer: &Text,
    kind: Kind,
    account: &str,
    position: u64,
    limit: usize,
    results: &Members,
) -> Result<Option<Text>, NoMemory>
    ensures { IfOk result (λ o. o ≡ least_from least
        (results_member_places kind account.now position limit pointer.now results.now)) }
{
    let is_account = has_text(results, "accountId", account);
    let least = choose_member(alloc, least, pointer, "accountId", is_account)?;
    let has_flag = read_flag(results, "canCalculateChanges").is_some();
    let least = choose_member(alloc, least, pointer, "canCalculateChanges", has_flag)?;
    let are_few = has_few(results, "ids", limit);
    let least = choose_member(alloc, least, pointer, "ids", are_few)?;
    let least = choose_in_ids_of(alloc, least, pointer, kind, results, "ids")?;
    let is_position = has_count(results, "position", position);
    let least = choose_member(alloc, least, pointer, "position", is_position)?;
    let has_state = read_state(results, "queryState").is_some();
    choose_member(alloc, least, pointer, "queryState", has_state)
}

/// Returns the least of a place, if there is one, and the places at which the arguments at
/// `pointer` are no results of a query of a kind in an account from a position on, at most `limit`.
pub fn choose_in_results(
    alloc: Global,
    least: Option<Text>,
    pointer: &Text,
    kind: Kind,
    account: &str,
    position: u64,
    limit: usize,
    args: &Json,
) -> Result<Option<Text>, NoMemory>
    ensures { IfOk result (λ o. o ≡ least_from least
        (results_places kind account.now position limit pointer.now (tree_of args.now))) }
{
    match args.as_object() {
        Some(results) => choose_in_members(
            alloc, least, pointer, kind, account, position, limit, results,
        ),
        None => choose_value(least, pointer, false),
    }
}

fn read_members(
    alloc: Global,
    kind: Kind,
    results: &Members,
) -> Result<Option<ReadResults>, NoMemory>
    ensures { IfOk result (λ o. o ≡ results_of_members kind results.now) }
{
    let Some(ids) = read_ids_of(alloc, kind, results, "ids")? else {
        return Ok(None);
    };
    let Some(state) = read_state(results, "queryState") else {
        return Ok(None);
    };
    Ok(Some(ReadResults { ids, state }))
}

fn read_valid(alloc: Global, kind: Kind, args: &Json) -> Result<ReadResults, PlaceFault>
    ensures value { IfOk result (λ r. results_in kind (tree_of args.now) ≡ Some r) }
    ensures fault { IfErr result (λ e. e ≡ PlaceFault.NoMemory) }
{
    let Some(results) = args.as_object() else {
        return Err(PlaceFault::NoMemory);
    };
    match read_members(alloc, kind, results)? {
        Some(results) => Ok(results),
        None => Err(PlaceFault::NoMemory),
    }
}

/// Returns the results of a query that the arguments of a response say: of the records of a kind in
/// an account, from a position on. `pointer` is the JSON Pointer of the arguments. Fails with
/// `InvalidAt` if a value is not of its form, another account or another position is named, or
/// there are more than `limit` identifiers; with `NoMemory` if an allocation fails.
pub fn read_results(
    alloc: Global,
    pointer: &Text,
    kind: Kind,
    account: &str,
    position: u64,
    limit: usize,
    args: &Json,
) -> Result<ReadResults, PlaceFault>
    ensures value { IfOk result (λ r. results_in kind (tree_of args.now) ≡ Some r) }
    ensures form { IfOk result
        (λ _. results_places kind account.now position limit pointer.now (tree_of args.now) ≡ []) }
    ensures fault { IfErr result (λ e. IsLeastPlace e
        (results_places kind account.now position limit pointer.now (tree_of args.now))) }
{
    match choose_in_results(alloc, None, pointer, kind, account, position, limit, args)? {
        Some(place) => Err(PlaceFault::InvalidAt(place)),
        None => read_valid(alloc, kind, args),
    }
}
