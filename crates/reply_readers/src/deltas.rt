// The response to a call of a /queryChanges method, read (RFC 8620, section 5.6).
ghost use Rattle.std.specs.Prelude.{◌≡◌, [], Some, IfErr, IfOk};
ghost use Rattle.jm_json.specs.Json.{tree_of};
ghost use Rattle.jm_json.specs.LeastPlaces.{least_from};
ghost use Rattle.reply_readers.specs.Members.{IsLeastPlace};
ghost use Rattle.reply_readers.specs.Deltas.{added_of, delta_in, delta_member_places, delta_of_members, delta_places};

use crate::fault::PlaceFault;
use crate::members::{has_state, has_text, read_ids_of, read_state};
use jm_base::{AddedItem, Kind, NoMemory, Numbers, Sequence, Text};
use jm_json::{Json, Members};
use method_args::{choose_in_added_of, choose_in_ids_of, choose_member, choose_value, read_added};
use std::alloc::Global;

/// The changes of a query's results that were read: what a client splices into its list, and the
/// state from which it goes on (RFC 8620, section 5.6).
#[derive(Drop)]
pub struct ReadDelta {
    /// The records that the list gained, each with its index in the list that results.
    pub added: Sequence<AddedItem>,
    /// The numbers of the records to remove first.
    pub removed: Numbers,
    /// The position of `newQueryState`.
    pub new_state: u64,
}

fn choose_in_members(
    alloc: Global,
    least: Option<Text>,
    pointer: &Text,
    kind: Kind,
    account: &str,
    since: u64,
    delta: &Members,
) -> Result<Option<Text>, NoMemory>
    ensures { IfOk result (λ o. o ≡ least_from least
        (delta_member_places kind account.now since pointer.now delta.now)) }
{
    let is_account = has_text(delta, "accountId", account);
    let least = choose_member(alloc, least, pointer, "accountId", is_account)?;
    let least = choose_in_added_of(alloc, least, pointer, kind, delta, "added")?;
    let is_new = read_state(delta, "newQueryState").is_some();
    let least = choose_member(alloc, least, pointer, "newQueryState", is_new)?;
    let is_old = has_state(delta, "oldQueryState", since);
    let least = choose_member(alloc, least, pointer, "oldQueryState", is_old)?;
    choose_in_ids_of(alloc, least, pointer, kind, delta, "removed")
}

/// Returns the least of a place, if there is one, and the places at which the arguments at
/// `pointer` are no changes of a query's results of a kind in an account since a state.
pub fn choose_in_delta(
    alloc: Global,
    least: Option<Text>,
    pointer: &Text,
    kind: Kind,
    account: &str,
    since: u64,
    args: &Json,
) -> Result<Option<Text>, NoMemory>
    ensures { IfOk result (λ o. o ≡ least_from least
        (delta_places kind account.now since pointer.now (tree_of args.now))) }
{
    match args.as_object() {
        Some(delta) => choose_in_members(alloc, least, pointer, kind, account, since, delta),
        None => choose_value(least, pointer, false),
    }
}

fn read_added_of(
    alloc: Global,
    kind: Kind,
    members: &Members,
    name: &str,
) -> Result<Option<Sequence<AddedItem>>, NoMemory>
    ensures { IfOk result (λ o. o ≡ added_of kind name.now members.now) }
{
    match members.get(name) {
        Some(value) => read_added(alloc, kind, value),
        None => Ok(None),
    }
}

fn read_members(alloc: Global, kind: Kind, delta: &Members) -> Result<Option<ReadDelta>, NoMemory>
    ensures { IfOk result (λ o. o ≡ delta_of_members kind delta.now) }
{
    let Some(added) = read_added_of(alloc, kind, delta, "added")? else {
        return Ok(None);
    };
    let Some(removed) = read_ids_of(alloc, kind, delta, "removed")? else {
        return Ok(None);
    };
    let Some(new_state) = read_state(delta, "newQueryState") else {
        return Ok(None);
    };
    Ok(Some(ReadDelta {
        added,
        removed,
        new_state,
    }))
}

fn read_valid(alloc: Global, kind: Kind, args: &Json) -> Result<ReadDelta, PlaceFault>
    ensures value { IfOk result (λ d. delta_in kind (tree_of args.now) ≡ Some d) }
    ensures fault { IfErr result (λ e. e ≡ PlaceFault.NoMemory) }
{
    let Some(delta) = args.as_object() else {
        return Err(PlaceFault::NoMemory);
    };
    match read_members(alloc, kind, delta)? {
        Some(delta) => Ok(delta),
        None => Err(PlaceFault::NoMemory),
    }
}

/// Returns the changes that the arguments of a response say: of a query's results of a kind in an
/// account since a state. `pointer` is the JSON Pointer of the arguments. Whether each index is
/// within the list is for `splice` of jm_base to say. Fails with `InvalidAt` if a value is not of
/// its form, or another account or another old state is named; with `NoMemory` if an allocation
/// fails.
pub fn read_delta(
    alloc: Global,
    pointer: &Text,
    kind: Kind,
    account: &str,
    since: u64,
    args: &Json,
) -> Result<ReadDelta, PlaceFault>
    ensures value { IfOk result (λ d. delta_in kind (tree_of args.now) ≡ Some d) }
    ensures form { IfOk result
        (λ _. delta_places kind account.now since pointer.now (tree_of args.now) ≡ []) }
    ensures fault { IfErr result (λ e. IsLeastPlace e
        (delta_places kind account.now since pointer.now (tree_of args.now))) }
{
    match choose_in_delta(alloc, None, pointer, kind, account, since, args)? {
        Some(place) => Err(PlaceFault::InvalidAt(place)),
        None => read_valid(alloc, kind, args),
    }
}
