// The response to a call of a /changes method, read (RFC 8620, section 5.2).
ghost use Rattle.std.specs.Prelude.{◌≡◌, [], Some, option_map, IfErr, IfOk};
ghost use Rattle.jm_json.specs.Json.{tree_of};
ghost use Rattle.jm_json.specs.LeastPlaces.{least_from};
ghost use Rattle.reply_readers.specs.Members.{IsLeastPlace};
ghost use Rattle.reply_readers.specs.Pages.{are_properties, first_page_places, has_new_state, has_properties, is_new_state, other_page_places, page_in, page_member_places, page_of_members, page_places};

use crate::fault::PlaceFault;
use crate::members::{has_state, has_text, read_flag, read_ids_of, read_state};
use jm_base::{Kind, NoMemory, Numbers, Text};
use jm_json::{Json, Members};
use method_args::{Presence, Shape, choose_in_ids_of, choose_member, choose_value, has_form};
use std::alloc::Global;

/// A page of changes that was read: the records that a client must get or forget, and the state
/// from which it goes on (RFC 8620, section 5.2).
#[derive(Drop)]
pub struct ReadPage {
    /// The numbers of the records that were created.
    pub created: Numbers,
    /// The numbers of the records that were destroyed.
    pub destroyed: Numbers,
    /// The numbers of the records that were updated.
    pub updated: Numbers,
    /// Whether more changes follow: `hasMoreChanges`.
    pub more: bool,
    /// The position of `newState`.
    pub new_state: u64,
}

fn is_new_state(since: u64, more: Option<bool>, state: Option<u64>) -> bool
    ensures { result ≡ is_new_state since more state }
{
    match state {
        Some(state) => match more {
            Some(more) => !more || since < state,
            None => true,
        },
        None => false,
    }
}

fn has_new_state(members: &Members, since: u64) -> bool
    ensures { result ≡ has_new_state since members.now }
{
    let more = read_flag(members, "hasMoreChanges");
    is_new_state(since, more, read_state(members, "newState"))
}

fn are_properties(value: Option<&Json>) -> bool
    ensures { result ≡ are_properties (option_map (λ j. tree_of j.now) value.entry) }
{
    match value {
        Some(value) => has_form(Presence::Nullable, Shape::Strings, Some(value)),
        None => false,
    }
}

fn has_properties(kind: Kind, members: &Members) -> bool
    ensures { result ≡ has_properties kind members.now }
{
    match kind {
        Kind::Mailbox => are_properties(members.get("updatedProperties")),
        Kind::Email | Kind::Thread => true,
    }
}

fn choose_in_first_members(
    alloc: Global,
    least: Option<Text>,
    pointer: &Text,
    kind: Kind,
    account: &str,
    page: &Members,
) -> Result<Option<Text>, NoMemory>
    ensures { IfOk result
        (λ o. o ≡ least_from least (first_page_places kind account.now pointer.now page.now)) }
{
    let is_account = has_text(page, "accountId", account);
    let least = choose_member(alloc, least, pointer, "accountId", is_account)?;
    let least = choose_in_ids_of(alloc, least, pointer, kind, page, "created")?;
    let least = choose_in_ids_of(alloc, least, pointer, kind, page, "destroyed")?;
    choose_in_ids_of(alloc, least, pointer, kind, page, "updated")
}

fn choose_in_other_members(
    alloc: Global,
    least: Option<Text>,
    pointer: &Text,
    kind: Kind,
    since: u64,
    page: &Members,
) -> Result<Option<Text>, NoMemory>
    ensures { IfOk result
        (λ o. o ≡ least_from least (other_page_places kind since pointer.now page.now)) }
{
    let has_more = read_flag(page, "hasMoreChanges").is_some();
    let least = choose_member(alloc, least, pointer, "hasMoreChanges", has_more)?;
    let is_new = has_new_state(page, since);
    let least = choose_member(alloc, least, pointer, "newState", is_new)?;
    let is_old = has_state(page, "oldState", since);
    let least = choose_member(alloc, least, pointer, "oldState", is_old)?;
    let are_properties = has_properties(kind, page);
    choose_member(alloc, least, pointer, "updatedProperties", are_properties)
}

fn choose_in_members(
    alloc: Global,
    least: Option<Text>,
    pointer: &Text,
    kind: Kind,
    account: &str,
    since: u64,
    page: &Members,
) -> Result<Option<Text>, NoMemory>
    ensures { IfOk result (λ o. o ≡ least_from least
        (page_member_places kind account.now since pointer.now page.now)) }
{
    let least = choose_in_first_members(alloc, least, pointer, kind, account, page)?;
    choose_in_other_members(alloc, least, pointer, kind, since, page)
}

/// Returns the least of a place, if there is one, and the places at which the arguments at
/// `pointer` are no page of the changes of a kind in an account since a state.
pub fn choose_in_page(
    alloc: Global,
    least: Option<Text>,
    pointer: &Text,
    kind: Kind,
    account: &str,
    since: u64,
    args: &Json,
) -> Result<Option<Text>, NoMemory>
    ensures { IfOk result (λ o. o ≡ least_from least
        (page_places kind account.now since pointer.now (tree_of args.now))) }
{
    match args.as_object() {
        Some(page) => choose_in_members(alloc, least, pointer, kind, account, since, page),
        None => choose_value(least, pointer, false),
    }
}

fn read_members(alloc: Global, kind: Kind, page: &Members) -> Result<Option<ReadPage>, NoMemory>
    ensures { IfOk result (λ o. o ≡ page_of_members kind page.now) }
{
    let Some(created) = read_ids_of(alloc, kind, page, "created")? else {
        return Ok(None);
    };
    let Some(destroyed) = read_ids_of(alloc, kind, page, "destroyed")? else {
        return Ok(None);
    };
    let Some(updated) = read_ids_of(alloc, kind, page, "updated")? else {
        return Ok(None);
    };
    let Some(more) = read_flag(page, "hasMoreChanges") else {
        return Ok(None);
    };
    let Some(new_state) = read_state(page, "newState") else {
        return Ok(None);
    };
    Ok(Some(ReadPage {
        created,
        destroyed,
        updated,
        more,
        new_state,
    }))
}

fn read_valid(alloc: Global, kind: Kind, args: &Json) -> Result<ReadPage, PlaceFault>
    ensures value { IfOk result (λ p. page_in kind (tree_of args.now) ≡ Some p) }
    ensures fault { IfErr result (λ e. e ≡ PlaceFault.NoMemory) }
{
    let Some(page) = args.as_object() else {
        return Err(PlaceFault::NoMemory);
    };
    match read_members(alloc, kind, page)? {
        Some(page) => Ok(page),
        None => Err(PlaceFault::NoMemory),
    }
}

/// Returns the page of changes that the arguments of a response say: of the records of a kind in an
/// account since a state. `pointer` is the JSON Pointer of the arguments. Fails with `InvalidAt` if
/// a value is not of its form, another account or another old state is named, or more changes
/// follow and the new state is not above the old one; with `NoMemory` if an allocation fails.
pub fn read_page(
    alloc: Global,
    pointer: &Text,
    kind: Kind,
    account: &str,
    since: u64,
    args: &Json,
) -> Result<ReadPage, PlaceFault>
    ensures value { IfOk result (λ p. page_in kind (tree_of args.now) ≡ Some p) }
    ensures form { IfOk result
        (λ _. page_places kind account.now since pointer.now (tree_of args.now) ≡ []) }
    ensures fault { IfErr result (λ e. IsLeastPlace e
        (page_places kind account.now since pointer.now (tree_of args.now))) }
{
    match choose_in_page(alloc, None, pointer, kind, account, since, args)? {
        Some(place) => Err(PlaceFault::InvalidAt(place)),
        None => read_valid(alloc, kind, args),
    }
}
