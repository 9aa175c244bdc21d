// Where the object of a record is not of the form that a response gives it.
ghost use Rattle.std.specs.Prelude.{◌≡◌, IfOk, codes, is_some, map};
ghost use Rattle.jm_json.specs.Json.{member_of, tree_of};
ghost use Rattle.jm_json.specs.LeastPlaces.{least_from};
ghost use Rattle.method_args.specs.Arguments.{as_count, as_flag, is_null};
ghost use Rattle.method_args.specs.Places.{at_name, id_places, item_places, list_places, member_places};
ghost use Rattle.mail_view.specs.RecordPlaces.{address_forms, count_places, date_places, email_forms, entry_places, flag_places, mailbox_forms, members_places, nullable_places, object_places, record_forms, record_places, rights_forms, set_places, string_places, thread_forms};
ghost use Rattle.client_cache.specs.RecordParts.{date_test, first_email_forms, first_mailbox_forms, first_rights_forms, last_email_forms, last_mailbox_forms, last_rights_forms, name_test, set_entry_test};

use crate::ids::read_number;
use jm_base::{Kind, NoMemory, Text, read_utc_seconds};
use jm_json::{Json, Member, Members};
use method_args::{
    check_unsigned, choose_in_ids_of, choose_member, choose_value, make_item_pointer,
    make_member_pointer, read_id_of,
};
use std::alloc::Global;

// ---- values

pub(crate) fn is_null(value: &Json) -> bool
    ensures { result ≡ is_null (tree_of value.now) }
{
    match value {
        Json::Null => true,
        Json::Bool(_) | Json::Int(_) | Json::Text(_) | Json::List(_) | Json::Object(_) => false,
    }
}

fn is_flag(value: &Json) -> bool
    ensures { result ≡ is_some (as_flag (tree_of value.now)) }
{
    match value {
        Json::Bool(_) => true,
        Json::Null | Json::Int(_) | Json::Text(_) | Json::List(_) | Json::Object(_) => false,
    }
}

fn is_count(value: &Json) -> bool
    ensures { result ≡ is_some (as_count (tree_of value.now)) }
{
    match value {
        Json::Int(number) => check_unsigned(*number).is_some(),
        Json::Null | Json::Bool(_) | Json::Text(_) | Json::List(_) | Json::Object(_) => false,
    }
}

fn is_date(value: &Json) -> bool
    ensures { result ≡ date_test (tree_of value.now) }
{
    match value.as_text() {
        Some(text) => read_utc_seconds(text.as_bytes()).is_some(),
        None => false,
    }
}

// ---- members of one value

pub(crate) fn choose_flag(
    alloc: Global,
    least: Option<Text>,
    pointer: &Text,
    members: &Members,
    name: &str,
) -> Result<Option<Text>, NoMemory>
    ensures { IfOk result (λ o. o ≡ least_from least
        (member_places flag_places pointer.now name.now members.now)) }
{
    match members.get(name) {
        Some(value) => choose_member(alloc, least, pointer, name, is_flag(value)),
        None => choose_member(alloc, least, pointer, name, false),
    }
}

fn choose_count(
    alloc: Global,
    least: Option<Text>,
    pointer: &Text,
    members: &Members,
    name: &str,
) -> Result<Option<Text>, NoMemory>
    ensures { IfOk result (λ o. o ≡ least_from least
        (member_places count_places pointer.now name.now members.now)) }
{
    match members.get(name) {
        Some(value) => choose_member(alloc, least, pointer, name, is_count(value)),
        None => choose_member(alloc, least, pointer, name, false),
    }
}

pub(crate) fn choose_string(
    alloc: Global,
    least: Option<Text>,
    pointer: &Text,
    members: &Members,
    name: &str,
) -> Result<Option<Text>, NoMemory>
    ensures { IfOk result (λ o. o ≡ least_from least
        (member_places string_places pointer.now name.now members.now)) }
{
    match members.get(name) {
        Some(value) => choose_member(alloc, least, pointer, name, value.as_text().is_some()),
        None => choose_member(alloc, least, pointer, name, false),
    }
}

fn choose_date(
    alloc: Global,
    least: Option<Text>,
    pointer: &Text,
    members: &Members,
    name: &str,
) -> Result<Option<Text>, NoMemory>
    ensures { IfOk result (λ o. o ≡ least_from least
        (member_places date_places pointer.now name.now members.now)) }
{
    match members.get(name) {
        Some(value) => choose_member(alloc, least, pointer, name, is_date(value)),
        None => choose_member(alloc, least, pointer, name, false),
    }
}

fn choose_id(
    alloc: Global,
    least: Option<Text>,
    pointer: &Text,
    kind: Kind,
    members: &Members,
    name: &str,
) -> Result<Option<Text>, NoMemory>
    ensures { IfOk result (λ o. o ≡ least_from least
        (member_places (id_places kind) pointer.now name.now members.now)) }
{
    match members.get(name) {
        Some(value) => {
            choose_member(
                alloc,
                least,
                pointer,
                name,
                read_id_of(kind, value).is_some(),
            )
        }
        None => choose_member(alloc, least, pointer, name, false),
    }
}

// Of a value that may be null.
fn choose_string_value(
    alloc: Global,
    least: Option<Text>,
    pointer: &Text,
    name: &str,
    value: &Json,
) -> Result<Option<Text>, NoMemory>
    ensures { IfOk result (λ o. o ≡ least_from least
        (nullable_places string_places (at_name pointer.now name.now) (tree_of value.now))) }
{
    if is_null(value) {
        return Ok(least);
    }
    choose_member(alloc, least, pointer, name, value.as_text().is_some())
}

pub(crate) fn choose_nullable_string(
    alloc: Global,
    least: Option<Text>,
    pointer: &Text,
    members: &Members,
    name: &str,
) -> Result<Option<Text>, NoMemory>
    ensures { IfOk result (λ o. o ≡ least_from least
        (member_places (nullable_places string_places) pointer.now name.now members.now)) }
{
    match members.get(name) {
        Some(value) => choose_string_value(alloc, least, pointer, name, value),
        None => choose_member(alloc, least, pointer, name, false),
    }
}

fn choose_id_value(
    alloc: Global,
    least: Option<Text>,
    pointer: &Text,
    kind: Kind,
    name: &str,
    value: &Json,
) -> Result<Option<Text>, NoMemory>
    ensures { IfOk result (λ o. o ≡ least_from least
        (nullable_places (id_places kind) (at_name pointer.now name.now) (tree_of value.now))) }
{
    if is_null(value) {
        return Ok(least);
    }
    choose_member(
        alloc,
        least,
        pointer,
        name,
        read_id_of(kind, value).is_some(),
    )
}

fn choose_nullable_id(
    alloc: Global,
    least: Option<Text>,
    pointer: &Text,
    kind: Kind,
    members: &Members,
    name: &str,
) -> Result<Option<Text>, NoMemory>
    ensures { IfOk result (λ o. o ≡ least_from least
        (member_places (nullable_places (id_places kind)) pointer.now name.now members.now)) }
{
    match members.get(name) {
        Some(value) => choose_id_value(alloc, least, pointer, kind, name, value),
        None => choose_member(alloc, least, pointer, name, false),
    }
}

// ---- mailboxes

fn choose_in_first_rights(
    alloc: Global,
    least: Option<Text>,
    pointer: &Text,
    rights: &Members,
) -> Result<Option<Text>, NoMemory>
    ensures { IfOk result (λ o. o ≡ least_from least
        (members_places first_rights_forms pointer.now rights.now)) }
{
    let least = choose_flag(alloc, least, pointer, rights, "mayAddItems")?;
    let least = choose_flag(alloc, least, pointer, rights, "mayCreateChild")?;
    let least = choose_flag(alloc, least, pointer, rights, "mayDelete")?;
    let least = choose_flag(alloc, least, pointer, rights, "mayReadItems")?;
    choose_flag(alloc, least, pointer, rights, "mayRemoveItems")
}

fn choose_in_last_rights(
    alloc: Global,
    least: Option<Text>,
    pointer: &Text,
    rights: &Members,
) -> Result<Option<Text>, NoMemory>
    ensures { IfOk result (λ o. o ≡ least_from least
        (members_places last_rights_forms pointer.now rights.now)) }
{
    let least = choose_flag(alloc, least, pointer, rights, "mayRename")?;
    let least = choose_flag(alloc, least, pointer, rights, "maySetKeywords")?;
    let least = choose_flag(alloc, least, pointer, rights, "maySetSeen")?;
    choose_flag(alloc, least, pointer, rights, "maySubmit")
}

fn choose_in_rights(
    alloc: Global,
    least: Option<Text>,
    pointer: &Text,
    value: &Json,
) -> Result<Option<Text>, NoMemory>
    ensures { IfOk result (λ o. o ≡ least_from least
        (object_places rights_forms pointer.now (tree_of value.now))) }
{
    match value.as_object() {
        Some(rights) => {
            let least = choose_in_first_rights(alloc, least, pointer, rights)?;
            choose_in_last_rights(alloc, least, pointer, rights)
        }
        None => choose_value(least, pointer, false),
    }
}

fn choose_rights(
    alloc: Global,
    least: Option<Text>,
    pointer: &Text,
    mailbox: &Members,
) -> Result<Option<Text>, NoMemory>
    ensures { IfOk result (λ o. o ≡ least_from least
        (member_places (object_places rights_forms) pointer.now (codes "myRights") mailbox.now)) }
{
    match mailbox.get("myRights") {
        Some(value) => {
            let member = make_member_pointer(alloc, pointer, "myRights")?;
            choose_in_rights(alloc, least, &member, value)
        }
        None => choose_member(alloc, least, pointer, "myRights", false),
    }
}

fn choose_in_first_members(
    alloc: Global,
    least: Option<Text>,
    pointer: &Text,
    mailbox: &Members,
) -> Result<Option<Text>, NoMemory>
    ensures { IfOk result (λ o. o ≡ least_from least
        (members_places first_mailbox_forms pointer.now mailbox.now)) }
{
    let least = choose_id(alloc, least, pointer, Kind::Mailbox, mailbox, "id")?;
    let least = choose_flag(alloc, least, pointer, mailbox, "isSubscribed")?;
    let least = choose_rights(alloc, least, pointer, mailbox)?;
    let least = choose_string(alloc, least, pointer, mailbox, "name")?;
    let least = choose_nullable_id(alloc, least, pointer, Kind::Mailbox, mailbox, "parentId")?;
    choose_nullable_string(alloc, least, pointer, mailbox, "role")
}

fn choose_in_counts(
    alloc: Global,
    least: Option<Text>,
    pointer: &Text,
    mailbox: &Members,
) -> Result<Option<Text>, NoMemory>
    ensures { IfOk result (λ o. o ≡ least_from least
        (members_places last_mailbox_forms pointer.now mailbox.now)) }
{
    let least = choose_count(alloc, least, pointer, mailbox, "sortOrder")?;
    let least = choose_count(alloc, least, pointer, mailbox, "totalEmails")?;
    let least = choose_count(alloc, least, pointer, mailbox, "totalThreads")?;
    let least = choose_count(alloc, least, pointer, mailbox, "unreadEmails")?;
    choose_count(alloc, least, pointer, mailbox, "unreadThreads")
}

fn choose_in_mailbox(
    alloc: Global,
    least: Option<Text>,
    pointer: &Text,
    mailbox: &Members,
) -> Result<Option<Text>, NoMemory>
    ensures { IfOk result (λ o. o ≡ least_from least
        (members_places mailbox_forms pointer.now mailbox.now)) }
{
    let least = choose_in_first_members(alloc, least, pointer, mailbox)?;
    choose_in_counts(alloc, least, pointer, mailbox)
}

// ---- emails

fn choose_in_address(
    alloc: Global,
    least: Option<Text>,
    pointer: &Text,
    value: &Json,
) -> Result<Option<Text>, NoMemory>
    ensures { IfOk result (λ o. o ≡ least_from least
        (object_places address_forms pointer.now (tree_of value.now))) }
{
    match value.as_object() {
        Some(address) => {
            let least = choose_string(alloc, least, pointer, address, "email")?;
            choose_nullable_string(alloc, least, pointer, address, "name")
        }
        None => choose_value(least, pointer, false),
    }
}

fn choose_in_address_items(
    alloc: Global,
    least: Option<Text>,
    pointer: &Text,
    items: &[Json],
) -> Result<Option<Text>, NoMemory>
    ensures { IfOk result (λ o. o ≡ least_from least
        (item_places (object_places address_forms) pointer.now 0 (map tree_of items.now))) }
{
    let mut least = least;
    for (index, item) in items.iter().enumerate() {
        let address = make_item_pointer(alloc, pointer, index)?;
        least = choose_in_address(alloc, least, &address, item)?;
    }
    Ok(least)
}

fn choose_in_addresses(
    alloc: Global,
    least: Option<Text>,
    pointer: &Text,
    value: &Json,
) -> Result<Option<Text>, NoMemory>
    ensures { IfOk result (λ o. o ≡ least_from least
        (nullable_places (list_places (object_places address_forms)) pointer.now
        (tree_of value.now))) }
{
    if is_null(value) {
        return Ok(least);
    }
    match value.as_list() {
        Some(items) => choose_in_address_items(alloc, least, pointer, items.as_slice()),
        None => choose_value(least, pointer, false),
    }
}

fn choose_from(
    alloc: Global,
    least: Option<Text>,
    pointer: &Text,
    email: &Members,
) -> Result<Option<Text>, NoMemory>
    ensures { IfOk result (λ o. o ≡ least_from least
        (member_places (nullable_places (list_places (object_places address_forms))) pointer.now
        (codes "from") email.now)) }
{
    match email.get("from") {
        Some(value) => {
            let member = make_member_pointer(alloc, pointer, "from")?;
            choose_in_addresses(alloc, least, &member, value)
        }
        None => choose_member(alloc, least, pointer, "from", false),
    }
}

// Returns whether a name may stand in a set: any, or the identifier of a mailbox.
fn is_name_of(of_mailboxes: bool, name: &Text) -> bool
    ensures { result ≡ name_test of_mailboxes name.now }
{
    !of_mailboxes || read_number(Kind::Mailbox, name.as_bytes()).is_some()
}

// Returns whether a member is one of a set: a name that may stand there, and true.
fn is_entry(of_mailboxes: bool, member: &Member) -> bool
    ensures { result ≡ set_entry_test of_mailboxes (member_of member.now) }
{
    match &member.value {
        Json::Bool(flag) => is_name_of(of_mailboxes, &member.name) && *flag,
        Json::Null | Json::Int(_) | Json::Text(_) | Json::List(_) | Json::Object(_) => false,
    }
}

fn choose_in_entries(
    alloc: Global,
    least: Option<Text>,
    pointer: &Text,
    of_mailboxes: bool,
    members: &[Member],
) -> Result<Option<Text>, NoMemory>
    ensures { IfOk result (λ o. o ≡ least_from least
        (entry_places (name_test of_mailboxes) pointer.now (map member_of members.now))) }
{
    let mut least = least;
    for member in members {
        let is_valid = is_entry(of_mailboxes, member);
        least = choose_member(alloc, least, pointer, member.name.as_str(), is_valid)?;
    }
    Ok(least)
}

fn choose_in_set(
    alloc: Global,
    least: Option<Text>,
    pointer: &Text,
    of_mailboxes: bool,
    value: &Json,
) -> Result<Option<Text>, NoMemory>
    ensures { IfOk result (λ o. o ≡ least_from least
        (set_places (name_test of_mailboxes) pointer.now (tree_of value.now))) }
{
    match value.as_object() {
        Some(set) => choose_in_entries(alloc, least, pointer, of_mailboxes, set.as_slice()),
        None => choose_value(least, pointer, false),
    }
}

fn choose_set(
    alloc: Global,
    least: Option<Text>,
    pointer: &Text,
    of_mailboxes: bool,
    email: &Members,
    name: &str,
) -> Result<Option<Text>, NoMemory>
    ensures { IfOk result (λ o. o ≡ least_from least
        (member_places (set_places (name_test of_mailboxes)) pointer.now name.now email.now)) }
{
    match email.get(name) {
        Some(value) => {
            let member = make_member_pointer(alloc, pointer, name)?;
            choose_in_set(alloc, least, &member, of_mailboxes, value)
        }
        None => choose_member(alloc, least, pointer, name, false),
    }
}

fn choose_in_first_properties(
    alloc: Global,
    least: Option<Text>,
    pointer: &Text,
    email: &Members,
) -> Result<Option<Text>, NoMemory>
    ensures { IfOk result (λ o. o ≡ least_from least
        (members_places first_email_forms pointer.now email.now)) }
{
    let least = choose_string(alloc, least, pointer, email, "blobId")?;
    let least = choose_from(alloc, least, pointer, email)?;
    let least = choose_flag(alloc, least, pointer, email, "hasAttachment")?;
    let least = choose_id(alloc, least, pointer, Kind::Email, email, "id")?;
    choose_set(alloc, least, pointer, false, email, "keywords")
}

fn choose_in_last_properties(
    alloc: Global,
    least: Option<Text>,
    pointer: &Text,
    email: &Members,
) -> Result<Option<Text>, NoMemory>
    ensures { IfOk result (λ o. o ≡ least_from least
        (members_places last_email_forms pointer.now email.now)) }
{
    let least = choose_set(alloc, least, pointer, true, email, "mailboxIds")?;
    let least = choose_string(alloc, least, pointer, email, "preview")?;
    let least = choose_date(alloc, least, pointer, email, "receivedAt")?;
    let least = choose_count(alloc, least, pointer, email, "size")?;
    let least = choose_nullable_string(alloc, least, pointer, email, "subject")?;
    choose_id(alloc, least, pointer, Kind::Thread, email, "threadId")
}

fn choose_in_email(
    alloc: Global,
    least: Option<Text>,
    pointer: &Text,
    email: &Members,
) -> Result<Option<Text>, NoMemory>
    ensures { IfOk result (λ o. o ≡ least_from least
        (members_places email_forms pointer.now email.now)) }
{
    let least = choose_in_first_properties(alloc, least, pointer, email)?;
    choose_in_last_properties(alloc, least, pointer, email)
}

// ---- records

fn choose_in_thread(
    alloc: Global,
    least: Option<Text>,
    pointer: &Text,
    thread: &Members,
) -> Result<Option<Text>, NoMemory>
    ensures { IfOk result (λ o. o ≡ least_from least
        (members_places thread_forms pointer.now thread.now)) }
{
    let least = choose_in_ids_of(alloc, least, pointer, Kind::Email, thread, "emailIds")?;
    choose_id(alloc, least, pointer, Kind::Thread, thread, "id")
}

fn choose_in_members(
    alloc: Global,
    least: Option<Text>,
    pointer: &Text,
    kind: Kind,
    members: &Members,
) -> Result<Option<Text>, NoMemory>
    ensures { IfOk result (λ o. o ≡ least_from least
        (members_places (record_forms kind) pointer.now members.now)) }
{
    match kind {
        Kind::Mailbox => choose_in_mailbox(alloc, least, pointer, members),
        Kind::Email => choose_in_email(alloc, least, pointer, members),
        Kind::Thread => choose_in_thread(alloc, least, pointer, members),
    }
}

/// Returns the least of a place, if there is one, and the places at which the value at `pointer` is
/// no object of a record of the kind as a response has it (RFC 8621, sections 2, 3 and 4.1).
pub(crate) fn choose_in_record(
    alloc: Global,
    least: Option<Text>,
    pointer: &Text,
    kind: Kind,
    value: &Json,
) -> Result<Option<Text>, NoMemory>
    ensures { IfOk result (λ o. o ≡ least_from least
        (record_places kind pointer.now (tree_of value.now))) }
{
    match value.as_object() {
        Some(members) => choose_in_members(alloc, least, pointer, kind, members),
        None => choose_value(least, pointer, false),
    }
}
