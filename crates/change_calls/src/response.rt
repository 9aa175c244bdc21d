// The response to a call of a /changes method (RFC 8620, section 5.2; RFC 8621, sections 2.2, 3.2
// and 4.3).
ghost use Rattle.std.specs.Prelude.{◌≡◌, None, IfErr, IfOk, option_map};
ghost use Rattle.jm_json.specs.Json.{tree_of};
ghost use Rattle.jm_json.specs.Tree.{text};
ghost use Rattle.mail_records.specs.Histories.{History};
ghost use Rattle.change_calls.specs.Changes.{IsKeptBy};
ghost use Rattle.method_args.specs.Outcomes.{ExplainsCall, replied};
ghost use Rattle.change_calls.specs.Responses.{changes_outcome, count_properties, invalid_argument, outcome_with, page_members, page_tree, properties_tree, string_in};

use crate::{ChangeFault, ChangePage, changes};
use jm_base::{Kind, NoMemory, Text, state_text};
use jm_json::{Items, Json, Members};
use method_args::{
    Argument, MethodFault, Presence, Shape, find_invalid, make_ids, read_integer, read_text,
};
use state_log::Log;
use std::alloc::Global;

// Returns the name of the first argument in byte order that is missing or does not have its form.
fn find_invalid_argument(members: &Members) -> Option<&'static str>
    ensures { option_map (λ s. s.now) result ≡ invalid_argument members.now }
{
    find_invalid(
        members,
        &[
            Argument {
                name: "accountId",
                presence: Presence::Required,
                shape: Shape::String,
            },
            Argument {
                name: "maxChanges",
                presence: Presence::Nullable,
                shape: Shape::Integer,
            },
            Argument {
                name: "sinceState",
                presence: Presence::Required,
                shape: Shape::String,
            },
        ],
    )
}

fn read_string<'a>(members: &'a Members, name: &str) -> &'a str
    ensures { result.now ≡ string_in name.now members.now }
{
    match read_text(members, name) {
        Some(text) => text.as_str(),
        None => "",
    }
}

fn make_string(alloc: Global, string: &str) -> Result<Json, NoMemory>
    ensures { IfOk result (λ j. tree_of j ≡ text string.now) }
{
    Ok(Json::Text(Text::from_str(alloc, string)?))
}

// Returns the properties of a mailbox that its counts are.
fn make_count_properties(alloc: Global) -> Result<Json, NoMemory>
    ensures { IfOk result (λ j. tree_of j ≡ count_properties) }
{
    let mut names = Items::with_room(alloc, 4)?;
    names.push(make_string(alloc, "totalEmails")?)?;
    names.push(make_string(alloc, "unreadEmails")?)?;
    names.push(make_string(alloc, "totalThreads")?)?;
    names.push(make_string(alloc, "unreadThreads")?)?;
    Ok(Json::List(names))
}

fn make_properties(alloc: Global, counts_only: bool) -> Result<Json, NoMemory>
    ensures { IfOk result (λ j. tree_of j ≡ properties_tree counts_only) }
{
    if counts_only {
        return make_count_properties(alloc);
    }
    Ok(Json::Null)
}

// Returns the members that each response has.
fn make_members(
    alloc: Global,
    kind: Kind,
    account: &str,
    since: &str,
    page: &ChangePage,
) -> Result<Members, NoMemory>
    ensures { IfOk result (λ ms. ms ≡ page_members kind account.now since.now page.now) }
{
    let account = Text::from_str(alloc, account)?;
    let since = Text::from_str(alloc, since)?;
    let created = make_ids(alloc, kind, page.created.as_slice())?;
    let destroyed = make_ids(alloc, kind, page.destroyed.as_slice())?;
    let updated = make_ids(alloc, kind, page.updated.as_slice())?;
    let new_state = state_text(alloc, page.new_state)?;
    let mut reply = Members::with_room(alloc, 8)?;
    reply.set(alloc, "accountId", Json::Text(account))?;
    reply.set(alloc, "created", Json::List(created))?;
    reply.set(alloc, "destroyed", Json::List(destroyed))?;
    reply.set(alloc, "hasMoreChanges", Json::Bool(page.more))?;
    reply.set(alloc, "newState", Json::Text(new_state))?;
    reply.set(alloc, "oldState", Json::Text(since))?;
    reply.set(alloc, "updated", Json::List(updated))?;
    Ok(reply)
}

// Returns the arguments of the response with a page.
fn make_reply(
    alloc: Global,
    kind: Kind,
    account: &str,
    since: &str,
    page: &ChangePage,
) -> Result<Json, NoMemory>
    ensures { IfOk result (λ j. tree_of j ≡ page_tree kind account.now since.now page.now) }
{
    let mut reply = make_members(alloc, kind, account, since, page)?;
    if kind == Kind::Mailbox {
        let properties = make_properties(alloc, page.counts_only)?;
        reply.set(alloc, "updatedProperties", properties)?;
    }
    Ok(Json::Object(reply))
}

// Returns the response to arguments that have their forms.
fn answer_members(
    alloc: Global,
    log: &Log,
    kind: Kind,
    members: &Members,
) -> Result<Json, MethodFault>
    ensures reply { IfOk result (λ j. (h : History) → IsKeptBy log.now h
        → outcome_with h kind members.now None ≡ replied (tree_of j)) }
    ensures fault { IfErr result (λ fault. (h : History) → IsKeptBy log.now h
        → ExplainsCall fault (outcome_with h kind members.now None)) }
{
    let since = read_string(members, "sinceState");
    match changes(
        alloc,
        log,
        kind,
        since.as_bytes(),
        read_integer(members, "maxChanges"),
    ) {
        Ok(page) => {
            let account = read_string(members, "accountId");
            Ok(make_reply(alloc, kind, account, since, &page)?)
        }
        Err(ChangeFault::BadMaximum) => Err(MethodFault::Invalid(Text::from_str(
            alloc,
            "maxChanges",
        )?)),
        Err(ChangeFault::CannotCalculate) => Err(MethodFault::CannotCalculate),
        Err(ChangeFault::NoMemory) => Err(MethodFault::NoMemory),
    }
}

/// Returns the arguments of the response to a call for the changes of a kind (RFC 8620, section
/// 5.2), over an account with this log. The arguments are `accountId`, `sinceState` and
/// `maxChanges`, of which the last may be absent or null. The response is exact for every history
/// whose log this is and whose edits fit one after the other.
///
/// Fails with `Invalid` if an argument is missing or has a wrong form, of several the first in
/// byte order; else if `maxChanges` is below 1. Fails with `CannotCalculate` if `sinceState` is
/// not the text of a state from which all edits of the kind are known, and with `NoMemory` if an
/// allocation fails.
pub fn answer_changes(
    alloc: Global,
    log: &Log,
    kind: Kind,
    args: &Json,
) -> Result<Json, MethodFault>
    ensures reply { IfOk result (λ j. (h : History) → IsKeptBy log.now h
        → changes_outcome h kind (tree_of args.now) ≡ replied (tree_of j)) }
    ensures fault { IfErr result (λ fault. (h : History) → IsKeptBy log.now h
        → ExplainsCall fault (changes_outcome h kind (tree_of args.now))) }
{
    match args.as_object() {
        Some(members) => match find_invalid_argument(members) {
            Some(name) => Err(MethodFault::Invalid(Text::from_str(alloc, name)?)),
            None => answer_members(alloc, log, kind, members),
        },
        None => Err(MethodFault::Invalid(Text::from_str(alloc, "")?)),
    }
}
