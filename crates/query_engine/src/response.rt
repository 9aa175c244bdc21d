// The response to a call of a /query method (RFC 8620, section 5.5; RFC 8621, sections 2.3 and
// 4.4).
ghost use Rattle.std.specs.Prelude.{◌≡◌, ◌+◌, pos, true, None, IfErr, IfOk, IfSome, OnOk};
ghost use Rattle.jm_json.specs.Json.{tree_of};
ghost use Rattle.jm_json.specs.Tree.{fields_of, object};
ghost use Rattle.method_args.specs.Outcomes.{ExplainsCall, replied};
ghost use Rattle.mail_counts.specs.Views.{count_tree};
ghost use Rattle.query_engine.specs.Queries.{result_list};
ghost use Rattle.query_engine.specs.Replies.{Decides, plain_members, with_limit, with_total};
ghost use Rattle.query_engine.specs.Responses.{outcome_of_list, outcome_with, query_outcome, response_members};

use crate::arguments::{
    call_query, copy_name, find_invalid_argument, is_set, read_account_id, read_frame,
};
use crate::faults::QueryFault;
use crate::frame::{Frame, Shown, WindowFault};
use crate::query::Query;
use crate::run::run_query_upto;
use crate::windows::{find_greatest_count, limit_of, window};
use filter_terms::Texts2;
use jm_base::{Kind, MAX_JSON_INTEGER, NoMemory, Text, state_text};
use jm_json::{Json, Members};
use mail_records::Content;
use method_args::{MethodFault, make_ids};
use std::alloc::Global;

/// Returns a number as JSON has it, which has no greater one than [`MAX_JSON_INTEGER`] (RFC 8620,
/// section 1.3).
///
/// [`MAX_JSON_INTEGER`]: jm_base::MAX_JSON_INTEGER
pub fn make_count(value: u64) -> Json
    ensures { tree_of result ≡ count_tree value }
{
    Json::Int(value.min(MAX_JSON_INTEGER) as i64)
}

// Returns the members that each response has.
fn make_members(
    alloc: Global,
    kind: Kind,
    account: &str,
    state: u64,
    shown: &Shown,
) -> Result<Members, NoMemory>
    ensures { IfOk result (λ ms. ms ≡ plain_members kind account.now state shown.now) }
{
    let account = Text::from_str(alloc, account)?;
    let ids = make_ids(alloc, kind, shown.ids.as_slice())?;
    let state = state_text(alloc, state)?;
    let mut reply = Members::with_room(alloc, 7)?;
    reply.set(alloc, "accountId", Json::Text(account))?;
    reply.set(alloc, "canCalculateChanges", Json::Bool(true))?;
    reply.set(alloc, "ids", Json::List(ids))?;
    reply.set(alloc, "position", make_count(shown.position))?;
    reply.set(alloc, "queryState", Json::Text(state))?;
    Ok(reply)
}

fn set_limit(alloc: Global, reply: &mut Members, limit: Option<u64>) -> Result<(), NoMemory>
    ensures { OnOk result (reply.new ≡ with_limit limit reply.old) }
{
    match limit {
        Some(limit) => reply.set(alloc, "limit", make_count(limit)),
        None => Ok(()),
    }
}

fn set_total(alloc: Global, reply: &mut Members, counted: bool, total: u64) -> Result<(), NoMemory>
    ensures { OnOk result (reply.new ≡ with_total counted total reply.old) }
{
    if counted {
        reply.set(alloc, "total", make_count(total))
    } else {
        Ok(())
    }
}

// Returns the arguments of the response with a part of the result list.
#[tactic(auto, using(crate::proofs::Replied::members_are))]
fn make_reply(
    alloc: Global,
    kind: Kind,
    account: &str,
    state: u64,
    shown: &Shown,
    counted: bool,
    total: u64,
) -> Result<Json, NoMemory>
    ensures { IfOk result (λ j. tree_of j ≡ object (fields_of
        (response_members kind account.now state shown.now counted total))) }
{
    let mut reply = make_members(alloc, kind, account, state, shown)?;
    set_limit(alloc, &mut reply, shown.limit)?;
    set_total(alloc, &mut reply, counted, total)?;
    Ok(Json::Object(reply))
}

// Returns the position of a frame, or None if it is below 0.
fn find_frame_position(frame: &Frame) -> Option<u64>
    ensures { IfSome result (λ n. frame.now.position ≡ pos n) }
{
    if frame.position < 0 {
        None
    } else {
        Some(frame.position as u64)
    }
}

fn add_counts(one: u64, other: u64) -> Option<u64>
    ensures { IfSome result (λ sum. sum ≡ one + other) }
{
    one.checked_add(other)
}

// Returns how many numbers from the beginning of a result list decide the part from a position.
fn count_from(frame: &Frame, position: u64) -> Option<u64>
    requires anchor { frame.now.anchor ≡ None }
    requires position { frame.now.position ≡ pos position }
    ensures { Decides frame.now result }
{
    match limit_of(frame.limit) {
        Some(limit) => add_counts(position, find_greatest_count(limit)),
        None => Some(0),
    }
}

// Returns how many numbers from the beginning of a result list decide the part that a frame names
// from a position, or None if all do.
fn count_forward(frame: &Frame) -> Option<u64>
    ensures { Decides frame.now result }
{
    match &frame.anchor {
        Some(_) => None,
        None => match find_frame_position(frame) {
            Some(position) => count_from(frame, position),
            None => None,
        },
    }
}

// Returns how many numbers from the beginning of a result list decide a response, or None if all
// do.
fn count_needed(frame: &Frame, counted: bool) -> Option<u64>
    ensures part { Decides frame.now result }
    ensures total { counted ≡ true → result ≡ None }
{
    if !counted {
        return count_forward(frame);
    }
    None
}

// Returns the response to a call with this query.
fn answer_query_of<T: Texts2>(
    alloc: Global,
    kind: Kind,
    state: u64,
    content: &Content,
    texts: &T,
    members: &Members,
    query: &Query,
) -> Result<Json, MethodFault>
    ensures reply { IfOk result (λ j. outcome_of_list kind state members.now
        (result_list query.now content.now.content (T.texts texts.now)) ≡ replied (tree_of j)) }
    ensures fault { IfErr result (λ e. ExplainsCall e (outcome_of_list kind state
        members.now (result_list query.now content.now.content (T.texts texts.now)))) }
{
    let frame = read_frame(alloc, members)?;
    let counted = is_set(members, "calculateTotal");
    let max = count_needed(&frame, counted);
    let numbers = run_query_upto(alloc, content, texts, query, max)?;
    match window(alloc, kind, numbers.as_slice(), &frame) {
        Ok(shown) => {
            let account = read_account_id(members);
            let total = numbers.len() as u64;
            Ok(make_reply(alloc, kind, account, state, &shown, counted, total)?)
        }
        Err(WindowFault::AnchorNotFound) => Err(MethodFault::AnchorNotFound),
        Err(WindowFault::BadLimit) => Err(MethodFault::Invalid(copy_name(alloc, "limit")?)),
        Err(WindowFault::NoMemory) => Err(MethodFault::NoMemory),
    }
}

// Returns the response to arguments that have their forms.
fn answer_members<T: Texts2>(
    alloc: Global,
    kind: Kind,
    state: u64,
    content: &Content,
    texts: &T,
    members: &Members,
) -> Result<Json, MethodFault>
    ensures reply { IfOk result (λ j. outcome_with kind state content.now.content
        (T.texts texts.now) members.now None ≡ replied (tree_of j)) }
    ensures fault { IfErr result (λ e. ExplainsCall e (outcome_with kind state content.now.content
        (T.texts texts.now) members.now None)) }
{
    match call_query(alloc, kind, members) {
        Ok(query) => answer_query_of(alloc, kind, state, content, texts, members, &query),
        Err(QueryFault::Invalid(name)) => Err(MethodFault::Invalid(name)),
        Err(QueryFault::UnsupportedFilter(name)) => Err(MethodFault::UnsupportedFilter(name)),
        Err(QueryFault::UnsupportedSort(name)) => Err(MethodFault::UnsupportedSort(name)),
        Err(QueryFault::NoMemory) => Err(MethodFault::NoMemory),
    }
}

/// Returns the arguments of the response to a call of Mailbox/query or Email/query (RFC 8620,
/// section 5.5), over an account with this content, where the kind has this state and the messages
/// contain what `texts` says.
///
/// Fails with `Invalid` if an argument is missing or has a wrong form, of several the first in byte
/// order, or else if a value of the filter or the sort is of a wrong kind; then with
/// `UnsupportedFilter` or `UnsupportedSort` if the filter or the sort is not known, as a tree is;
/// then with `AnchorNotFound` if the anchor is not in the result list. Fails with `NoMemory` if an
/// allocation fails.
///
/// If the sort is by the time received alone, the emails of the one mailbox that the filter asks
/// for, or all emails, are looked at in that order, and no more of them than the response needs. If
/// it needs all emails, as for a total, or if the sort is another one, all records are filtered,
/// and those that match are sorted.
pub fn answer_query<T: Texts2>(
    alloc: Global,
    kind: Kind,
    state: u64,
    content: &Content,
    texts: &T,
    args: &Json,
) -> Result<Json, MethodFault>
    ensures reply { IfOk result (λ j. query_outcome kind state content.now.content
        (T.texts texts.now) (tree_of args.now) ≡ replied (tree_of j)) }
    ensures fault { IfErr result (λ e. ExplainsCall e (query_outcome kind state
        content.now.content (T.texts texts.now) (tree_of args.now))) }
{
    match args.as_object() {
        Some(members) => match find_invalid_argument(kind, members) {
            Some(name) => Err(MethodFault::Invalid(copy_name(alloc, name)?)),
            None => answer_members(alloc, kind, state, content, texts, members),
        },
        None => Err(MethodFault::Invalid(copy_name(alloc, "")?)),
    }
}
