// The response to a call of a /queryChanges method (RFC 8620, section 5.6; RFC 8621, sections 2.4
// and 4.5).
ghost use Rattle.std.specs.Prelude.{◌≡◌, None, IfErr, IfOk};
ghost use Rattle.jm_json.specs.Json.{tree_of};
ghost use Rattle.mail_records.specs.Histories.{History};
ghost use Rattle.method_args.specs.Outcomes.{ExplainsCall, replied};
ghost use Rattle.query_changes.specs.Deltas.{AreOf};
ghost use Rattle.query_changes.specs.Responses.{added_tree, added_trees, delta_members, delta_tree, outcome_of_query, outcome_with, query_changes_outcome};
ghost use Rattle.query_engine.specs.Responses.{query as the_query};

use crate::arguments::{find_invalid_argument, is_set, read_max_changes, read_string};
use crate::changes::find_changes;
use crate::delta::{Delta, DeltaFault};
use filter_terms::Texts2;
use jm_base::{AddedItem, Id, Kind, NoMemory, Text, id_text, state_text};
use jm_json::{Items, Json, Members};
use mail_records::Content;
use method_args::{MethodFault, make_ids};
use query_engine::{Query, QueryFault, make_count, read_query_in};
use state_log::Log;
use std::alloc::Global;

// Returns an added record: its identifier, and its index.
fn make_added(alloc: Global, kind: Kind, item: &AddedItem) -> Result<Json, NoMemory>
    ensures { IfOk result (λ j. tree_of j ≡ added_tree kind item.now) }
{
    let id = Id {
        kind,
        number: item.number,
    };
    let id = id_text(alloc, &id)?;
    let mut members = Members::with_room(alloc, 2)?;
    members.set(alloc, "id", Json::Text(id))?;
    members.set(alloc, "index", make_count(item.index))?;
    Ok(Json::Object(members))
}

fn make_all_added(alloc: Global, kind: Kind, added: &[AddedItem]) -> Result<Items, NoMemory>
    ensures { IfOk result (λ ts. ts ≡ added_trees kind added.now) }
{
    let mut items = Items::with_room(alloc, added.len())?;
    for item in added {
        items.push(make_added(alloc, kind, item)?)?;
    }
    Ok(items)
}

// Returns the members that each response has.
fn make_members(
    alloc: Global,
    kind: Kind,
    account: &str,
    since: &str,
    delta: &Delta,
) -> Result<Members, NoMemory>
    ensures { IfOk result (λ ms. ms ≡ delta_members kind account.now since.now delta.now) }
{
    let account = Text::from_str(alloc, account)?;
    let since = Text::from_str(alloc, since)?;
    let added = make_all_added(alloc, kind, delta.added.as_slice())?;
    let removed = make_ids(alloc, kind, delta.removed.as_slice())?;
    let state = state_text(alloc, delta.new_state)?;
    let mut reply = Members::with_room(alloc, 6)?;
    reply.set(alloc, "accountId", Json::Text(account))?;
    reply.set(alloc, "added", Json::List(added))?;
    reply.set(alloc, "newQueryState", Json::Text(state))?;
    reply.set(alloc, "oldQueryState", Json::Text(since))?;
    reply.set(alloc, "removed", Json::List(removed))?;
    Ok(reply)
}

// Returns the arguments of the response with the changes, and with the total if it is counted.
fn make_reply(
    alloc: Global,
    kind: Kind,
    account: &str,
    since: &str,
    counted: bool,
    delta: &Delta,
) -> Result<Json, NoMemory>
    ensures { IfOk result (λ j. tree_of j
        ≡ delta_tree kind account.now since.now counted delta.now) }
{
    let mut reply = make_members(alloc, kind, account, since, delta)?;
    if counted {
        reply.set(alloc, "total", make_count(delta.total))?;
    }
    Ok(Json::Object(reply))
}

// Returns the response to a call with this query.
fn answer_query<T: Texts2>(
    alloc: Global,
    log: &Log,
    content: &Content,
    texts: &T,
    kind: Kind,
    members: &Members,
    query: &Query,
) -> Result<Json, MethodFault>
    ensures reply { IfOk result (λ j. (h : History) → AreOf h log.now content.now.content
        → outcome_of_query h (T.texts texts.now) kind members.now (the_query query.now)
        ≡ replied (tree_of j)) }
    ensures fault { IfErr result (λ fault. (h : History) → AreOf h log.now content.now.content
        → ExplainsCall fault (outcome_of_query h (T.texts texts.now) kind members.now
        (the_query query.now))) }
{
    let since = read_string(members, "sinceQueryState");
    let max = read_max_changes(members);
    let counted = is_set(members, "calculateTotal");
    match find_changes(
        alloc,
        log,
        content,
        texts,
        query,
        since.as_bytes(),
        max,
        counted,
    ) {
        Ok(delta) => {
            let account = read_string(members, "accountId");
            Ok(make_reply(alloc, kind, account, since, counted, &delta)?)
        }
        Err(DeltaFault::CannotCalculate) => Err(MethodFault::CannotCalculate),
        Err(DeltaFault::TooMany(_)) => Err(MethodFault::TooMany),
        Err(DeltaFault::NoMemory) => Err(MethodFault::NoMemory),
    }
}

// Returns the response to arguments that have their forms.
fn answer_members<T: Texts2>(
    alloc: Global,
    log: &Log,
    content: &Content,
    texts: &T,
    kind: Kind,
    members: &Members,
) -> Result<Json, MethodFault>
    ensures reply { IfOk result (λ j. (h : History) → AreOf h log.now content.now.content
        → outcome_with h (T.texts texts.now) kind members.now None ≡ replied (tree_of j)) }
    ensures fault { IfErr result (λ fault. (h : History) → AreOf h log.now content.now.content
        → ExplainsCall fault (outcome_with h (T.texts texts.now) kind members.now None)) }
{
    match read_query_in(alloc, kind, members) {
        Ok(query) => answer_query(alloc, log, content, texts, kind, members, &query),
        Err(QueryFault::Invalid(name)) => Err(MethodFault::Invalid(name)),
        Err(QueryFault::UnsupportedFilter(name)) => Err(MethodFault::UnsupportedFilter(name)),
        Err(QueryFault::UnsupportedSort(name)) => Err(MethodFault::UnsupportedSort(name)),
        Err(QueryFault::NoMemory) => Err(MethodFault::NoMemory),
    }
}

/// Returns the arguments of the response to a call of Mailbox/queryChanges or Email/queryChanges
/// (RFC 8620, section 5.6), over an account with this log and this content, whose messages contain
/// what `texts` says. The response is exact for every history of which log and content are.
///
/// Fails with `Invalid` if an argument is missing or has a wrong form, of several the first in byte
/// order, or else if a value of the filter or the sort is of a wrong kind; then with
/// `UnsupportedFilter` or `UnsupportedSort` if the filter or the sort is not known; then with
/// `CannotCalculate` if `sinceQueryState` is not the text of a state from which all edits of the
/// kind are known; then with `TooMany` if there are more changes than `maxChanges`. Fails with
/// `NoMemory` if an allocation fails.
///
/// It costs what the query costs, and what the edits since the state cost. If nothing is touched
/// and `calculateTotal` is not set, no query is run.
pub fn answer_query_changes<T: Texts2>(
    alloc: Global,
    log: &Log,
    content: &Content,
    texts: &T,
    kind: Kind,
    args: &Json,
) -> Result<Json, MethodFault>
    ensures reply { IfOk result (λ j. (h : History) → AreOf h log.now content.now.content
        → query_changes_outcome h (T.texts texts.now) kind (tree_of args.now)
        ≡ replied (tree_of j)) }
    ensures fault { IfErr result (λ fault. (h : History) → AreOf h log.now content.now.content
        → ExplainsCall fault
        (query_changes_outcome h (T.texts texts.now) kind (tree_of args.now))) }
{
    match args.as_object() {
        Some(members) => match find_invalid_argument(kind, members) {
            Some(name) => Err(MethodFault::Invalid(Text::from_str(alloc, name)?)),
            None => answer_members(alloc, log, content, texts, kind, members),
        },
        None => Err(MethodFault::Invalid(Text::from_str(alloc, "")?)),
    }
}
