// The request of each step of a round.
ghost use Rattle.std.specs.Prelude.{◌≡◌, IfOk, OnOk, codes, length, map, option_map, slice_get};
ghost use Rattle.jm_base.specs.Ids.{state_text};
ghost use Rattle.jm_json.specs.Json.{tree_of};
ghost use Rattle.jm_json.specs.Order.{put};
ghost use Rattle.jm_json.specs.Tree.{boolean, text};
ghost use Rattle.mail_counts.specs.Views.{count_tree};
ghost use Rattle.mail_view.specs.CachedViews.{client_get};
ghost use Rattle.client_cache.specs.RoundViews.{round_of, step_of};
ghost use Rattle.client_cache.specs.declared.limits.TheConstants.{MAX_RESULTS};
ghost use Rattle.client_cache.specs.Requests.{account_of, call_text, call_with, changes_arguments, changes_call, changes_name, get_call, get_name, id_of, list_changes_arguments, list_changes_call, list_results_arguments, list_results_call, next_asked, next_request, plain_members, query_name, request_at, results_arguments, results_call};
ghost use Rattle.client_cache.specs.Views.{list_view};

use crate::cache::Cache;
use crate::creation::build_all;
use crate::limits::{MAX_CHANGES, MAX_IDS, MAX_RESULTS};
use crate::lists::CachedList;
use crate::rounds::{Round, Step};
use get_args::build_cached_names;
use jm_base::{Bytes, Kind, MAX_JSON_INTEGER, NoMemory, Text, state_text};
use jm_json::{Invocation, Items, Json, Members, copy, write_request};
use method_args::make_ids;
use std::alloc::Global;

// The capabilities that a client uses (RFC 8620, section 2).
const CAPABILITIES: [&str; 2] = ["urn:ietf:params:jmap:core", "urn:ietf:params:jmap:mail"];

fn make_count(number: u64) -> Json
    ensures { tree_of result ≡ count_tree number }
{
    Json::Int(number.min(MAX_JSON_INTEGER) as i64)
}

// ---- members of arguments

/// Lends the account that is kept.
pub(crate) fn lend_account(cache: &Cache) -> &str
    ensures { result.now ≡ account_of cache.now }
{
    match &cache.account {
        Some(account) => account.as_str(),
        None => "",
    }
}

fn set_account(alloc: Global, members: &mut Members, cache: &Cache) -> Result<(), NoMemory>
    ensures { OnOk result
        (members.new ≡ put (codes "accountId") (text (account_of cache.now)) members.old) }
{
    let account = Text::from_str(alloc, lend_account(cache))?;
    members.set(alloc, "accountId", Json::Text(account))
}

fn set_state(
    alloc: Global,
    members: &mut Members,
    name: &str,
    position: u64,
) -> Result<(), NoMemory>
    ensures { OnOk result (members.new ≡ put name.now (text (state_text position)) members.old) }
{
    members.set(alloc, name, Json::Text(state_text(alloc, position)?))
}

// Sets which results are asked for.
fn set_window(alloc: Global, members: &mut Members, round: &Round) -> Result<(), NoMemory>
    ensures { OnOk result (members.new
        ≡ put (codes "position") (count_tree (length (round_of round.now).results))
        (put (codes "limit") (count_tree MAX_RESULTS) members.old)) }
{
    members.set(alloc, "limit", make_count(MAX_RESULTS as u64))?;
    members.set(alloc, "position", make_count(round.results.len() as u64))
}

// Sets the query of a list but for its sort.
fn set_query(alloc: Global, members: &mut Members, list: &CachedList) -> Result<(), NoMemory>
    ensures { OnOk result (members.new ≡ put (codes "filter") (tree_of list.now.filter)
        (put (codes "collapseThreads") (boolean list.now.collapse) members.old)) }
{
    members.set(alloc, "collapseThreads", Json::Bool(list.collapse))?;
    members.set(alloc, "filter", copy(alloc, &list.filter)?)
}

// ---- arguments

fn build_changes(alloc: Global, cache: &Cache, since: u64) -> Result<Json, NoMemory>
    ensures { IfOk result (λ t. tree_of t ≡ changes_arguments (account_of cache.now) since) }
{
    let mut members = Members::new(alloc);
    set_account(alloc, &mut members, cache)?;
    members.set(alloc, "maxChanges", make_count(MAX_CHANGES as u64))?;
    set_state(alloc, &mut members, "sinceState", since)?;
    Ok(Json::Object(members))
}

fn build_results(alloc: Global, cache: &Cache, round: &Round) -> Result<Json, NoMemory>
    ensures { IfOk result (λ t. tree_of t
        ≡ results_arguments (account_of cache.now) (length (round_of round.now).results)) }
{
    let mut members = Members::new(alloc);
    set_account(alloc, &mut members, cache)?;
    set_window(alloc, &mut members, round)?;
    Ok(Json::Object(members))
}

fn build_list_changes(
    alloc: Global,
    cache: &Cache,
    list: &CachedList,
    since: u64,
) -> Result<Json, NoMemory>
    ensures { IfOk result (λ t. tree_of t
        ≡ list_changes_arguments (account_of cache.now) (list_view list.now) since) }
{
    let mut members = Members::new(alloc);
    set_account(alloc, &mut members, cache)?;
    set_query(alloc, &mut members, list)?;
    set_state(alloc, &mut members, "sinceQueryState", since)?;
    members.set(alloc, "sort", copy(alloc, &list.sort)?)?;
    Ok(Json::Object(members))
}

fn build_list_results(
    alloc: Global,
    cache: &Cache,
    list: &CachedList,
    round: &Round,
) -> Result<Json, NoMemory>
    ensures { IfOk result (λ t. tree_of t
        ≡ list_results_arguments (account_of cache.now) (list_view list.now)
        (length (round_of round.now).results)) }
{
    let mut members = Members::new(alloc);
    set_account(alloc, &mut members, cache)?;
    set_query(alloc, &mut members, list)?;
    set_window(alloc, &mut members, round)?;
    members.set(alloc, "sort", copy(alloc, &list.sort)?)?;
    Ok(Json::Object(members))
}

fn make_asked_ids(alloc: Global, kind: Kind, numbers: &[u64]) -> Result<Items, NoMemory>
    ensures { IfOk result (λ ts. ts ≡ map text (map (id_of kind) numbers.now)) }
{
    make_ids(alloc, kind, numbers)
}

fn build_plain_get(
    alloc: Global,
    cache: &Cache,
    kind: Kind,
    numbers: &[u64],
) -> Result<Members, NoMemory>
    ensures { IfOk result (λ ms. ms ≡ plain_members kind (account_of cache.now) numbers.now) }
{
    let mut members = Members::new(alloc);
    set_account(alloc, &mut members, cache)?;
    members.set(
        alloc,
        "ids",
        Json::List(make_asked_ids(alloc, kind, numbers)?),
    )?;
    Ok(members)
}

fn build_get(alloc: Global, cache: &Cache, kind: Kind, numbers: &[u64]) -> Result<Json, NoMemory>
    ensures { IfOk result (λ t. tree_of t
        ≡ client_get kind (account_of cache.now) (map (id_of kind) numbers.now)) }
{
    let mut members = build_plain_get(alloc, cache, kind, numbers)?;
    match kind {
        Kind::Email => {
            members.set(alloc, "properties", build_cached_names(alloc)?)?;
            Ok(Json::Object(members))
        }
        Kind::Mailbox => Ok(Json::Object(members)),
        Kind::Thread => Ok(Json::Object(members)),
    }
}

// ---- requests

fn write_call(alloc: Global, name: &str, args: Json) -> Result<Bytes, NoMemory>
    ensures { IfOk result (λ b. b ≡ call_text (call_with name.now (tree_of args))) }
{
    let calls = [Invocation {
        name: Text::from_str(alloc, name)?,
        args,
        id: Text::from_str(alloc, "0")?,
    }];
    write_request(alloc, &CAPABILITIES, &calls)
}

/// Returns the name of the method that gets records of a kind.
pub(crate) fn get_name(kind: Kind) -> &'static str
    ensures { result.now ≡ get_name kind }
{
    match kind {
        Kind::Mailbox => "Mailbox/get",
        Kind::Email => "Email/get",
        Kind::Thread => "Thread/get",
    }
}

/// Returns the name of the method that tells the changes of a kind.
pub(crate) fn changes_name(kind: Kind) -> &'static str
    ensures { result.now ≡ changes_name kind }
{
    match kind {
        Kind::Mailbox => "Mailbox/changes",
        Kind::Email => "Email/changes",
        Kind::Thread => "Thread/changes",
    }
}

/// Returns the name of the method that queries records of a kind. Threads have none.
pub(crate) fn query_name(kind: Kind) -> &'static str
    ensures { result.now ≡ query_name kind }
{
    match kind {
        Kind::Mailbox => "Mailbox/query",
        Kind::Email | Kind::Thread => "Email/query",
    }
}

fn write_changes(alloc: Global, cache: &Cache, kind: Kind, since: u64) -> Result<Bytes, NoMemory>
    ensures { IfOk result (λ b. b ≡ call_text (changes_call cache.now kind since)) }
{
    write_call(
        alloc,
        changes_name(kind),
        build_changes(alloc, cache, since)?,
    )
}

fn write_get(alloc: Global, cache: &Cache, kind: Kind, numbers: &[u64]) -> Result<Bytes, NoMemory>
    ensures { IfOk result (λ b. b ≡ call_text (get_call cache.now kind numbers.now)) }
{
    write_call(
        alloc,
        get_name(kind),
        build_get(alloc, cache, kind, numbers)?,
    )
}

/// Lends the numbers of the records that a get asks for next.
pub(crate) fn lend_next_asked(round: &Round) -> &[u64]
    ensures { result.now ≡ next_asked (round_of round.now) }
{
    let asked = round.asked.as_slice();
    if asked.len() <= MAX_IDS {
        return asked;
    }
    &asked[..MAX_IDS]
}

fn write_next_get(
    alloc: Global,
    cache: &Cache,
    round: &Round,
    kind: Kind,
) -> Result<Bytes, NoMemory>
    ensures { IfOk result (λ b. b
        ≡ call_text (get_call cache.now kind (next_asked (round_of round.now)))) }
{
    write_get(alloc, cache, kind, lend_next_asked(round))
}

fn write_results(alloc: Global, cache: &Cache, round: &Round, kind: Kind) -> Result<Bytes, NoMemory>
    ensures { IfOk result (λ b. b ≡ call_text (results_call cache.now (round_of round.now) kind)) }
{
    write_call(alloc, query_name(kind), build_results(alloc, cache, round)?)
}

fn write_changes_of(
    alloc: Global,
    cache: &Cache,
    list: &CachedList,
    since: u64,
) -> Result<Bytes, NoMemory>
    ensures { IfOk result (λ b. b ≡ call_text (call_with (codes "Email/queryChanges")
        (list_changes_arguments (account_of cache.now) (list_view list.now) since))) }
{
    let args = build_list_changes(alloc, cache, list, since)?;
    write_call(alloc, "Email/queryChanges", args)
}

fn write_results_of(
    alloc: Global,
    cache: &Cache,
    list: &CachedList,
    round: &Round,
) -> Result<Bytes, NoMemory>
    ensures { IfOk result (λ b. b ≡ call_text (call_with (codes "Email/query")
        (list_results_arguments (account_of cache.now) (list_view list.now)
        (length (round_of round.now).results)))) }
{
    let args = build_list_results(alloc, cache, list, round)?;
    write_call(alloc, "Email/query", args)
}

/// Lends the list with an index, if there is one.
pub(crate) fn lend_list(cache: &Cache, index: usize) -> Option<&CachedList>
    ensures { option_map (λ l. list_view l.now) result ≡ slice_get cache.now.lists index }
{
    match cache.lists.as_slice().get(index) {
        Some(list) => Some(list),
        None => None,
    }
}

fn write_list_changes(
    alloc: Global,
    cache: &Cache,
    index: usize,
    since: u64,
) -> Result<Bytes, NoMemory>
    ensures { IfOk result (λ b. b ≡ call_text (list_changes_call cache.now index since)) }
{
    match lend_list(cache, index) {
        Some(list) => write_changes_of(alloc, cache, list, since),
        None => {
            let all = build_all(alloc)?;
            write_changes_of(alloc, cache, &all, since)
        }
    }
}

fn write_list_results(
    alloc: Global,
    cache: &Cache,
    round: &Round,
    index: usize,
) -> Result<Bytes, NoMemory>
    ensures { IfOk result
        (λ b. b ≡ call_text (list_results_call cache.now (round_of round.now) index)) }
{
    match lend_list(cache, index) {
        Some(list) => write_results_of(alloc, cache, list, round),
        None => {
            let all = build_all(alloc)?;
            write_results_of(alloc, cache, &all, round)
        }
    }
}

// The request of a step that is neither the Session nor the end.
fn write_step(
    alloc: Global,
    cache: &Cache,
    round: &Round,
    step: Step,
) -> Result<Option<Bytes>, NoMemory>
    ensures { IfOk result (λ o. o ≡ request_at cache.now (round_of round.now) (step_of step)) }
{
    match step {
        Step::Session => Ok(Some(Bytes::new(alloc))),
        Step::Changes(kind, since) => Ok(Some(write_changes(alloc, cache, kind, since)?)),
        Step::Changed(kind, _) => Ok(Some(write_next_get(alloc, cache, round, kind)?)),
        Step::Results(kind, _) => Ok(Some(write_results(alloc, cache, round, kind)?)),
        Step::Records(kind, _) => Ok(Some(write_next_get(alloc, cache, round, kind)?)),
        Step::ThreadState => Ok(Some(write_get(alloc, cache, Kind::Thread, &[])?)),
        Step::EmailState(_) => Ok(Some(write_get(alloc, cache, Kind::Email, &[])?)),
        Step::Threads(_) => Ok(Some(write_next_get(alloc, cache, round, Kind::Thread)?)),
        Step::ListChanges(index, since) => {
            Ok(Some(write_list_changes(alloc, cache, index, since)?))
        }
        Step::ListResults(index, _) => { Ok(Some(write_list_results(alloc, cache, round, index)?)) }
        Step::Done => Ok(None),
    }
}

/// Returns the request of a round that is next: the body of a POST to its path, or no bytes where a
/// GET of the Session is due. Returns `None` if and only if the round is done.
pub fn next_request(alloc: Global, cache: &Cache, round: &Round) -> Result<Option<Bytes>, NoMemory>
    ensures { IfOk result (λ o. o ≡ next_request cache.now (round_of round.now)) }
{
    write_step(alloc, cache, round, round.step)
}
