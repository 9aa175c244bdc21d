// A kind that is loaded: the replies to a query of all its records and to gets of them (RFC 8620,
// sections 5.1 and 5.5), and the load of the threads of emails.
ghost use Rattle.std.specs.Prelude.{◌≡◌, ◌==◌, IfOk, OnOk, OnErr, None, Some};
ghost use Rattle.method_args.specs.Arguments.{passes};
ghost use Rattle.reply_readers.specs.Objects.{objects_of};
ghost use Rattle.client_cache.specs.Progress.{IsSame, after_last_page, after_records, after_results, ask_for, back_to_emails, by_email_state, by_records, by_results, by_thread_state, by_threads, is_full, leave_kind, progress_with, records_at, reload_kind};
ghost use Rattle.client_cache.specs.Records.{with_records, with_state};
ghost use Rattle.client_cache.specs.RoundViews.{round_of, step_of};

use crate::cache::Cache;
use crate::changes::leave;
use crate::gets::{apply_get, plan_get};
use crate::kind_steps::{agrees, first_step, go_to, load_of, move_to, replace_kind};
use crate::kinds::{CachedKind, Records};
use crate::limits::MAX_RESULTS;
use crate::numbers::{collect_threads, join};
use crate::reply_fault::MovedStates;
use crate::rounds::{Round, Step};
use jm_base::{Kind, NoMemory, Numbers};
use reply_readers::{ReadObjects, ReadResults};
use std::alloc::Global;
use std::mem;

// ---- the records

fn records_at(kind: Kind, state: u64) -> Step
    ensures { step_of result ≡ records_at kind state }
{
    match kind {
        Kind::Mailbox => Step::Records(Kind::Mailbox, state),
        Kind::Email => Step::Records(Kind::Email, state),
        Kind::Thread => Step::Threads(state),
    }
}

// Keeps the records that a round got as those of a kind at a state.
fn keep_records(alloc: Global, cache: &mut Cache, round: &mut Round, kind: Kind, state: u64)
    ensures { progress_with cache.new (round_of round.new) None
        ≡ leave_kind kind (with_records kind (round_of round.old).got (Some state) cache.old)
        (round_of round.old) }
{
    let kept = CachedKind {
        records: mem::replace(&mut round.got, Records::new(alloc)),
        state: Some(state),
    };
    drop(replace_kind(cache, kind, kept));
    leave(alloc, cache, round, kind);
}

fn go_on_with_records(alloc: Global, cache: &mut Cache, round: &mut Round, kind: Kind, state: u64)
    ensures { progress_with cache.new (round_of round.new) None
        ≡ after_records kind state cache.old (round_of round.old) }
{
    if round.asked.is_empty() {
        keep_records(alloc, cache, round, kind, state);
        return;
    }
    round.step = records_at(kind, state);
}

/// Takes the objects of a load, if they show its state. If an allocation fails, the cache and the
/// round are unchanged.
pub(crate) fn take_records(
    alloc: Global,
    cache: &mut Cache,
    round: &mut Round,
    kind: Kind,
    state: u64,
    objects: ReadObjects,
) -> Result<Option<MovedStates>, NoMemory>
    ensures ok { IfOk result (λ m. progress_with cache.new (round_of round.new) m
        ≡ by_records cache.old (round_of round.old) kind state (objects_of objects)) }
    ensures err { OnErr result
        (IsSame cache.old (round_of round.old) cache.new (round_of round.new)) }
{
    if state != objects.state {
        return move_to(alloc, round, load_of(kind), state, objects.state);
    }
    let plan = plan_get(alloc, round, kind, objects)?;
    apply_get(alloc, round, plan);
    go_on_with_records(alloc, cache, round, kind, state);
    Ok(None)
}

// ---- the results of a query

/// Returns whether a page of results is full, so that another one follows.
pub(crate) fn is_full(ids: &[u64]) -> bool
    ensures { result ≡ is_full ids.now }
{
    ids.len() == MAX_RESULTS
}

// Takes the last page, with which the results are these.
fn take_last_page(
    alloc: Global,
    cache: &mut Cache,
    round: &mut Round,
    kind: Kind,
    state: u64,
    ids: Numbers,
) -> Result<(), NoMemory>
    ensures ok { OnOk result (progress_with cache.new (round_of round.new) None
        ≡ after_records kind state cache.old
        (ask_for ids (record (round_of round.old) { results = ids }))) }
    ensures err { OnErr result
        (IsSame cache.old (round_of round.old) cache.new (round_of round.new)) }
{
    let asked = Vec::from_slice(alloc, ids.as_slice())?;
    round.results = ids;
    round.asked = Numbers::from_vec(asked);
    go_on_with_records(alloc, cache, round, kind, state);
    Ok(())
}

fn take_agreed_page(
    alloc: Global,
    cache: &mut Cache,
    round: &mut Round,
    kind: Kind,
    page: &ReadResults,
) -> Result<(), NoMemory>
    ensures ok { OnOk result (progress_with cache.new (round_of round.new) None
        ≡ after_last_page kind page.now cache.old (after_results page.now (round_of round.old))) }
    ensures err { OnErr result
        (IsSame cache.old (round_of round.old) cache.new (round_of round.new)) }
{
    let ids = join(alloc, round.results.as_slice(), page.ids.as_slice())?;
    if is_full(page.ids.as_slice()) {
        round.results = Numbers::from_vec(ids);
        round.step = Step::Results(kind, Some(page.state));
        return Ok(());
    }
    take_last_page(
        alloc,
        cache,
        round,
        kind,
        page.state,
        Numbers::from_vec(ids),
    )
}

/// Takes a page of the results of a load, if it shows the state of the pages before. If an
/// allocation fails, the cache and the round are unchanged.
pub(crate) fn take_results(
    alloc: Global,
    cache: &mut Cache,
    round: &mut Round,
    kind: Kind,
    state: Option<u64>,
    page: &ReadResults,
) -> Result<Option<MovedStates>, NoMemory>
    ensures ok { IfOk result (λ m. progress_with cache.new (round_of round.new) m
        ≡ by_results cache.old (round_of round.old) kind state page.now) }
    ensures err { OnErr result
        (IsSame cache.old (round_of round.old) cache.new (round_of round.new)) }
{
    if agrees(state, page.state) {
        take_agreed_page(alloc, cache, round, kind, page)?;
        return Ok(None);
    }
    let step = Step::Results(kind, None);
    move_to(alloc, round, step, state.unwrap_or(0), page.state)
}

// ---- threads

/// Takes the state of threads.
pub(crate) fn take_thread_state(cache: &Cache, round: &mut Round, objects: &ReadObjects)
    ensures { progress_with cache.now (round_of round.new) None
        ≡ by_thread_state cache.now (round_of round.old) (objects_of objects.now) }
{
    let _cache = cache;
    round.step = Step::EmailState(objects.state);
}

fn go_back_to_emails(
    alloc: Global,
    cache: &Cache,
    round: &mut Round,
    had: u64,
    shown: u64,
) -> Result<Option<MovedStates>, NoMemory>
    ensures ok { IfOk result (λ m. progress_with cache.now (round_of round.new) m
        ≡ back_to_emails had shown cache.now (round_of round.old)) }
    ensures err { OnErr result (round_of round.new ≡ round_of round.old) }
{
    move_to(alloc, round, first_step(Kind::Email, cache), had, shown)
}

fn is_state(state: Option<u64>, shown: u64) -> bool
    ensures { result ≡ passes (λ had. had == shown) state }
{
    match state {
        Some(had) => had == shown,
        None => false,
    }
}

/// Takes the state of emails, which must be the one that is kept. If an allocation fails, the cache
/// and the round are unchanged.
pub(crate) fn take_email_state(
    alloc: Global,
    cache: &mut Cache,
    round: &mut Round,
    state: u64,
    objects: &ReadObjects,
) -> Result<Option<MovedStates>, NoMemory>
    ensures ok { IfOk result (λ m. progress_with cache.new (round_of round.new) m
        ≡ by_email_state cache.old (round_of round.old) state (objects_of objects.now)) }
    ensures err { OnErr result
        (IsSame cache.old (round_of round.old) cache.new (round_of round.new)) }
{
    if is_state(cache.emails.state, objects.state) {
        round.asked = collect_threads(alloc, cache.emails.records.as_slice())?;
        go_on_with_records(alloc, cache, round, Kind::Thread, state);
        return Ok(None);
    }
    go_back_to_emails(
        alloc,
        cache,
        round,
        cache.emails.state.unwrap_or(0),
        objects.state,
    )
}

/// Takes the objects of threads, if they show the state of the load. If an allocation fails, the
/// cache and the round are unchanged.
pub(crate) fn take_threads(
    alloc: Global,
    cache: &mut Cache,
    round: &mut Round,
    state: u64,
    objects: ReadObjects,
) -> Result<Option<MovedStates>, NoMemory>
    ensures ok { IfOk result (λ m. progress_with cache.new (round_of round.new) m
        ≡ by_threads cache.old (round_of round.old) state (objects_of objects)) }
    ensures err { OnErr result
        (IsSame cache.old (round_of round.old) cache.new (round_of round.new)) }
{
    if state != objects.state {
        return go_back_to_emails(alloc, cache, round, state, objects.state);
    }
    let plan = plan_get(alloc, round, Kind::Thread, objects)?;
    apply_get(alloc, round, plan);
    go_on_with_records(alloc, cache, round, Kind::Thread, state);
    Ok(None)
}

// ---- a state that is too old

// Forgets the state of a kind.
fn forget_state(cache: &mut Cache, kind: Kind)
    ensures { cache.new ≡ with_state kind None cache.old }
{
    match kind {
        Kind::Mailbox => cache.mailboxes.state = None,
        Kind::Email => cache.emails.state = None,
        Kind::Thread => cache.threads.state = None,
    }
}

/// Lets a kind go on without a state.
pub(crate) fn reload_kind(alloc: Global, cache: &mut Cache, round: &mut Round, kind: Kind)
    ensures { progress_with cache.new (round_of round.new) None
        ≡ reload_kind kind cache.old (round_of round.old) }
{
    forget_state(cache, kind);
    go_to(alloc, round, load_of(kind));
}
