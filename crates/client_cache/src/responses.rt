// The response to the call of a round's step, taken.
ghost use Rattle.std.specs.Prelude.{◌≡◌, IfOk, OnErr, None, Some};
ghost use Rattle.jm_base.specs.declared.identifiers.Kind.TheVariants.{Email as OfEmail};
ghost use Rattle.jm_json.specs.Json.{tree_of};
ghost use Rattle.reply_readers.specs.Deltas.{delta_in};
ghost use Rattle.reply_readers.specs.Objects.{objects_in, objects_of};
ghost use Rattle.reply_readers.specs.Pages.{page_in};
ghost use Rattle.reply_readers.specs.Results.{results_in};
ghost use Rattle.client_cache.specs.Progress.{IsSame, Makes, by_arguments, by_error, progress_with};
ghost use Rattle.client_cache.specs.RoundViews.{round_of, step_of};
ghost use Rattle.client_cache.specs.Rounds.{at_changed, at_changes, at_email_state, at_list_changes, at_list_results, at_records, at_results, at_thread_state, at_threads};

use crate::cache::Cache;
use crate::changes::{take_changed, take_page};
use crate::limits::MAX_RESULTS;
use crate::list_steps::{reload_list, take_delta, take_list_results};
use crate::loads::{
    reload_kind, take_email_state, take_records, take_results, take_thread_state, take_threads,
};
use crate::reply_fault::MovedStates;
use crate::requests::lend_account;
use crate::rounds::{Round, Step};
use jm_base::{Kind, NoMemory, Text};
use jm_json::Json;
use reply_readers::{
    ReadDelta, ReadObjects, ReadPage, ReadResults, read_delta, read_objects, read_page,
    read_results,
};
use std::alloc::Global;

// ---- the arguments of a response, which are of their form

fn read_page_of(
    alloc: Global,
    cache: &Cache,
    kind: Kind,
    since: u64,
    args: &Json,
) -> Result<ReadPage, NoMemory>
    ensures { IfOk result (λ p. page_in kind (tree_of args.now) ≡ Some p) }
{
    let pointer = Text::from_str(alloc, "")?;
    match read_page(alloc, &pointer, kind, lend_account(cache), since, args) {
        Ok(page) => Ok(page),
        Err(_) => Err(NoMemory),
    }
}

fn read_results_of(
    alloc: Global,
    cache: &Cache,
    round: &Round,
    kind: Kind,
    args: &Json,
) -> Result<ReadResults, NoMemory>
    ensures { IfOk result (λ q. results_in kind (tree_of args.now) ≡ Some q) }
{
    let pointer = Text::from_str(alloc, "")?;
    let account = lend_account(cache);
    let position = round.results.len() as u64;
    match read_results(alloc, &pointer, kind, account, position, MAX_RESULTS, args) {
        Ok(page) => Ok(page),
        Err(_) => Err(NoMemory),
    }
}

fn read_delta_of(
    alloc: Global,
    cache: &Cache,
    since: u64,
    args: &Json,
) -> Result<ReadDelta, NoMemory>
    ensures { IfOk result (λ d. delta_in OfEmail (tree_of args.now) ≡ Some d) }
{
    let pointer = Text::from_str(alloc, "")?;
    match read_delta(
        alloc,
        &pointer,
        Kind::Email,
        lend_account(cache),
        since,
        args,
    ) {
        Ok(delta) => Ok(delta),
        Err(_) => Err(NoMemory),
    }
}

fn read_objects_of(alloc: Global, kind: Kind, args: Json) -> Result<ReadObjects, NoMemory>
    ensures { IfOk result (λ o. objects_in kind (tree_of args) ≡ Some (objects_of o)) }
{
    match read_objects(alloc, kind, args)? {
        Some(objects) => Ok(objects),
        None => Err(NoMemory),
    }
}

// ---- what they make of the cache and the round

fn take_page_in(
    alloc: Global,
    cache: &mut Cache,
    round: &mut Round,
    kind: Kind,
    since: u64,
    args: &Json,
) -> Result<Option<MovedStates>, NoMemory>
    ensures ok { IfOk result (Makes (by_arguments cache.old (round_of round.old)
        (at_changes kind since) (tree_of args.now)) cache.new (round_of round.new)) }
    ensures err { OnErr result
        (IsSame cache.old (round_of round.old) cache.new (round_of round.new)) }
{
    let page = read_page_of(alloc, cache, kind, since, args)?;
    take_page(alloc, cache, round, kind, &page)
}

fn take_changed_in(
    alloc: Global,
    cache: &mut Cache,
    round: &mut Round,
    kind: Kind,
    state: u64,
    args: Json,
) -> Result<Option<MovedStates>, NoMemory>
    ensures ok { IfOk result (Makes (by_arguments cache.old (round_of round.old)
        (at_changed kind state) (tree_of args)) cache.new (round_of round.new)) }
    ensures err { OnErr result
        (IsSame cache.old (round_of round.old) cache.new (round_of round.new)) }
{
    let objects = read_objects_of(alloc, kind, args)?;
    take_changed(alloc, cache, round, kind, state, objects)
}

fn take_results_in(
    alloc: Global,
    cache: &mut Cache,
    round: &mut Round,
    kind: Kind,
    state: Option<u64>,
    args: &Json,
) -> Result<Option<MovedStates>, NoMemory>
    ensures ok { IfOk result (Makes (by_arguments cache.old (round_of round.old)
        (at_results kind state) (tree_of args.now)) cache.new (round_of round.new)) }
    ensures err { OnErr result
        (IsSame cache.old (round_of round.old) cache.new (round_of round.new)) }
{
    let page = read_results_of(alloc, cache, round, kind, args)?;
    take_results(alloc, cache, round, kind, state, &page)
}

fn take_records_in(
    alloc: Global,
    cache: &mut Cache,
    round: &mut Round,
    kind: Kind,
    state: u64,
    args: Json,
) -> Result<Option<MovedStates>, NoMemory>
    ensures ok { IfOk result (Makes (by_arguments cache.old (round_of round.old)
        (at_records kind state) (tree_of args)) cache.new (round_of round.new)) }
    ensures err { OnErr result
        (IsSame cache.old (round_of round.old) cache.new (round_of round.new)) }
{
    let objects = read_objects_of(alloc, kind, args)?;
    take_records(alloc, cache, round, kind, state, objects)
}

fn take_thread_state_in(
    alloc: Global,
    cache: &Cache,
    round: &mut Round,
    args: Json,
) -> Result<Option<MovedStates>, NoMemory>
    ensures ok { IfOk result (Makes (by_arguments cache.now (round_of round.old)
        at_thread_state (tree_of args)) cache.now (round_of round.new)) }
    ensures err { OnErr result (round_of round.new ≡ round_of round.old) }
{
    let objects = read_objects_of(alloc, Kind::Thread, args)?;
    take_thread_state(cache, round, &objects);
    Ok(None)
}

fn take_email_state_in(
    alloc: Global,
    cache: &mut Cache,
    round: &mut Round,
    state: u64,
    args: Json,
) -> Result<Option<MovedStates>, NoMemory>
    ensures ok { IfOk result (Makes (by_arguments cache.old (round_of round.old)
        (at_email_state state) (tree_of args)) cache.new (round_of round.new)) }
    ensures err { OnErr result
        (IsSame cache.old (round_of round.old) cache.new (round_of round.new)) }
{
    let objects = read_objects_of(alloc, Kind::Email, args)?;
    take_email_state(alloc, cache, round, state, &objects)
}

fn take_threads_in(
    alloc: Global,
    cache: &mut Cache,
    round: &mut Round,
    state: u64,
    args: Json,
) -> Result<Option<MovedStates>, NoMemory>
    ensures ok { IfOk result (Makes (by_arguments cache.old (round_of round.old)
        (at_threads state) (tree_of args)) cache.new (round_of round.new)) }
    ensures err { OnErr result
        (IsSame cache.old (round_of round.old) cache.new (round_of round.new)) }
{
    let objects = read_objects_of(alloc, Kind::Thread, args)?;
    take_threads(alloc, cache, round, state, objects)
}

fn take_delta_in(
    alloc: Global,
    cache: &mut Cache,
    round: &mut Round,
    index: usize,
    since: u64,
    args: &Json,
) -> Result<Option<MovedStates>, NoMemory>
    ensures ok { IfOk result (Makes (by_arguments cache.old (round_of round.old)
        (at_list_changes index since) (tree_of args.now)) cache.new (round_of round.new)) }
    ensures err { OnErr result
        (IsSame cache.old (round_of round.old) cache.new (round_of round.new)) }
{
    let delta = read_delta_of(alloc, cache, since, args)?;
    take_delta(alloc, cache, round, index, &delta)
}

fn take_list_results_in(
    alloc: Global,
    cache: &mut Cache,
    round: &mut Round,
    index: usize,
    state: Option<u64>,
    args: &Json,
) -> Result<Option<MovedStates>, NoMemory>
    ensures ok { IfOk result (Makes (by_arguments cache.old (round_of round.old)
        (at_list_results index state) (tree_of args.now)) cache.new (round_of round.new)) }
    ensures err { OnErr result
        (IsSame cache.old (round_of round.old) cache.new (round_of round.new)) }
{
    let page = read_results_of(alloc, cache, round, Kind::Email, args)?;
    take_list_results(alloc, cache, round, index, state, &page)
}

/// Takes the arguments of the response to the call of a step. If an allocation fails, the cache and
/// the round are unchanged.
pub(crate) fn take_arguments(
    alloc: Global,
    cache: &mut Cache,
    round: &mut Round,
    step: Step,
    args: Json,
) -> Result<Option<MovedStates>, NoMemory>
    ensures ok { IfOk result (Makes (by_arguments cache.old (round_of round.old) (step_of step)
        (tree_of args)) cache.new (round_of round.new)) }
    ensures err { OnErr result
        (IsSame cache.old (round_of round.old) cache.new (round_of round.new)) }
{
    match step {
        Step::Session | Step::Done => Err(NoMemory),
        Step::Changes(kind, since) => take_page_in(alloc, cache, round, kind, since, &args),
        Step::Changed(kind, state) => take_changed_in(alloc, cache, round, kind, state, args),
        Step::Results(kind, state) => take_results_in(alloc, cache, round, kind, state, &args),
        Step::Records(kind, state) => take_records_in(alloc, cache, round, kind, state, args),
        Step::ThreadState => take_thread_state_in(alloc, cache, round, args),
        Step::EmailState(state) => take_email_state_in(alloc, cache, round, state, args),
        Step::Threads(state) => take_threads_in(alloc, cache, round, state, args),
        Step::ListChanges(index, since) => {
            take_delta_in(alloc, cache, round, index, since, &args)
        }
        Step::ListResults(index, state) => {
            take_list_results_in(alloc, cache, round, index, state, &args)
        }
    }
}

/// Lets the kind or the list of a step go on without its state, which is too old.
pub(crate) fn take_error(alloc: Global, cache: &mut Cache, round: &mut Round, step: Step)
    ensures { progress_with cache.new (round_of round.new) None
        ≡ by_error cache.old (round_of round.old) (step_of step) }
{
    match step {
        Step::Session | Step::Done => round.step = step,
        Step::Changes(kind, _) => reload_kind(alloc, cache, round, kind),
        Step::Changed(kind, _) => reload_kind(alloc, cache, round, kind),
        Step::Results(kind, _) => reload_kind(alloc, cache, round, kind),
        Step::Records(kind, _) => reload_kind(alloc, cache, round, kind),
        Step::ThreadState => reload_kind(alloc, cache, round, Kind::Thread),
        Step::EmailState(_) => reload_kind(alloc, cache, round, Kind::Thread),
        Step::Threads(_) => reload_kind(alloc, cache, round, Kind::Thread),
        Step::ListChanges(index, _) => reload_list(alloc, cache, round, index),
        Step::ListResults(index, _) => reload_list(alloc, cache, round, index),
    }
}
