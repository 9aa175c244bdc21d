// The lists of a cache: the replies to the changes of a list's query, and to its load (RFC 8620,
// sections 5.5 and 5.6).
ghost use Rattle.std.specs.Prelude.{◌≡◌, ◌+◌, IfOk, OnOk, OnErr, Err, None, Some, map};
ghost use Rattle.client_cache.specs.Progress.{IsSame, Makes, after_list_page, after_results, by_delta, by_list_results, leave_list, progress_with, reload_list};
ghost use Rattle.client_cache.specs.Records.{forget_state, set_results, update_at, with_results, without_state};
ghost use Rattle.client_cache.specs.RoundViews.{round_of, step_of};
ghost use Rattle.client_cache.specs.Rounds.{list_step};
ghost use Rattle.client_cache.specs.Views.{list_view};

use crate::cache::Cache;
use crate::kind_steps::{agrees, go_to, list_step, move_to};
use crate::lists::CachedList;
use crate::loads::is_full;
use crate::numbers::join;
use crate::reply_arguments::{lend_list_ids, splice_list};
use crate::reply_fault::MovedStates;
use crate::rounds::{Round, Step};
use jm_base::{NoMemory, Numbers, Sequence};
use reply_readers::{ReadDelta, ReadResults};
use std::alloc::Global;
use std::mem;

// ---- a list of the cache

fn set_results_of(list: &mut CachedList, ids: Numbers, state: u64)
    ensures { list_view list.new ≡ set_results ids (Some state) (list_view list.old) }
{
    list.ids = ids;
    list.state = Some(state);
}

fn set_results(lists: &mut Vec<CachedList>, index: usize, ids: Numbers, state: u64)
    ensures { map list_view lists.new.items
        ≡ update_at index (set_results ids (Some state)) (map list_view lists.old.items) }
{
    if index < lists.len() {
        set_results_of(&mut lists[index], ids, state);
    }
}

fn forget_state_of(list: &mut CachedList)
    ensures { list_view list.new ≡ forget_state (list_view list.old) }
{
    list.state = None;
}

fn forget_state(lists: &mut Vec<CachedList>, index: usize)
    ensures { map list_view lists.new.items
        ≡ update_at index forget_state (map list_view lists.old.items) }
{
    if index < lists.len() {
        forget_state_of(&mut lists[index]);
    }
}

fn keep_results(alloc: Global, cache: &mut Cache, index: usize, ids: Numbers, state: u64)
    ensures { cache.new ≡ with_results index ids (Some state) cache.old }
{
    let mut lists = mem::replace(&mut cache.lists, Sequence::new(alloc)).into_vec();
    set_results(&mut lists, index, ids, state);
    cache.lists = Sequence::from_vec(lists);
}

fn forget_list_state(alloc: Global, cache: &mut Cache, index: usize)
    ensures { cache.new ≡ without_state index cache.old }
{
    let mut lists = mem::replace(&mut cache.lists, Sequence::new(alloc)).into_vec();
    forget_state(&mut lists, index);
    cache.lists = Sequence::from_vec(lists);
}

fn next_list_step(index: usize, cache: &Cache) -> Step
    ensures { step_of result ≡ list_step (index + 1) cache.now }
{
    if index < cache.lists.len() {
        return list_step(index + 1, cache);
    }
    Step::Done
}

// Keeps these results of a list, and lets the round go on with the next one.
fn leave_list(
    alloc: Global,
    cache: &mut Cache,
    round: &mut Round,
    index: usize,
    ids: Numbers,
    state: u64,
)
    ensures { progress_with cache.new (round_of round.new) None
        ≡ leave_list index ids state cache.old (round_of round.old) }
{
    let next = next_list_step(index, cache);
    keep_results(alloc, cache, index, ids, state);
    go_to(alloc, round, next);
}

// ---- changes

/// Takes the changes of a list's query. If an allocation fails, the cache and the round are
/// unchanged.
pub(crate) fn take_delta(
    alloc: Global,
    cache: &mut Cache,
    round: &mut Round,
    index: usize,
    delta: &ReadDelta,
) -> Result<Option<MovedStates>, NoMemory>
    ensures ok { IfOk result
        (Makes (by_delta cache.old (round_of round.old) index delta.now) cache.new
        (round_of round.new)) }
    ensures err { OnErr result
        (IsSame cache.old (round_of round.old) cache.new (round_of round.new)) }
{
    let ids = lend_list_ids(cache, index);
    match splice_list(alloc, ids, delta.removed.as_slice(), delta.added.as_slice())? {
        Ok(spliced) => {
            leave_list(alloc, cache, round, index, spliced, delta.new_state);
            Ok(None)
        }
        Err(_) => Err(NoMemory),
    }
}

// ---- a load

fn take_agreed_page(
    alloc: Global,
    cache: &mut Cache,
    round: &mut Round,
    index: usize,
    page: &ReadResults,
) -> Result<(), NoMemory>
    ensures ok { OnOk result (progress_with cache.new (round_of round.new) None
        ≡ after_list_page index page.now cache.old
        (after_results page.now (round_of round.old))) }
    ensures err { OnErr result
        (IsSame cache.old (round_of round.old) cache.new (round_of round.new)) }
{
    let ids = join(alloc, round.results.as_slice(), page.ids.as_slice())?;
    if is_full(page.ids.as_slice()) {
        round.results = Numbers::from_vec(ids);
        round.step = Step::ListResults(index, Some(page.state));
        return Ok(());
    }
    leave_list(
        alloc,
        cache,
        round,
        index,
        Numbers::from_vec(ids),
        page.state,
    );
    Ok(())
}

/// Takes a page of the results of a list's query, if it shows the state of the pages before. If an
/// allocation fails, the cache and the round are unchanged.
pub(crate) fn take_list_results(
    alloc: Global,
    cache: &mut Cache,
    round: &mut Round,
    index: usize,
    state: Option<u64>,
    page: &ReadResults,
) -> Result<Option<MovedStates>, NoMemory>
    ensures ok { IfOk result (λ m. progress_with cache.new (round_of round.new) m
        ≡ by_list_results cache.old (round_of round.old) index state page.now) }
    ensures err { OnErr result
        (IsSame cache.old (round_of round.old) cache.new (round_of round.new)) }
{
    if agrees(state, page.state) {
        take_agreed_page(alloc, cache, round, index, page)?;
        return Ok(None);
    }
    let step = Step::ListResults(index, None);
    move_to(alloc, round, step, state.unwrap_or(0), page.state)
}

// ---- a state that is too old

/// Lets a list go on without a state.
pub(crate) fn reload_list(alloc: Global, cache: &mut Cache, round: &mut Round, index: usize)
    ensures { progress_with cache.new (round_of round.new) None
        ≡ reload_list index cache.old (round_of round.old) }
{
    forget_list_state(alloc, cache, index);
    go_to(alloc, round, Step::ListResults(index, None));
}
