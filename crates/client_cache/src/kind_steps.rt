// The records of a kind, in a cache, and where a round goes on.
ghost use Rattle.std.specs.Prelude.{◌≡◌, IfOk, OnOk, OnErr, Some};
ghost use Rattle.client_cache.specs.Caches.{kind_of};
ghost use Rattle.client_cache.specs.Progress.{agrees, count_moved, states_of};
ghost use Rattle.client_cache.specs.Records.{with_kind};
ghost use Rattle.client_cache.specs.RoundViews.{round_of, step_of};
ghost use Rattle.client_cache.specs.Rounds.{first_step, list_step, list_step_from, load_of, starting, step_after, step_from};
ghost use Rattle.client_cache.specs.Views.{kind_view};

use crate::cache::Cache;
use crate::kinds::{CachedKind, Records};
use crate::limits::MAX_MOVED_REPLIES;
use crate::reply_fault::MovedStates;
use crate::requests::lend_list;
use crate::rounds::{Round, Step};
use jm_base::{Kind, NoMemory, Numbers, state_text};
use std::alloc::Global;
use std::mem;

// ---- a kind of the cache

/// Lends what is kept of a kind.
pub(crate) fn lend_kind(cache: &Cache, kind: Kind) -> &CachedKind
    ensures { kind_view result.now ≡ kind_of kind cache.now }
{
    match kind {
        Kind::Mailbox => &cache.mailboxes,
        Kind::Email => &cache.emails,
        Kind::Thread => &cache.threads,
    }
}

/// Keeps this of a kind, and returns what was kept before.
pub(crate) fn replace_kind(cache: &mut Cache, kind: Kind, kept: CachedKind) -> CachedKind
    ensures old { kind_view result ≡ kind_of kind cache.old }
    ensures new { cache.new ≡ with_kind kind (kind_view kept) cache.old }
{
    match kind {
        Kind::Mailbox => mem::replace(&mut cache.mailboxes, kept),
        Kind::Email => mem::replace(&mut cache.emails, kept),
        Kind::Thread => mem::replace(&mut cache.threads, kept),
    }
}

// ---- steps

/// Returns the step at which the load of a kind begins.
pub(crate) fn load_of(kind: Kind) -> Step
    ensures { step_of result ≡ load_of kind }
{
    match kind {
        Kind::Mailbox => Step::Results(Kind::Mailbox, None),
        Kind::Email => Step::Results(Kind::Email, None),
        Kind::Thread => Step::ThreadState,
    }
}

fn step_from(kind: Kind, state: Option<u64>) -> Step
    ensures { step_of result ≡ step_from kind state }
{
    match state {
        Some(state) => Step::Changes(kind, state),
        None => load_of(kind),
    }
}

/// Returns the step at which a kind begins.
pub(crate) fn first_step(kind: Kind, cache: &Cache) -> Step
    ensures { step_of result ≡ first_step kind cache.now }
{
    step_from(kind, lend_kind(cache, kind).state)
}

fn list_step_from(index: usize, state: Option<u64>) -> Step
    ensures { step_of result ≡ list_step_from index state }
{
    match state {
        Some(state) => Step::ListChanges(index, state),
        None => Step::ListResults(index, None),
    }
}

/// Returns the step at which the list with an index begins, or the end if there is none.
pub(crate) fn list_step(index: usize, cache: &Cache) -> Step
    ensures { step_of result ≡ list_step index cache.now }
{
    match lend_list(cache, index) {
        Some(list) => list_step_from(index, list.state),
        None => Step::Done,
    }
}

/// Returns the step at which what follows a kind begins.
pub(crate) fn step_after(kind: Kind, cache: &Cache) -> Step
    ensures { step_of result ≡ step_after kind cache.now }
{
    match kind {
        Kind::Mailbox => first_step(Kind::Email, cache),
        Kind::Email => first_step(Kind::Thread, cache),
        Kind::Thread => list_step(0, cache),
    }
}

/// Lets a round go on at a step, holding nothing.
pub(crate) fn go_to(alloc: Global, round: &mut Round, step: Step)
    ensures { round_of round.new ≡ starting (step_of step) (round_of round.old) }
{
    round.step = step;
    round.asked = Numbers::new(alloc);
    round.got = Records::new(alloc);
    round.dropped = Numbers::new(alloc);
    round.results = Numbers::new(alloc);
}

// ---- states

/// Returns whether a state is the one that is known, if any is.
pub(crate) fn agrees(state: Option<u64>, shown: u64) -> bool
    ensures { result ≡ agrees state shown }
{
    match state {
        Some(had) => had == shown,
        None => true,
    }
}

/// Returns the texts of the state that a round has and of the one that a reply showed.
pub(crate) fn make_states(alloc: Global, had: u64, shown: u64) -> Result<MovedStates, NoMemory>
    ensures { IfOk result (λ s. s ≡ states_of had shown) }
{
    Ok(MovedStates {
        had: state_text(alloc, had)?,
        shown: state_text(alloc, shown)?,
    })
}

/// Counts a reply as moved, up to the greatest count.
pub(crate) fn count_moved(round: &mut Round)
    ensures { round_of round.new ≡ count_moved (round_of round.old) }
{
    round.moved = round.moved.min(MAX_MOVED_REPLIES - 1) + 1;
}

/// Lets a round go on at a step, holding nothing, and counts the reply as moved, which showed
/// another state than the round had. Returns the texts of both.
pub(crate) fn move_to(
    alloc: Global,
    round: &mut Round,
    step: Step,
    had: u64,
    shown: u64,
) -> Result<Option<MovedStates>, NoMemory>
    ensures ok { OnOk result (round_of round.new
        ≡ count_moved (starting (step_of step) (round_of round.old))) }
    ensures states { IfOk result (λ m. m ≡ Some (states_of had shown)) }
    ensures err { OnErr result (round_of round.new ≡ round_of round.old) }
{
    let moved = make_states(alloc, had, shown)?;
    go_to(alloc, round, step);
    count_moved(round);
    Ok(Some(moved))
}
