// A kind that is brought up to date: the replies to its changes, and to gets of what they name (RFC
// 8620, sections 5.1 and 5.2).
ghost use Rattle.std.specs.Prelude.{◌≡◌, ◌≤◌, ◌+◌, ℕ, [], ◌++◌, IfOk, OnOk, OnErr, None, length, vec_capacity};
ghost use Rattle.std.specs.List.Sorted.{IsStrictlyIncreasing};
ghost use Rattle.jm_base.specs.Splices.{has, without};
ghost use Rattle.reply_readers.specs.Objects.{objects_of};
ghost use Rattle.client_cache.specs.Caches.{Cached, kind_of};
ghost use Rattle.client_cache.specs.Plans.{with_get_plan, with_page_plan};
ghost use Rattle.client_cache.specs.Progress.{IsSame, after_changed, after_changes, after_page, by_changed, by_page, leave_kind, move_to, progress_with, with_changes};
ghost use Rattle.client_cache.specs.Records.{in_order};
ghost use Rattle.client_cache.specs.RoundViews.{round_of};
ghost use Rattle.client_cache.specs.Rounds.{at_changes};

use crate::cache::Cache;
use crate::creation::build_nothing;
use crate::gets::{GetPlan, apply_get, plan_get};
use crate::kind_steps::{count_moved, go_to, lend_kind, make_states, replace_kind, step_after};
use crate::kinds::{CachedKind, Records};
use crate::numbers::{copy_in_order, join, remove_numbers, sort};
use crate::reply_fault::MovedStates;
use crate::rounds::{Round, Step};
use jm_base::{Kind, NoMemory, Numbers};
use jm_json::Member;
use reply_readers::{ReadObjects, ReadPage};
use std::alloc::Global;
use std::mem;

/// What a page of changes makes of a round: the numbers that it asks for and drops, and those of
/// which it keeps no records, in ascending order.
#[derive(Drop)]
pub(crate) struct PagePlan {
    pub asked: Numbers,
    pub dropped: Numbers,
    pub named: Vec<u64>,
}

// ---- the end of a kind's changes

/// Lets a round go on with what follows a kind.
pub(crate) fn leave(alloc: Global, cache: &Cache, round: &mut Round, kind: Kind)
    ensures { progress_with cache.now (round_of round.new) None
        ≡ leave_kind kind cache.now (round_of round.old) }
{
    go_to(alloc, round, step_after(kind, cache));
}

// Keeps the records that a round got in place of those that it drops, as the records of a kind at a
// state. There is room for them.
fn finish_changes(
    alloc: Global,
    cache: &mut Cache,
    round: &mut Round,
    kind: Kind,
    state: u64,
    room: Vec<Member>,
    dropped: &[u64],
)
    requires empty { room.items ≡ [] }
    requires room { length (kind_of kind cache.old).records + length (round_of round.old).got
        ≤ vec_capacity room }
    requires rise { IsStrictlyIncreasing dropped.now }
    requires same { (n : ℕ) → has dropped.now n ≡ has (round_of round.old).dropped n }
    ensures { progress_with cache.new (round_of round.new) None
        ≡ leave_kind kind (with_changes kind state cache.old (round_of round.old))
        (round_of round.old) }
{
    let CachedKind { records, .. } = replace_kind(cache, kind, build_nothing(alloc));
    let mut older = records;
    older.remove(kind, dropped);
    let newer = mem::replace(&mut round.got, Records::new(alloc));
    let kept = CachedKind {
        records: Records::merge(room, older, newer),
        state: Some(state),
    };
    drop(replace_kind(cache, kind, kept));
    leave(alloc, cache, round, kind);
}

// ---- a page of changes

fn collect_asked(alloc: Global, asked: &[u64], page: &ReadPage) -> Result<Numbers, NoMemory>
    ensures { IfOk result (λ ns. ns ≡ in_order
        (without (asked.now ++ (page.now.created ++ page.now.updated)) page.now.destroyed)) }
{
    let named = join(alloc, page.created.as_slice(), page.updated.as_slice())?;
    let mut all = join(alloc, asked, named.as_slice())?;
    remove_numbers(alloc, &mut all, page.destroyed.as_slice())?;
    sort(&mut all);
    Ok(Numbers::from_vec(all))
}

fn collect_dropped(alloc: Global, dropped: &[u64], page: &ReadPage) -> Result<Numbers, NoMemory>
    ensures { IfOk result (λ ns. ns ≡ without dropped.now (page.now.created ++ page.now.updated)
        ++ page.now.destroyed) }
{
    let named = join(alloc, page.created.as_slice(), page.updated.as_slice())?;
    let mut all = Vec::from_slice(alloc, dropped)?;
    remove_numbers(alloc, &mut all, named.as_slice())?;
    all.extend_from_slice(page.destroyed.as_slice())?;
    Ok(Numbers::from_vec(all))
}

fn collect_named(alloc: Global, page: &ReadPage) -> Result<Vec<u64>, NoMemory>
    ensures rise { IfOk result (λ v. IsStrictlyIncreasing v.items) }
    ensures same { IfOk result (λ v. (n : ℕ) → has v.items n
        ≡ has (page.now.created ++ (page.now.updated ++ page.now.destroyed)) n) }
{
    let gone = join(alloc, page.updated.as_slice(), page.destroyed.as_slice())?;
    let named = join(alloc, page.created.as_slice(), gone.as_slice())?;
    copy_in_order(alloc, named.as_slice())
}

fn plan_page(
    alloc: Global,
    round: &Round,
    kind: Kind,
    page: &ReadPage,
) -> Result<PagePlan, NoMemory>
    ensures plan { IfOk result (λ plan. with_page_plan kind plan (round_of round.now)
        ≡ after_page kind page.now (round_of round.now)) }
    ensures rise { IfOk result (λ plan. IsStrictlyIncreasing plan.named.items) }
{
    let _kind = kind;
    let asked = collect_asked(alloc, round.asked.as_slice(), page)?;
    let dropped = collect_dropped(alloc, round.dropped.as_slice(), page)?;
    let named = collect_named(alloc, page)?;
    Ok(PagePlan {
        asked,
        dropped,
        named,
    })
}

fn apply_page(round: &mut Round, kind: Kind, plan: PagePlan)
    requires { IsStrictlyIncreasing plan.named.items }
    ensures { round_of round.new ≡ with_page_plan kind plan (round_of round.old) }
{
    let PagePlan {
        asked,
        dropped,
        named,
    } = plan;
    round.got.remove(kind, named.as_slice());
    round.asked = asked;
    round.dropped = dropped;
}

fn finish_page(
    alloc: Global,
    cache: &mut Cache,
    round: &mut Round,
    kind: Kind,
    state: u64,
    plan: PagePlan,
) -> Result<(), NoMemory>
    requires rise { IsStrictlyIncreasing plan.named.items }
    ensures ok { OnOk result (progress_with cache.new (round_of round.new) None
        ≡ leave_kind kind
        (with_changes kind state cache.old (with_page_plan kind plan (round_of round.old)))
        (with_page_plan kind plan (round_of round.old))) }
    ensures err { OnErr result
        (IsSame cache.old (round_of round.old) cache.new (round_of round.new)) }
{
    let dropped = copy_in_order(alloc, plan.dropped.as_slice())?;
    let room = Records::make_room(alloc, &lend_kind(cache, kind).records, &round.got)?;
    apply_page(round, kind, plan);
    finish_changes(alloc, cache, round, kind, state, room, dropped.as_slice());
    Ok(())
}

fn go_on_with_page(
    alloc: Global,
    cache: &mut Cache,
    round: &mut Round,
    kind: Kind,
    page: &ReadPage,
    plan: PagePlan,
) -> Result<(), NoMemory>
    requires rise { IsStrictlyIncreasing plan.named.items }
    ensures ok { OnOk result (progress_with cache.new (round_of round.new) None
        ≡ after_changes kind page.now.more page.now.new_state cache.old
        (with_page_plan kind plan (round_of round.old))) }
    ensures err { OnErr result
        (IsSame cache.old (round_of round.old) cache.new (round_of round.new)) }
{
    if page.more {
        apply_page(round, kind, plan);
        round.step = Step::Changes(kind, page.new_state);
        return Ok(());
    }
    if plan.asked.is_empty() {
        return finish_page(alloc, cache, round, kind, page.new_state, plan);
    }
    apply_page(round, kind, plan);
    round.step = Step::Changed(kind, page.new_state);
    Ok(())
}

/// Takes a page of the changes of a kind. If an allocation fails, the cache and the round are
/// unchanged.
pub(crate) fn take_page(
    alloc: Global,
    cache: &mut Cache,
    round: &mut Round,
    kind: Kind,
    page: &ReadPage,
) -> Result<Option<MovedStates>, NoMemory>
    ensures ok { IfOk result (λ m. progress_with cache.new (round_of round.new) m
        ≡ by_page cache.old (round_of round.old) kind page.now) }
    ensures err { OnErr result
        (IsSame cache.old (round_of round.old) cache.new (round_of round.new)) }
{
    let plan = plan_page(alloc, round, kind, page)?;
    go_on_with_page(alloc, cache, round, kind, page, plan)?;
    Ok(None)
}

// ---- a get of what changed

fn finish_get(
    alloc: Global,
    cache: &mut Cache,
    round: &mut Round,
    kind: Kind,
    state: u64,
    plan: GetPlan,
) -> Result<(), NoMemory>
    requires empty { plan.room.items ≡ [] }
    requires room { length (round_of round.old).got + length plan.objects ≤ vec_capacity plan.room }
    ensures ok { OnOk result (progress_with cache.new (round_of round.new) None
        ≡ leave_kind kind
        (with_changes kind state cache.old (with_get_plan plan (round_of round.old)))
        (with_get_plan plan (round_of round.old))) }
    ensures err { OnErr result
        (IsSame cache.old (round_of round.old) cache.new (round_of round.new)) }
{
    let dropped = copy_in_order(alloc, plan.dropped.as_slice())?;
    let records = &lend_kind(cache, kind).records;
    let room = Records::make_room_for_three(alloc, records, &round.got, &plan.objects)?;
    apply_get(alloc, round, plan);
    finish_changes(alloc, cache, round, kind, state, room, dropped.as_slice());
    Ok(())
}

fn go_on_with_get(
    alloc: Global,
    cache: &mut Cache,
    round: &mut Round,
    kind: Kind,
    state: u64,
    plan: GetPlan,
) -> Result<(), NoMemory>
    requires empty { plan.room.items ≡ [] }
    requires room { length (round_of round.old).got + length plan.objects ≤ vec_capacity plan.room }
    ensures ok { OnOk result (progress_with cache.new (round_of round.new) None
        ≡ after_changed kind state cache.old (with_get_plan plan (round_of round.old))) }
    ensures err { OnErr result
        (IsSame cache.old (round_of round.old) cache.new (round_of round.new)) }
{
    if plan.asked.is_empty() {
        return finish_get(alloc, cache, round, kind, state, plan);
    }
    apply_get(alloc, round, plan);
    round.step = Step::Changed(kind, state);
    Ok(())
}

fn take_moved_get(
    alloc: Global,
    round: &mut Round,
    kind: Kind,
    state: u64,
    shown: u64,
) -> Result<Option<MovedStates>, NoMemory>
    ensures ok { (c : Cached) → IfOk result (λ m. progress_with c (round_of round.new) m
        ≡ move_to state shown c (record (round_of round.old) { step = at_changes kind state })) }
    ensures err { OnErr result (round_of round.new ≡ round_of round.old) }
{
    let moved = make_states(alloc, state, shown)?;
    round.step = Step::Changes(kind, state);
    count_moved(round);
    Ok(Some(moved))
}

/// Takes the objects of records that changed, if they show the state up to which they changed. If
/// an allocation fails, the cache and the round are unchanged.
pub(crate) fn take_changed(
    alloc: Global,
    cache: &mut Cache,
    round: &mut Round,
    kind: Kind,
    state: u64,
    objects: ReadObjects,
) -> Result<Option<MovedStates>, NoMemory>
    ensures ok { IfOk result (λ m. progress_with cache.new (round_of round.new) m
        ≡ by_changed cache.old (round_of round.old) kind state (objects_of objects)) }
    ensures err { OnErr result
        (IsSame cache.old (round_of round.old) cache.new (round_of round.new)) }
{
    if state != objects.state {
        return take_moved_get(alloc, round, kind, state, objects.state);
    }
    let plan = plan_get(alloc, round, kind, objects)?;
    go_on_with_get(alloc, cache, round, kind, state, plan)?;
    Ok(None)
}
