// Workers, each of which serves a line in a thread of its own.
ghost use Rattle.std.specs.Prelude.{◌≡◌, ◌+◌, ◌≤◌, ◌<◌, [], length, IfErr, IfOk, IfSome, IfNone, vec_capacity, vec_len};
ghost use Rattle.account_hall.specs.Halls.{AreOf};
ghost use Rattle.jmap_server.specs.Lines.{sight_of};
ghost use Rattle.jmap_server.specs.Workers;

use crate::ends::Ends;
use crate::served_line::{ServedLine, serve_by_session};
use account_book::Rules;
use account_hall::{Hall, Passes};
use jm_edge::{Clock, Gate, Link};
use keep_port::Keeper;
use server_users::Users;
use std::alloc::Global;
use std::snapshot::Snapshot;
use std::sync::Wait;
use std::thread::{Promise, PromisedHandle, Scope, Threads};

/// What a worker promises: it serves this line by this clock, for these users, over this hall.
#[derive(Drop)]
pub(crate) struct LinePromise<K: Keeper, R: Rules, L: Drop, C: Drop> {
    pub(crate) hall: Snapshot<Hall<K, R>>,
    pub(crate) users: Snapshot<Users>,
    pub(crate) line: Snapshot<L>,
    pub(crate) clock: Snapshot<C>,
    pub(crate) passes: Snapshot<Passes>,
}

impl<K: Keeper, R: Rules, L: Link, C: Clock> Promise<ServedLine<L>> for LinePromise<K, R, L, C> {
    ghost use Rattle.jmap_server.specs.Lines.{sight_of};
    ghost use Rattle.jmap_server.specs.Workers.{IsServedLine};

    ghost kept_by = { λ p done. IsServedLine (sight_of L.left L.held L.read_faults L.put_faults
        C.times K.kept K.append_faults) R.plan_of p.hall.value p.users.value p.passes.value
        p.line.value p.clock.value done };
}

/// A thread that serves a line, and the bit by which it says that it has ended.
#[derive(Drop)]
pub(crate) struct Worker<L: Drop, P: Promise<ServedLine<L>>> {
    pub(crate) bit: u64,
    pub(crate) handle: PromisedHandle<ServedLine<L>, P>,
}

/// A worker, with what is known of it.
pub(crate) type LineWorker<K, R, L, C> = Worker<L, LinePromise<K, R, L, C>>;

// Serves a line by a session, and then says that the worker with this bit has ended.
fn work<H: Wait, K: Keeper, R: Rules, L: Link, C: Clock, G: Gate>(
    rt: &H,
    alloc: Global,
    users: &Users,
    hall: &Hall<K, R>,
    ends: &Ends,
    bit: u64,
    passes: Passes,
    line: L,
    clock: C,
    gate: G,
) -> ServedLine<L>
    requires hall { AreOf hall.now passes.passes }
    requires fresh { passes.trail ≡ [] }
    requires accounts { length users.now.account_ids ≤ length hall.now }
    ensures { Rattle.jmap_server.specs.Workers.IsServedLine (sight_of L.left L.held L.read_faults
        L.put_faults C.times K.kept K.append_faults) R.plan_of hall.now users.now passes line clock
        result }
{
    let done = serve_by_session(rt, alloc, users, hall, passes, line, clock, gate);
    ends.signal(bit);
    done
}

/// Starts a thread that serves a line by a session. If none can be made, the line is served here,
/// and is returned in the error.
pub(crate) fn start_worker<
    's,
    E: 's,
    H: Wait + Sync,
    K: Keeper,
    R: Rules,
    L: Link + 's,
    C: Clock + 's,
    G: Gate + 's,
>(
    scope: &Scope<'s, E>,
    rt: &'s H,
    alloc: Global,
    users: &'s Users,
    hall: &'s Hall<K, R>,
    ends: &'s Ends,
    bit: u64,
    passes: Passes,
    line: L,
    clock: C,
    gate: G,
) -> Result<PromisedHandle<ServedLine<L>, LinePromise<K, R, L, C>>, ServedLine<L>>
    requires hall { AreOf hall.now passes.passes }
    requires fresh { passes.trail ≡ [] }
    requires accounts { length users.now.account_ids ≤ length hall.now }
    ensures started { IfOk result (λ handle. Rattle.jmap_server.specs.Workers.IsPromiseOf hall.now
        users.now passes line clock handle.promise) }
    ensures served { IfErr result (Rattle.jmap_server.specs.Workers.IsServedLine (sight_of L.left
        L.held L.read_faults L.put_faults C.times K.kept K.append_faults) R.plan_of hall.now
        users.now passes line clock) }
{
    let promise = LinePromise {
        hall: Snapshot::of(hall),
        users: Snapshot::of(users),
        line: Snapshot::of(&line),
        clock: Snapshot::of(&clock),
        passes: Snapshot::of(&passes),
    };
    let serve = move || -> ServedLine<L>
        requires { AreOf hall.now passes.passes × (passes.trail ≡ [])
            × (length users.now.account_ids ≤ length hall.now) }
        ensures { Rattle.jmap_server.specs.Workers.IsServedLine (sight_of L.left L.held
            L.read_faults L.put_faults C.times K.kept K.append_faults) R.plan_of hall.entry.now
            users.entry.now passes line clock result }
    { work(rt, alloc, users, hall, ends, bit, passes, line, clock, gate) };
    match scope.spawn_with(promise, serve) {
        Ok(handle) => Ok(handle),
        Err(refused) => {
            let done = (refused.value)();
            ends.clear(bit);
            Err(done)
        }
    }
}

/// Returns the lowest bit that none of these workers has, if there are fewer than 64.
pub(crate) fn free_bit<L: Drop, P: Promise<ServedLine<L>>>(workers: &Vec<Worker<L, P>>) -> u64 {
    let mut used = 0u64;
    for i in 0..workers.len() {
        used |= workers[i].bit;
    }
    !used & used.wrapping_add(1)
}

// Returns the place of the first of these workers that has ended.
fn find_ended<L: Drop, P: Promise<ServedLine<L>>>(
    ends: &Ends,
    workers: &Vec<Worker<L, P>>,
) -> Option<usize>
    ensures { IfSome result (λ i. i < vec_len workers.now) }
{
    for i in 0..workers.len() {
        if ends.has_ended(workers[i].bit) {
            return Some(i);
        }
    }
    None
}

/// Returns the place of the first of these workers that has ended. If none has, it waits for one
/// while there are more than so many, and else returns none.
pub(crate) fn next_to_join<H: Wait, L: Drop, P: Promise<ServedLine<L>>>(
    rt: &H,
    ends: &Ends,
    workers: &Vec<Worker<L, P>>,
    most: usize,
) -> Option<usize>
    ensures place { IfSome result (λ i. i < vec_len workers.now) }
    ensures few { IfNone result (vec_len workers.now ≤ most) }
{
    for _ in rt.forever() {
        let count = ends.count();
        if let Some(i) = find_ended(ends, workers) {
            return Some(i);
        }
        if workers.len() <= most {
            return None;
        }
        ends.wait(rt, count);
    }
    unreachable!()
}

/// Takes the worker at a place out of the list, and waits for the line that it serves.
pub(crate) fn join_worker<H: Threads, K: Keeper, R: Rules, L: Link, C: Clock>(
    rt: &H,
    ends: &Ends,
    workers: &mut Vec<LineWorker<K, R, L, C>>,
    i: usize,
) -> ServedLine<L>
    requires { i < vec_len workers.old }
    ensures joined { Rattle.jmap_server.specs.Workers.IsJoined (sight_of L.left L.held L.read_faults
        L.put_faults C.times K.kept K.append_faults) R.plan_of workers.old.items workers.new.items
        result }
    ensures len { vec_len workers.new + 1 ≡ vec_len workers.old }
    ensures capacity { vec_capacity workers.new ≡ vec_capacity workers.old }
{
    let Worker { bit, handle } = workers.remove(i);
    let done = handle.join(rt);
    ends.clear(bit);
    done
}
