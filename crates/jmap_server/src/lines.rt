// Lines are served, each by a worker.
ghost use Rattle.std.specs.Prelude.{◌≡◌, ◌+◌, ◌-◌, ◌<◌, ◌≤◌, [], List, length, map, vec_capacity, vec_len};
ghost use Rattle.std.specs.List.{AllByRecursion};
ghost use Rattle.account_hall.specs.Halls.{AreOf};
ghost use Rattle.jm_base.specs.declared.limits.TheConstants.{MAX_SESSIONS as TheMaxSessions};
ghost use Rattle.account_lock.specs.declared.limits.TheConstants.{MAX_NAMES as TheMaxNames};
ghost use Rattle.jm_edge.specs.Causes.{IsCounted};
ghost use Rattle.jmap_server.specs.Deeds.{Deed, IsTold};
ghost use Rattle.account_hall.specs.Sessions.{SessionView};
ghost use Rattle.account_hall.specs.Closing.{FrontGoes, opened_by};
ghost use Rattle.jmap_server.specs.Lines.{Goes, HasServedLines, HasTakenNext, HaveGone, sight_of};
ghost use Rattle.jmap_server.specs.Workers.{IsHandedOver, IsWorker, taken_by};

use crate::ends::Ends;
use crate::finished::Finished;
use crate::served_line::{leave_unread, let_out};
use crate::worker::{LineWorker, Worker, free_bit, join_worker, next_to_join, start_worker};
use crate::world::World;
use account_book::Rules;
use account_hall::{Front, Hall, Passes};
use jm_base::MAX_SESSIONS;
use jm_edge::{Clock, EdgeFault, Gate, Link};
use keep_port::Keeper;
use server_users::Users;
use std::alloc::Global;
use std::sync::Wait;
use std::thread::{Scope, Threads, scope, scope_env};

// Lets a worker serve a line by a session. If no thread can be made, it is served here, and
// returned.
fn hand_over<
    's,
    E: 's,
    H: Wait + Sync,
    K: Keeper,
    R: Rules,
    L: Link + 's,
    C: Clock + 's,
    G: Gate + 's,
>(
    scope: &Scope<'s, E>,
    rt: &'s H,
    alloc: Global,
    users: &'s Users,
    hall: &'s Hall<K, R>,
    ends: &'s Ends,
    front: &mut Front,
    workers: &mut Vec<LineWorker<K, R, L, C>>,
    passes: Passes,
    line: L,
    clock: C,
    gate: G,
) -> Option<Finished<L>>
    requires front { AreOf hall.now front.old.roots }
    requires hall { AreOf hall.now passes.passes }
    requires fresh { passes.trail ≡ [] }
    requires openings { map opened_by passes.passes ≡ map opened_by front.old.roots }
    requires accounts { length users.now.account_ids ≤ length hall.now }
    requires room { vec_len workers.old < vec_capacity workers.old }
    requires inside { front.old.inside ≡ vec_len workers.old + 1 }
    ensures handed { (left : List SessionView) × IsHandedOver (sight_of L.left L.held L.read_faults
        L.put_faults C.times K.kept K.append_faults) R.plan_of hall.now users.now (map opened_by
        front.old.roots) line clock workers.old.items workers.new.items left result
        × FrontGoes front.old.roots front.new.roots left }
    ensures capacity { vec_capacity workers.new ≡ vec_capacity workers.old }
    ensures front { AreOf hall.now front.new.roots }
    ensures openings { map opened_by front.new.roots ≡ map opened_by front.old.roots }
    ensures inside { front.new.inside ≡ vec_len workers.new }
    ensures admitted { front.new.admitted ≡ front.old.admitted }
{
    let bit = free_bit(workers);
    match start_worker(
        scope, rt, alloc, users, hall, ends, bit, passes, line, clock, gate,
    ) {
        Ok(handle) => {
            workers.push_reserved(Worker { bit, handle });
            None
        }
        Err(done) => Some(let_out(hall, front, done)),
    }
}

// Lets a session in, and a worker serve a line by it. The line is returned if it is back already.
fn serve_line<
    's,
    E: 's,
    H: Wait + Sync,
    K: Keeper,
    R: Rules,
    L: Link + 's,
    C: Clock + 's,
    G: Gate + 's,
>(
    scope: &Scope<'s, E>,
    rt: &'s H,
    alloc: Global,
    users: &'s Users,
    hall: &'s Hall<K, R>,
    ends: &'s Ends,
    front: &mut Front,
    workers: &mut Vec<LineWorker<K, R, L, C>>,
    line: L,
    clock: C,
    gate: G,
) -> Option<Finished<L>>
    requires front { AreOf hall.now front.old.roots }
    requires accounts { length users.now.account_ids ≤ length hall.now }
    requires room { vec_len workers.old < vec_capacity workers.old }
    requires inside { front.old.inside ≡ vec_len workers.old }
    requires names { front.old.admitted < TheMaxNames }
    ensures handed { (left : List SessionView) × IsHandedOver (sight_of L.left L.held L.read_faults
        L.put_faults C.times K.kept K.append_faults) R.plan_of hall.now users.now (map opened_by
        front.old.roots) line clock workers.old.items workers.new.items left result
        × FrontGoes front.old.roots front.new.roots left }
    ensures capacity { vec_capacity workers.new ≡ vec_capacity workers.old }
    ensures front { AreOf hall.now front.new.roots }
    ensures openings { map opened_by front.new.roots ≡ map opened_by front.old.roots }
    ensures inside { front.new.inside ≡ vec_len workers.new }
    ensures admitted { front.new.admitted ≤ front.old.admitted + 1 }
{
    match front.admit(alloc, hall) {
        Ok(passes) => hand_over(
            scope, rt, alloc, users, hall, ends, front, workers, passes, line, clock, gate,
        ),
        Err(_) => Some(leave_unread(alloc, line)),
    }
}

// Takes the next line from the world, and lets a worker serve it. If it is back already, it is
// given back to the world.
fn take_line<'s, E: 's, H: Wait + Sync, W: World, R: Rules>(
    scope: &Scope<'s, E>,
    rt: &'s H,
    alloc: Global,
    world: &mut W,
    users: &'s Users,
    hall: &'s Hall<W::Keep, R>,
    ends: &'s Ends,
    front: &mut Front,
    workers: &mut Vec<LineWorker<W::Keep, R, W::Line, W::Time>>,
) -> Result<(), EdgeFault>
where
    W::Line: 's,
    W::Time: 's,
    W::Hold: 's,
    requires front { AreOf hall.now front.old.roots }
    requires accounts { length users.now.account_ids ≤ length hall.now }
    requires room { vec_len workers.old < vec_capacity workers.old }
    requires few { vec_len workers.old < TheMaxSessions }
    requires inside { front.old.inside ≡ vec_len workers.old }
    requires names { front.old.admitted < TheMaxNames }
    requires workers { AllByRecursion (IsWorker hall.now users.now (map opened_by
        front.old.roots)) workers.old.items }
    ensures told { (did : List (Deed W.Keep W.Line W.Time)) × (left : List SessionView)
        × FrontGoes front.old.roots front.new.roots left × IsTold (W.told world.old)
        (W.told world.new) did × HasTakenNext (sight_of W.Line.left W.Line.held
        W.Line.read_faults W.Line.put_faults W.Time.times W.Keep.kept W.Keep.append_faults)
        R.plan_of hall.now users.now (map taken_by workers.old.items) (map taken_by
        workers.new.items) left did result }
    ensures cause { IsCounted (W.faults world.old) (W.faults world.new) result }
    ensures later { W.faults world.old ≤ W.faults world.new }
    ensures load_count { W.load_faults world.new ≡ W.load_faults world.old }
    ensures workers { AllByRecursion (IsWorker hall.now users.now (map opened_by
        front.old.roots)) workers.new.items }
    ensures capacity { vec_capacity workers.new ≡ vec_capacity workers.old }
    ensures front { AreOf hall.now front.new.roots }
    ensures openings { map opened_by front.new.roots ≡ map opened_by front.old.roots }
    ensures inside { front.new.inside ≡ vec_len workers.new }
    ensures admitted { front.new.admitted ≤ front.old.admitted + 1 }
{
    match world.line(alloc) {
        Ok(line) => {
            let clock = world.clock();
            let gate = world.gate();
            match serve_line(
                scope, rt, alloc, users, hall, ends, front, workers, line, clock, gate,
            ) {
                Some(finished) => {
                    world.return_line(finished);
                    Ok(())
                }
                None => Ok(()),
            }
        }
        Err(fault) => Err(fault),
    }
}

// Waits for the line that a worker serves, and gives it back to the world once its session has
// left.
fn return_one<H: Threads, W: World, R: Rules>(
    rt: &H,
    world: &mut W,
    users: &Users,
    hall: &Hall<W::Keep, R>,
    ends: &Ends,
    front: &mut Front,
    workers: &mut Vec<LineWorker<W::Keep, R, W::Line, W::Time>>,
    i: usize,
)
    requires place { i < vec_len workers.old }
    requires front { AreOf hall.now front.old.roots }
    requires inside { front.old.inside ≡ vec_len workers.old }
    requires workers { AllByRecursion (IsWorker hall.now users.now (map opened_by
        front.old.roots)) workers.old.items }
    ensures told { (did : List (Deed W.Keep W.Line W.Time)) × (left : List SessionView)
        × FrontGoes front.old.roots front.new.roots left × IsTold (W.told world.old)
        (W.told world.new) did × Goes (sight_of W.Line.left W.Line.held W.Line.read_faults
        W.Line.put_faults W.Time.times W.Keep.kept W.Keep.append_faults) R.plan_of hall.now
        users.now 0 (map taken_by workers.old.items) (map taken_by workers.new.items) left did }
    ensures count { W.faults world.new ≡ W.faults world.old }
    ensures load_count { W.load_faults world.new ≡ W.load_faults world.old }
    ensures workers { AllByRecursion (IsWorker hall.now users.now (map opened_by
        front.old.roots)) workers.new.items }
    ensures len { vec_len workers.new + 1 ≡ vec_len workers.old }
    ensures capacity { vec_capacity workers.new ≡ vec_capacity workers.old }
    ensures front { AreOf hall.now front.new.roots }
    ensures openings { map opened_by front.new.roots ≡ map opened_by front.old.roots }
    ensures inside { front.new.inside ≡ vec_len workers.new }
    ensures admitted { front.new.admitted ≡ front.old.admitted }
{
    let _users = users;
    let done = join_worker(rt, ends, workers, i);
    let finished = let_out(hall, front, done);
    world.return_line(finished);
}

// Gives the lines of workers that have ended back to the world, and waits for others to end while
// more than so many are working.
fn return_lines<H: Threads + Wait, W: World, R: Rules>(
    rt: &H,
    world: &mut W,
    users: &Users,
    hall: &Hall<W::Keep, R>,
    ends: &Ends,
    front: &mut Front,
    workers: &mut Vec<LineWorker<W::Keep, R, W::Line, W::Time>>,
    most: usize,
)
    requires front { AreOf hall.now front.old.roots }
    requires inside { front.old.inside ≡ vec_len workers.old }
    requires workers { AllByRecursion (IsWorker hall.now users.now (map opened_by
        front.old.roots)) workers.old.items }
    ensures few { vec_len workers.new ≤ most }
    ensures told { (did : List (Deed W.Keep W.Line W.Time)) × (left : List SessionView)
        × FrontGoes front.old.roots front.new.roots left × IsTold (W.told world.old)
        (W.told world.new) did × Goes (sight_of W.Line.left W.Line.held W.Line.read_faults
        W.Line.put_faults W.Time.times W.Keep.kept W.Keep.append_faults) R.plan_of hall.now
        users.now 0 (map taken_by workers.old.items) (map taken_by workers.new.items) left did }
    ensures count { W.faults world.new ≡ W.faults world.old }
    ensures load_count { W.load_faults world.new ≡ W.load_faults world.old }
    ensures workers { AllByRecursion (IsWorker hall.now users.now (map opened_by
        front.old.roots)) workers.new.items }
    ensures capacity { vec_capacity workers.new ≡ vec_capacity workers.old }
    ensures front { AreOf hall.now front.new.roots }
    ensures openings { map opened_by front.new.roots ≡ map opened_by front.old.roots }
    ensures inside { front.new.inside ≡ vec_len workers.new }
    ensures admitted { front.new.admitted ≡ front.old.admitted }
{
    'worker: while let Some(i) = next_to_join(rt, ends, workers, most) {
        return_one(rt, world, users, hall, ends, front, workers, i);
    }
}

// Takes so many lines of the world, each served by a worker. At most `MAX_SESSIONS` workers work at
// once.
fn take_lines<'s, E: 's, H: Threads + Wait + Sync, W: World, R: Rules>(
    scope: &Scope<'s, E>,
    rt: &'s H,
    alloc: Global,
    world: &mut W,
    users: &'s Users,
    hall: &'s Hall<W::Keep, R>,
    ends: &'s Ends,
    front: &mut Front,
    workers: &mut Vec<LineWorker<W::Keep, R, W::Line, W::Time>>,
    count: u64,
) -> Result<(), EdgeFault>
where
    W::Line: 's,
    W::Time: 's,
    W::Hold: 's,
    requires front { AreOf hall.now front.old.roots }
    requires accounts { length users.now.account_ids ≤ length hall.now }
    requires room { vec_capacity workers.old ≡ TheMaxSessions }
    requires inside { front.old.inside ≡ vec_len workers.old }
    requires names { front.old.admitted + count ≤ TheMaxNames }
    requires workers { AllByRecursion (IsWorker hall.now users.now (map opened_by
        front.old.roots)) workers.old.items }
    ensures told { (did : List (Deed W.Keep W.Line W.Time)) × (left : List SessionView)
        × FrontGoes front.old.roots front.new.roots left × IsTold (W.told world.old)
        (W.told world.new) did × HaveGone (sight_of W.Line.left W.Line.held W.Line.read_faults
        W.Line.put_faults W.Time.times W.Keep.kept W.Keep.append_faults) R.plan_of hall.now
        users.now (map taken_by workers.old.items) (map taken_by workers.new.items) left count did
        result }
    ensures cause { IsCounted (W.faults world.old) (W.faults world.new) result }
    ensures later { W.faults world.old ≤ W.faults world.new }
    ensures load_count { W.load_faults world.new ≡ W.load_faults world.old }
    ensures workers { AllByRecursion (IsWorker hall.now users.now (map opened_by
        front.old.roots)) workers.new.items }
    ensures front { AreOf hall.now front.new.roots }
    ensures openings { map opened_by front.new.roots ≡ map opened_by front.old.roots }
    ensures inside { front.new.inside ≡ vec_len workers.new }
{
    let mut taken = 0u64;
    'line: while taken < count {
        return_lines(rt, world, users, hall, ends, front, workers, 63);
        match take_line(scope, rt, alloc, world, users, hall, ends, front, workers) {
            Ok(()) => {}
            Err(fault) => return Err(fault),
        }
        taken += 1;
    }
    Ok(())
}

// Serves so many lines of the world in a scope, and waits for all that were taken.
fn serve_scoped<'s, E: 's, H: Threads + Wait + Sync, W: World, R: Rules>(
    scope: &Scope<'s, E>,
    rt: &'s H,
    alloc: Global,
    world: &mut W,
    users: &'s Users,
    hall: &'s Hall<W::Keep, R>,
    ends: &'s Ends,
    front: &mut Front,
    count: u64,
) -> Result<(), EdgeFault>
where
    W::Line: 's,
    W::Time: 's,
    W::Hold: 's,
    requires front { AreOf hall.now front.old.roots }
    requires none_in { front.old.inside ≡ 0 }
    requires names { front.old.admitted + count ≤ TheMaxNames }
    requires accounts { length users.now.account_ids ≤ length hall.now }
    ensures told { (did : List (Deed W.Keep W.Line W.Time)) × (left : List SessionView)
        × FrontGoes front.old.roots front.new.roots left × IsTold (W.told world.old)
        (W.told world.new) did × HasServedLines (sight_of W.Line.left W.Line.held
        W.Line.read_faults W.Line.put_faults W.Time.times W.Keep.kept W.Keep.append_faults)
        R.plan_of hall.now users.now left count did result }
    ensures cause { IsCounted (W.faults world.old) (W.faults world.new) result }
    ensures later { W.faults world.old ≤ W.faults world.new }
    ensures load_count { W.load_faults world.new ≡ W.load_faults world.old }
    ensures front { AreOf hall.now front.new.roots }
    ensures openings { map opened_by front.new.roots ≡ map opened_by front.old.roots }
    ensures none_in { front.new.inside ≡ 0 }
{
    if count == 0 {
        return Ok(());
    }
    let Ok(mut workers) = Vec::with_capacity(alloc, MAX_SESSIONS as usize) else {
        return Err(EdgeFault::NoMemory);
    };
    let done = take_lines(
        scope,
        rt,
        alloc,
        world,
        users,
        hall,
        ends,
        front,
        &mut workers,
        count,
    );
    return_lines(rt, world, users, hall, ends, front, &mut workers, 0);
    done
}

// Does nothing. By this use of a reference that was returned, the value that it refers to is known
// to be that with which the reference lent for it ends.
fn take_back<T>(x: &mut T)
    ensures { x.new ≡ x.old }
{}

/// Serves so many lines of the world, each in a thread of its own, or here if none can be made. Up
/// to `MAX_SESSIONS` are served at once.
pub(crate) fn serve_lines<H: Threads + Wait + Sync, W: World, R: Rules>(
    rt: &H,
    alloc: Global,
    world: &mut W,
    users: &Users,
    hall: &Hall<W::Keep, R>,
    front: &mut Front,
    count: u64,
) -> Result<(), EdgeFault>
    requires front { AreOf hall.now front.old.roots }
    requires none_in { front.old.inside ≡ 0 }
    requires names { front.old.admitted + count ≤ TheMaxNames }
    requires accounts { length users.now.account_ids ≤ length hall.now }
    ensures told { (did : List (Deed W.Keep W.Line W.Time)) × (left : List SessionView)
        × FrontGoes front.old.roots front.new.roots left × IsTold (W.told world.old)
        (W.told world.new) did × HasServedLines (sight_of W.Line.left W.Line.held
        W.Line.read_faults W.Line.put_faults W.Time.times W.Keep.kept W.Keep.append_faults)
        R.plan_of hall.now users.now left count did result }
    ensures cause { IsCounted (W.faults world.old) (W.faults world.new) result }
    ensures later { W.faults world.old ≤ W.faults world.new }
    ensures load_count { W.load_faults world.new ≡ W.load_faults world.old }
    ensures front { AreOf hall.now front.new.roots }
    ensures openings { map opened_by front.new.roots ≡ map opened_by front.old.roots }
    ensures none_in { front.new.inside ≡ 0 }
{
    let ends = Ends::new();
    let ends = &ends;
    let (world, front, done) = scope(
        scope_env(),
        rt,
        move |scope| -> (&mut W, &mut Front, Result<(), EdgeFault>)
            requires { AreOf hall.now front.now.roots × (front.now.inside ≡ 0)
                × (front.now.admitted + count ≤ TheMaxNames)
                × (length users.now.account_ids ≤ length hall.now) }
            ensures world { result.0.ghost_name ≡ world.entry.ghost_name }
            ensures front { result.1.ghost_name ≡ front.entry.ghost_name }
            ensures told { (did : List (Deed W.Keep W.Line W.Time)) × (left : List SessionView)
                × FrontGoes front.entry.now.roots result.1.now.roots left × IsTold
                (W.told world.entry.now) (W.told result.0.now) did × HasServedLines
                (sight_of W.Line.left W.Line.held W.Line.read_faults W.Line.put_faults
                W.Time.times W.Keep.kept W.Keep.append_faults) R.plan_of hall.entry.now
                users.entry.now left count did result.2 }
            ensures cause { IsCounted (W.faults world.entry.now) (W.faults result.0.now)
                result.2 }
            ensures later { W.faults world.entry.now ≤ W.faults result.0.now }
            ensures load_count { W.load_faults result.0.now ≡ W.load_faults world.entry.now }
            ensures none_in { AreOf hall.entry.now result.1.now.roots
                × (result.1.now.inside ≡ 0) }
            ensures openings { map opened_by result.1.now.roots
                ≡ map opened_by front.entry.now.roots }
        {
            let done = serve_scoped(scope, rt, alloc, world, users, hall, ends, front, count);
            (world, front, done)
        },
    );
    take_back(world);
    take_back(front);
    done
}
