// Four sessions that use one account at one time, and the history that they leave.
ghost use Rattle.std.specs.Prelude.{◌≡◌, ◌+◌, ◌-◌, ◌<◌, length};
ghost use Rattle.account_hall.specs.Halls.{AreOf};

use crate::adding::{Adding, added_number, adding_call};
use crate::opening::{enter, in_memory, one_account, started, stop, sure};
use account_book::{Book, Entry, Out, Point, Rules};
use account_hall::{Front, Hall, Passes, Trail};
use keep_port::Keeper;
use std::alloc::Global;
use std::process::Abort;
use std::sync::Wait;
use std::thread::{Threads, join};

// How many calls each session makes.
const CALLS: u64 = 50;

// Ends the test unless the last point gained an entry, and the call was answered with the number of
// the mailbox that it added: that of the entry, counted from 1.
fn expect_added<A: Abort>(rt: &A, out: &Out, trail: &[Point]) {
    let Some(point) = trail.last() else {
        stop(rt);
    };
    assert_eq!(rt; point.after, point.before.saturating_add(1));
    assert_eq!(rt; added_number(out), point.after);
}

// Makes the calls of a session on the account 0.
fn work<A: Abort + Wait, K: Keeper, R: Rules>(
    rt: &A,
    alloc: Global,
    hall: &Hall<K, R>,
    passes: Passes,
) -> Passes
    requires hall { AreOf hall.now passes.passes }
    requires account { 0 < length hall.now }
    ensures { AreOf hall.now result.passes }
{
    let mut passes = passes;
    let call = sure(rt, adding_call(alloc));
    for moment in 0..CALLS {
        let out = sure(rt, hall.call(rt, alloc, &mut passes, 0, &call, moment));
        expect_added(rt, &out, passes.trail());
    }
    passes
}

// Two sessions make their calls at one time.
fn two_at_once<A: Abort + Threads + Wait + Sync, K: Keeper, R: Rules>(
    rt: &A,
    alloc: Global,
    hall: &Hall<K, R>,
    two: (Passes, Passes),
) -> (Passes, Passes)
    requires halls { AreOf hall.now two.0.passes × AreOf hall.now two.1.passes }
    requires account { 0 < length hall.now }
    ensures { AreOf hall.now result.0.passes × AreOf hall.now result.1.passes }
{
    let (first, second) = two;
    join(
        rt,
        || -> Passes
            requires { AreOf hall.now first.passes × (0 < length hall.now) }
            ensures { AreOf hall.entry.now result.passes }
        { work(rt, alloc, hall, first) },
        || -> Passes
            requires { AreOf hall.now second.passes × (0 < length hall.now) }
            ensures { AreOf hall.entry.now result.passes }
        { work(rt, alloc, hall, second) },
    )
}

// Four sessions make their calls at one time.
fn four_at_once<A: Abort + Threads + Wait + Sync, K: Keeper, R: Rules>(
    rt: &A,
    alloc: Global,
    hall: &Hall<K, R>,
    low: (Passes, Passes),
    high: (Passes, Passes),
) -> ((Passes, Passes), (Passes, Passes))
    requires low { AreOf hall.now low.0.passes × AreOf hall.now low.1.passes }
    requires high { AreOf hall.now high.0.passes × AreOf hall.now high.1.passes }
    requires account { 0 < length hall.now }
    ensures low { AreOf hall.now result.0.0.passes × AreOf hall.now result.0.1.passes }
    ensures high { AreOf hall.now result.1.0.passes × AreOf hall.now result.1.1.passes }
{
    join(
        rt,
        || -> (Passes, Passes)
            requires { AreOf hall.now low.0.passes × AreOf hall.now low.1.passes
                × (0 < length hall.now) }
            ensures { AreOf hall.entry.now result.0.passes × AreOf hall.entry.now result.1.passes }
        { two_at_once(rt, alloc, hall, low) },
        || -> (Passes, Passes)
            requires { AreOf hall.now high.0.passes × AreOf hall.now high.1.passes
                × (0 < length hall.now) }
            ensures { AreOf hall.entry.now result.0.passes × AreOf hall.entry.now result.1.passes }
        { two_at_once(rt, alloc, hall, high) },
    )
}

// Lets two sessions in.
fn enter_two<A: Abort, K: Keeper, R: Rules>(
    rt: &A,
    alloc: Global,
    hall: &Hall<K, R>,
    front: &mut Front,
) -> (Passes, Passes)
    requires hall { AreOf hall.now front.old.roots }
    requires few { front.old.admitted < 90 }
    ensures hall { AreOf hall.now front.new.roots }
    ensures sessions { AreOf hall.now result.0.passes × AreOf hall.now result.1.passes }
    ensures inside { front.new.inside ≡ front.old.inside + 2 }
    ensures admitted { front.new.admitted ≡ front.old.admitted + 2 }
{
    let first = enter(rt, alloc, hall, front);
    let second = enter(rt, alloc, hall, front);
    (first, second)
}

// Lets two sessions out, and returns their trails.
fn leave_two<K: Keeper, R: Rules>(
    hall: &Hall<K, R>,
    front: &mut Front,
    two: (Passes, Passes),
) -> (Trail, Trail)
    requires hall { AreOf hall.now front.old.roots }
    requires sessions { AreOf hall.now two.0.passes × AreOf hall.now two.1.passes }
    ensures hall { AreOf hall.now front.new.roots }
    ensures inside { front.new.inside ≡ front.old.inside - 2 }
{
    let (first, second) = two;
    let one = front.leave(hall, first);
    let other = front.leave(hall, second);
    (one, other)
}

// Four sessions come in, make their calls at one time, and leave. Returns their trails.
fn four_sessions<A: Abort + Threads + Wait + Sync, K: Keeper, R: Rules>(
    rt: &A,
    alloc: Global,
    hall: &Hall<K, R>,
    front: &mut Front,
) -> [Trail; 4]
    requires hall { AreOf hall.now front.old.roots }
    requires account { 0 < length hall.now }
    requires inside { (front.old.inside ≡ 0) × (front.old.admitted ≡ 0) }
    ensures hall { AreOf hall.now front.new.roots }
    ensures inside { front.new.inside ≡ 0 }
{
    let low = enter_two(rt, alloc, hall, front);
    let high = enter_two(rt, alloc, hall, front);
    let (low, high) = four_at_once(rt, alloc, hall, low, high);
    let (a, b) = leave_two(hall, front, low);
    let (c, d) = leave_two(hall, front, high);
    [a, b, c, d]
}

// Ends the test unless each point of a trail ends with the entry of this pass that has the point's
// number as serial, and there are as many points as calls.
fn expect_made<A: Abort>(rt: &A, entries: &[Entry], pass: u64, trail: &Trail) {
    let mut serial = 0u64;
    for point in trail.as_slice() {
        serial = serial.saturating_add(1);
        let Some(entry) = entries.get(point.before as usize) else {
            stop(rt);
        };
        assert_eq!(rt; entry.stamp.pass, pass);
        assert_eq!(rt; entry.stamp.serial, serial);
        assert!(rt; !entry.refused);
    }
    assert_eq!(rt; serial, CALLS);
}

// Ends the test unless the entries are those that the sessions made, which were admitted in this
// order.
fn expect_history<A: Abort, K: Keeper, R: Rules>(rt: &A, book: &Book<K, R>, trails: &[Trail; 4]) {
    let entries = book.account().entries();
    assert_eq!(rt; entries.len(), 200);
    let mut pass = 0u64;
    for trail in trails {
        pass = pass.saturating_add(1);
        expect_made(rt, entries, pass, trail);
    }
}

// Takes the account out of the hall, and ends the test unless its history is that of the sessions,
// also once it is opened again by these rules.
fn expect_parted<A: Abort, K: Keeper, R: Rules>(
    rt: &A,
    alloc: Global,
    hall: &mut Hall<K, R>,
    front: &mut Front,
    rules: R,
    trails: &[Trail; 4],
)
    requires hall { AreOf hall.old front.old.roots }
    requires none_in { front.old.inside ≡ 0 }
{
    let Some(account) = hall.part(front) else {
        stop(rt);
    };
    expect_history(rt, &account.book, trails);
    let keeper = account.book.end();
    let again = started(rt, alloc, keeper, rules);
    expect_history(rt, &again, trails);
}

#[test]
fn four_sessions_at_one_time_leave_one_history(rt: HostRuntime) {
    let alloc = rt.alloc();
    let (mut hall, mut front) = one_account(&rt, alloc, in_memory(alloc));
    let trails = four_sessions(&rt, alloc, &hall, &mut front);
    expect_parted(&rt, alloc, &mut hall, &mut front, Adding, &trails);
}
