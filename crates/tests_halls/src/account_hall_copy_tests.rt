// Copies between two accounts, in both directions at one time.
ghost use Rattle.std.specs.Prelude.{◌≡◌, ◌≢◌, ◌+◌, ◌<◌, length};
ghost use Rattle.account_hall.specs.Halls.{AreOf};

use crate::adding::invocation;
use crate::copying::SameCall;
use crate::opening::{enter, in_memory, stop, sure, two_accounts};
use account_book::{Entry, Point, Rules};
use account_hall::{CopyCall, Front, Hall, Passes, Trail};
use jm_json::Made;
use keep_port::Keeper;
use std::alloc::Global;
use std::process::Abort;
use std::sync::Wait;
use std::thread::{Threads, join};

// How many copies each session makes.
const COPIES: u64 = 200;

// Ends the test unless a point is of this account, and gained as many entries.
fn expect_point<A: Abort>(rt: &A, point: &Point, account: u64, gained: u64) {
    assert_eq!(rt; point.account, account);
    assert_eq!(rt; point.after, point.before.saturating_add(gained));
}

// Ends the test unless the last three points of a trail are those of a copy, and the last one
// begins where the first one ended.
fn expect_copied<A: Abort>(rt: &A, trail: &[Point], from: u64, to: u64) {
    let first = trail.len().saturating_sub(3);
    let (Some(fetch), Some(place), Some(set)) = (
        trail.get(first),
        trail.get(first.saturating_add(1)),
        trail.get(first.saturating_add(2)),
    ) else {
        stop(rt);
    };
    expect_point(rt, fetch, from, 0);
    expect_point(rt, place, to, 1);
    expect_point(rt, set, from, 1);
    assert_eq!(rt; set.before, fetch.after);
}

// Makes the copies of a session.
fn copy_often<A: Abort + Wait, K: Keeper, R: Rules>(
    rt: &A,
    alloc: Global,
    hall: &Hall<K, R>,
    passes: Passes,
    from: u64,
    to: u64,
) -> Passes
    requires hall { AreOf hall.now passes.passes }
    requires from { from < length hall.now }
    requires to { to < length hall.now }
    requires apart { from ≢ to }
    ensures { AreOf hall.now result.passes }
{
    let mut passes = passes;
    for moment in 0..COPIES {
        let copy = CopyCall {
            from,
            to,
            from_read_only: false,
            call: sure(rt, invocation(alloc)),
            made: Made::new(alloc),
        };
        let _out = sure(
            rt,
            hall.copy(rt, alloc, &mut passes, &SameCall, copy, moment),
        );
        expect_copied(rt, passes.trail(), from, to);
    }
    passes
}

// Two sessions make their copies at one time, each in its direction.
fn both_ways<A: Abort + Threads + Wait + Sync, K: Keeper, R: Rules>(
    rt: &A,
    alloc: Global,
    hall: &Hall<K, R>,
    first: Passes,
    second: Passes,
) -> (Passes, Passes)
    requires halls { AreOf hall.now first.passes × AreOf hall.now second.passes }
    requires accounts { 1 < length hall.now }
    ensures { AreOf hall.now result.0.passes × AreOf hall.now result.1.passes }
{
    join(
        rt,
        || -> Passes
            requires { AreOf hall.now first.passes × (1 < length hall.now) }
            ensures { AreOf hall.entry.now result.passes }
        { copy_often(rt, alloc, hall, first, 0, 1) },
        || -> Passes
            requires { AreOf hall.now second.passes × (1 < length hall.now) }
            ensures { AreOf hall.entry.now result.passes }
        { copy_often(rt, alloc, hall, second, 1, 0) },
    )
}

// Two sessions come in, make their copies at one time, and leave. Returns their trails.
fn two_sessions<A: Abort + Threads + Wait + Sync, K: Keeper, R: Rules>(
    rt: &A,
    alloc: Global,
    hall: &Hall<K, R>,
    front: &mut Front,
) -> [Trail; 2]
    requires hall { AreOf hall.now front.old.roots }
    requires accounts { 1 < length hall.now }
    requires inside { (front.old.inside ≡ 0) × (front.old.admitted ≡ 0) }
    ensures hall { AreOf hall.now front.new.roots }
    ensures inside { front.new.inside ≡ 0 }
{
    let first = enter(rt, alloc, hall, front);
    let second = enter(rt, alloc, hall, front);
    let (first, second) = both_ways(rt, alloc, hall, first, second);
    let one = front.leave(hall, first);
    let other = front.leave(hall, second);
    [one, other]
}

// Ends the test unless each point of a trail at which this account gained an entry has the entry of
// this pass with the point's number as serial, and there are as many as copies.
fn expect_made<A: Abort>(rt: &A, entries: &[Entry], account: u64, pass: u64, trail: &Trail) {
    let mut serial = 0u64;
    let mut made = 0u64;
    for point in trail.as_slice() {
        serial = serial.saturating_add(1);
        if point.account != account || point.after == point.before {
            continue;
        }
        let Some(entry) = entries.get(point.before as usize) else {
            stop(rt);
        };
        assert_eq!(rt; entry.stamp.pass, pass);
        assert_eq!(rt; entry.stamp.serial, serial);
        made = made.saturating_add(1);
    }
    assert_eq!(rt; made, COPIES);
}

// Takes the last account out of the hall, and ends the test unless its entries are those of both
// sessions, which were admitted in this order.
fn expect_parted<A: Abort, K: Keeper, R: Rules>(
    rt: &A,
    hall: &mut Hall<K, R>,
    front: &mut Front,
    account: u64,
    trails: &[Trail; 2],
)
    requires hall { AreOf hall.old front.old.roots }
    requires none_in { front.old.inside ≡ 0 }
    ensures hall { AreOf hall.new front.new.roots }
    ensures none_in { front.new.inside ≡ 0 }
{
    let Some(parted) = hall.part(front) else {
        stop(rt);
    };
    let entries = parted.book.account().entries();
    assert_eq!(rt; entries.len(), 400);
    expect_made(rt, entries, account, 1, &trails[0]);
    expect_made(rt, entries, account, 2, &trails[1]);
}

#[test]
fn copies_in_opposite_directions_at_one_time_lose_and_double_nothing(rt: HostRuntime) {
    let alloc = rt.alloc();
    let (mut hall, mut front) = two_accounts(&rt, alloc, in_memory(alloc), in_memory(alloc));
    let trails = two_sessions(&rt, alloc, &hall, &mut front);
    expect_parted(&rt, &mut hall, &mut front, 1, &trails);
    expect_parted(&rt, &mut hall, &mut front, 0, &trails);
}
