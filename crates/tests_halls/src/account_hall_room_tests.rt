// How many sessions are in a hall: 64 at most.
ghost use Rattle.std.specs.Prelude.{◌≡◌, ◌≤◌};
ghost use Rattle.account_hall.specs.Halls.{AreOf};

use crate::opening::{enter, expect_full, in_memory, one_account};
use account_book::Rules;
use account_hall::{Front, Hall, Passes};
use keep_port::Keeper;
use std::alloc::Global;
use std::process::Abort;

// Lets 64 sessions in, and returns the last.
fn fill<A: Abort, K: Keeper, R: Rules>(
    rt: &A,
    alloc: Global,
    hall: &Hall<K, R>,
    front: &mut Front,
) -> Passes
    requires hall { AreOf hall.now front.old.roots }
    requires new { front.old.admitted ≡ 0 }
    ensures hall { AreOf hall.now front.new.roots }
    ensures session { AreOf hall.now result.passes }
    ensures admitted { front.new.admitted ≡ 64 }
{
    let mut last = enter(rt, alloc, hall, front);
    for n in 1..64u64 {
        let _count = n;
        last = enter(rt, alloc, hall, front);
    }
    last
}

// Fills a hall, and lets one session out and another in.
fn fill_and_change<A: Abort, K: Keeper, R: Rules>(
    rt: &A,
    alloc: Global,
    hall: &Hall<K, R>,
    front: &mut Front,
)
    requires hall { AreOf hall.now front.old.roots }
    requires new { front.old.admitted ≡ 0 }
{
    let last = fill(rt, alloc, hall, front);
    expect_full(rt, alloc, hall, front);
    let trail = front.leave(hall, last);
    assert!(rt; trail.is_empty());
    let _next = enter(rt, alloc, hall, front);
    expect_full(rt, alloc, hall, front);
}

#[test]
fn a_hall_has_64_sessions_at_most(rt: HostRuntime) {
    let alloc = rt.alloc();
    let (hall, mut front) = one_account(&rt, alloc, in_memory(alloc));
    fill_and_change(&rt, alloc, &hall, &mut front);
}
