// Copies that run out of memory between their calls: what was performed before that is kept, and
// the trail shows it.
ghost use Rattle.std.specs.Prelude.{◌≡◌, ◌<◌, Some, length};
ghost use Rattle.account_hall.specs.Halls.{AreOf};
ghost use Rattle.keep_port.specs.Memory.{may_be_left};

use crate::adding::invocation;
use crate::copying::SameCall;
use crate::opening::{enter, in_memory, stop, sure, two_accounts};
use account_book::Rules;
use account_hall::{CopyCall, Front, Hall, Originals, Passes};
use jm_base::NoMemory;
use jm_edge::EdgeFault;
use jm_json::{Invocation, Made};
use keep_port::{Keeper, Kept, MemoryKeeper};
use std::alloc::Global;
use std::process::Abort;
use std::sync::Wait;

// A keeper in memory. If it starves, it finds no memory for the first row.
#[derive(Drop)]
struct Starving {
    memory: MemoryKeeper,
    starves: bool,
}

impl Keeper for Starving {
    ghost kept = { λ k. Some k.memory.kept };

    ghost image = { λ k. may_be_left k.memory };

    ghost load_faults = { λ k. k.memory.loads.faults };

    ghost append_faults = { λ k. k.memory.appends.faults };

    ghost replace_faults = { λ k. k.memory.replaces.faults };

    fn load(&mut self, alloc: Global) -> Result<Kept, EdgeFault> {
        self.memory.load(alloc)
    }

    fn append(&mut self, alloc: Global, row: &[u8]) -> Result<(), EdgeFault> {
        if self.starves {
            self.starves = false;
            return Err(EdgeFault::NoMemory);
        }
        self.memory.append(alloc, row)
    }

    fn replace(&mut self, alloc: Global, whole: &Kept) -> Result<(), EdgeFault> {
        self.memory.replace(alloc, whole)
    }
}

// There is no memory for the set of the originals.
#[derive(Drop)]
struct NoSet;

impl Originals for NoSet {
    ghost set_of = { λ copy response. Some copy };

    fn build_set(
        &self,
        _alloc: Global,
        _copy: &Invocation,
        _response: &Invocation,
    ) -> Result<Option<Invocation>, NoMemory> {
        Err(NoMemory)
    }
}

// Copies from the account 0 to the account 1. Returns whether there was memory, and the session.
fn copy_once<A: Abort + Wait, K: Keeper, R: Rules, O: Originals>(
    rt: &A,
    alloc: Global,
    hall: &Hall<K, R>,
    passes: Passes,
    originals: &O,
) -> (bool, Passes)
    requires hall { AreOf hall.now passes.passes }
    requires accounts { 1 < length hall.now }
    ensures { AreOf hall.now result.1.passes }
{
    let mut passes = passes;
    let copy = CopyCall {
        from: 0,
        to: 1,
        from_read_only: false,
        call: sure(rt, invocation(alloc)),
        made: Made::new(alloc),
    };
    let copied = hall.copy(rt, alloc, &mut passes, originals, copy, 0);
    (copied.is_ok(), passes)
}

// Ends the test unless the last account of the hall has so many entries, and takes it out.
fn expect_entries<A: Abort, K: Keeper, R: Rules>(
    rt: &A,
    hall: &mut Hall<K, R>,
    front: &mut Front,
    entries: u64,
)
    requires hall { AreOf hall.old front.old.roots }
    requires none_in { front.old.inside ≡ 0 }
    ensures hall { AreOf hall.new front.new.roots }
    ensures none_in { front.new.inside ≡ 0 }
{
    let Some(parted) = hall.part(front) else {
        stop(rt);
    };
    assert_eq!(rt; parted.book.account().count(), entries);
}

// Copies once, and ends the test unless that ran out of memory, the trail has so many points, and
// the account of the copies has so many entries. That of the originals has none.
fn expect_starved<A: Abort + Wait, O: Originals>(
    rt: &A,
    alloc: Global,
    from: Starving,
    to: Starving,
    originals: &O,
    points: usize,
    entries: u64,
) {
    let (mut hall, mut front) = two_accounts(rt, alloc, from, to);
    let passes = enter(rt, alloc, &hall, &mut front);
    let (copied, passes) = copy_once(rt, alloc, &hall, passes, originals);
    assert!(rt; !copied);
    assert_eq!(rt; passes.trail().len(), points);
    let _trail = front.leave(&hall, passes);
    expect_entries(rt, &mut hall, &mut front, entries);
    expect_entries(rt, &mut hall, &mut front, 0);
}

// Copies once without memory for the row of the copy, and then with it: the second copy has its
// three points, and each account its one entry.
fn expect_again<A: Abort + Wait>(rt: &A, alloc: Global, from: Starving, to: Starving) {
    let (mut hall, mut front) = two_accounts(rt, alloc, from, to);
    let passes = enter(rt, alloc, &hall, &mut front);
    let (_, passes) = copy_once(rt, alloc, &hall, passes, &SameCall);
    let (copied, passes) = copy_once(rt, alloc, &hall, passes, &SameCall);
    assert!(rt; copied);
    assert_eq!(rt; passes.trail().len(), 4);
    let _trail = front.leave(&hall, passes);
    expect_entries(rt, &mut hall, &mut front, 1);
    expect_entries(rt, &mut hall, &mut front, 1);
}

// A keeper that starves or not.
fn keeper(alloc: Global, starves: bool) -> Starving {
    Starving {
        memory: in_memory(alloc),
        starves,
    }
}

#[test]
fn a_copy_that_cannot_be_placed_leaves_both_accounts_as_they_were(rt: HostRuntime) {
    let alloc = rt.alloc();
    let (from, to) = (keeper(alloc, false), keeper(alloc, true));
    expect_starved(&rt, alloc, from, to, &SameCall, 1, 0);
}

#[test]
fn a_copy_whose_originals_cannot_be_destroyed_stands(rt: HostRuntime) {
    let alloc = rt.alloc();
    let (from, to) = (keeper(alloc, true), keeper(alloc, false));
    expect_starved(&rt, alloc, from, to, &SameCall, 2, 1);
    let (from, to) = (keeper(alloc, false), keeper(alloc, false));
    expect_starved(&rt, alloc, from, to, &NoSet, 2, 1);
}

#[test]
fn a_copy_is_made_once_there_is_memory_again(rt: HostRuntime) {
    let alloc = rt.alloc();
    expect_again(&rt, alloc, keeper(alloc, false), keeper(alloc, true));
}
