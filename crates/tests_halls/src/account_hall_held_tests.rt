// A call on one account while a call on another one is held by its keeper.
ghost use Rattle.std.specs.Prelude.{◌≡◌, ◌<◌, length};
ghost use Rattle.account_hall.specs.Halls.{AreOf};

use crate::adding::{Adding, added_number, adding_call};
use crate::holding::{Holding, Signs};
use crate::opening::{account, built, enter, in_memory, stop, sure};
use account_book::Rules;
use account_hall::{Front, Hall, Passes};
use keep_port::Keeper;
use std::alloc::Global;
use std::process::Abort;
use std::sync::Wait;
use std::thread::{Threads, join};

// Adds the first mailbox of an account.
fn add_first<A: Abort + Wait, K: Keeper, R: Rules>(
    rt: &A,
    alloc: Global,
    hall: &Hall<K, R>,
    passes: Passes,
    account: u64,
)
    requires hall { AreOf hall.now passes.passes }
    requires account { account < length hall.now }
{
    let mut passes = passes;
    let call = sure(rt, adding_call(alloc));
    let out = sure(rt, hall.call(rt, alloc, &mut passes, account, &call, 0));
    assert_eq!(rt; added_number(&out), 1);
}

// The same on the account 1, once the other thread is in `append`.
fn add_meanwhile<A: Abort + Wait, K: Keeper, R: Rules>(
    rt: &A,
    alloc: Global,
    hall: &Hall<K, R>,
    passes: Passes,
    signs: &Signs,
)
    requires hall { AreOf hall.now passes.passes }
    requires account { 1 < length hall.now }
{
    signs.wait_inside();
    add_first(rt, alloc, hall, passes, 1);
    signs.set_returned();
}

// A call on the account 0 and one on the account 1, at one time.
fn both_at_once<A: Abort + Threads + Wait + Sync, K: Keeper, R: Rules>(
    rt: &A,
    alloc: Global,
    hall: &Hall<K, R>,
    front: &mut Front,
    signs: &Signs,
)
    requires hall { AreOf hall.now front.old.roots }
    requires accounts { length hall.now ≡ 2 }
    requires new { front.old.admitted ≡ 0 }
{
    let first = enter(rt, alloc, hall, front);
    let second = enter(rt, alloc, hall, front);
    join(
        rt,
        || -> ()
            requires { AreOf hall.now first.passes × (0 < length hall.now) }
        { add_first(rt, alloc, hall, first, 0) },
        || -> ()
            requires { AreOf hall.now second.passes × (1 < length hall.now) }
        { add_meanwhile(rt, alloc, hall, second, signs) },
    );
}

// A hall of two accounts, of which the first one's keeper is held.
fn two_accounts<'a, A: Abort>(
    rt: &A,
    alloc: Global,
    signs: &'a Signs,
) -> (Hall<Holding<'a>, Adding>, Front)
    ensures hall { AreOf result.0 result.1.roots }
    ensures count { length result.0 ≡ 2 }
    ensures inside { (result.1.inside ≡ 0) × (result.1.admitted ≡ 0) }
{
    let held = Holding {
        memory: in_memory(alloc),
        signs: Some(signs),
    };
    let free = Holding {
        memory: in_memory(alloc),
        signs: None,
    };
    let mut accounts = Vec::new(alloc);
    let Ok(()) = accounts.push(account(rt, alloc, held)) else {
        stop(rt);
    };
    let Ok(()) = accounts.push(account(rt, alloc, free)) else {
        stop(rt);
    };
    built(rt, alloc, accounts)
}

#[test]
fn a_call_does_not_wait_for_the_keeper_of_another_account(rt: HostRuntime) {
    let alloc = rt.alloc();
    let signs = Signs::new();
    let (hall, mut front) = two_accounts(&rt, alloc, &signs);
    both_at_once(&rt, alloc, &hall, &mut front, &signs);
    assert!(rt; signs.all_seen());
}
