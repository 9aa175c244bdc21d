// An account whose keeper fails to load is not opened, and the keeper comes back with its content.
use crate::asking::{stop, sure};
use account_book::{Book, Rules, StartFault};
use jm_base::{Bytes, Numbers, Rows};
use keep_port::{Keeper, Kept, MemoryKeeper};
use mail_calls::MailRules;
use std::alloc::Global;
use std::process::Abort;

// The keeper that comes back when an account over it is not opened because it failed. Any other
// outcome ends the test.
fn keeper_back<A: Abort, K: Keeper, R: Rules>(rt: &A, alloc: Global, keeper: K, rules: R) -> K {
    match Book::start(alloc, keeper, rules) {
        Ok(_) => stop(rt),
        Err((fault, keeper)) => {
            assert!(rt; fault == StartFault::KeeperFault);
            keeper
        }
    }
}

// A keeper in memory of two rows, whose first call of `load` fails.
fn failing<A: Abort>(rt: &A, alloc: Global) -> MemoryKeeper {
    let mut rows = Rows::new(alloc);
    sure(rt, rows.push(Bytes::new(alloc)));
    sure(rt, rows.push(Bytes::new(alloc)));
    let kept = Kept { base: None, rows };
    let mut loads = Numbers::new(alloc);
    sure(rt, loads.push(1));
    MemoryKeeper::build_failing(alloc, kept, loads, Numbers::new(alloc), Numbers::new(alloc))
}

#[test]
fn a_load_that_fails_gives_the_keeper_back(rt: HostRuntime) {
    let alloc = rt.alloc();
    let keeper = keeper_back(&rt, alloc, failing(&rt, alloc), MailRules);
    assert_eq!(rt; keeper.kept().rows.len(), 2);
}
