// Halls whose accounts are empty, and sessions that are let in. A fault ends the test.
ghost use Rattle.std.specs.Prelude.{◌≡◌, ◌+◌, ◌<◌, [], length};
ghost use Rattle.std.specs.List.{AllByRecursion};
ghost use Rattle.account_hall.specs.Building.{IsFresh};
ghost use Rattle.account_hall.specs.Halls.{AreOf};

use crate::adding::Adding;
use account_book::{Book, Rules};
use account_hall::{AdmitFault, Front, Hall, Named, Passes, build_hall};
use jm_base::Text;
use keep_port::{Keeper, Kept, MemoryKeeper};
use std::alloc::Global;
use std::process::Abort;

// Ends the test.
pub(crate) fn stop<A: Abort>(rt: &A) -> ! {
    panic!(rt; "a call failed that must not")
}

// What was returned. An error ends the test.
pub(crate) fn sure<A: Abort, T: Drop, E: Drop>(rt: &A, returned: Result<T, E>) -> T {
    match returned {
        Ok(value) => value,
        Err(_) => stop(rt),
    }
}

// A keeper in memory without rows.
pub(crate) fn in_memory(alloc: Global) -> MemoryKeeper {
    MemoryKeeper::new(alloc, Kept::new(alloc))
}

// A book over a keeper.
pub(crate) fn started<A: Abort, K: Keeper, R: Rules>(
    rt: &A,
    alloc: Global,
    keeper: K,
    rules: R,
) -> Book<K, R>
    ensures { result.since ≡ [] }
{
    match Book::start(alloc, keeper, rules) {
        Ok(book) => book,
        Err(_) => stop(rt),
    }
}

// An account over a keeper.
pub(crate) fn account<A: Abort, K: Keeper>(rt: &A, alloc: Global, keeper: K) -> Named<K, Adding>
    ensures { IsFresh result }
{
    let book = started(rt, alloc, keeper, Adding);
    let name = Text::from_string(String::new(alloc));
    Named { name, book }
}

// A hall of these accounts.
pub(crate) fn built<A: Abort, K: Keeper, R: Rules>(
    rt: &A,
    alloc: Global,
    accounts: Vec<Named<K, R>>,
) -> (Hall<K, R>, Front)
    requires { AllByRecursion IsFresh accounts.items }
    ensures hall { AreOf result.0 result.1.roots }
    ensures count { length result.0 ≡ length accounts.items }
    ensures inside { (result.1.inside ≡ 0) × (result.1.admitted ≡ 0) }
{
    match build_hall(alloc, accounts) {
        Ok(built) => built,
        Err(_) => stop(rt),
    }
}

// A hall of one account over a keeper.
pub(crate) fn one_account<A: Abort, K: Keeper>(
    rt: &A,
    alloc: Global,
    keeper: K,
) -> (Hall<K, Adding>, Front)
    ensures hall { AreOf result.0 result.1.roots }
    ensures count { length result.0 ≡ 1 }
    ensures inside { (result.1.inside ≡ 0) × (result.1.admitted ≡ 0) }
{
    let mut accounts = Vec::new(alloc);
    let Ok(()) = accounts.push(account(rt, alloc, keeper)) else {
        stop(rt);
    };
    built(rt, alloc, accounts)
}

// A hall of two accounts over these keepers.
pub(crate) fn two_accounts<A: Abort, K: Keeper>(
    rt: &A,
    alloc: Global,
    first: K,
    second: K,
) -> (Hall<K, Adding>, Front)
    ensures hall { AreOf result.0 result.1.roots }
    ensures count { length result.0 ≡ 2 }
    ensures inside { (result.1.inside ≡ 0) × (result.1.admitted ≡ 0) }
{
    let mut accounts = Vec::new(alloc);
    let Ok(()) = accounts.push(account(rt, alloc, first)) else {
        stop(rt);
    };
    let Ok(()) = accounts.push(account(rt, alloc, second)) else {
        stop(rt);
    };
    built(rt, alloc, accounts)
}

// Lets a session in.
pub(crate) fn enter<A: Abort, K: Keeper, R: Rules>(
    rt: &A,
    alloc: Global,
    hall: &Hall<K, R>,
    front: &mut Front,
) -> Passes
    requires hall { AreOf hall.now front.old.roots }
    requires few { front.old.admitted < 100 }
    ensures hall { AreOf hall.now front.new.roots }
    ensures session { AreOf hall.now result.passes }
    ensures inside { front.new.inside ≡ front.old.inside + 1 }
    ensures admitted { front.new.admitted ≡ front.old.admitted + 1 }
{
    match front.admit(alloc, hall) {
        Ok(passes) => passes,
        Err(_) => stop(rt),
    }
}

// Ends the test if another session is let in, or is not for another reason than that the hall is
// full.
pub(crate) fn expect_full<A: Abort, K: Keeper, R: Rules>(
    rt: &A,
    alloc: Global,
    hall: &Hall<K, R>,
    front: &mut Front,
)
    requires hall { AreOf hall.now front.old.roots }
    requires few { front.old.admitted < 100 }
    ensures { front.new ≡ front.old }
{
    match front.admit(alloc, hall) {
        Err(AdmitFault::Full) => {}
        Ok(_) => stop(rt),
        Err(AdmitFault::NoMemory) => stop(rt),
    }
}
