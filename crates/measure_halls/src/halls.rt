// What is measured over halls, whose accounts follow the rules of mail.
ghost use Rattle.std.specs.Prelude.{◌≡◌, ◌<◌, ◌≤◌, All, IfOk, length, vec_len};
ghost use Rattle.std.specs.List.{AllByRecursion};
ghost use Rattle.account_hall.specs.Building.{IsFresh};
ghost use Rattle.account_hall.specs.Halls.{AreOf};

use crate::accounts::{ACCOUNTS, fill_keeper, open_accounts, open_book};
use crate::calls::{Session, Timed, time_alone, time_sessions};
use crate::timing::{invalid, no_memory};
use account_book::Rules;
use account_hall::{Front, Hall, Named, build_hall};
use keep_port::{Keeper, MemoryKeeper};
use std::alloc::Global;
use std::io;
use std::sync::Wait;
use std::thread::Threads;
use std::time::Clock;

// How many threads make calls at once. One is the last, since the system's allocator is slower once
// a process has had threads, and as slow for one as for several.
const THREADS: [u64; 3] = [4, 2, 1];

// Which accounts the sessions use: all the same one, or each its own.
#[derive(Clone, Copy, Debug)]
enum Spread {
    One,
    Four,
}

impl Spread {
    fn name(self) -> &'static str {
        match self {
            Spread::One => "one",
            Spread::Four => "four",
        }
    }

    // Returns the account of the session with this number.
    fn account_of(self, number: u64) -> u64
        ensures { result ≤ number }
    {
        match self {
            Spread::One => 0,
            Spread::Four => number,
        }
    }
}

fn build<K: Keeper, R: Rules>(
    alloc: Global,
    accounts: Vec<Named<K, R>>,
) -> io::Result<(Hall<K, R>, Front)>
    requires { AllByRecursion IsFresh accounts.items }
    ensures hall { IfOk result (λ r. AreOf r.0 r.1.roots) }
    ensures count { IfOk result (λ r. length r.0 ≡ length accounts.items) }
    ensures admitted { IfOk result (λ r. r.1.admitted ≡ 0) }
{
    match build_hall(alloc, accounts) {
        Ok(built) => Ok(built),
        Err(_) => Err(no_memory()),
    }
}

// Lets so many sessions in, at most one for each account.
fn admit_all<K: Keeper, R: Rules>(
    alloc: Global,
    hall: &Hall<K, R>,
    front: &mut Front,
    threads: u64,
    spread: Spread,
) -> io::Result<Vec<Session>>
    requires hall { AreOf hall.now front.old.roots }
    requires admitted { front.old.admitted ≡ 0 }
    requires count { length hall.now ≡ 4 }
    ensures { IfOk result (λ v. All (λ s. AreOf hall.now s.passes.passes
        × (s.account < length hall.now)) v.items) }
{
    let mut sessions = Vec::new(alloc);
    for number in 0..threads.min(ACCOUNTS) {
        let Ok(passes) = front.admit(alloc, hall) else {
            return Err(no_memory());
        };
        let account = spread.account_of(number);
        sessions.push(Session { passes, account })?;
    }
    Ok(sessions)
}

// Makes so many calls by each thread, over a hall of these accounts.
fn time_hall<H: Threads + Wait + Clock + Sync, K: Keeper, R: Rules>(
    rt: &H,
    alloc: Global,
    accounts: Vec<Named<K, R>>,
    threads: u64,
    spread: Spread,
    calls: u64,
) -> io::Result<Timed>
    requires fresh { AllByRecursion IsFresh accounts.items }
    requires count { vec_len accounts ≡ 4 }
{
    let (hall, mut front) = build(alloc, accounts)?;
    let sessions = admit_all(alloc, &hall, &mut front, threads, spread)?;
    time_sessions(rt, alloc, &hall, sessions, calls)
}

// Prints how many calls were made, and how long they took. Fails if one did not find its mailbox.
fn print_one<T: Print + Eprint>(
    rt: &T,
    name: &str,
    threads: u64,
    calls: u64,
    timed: Timed,
) -> io::Result<()> {
    let all = threads.saturating_mul(calls);
    if timed.found != all {
        return Err(invalid());
    }
    println!(rt; "hall {name} by {threads}: {all} calls")?;
    eprintln!(rt; "hall {name} by {threads}: {all} calls, {} ns", timed.nanos)
}

fn measure_alone<T: Clock + Print + Eprint>(
    rt: &T,
    alloc: Global,
    filled: &MemoryKeeper,
    calls: u64,
) -> io::Result<()> {
    let book = open_book(alloc, filled)?;
    let timed = time_alone(rt, alloc, book, calls)?;
    print_one(rt, "perform", 1, calls, timed)
}

fn measure_one<H: Threads + Wait + Clock + Print + Eprint + Sync>(
    rt: &H,
    alloc: Global,
    filled: &MemoryKeeper,
    threads: u64,
    spread: Spread,
    calls: u64,
) -> io::Result<()> {
    let accounts = open_accounts(alloc, filled)?;
    let timed = time_hall(rt, alloc, accounts, threads, spread, calls)?;
    print_one(rt, spread.name(), threads, calls, timed)
}

fn measure_each<H: Threads + Wait + Clock + Print + Eprint + Sync>(
    rt: &H,
    alloc: Global,
    filled: &MemoryKeeper,
    spread: Spread,
    calls: u64,
) -> io::Result<()> {
    for threads in THREADS {
        measure_one(rt, alloc, filled, threads, spread, calls)?;
    }
    Ok(())
}

/// Measures calls that get a mailbox, so many by each thread: by 4, 2 and 1 sessions of a hall,
/// which use one account and then an account each, and on a book alone.
pub(crate) fn measure_halls<H: Threads + Wait + Clock + Print + Eprint + Sync>(
    rt: &H,
    alloc: Global,
    calls: u64,
) -> io::Result<()> {
    let filled = fill_keeper(alloc)?;
    measure_each(rt, alloc, &filled, Spread::One, calls)?;
    measure_each(rt, alloc, &filled, Spread::Four, calls)?;
    measure_alone(rt, alloc, &filled, calls)
}
