// Turns at the account lock next to turns at a mutex, over the same work, by threads in contention.
ghost use Rattle.std.specs.Prelude.{◌≡◌, true, false, [], ◌<◌, ◌^◌, ◌+◌, IfOk, All};

use crate::timing::{RUNS, median, nanos_since, no_memory};
use account_lock::{AccountLock, AccountView, MAX_NAMES, Pass};
use std::alloc::Global;
use std::sync::{Mutex, Wait};
use std::thread::Threads;
use std::time::{Clock, Instant};
use std::{io, thread};

// What the locks guard: how many turns were taken. It has no history.
#[derive(Drop)]
struct Tally {
    turns: u64,
}

impl AccountView for Tally {
    ghost use Rattle.std.specs.Prelude.{[]};
    ghost use Rattle.mail_records.specs.Histories.{empty_history};

    ghost entries = { λ t. [] };

    ghost before = { λ t. 0 };

    ghost opening = { λ t. empty_history };
}

impl Tally {
    fn count(&mut self) {
        self.turns = self.turns.wrapping_add(1);
    }
}

// How long the turns of all threads took, and how many were counted.
#[derive(Clone, Copy, Debug)]
struct Measured {
    nanos: u64,
    turns: u64,
}

// Of both locks, the median of the times; and the turns of all runs.
#[derive(Clone, Copy, Debug)]
struct Row {
    mutex: Measured,
    account: Measured,
}

// How many threads take turns at once.
#[derive(Clone, Copy, Debug)]
struct Shape {
    name: &'static str,
    threads: u16,
}

const SHAPES: [Shape; 3] = [
    Shape {
        name: "one",
        threads: 1,
    },
    Shape {
        name: "two",
        threads: 2,
    },
    Shape {
        name: "four",
        threads: 4,
    },
];

// Takes this many turns at the account lock.
fn account_turns<R: Wait>(rt: &R, lock: &AccountLock<Tally>, mut pass: Pass, rounds: u64)
    requires lock { pass.lock ≡ lock.now.id }
    requires free { (pass.root ≡ false) × (pass.holds ≡ false) }
{
    for _ in 0..rounds {
        let mut tally = lock.take(rt, &mut pass);
        tally.count();
        lock.give(&mut pass, tally);
    }
}

// Takes this many turns at the mutex.
fn mutex_turns<R: Wait>(rt: &R, lock: &Mutex<Tally>, rounds: u64) {
    for _ in 0..rounds {
        let mut tally = lock.lock(rt);
        tally.count();
    }
}

// Turns at a mutex, by threads at once.
fn by_mutex<R: Threads + Wait + Clock + Sync>(
    rt: &R,
    alloc: Global,
    threads: usize,
    rounds: u64,
) -> io::Result<Measured> {
    let lock = Mutex::new(Tally { turns: 0 });
    let shared = &lock;
    let start = Instant::now(rt)?;
    thread::map_indices(rt, alloc, threads, &|_| mutex_turns(rt, shared, rounds))?;
    let nanos = nanos_since(rt, start)?;
    let turns = lock.into_inner().turns;
    Ok(Measured { nanos, turns })
}

// Passes of the lock, one for each thread.
fn passes(
    alloc: Global,
    lock: &AccountLock<Tally>,
    root: &mut Pass,
    threads: usize,
) -> io::Result<Vec<Pass>>
    requires lock { root.old.lock ≡ lock.now.id }
    requires root { (root.old.root ≡ true) × (root.old.given + threads < MAX_NAMES) }
    ensures { IfOk result (λ v. All (λ p. (p.lock ≡ lock.now.id) × (p.root ≡ false)
        × (p.holds ≡ false)) v.items) }
{
    let mut passes = Vec::new(alloc);
    for index in 0..threads {
        let Ok(pass) = lock.split(root) else {
            return Err(no_memory());
        };
        passes.push(pass)?;
    }
    Ok(passes)
}

// Turns at an account lock, by threads at once. A further pass looks at the end how many were
// counted.
fn by_account_lock<R: Threads + Wait + Clock + Sync>(
    rt: &R,
    alloc: Global,
    threads: usize,
    rounds: u64,
) -> io::Result<Measured>
    requires { threads < 2 ^ 32 }
{
    let value = Box::new(alloc, Tally { turns: 0 })?;
    let Ok((lock, mut root)) = AccountLock::build(alloc, value) else {
        return Err(no_memory());
    };
    let Ok(mut last) = lock.split(&mut root) else {
        return Err(no_memory());
    };
    let passes = passes(alloc, &lock, &mut root, threads)?;
    let shared = &lock;
    let start = Instant::now(rt)?;
    thread::map_vec(
        rt,
        passes,
        &|pass: Pass|
            requires { (pass.lock ≡ shared.now.id) × (pass.root ≡ false) × (pass.holds ≡ false) }
        { account_turns(rt, shared, pass, rounds) },
    )?;
    let nanos = nanos_since(rt, start)?;
    let tally = lock.take(rt, &mut last);
    let turns = tally.turns;
    lock.give(&mut last, tally);
    Ok(Measured { nanos, turns })
}

// Turns at both locks, one after the other, as often as there are runs.
fn compared<R: Threads + Wait + Clock + Sync>(
    rt: &R,
    alloc: Global,
    threads: usize,
    rounds: u64,
) -> io::Result<Row>
    requires { threads < 2 ^ 32 }
{
    let mut mutex_nanos = [0; RUNS];
    let mut account_nanos = [0; RUNS];
    let mut mutex_turns = 0u64;
    let mut account_turns = 0u64;
    for run in 0..RUNS {
        let mutex = by_mutex(rt, alloc, threads, rounds)?;
        let account = by_account_lock(rt, alloc, threads, rounds)?;
        mutex_nanos[run] = mutex.nanos;
        account_nanos[run] = account.nanos;
        mutex_turns = mutex_turns.saturating_add(mutex.turns);
        account_turns = account_turns.saturating_add(account.turns);
    }
    Ok(Row {
        mutex: Measured {
            nanos: median(mutex_nanos),
            turns: mutex_turns,
        },
        account: Measured {
            nanos: median(account_nanos),
            turns: account_turns,
        },
    })
}

/// Measures turns by one, two and four threads, this many by each. What they counted goes to
/// standard output. The times go to the error output, but for shapes with more threads than there
/// are processors.
pub(crate) fn measure_lock<R: Threads + Wait + Clock + Print + Eprint + Sync>(
    rt: &R,
    alloc: Global,
    rounds: u64,
) -> io::Result<()> {
    let processors = thread::available_parallelism(rt)?.get();
    for shape in &SHAPES {
        let threads = usize::from(shape.threads);
        let Row { mutex, account } = compared(rt, alloc, threads, rounds)?;
        let name = shape.name;
        println!(rt;
            "lock {name}: mutex {} turns, account lock {} turns",
            mutex.turns, account.turns
        )?;
        if threads <= processors {
            eprintln!(rt;
                "lock {name}: mutex {} ns, account lock {} ns",
                mutex.nanos, account.nanos
            )?;
        }
    }
    Ok(())
}
