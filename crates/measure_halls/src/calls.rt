// Calls that get a mailbox: on a book alone, and by the sessions of a hall.
ghost use Rattle.std.specs.Prelude.{◌≡◌, ◌<◌, ◌≤◌, All, length};
ghost use Rattle.account_hall.specs.Halls.{AreOf};

use crate::asks::{get_mailbox, is_found};
use crate::timing::nanos_since;
use account_book::{Book, Call, Rules};
use account_hall::{Hall, Passes};
use keep_port::Keeper;
use mail_records::Stamp;
use std::alloc::Global;
use std::sync::Wait;
use std::thread::Threads;
use std::time::{Clock, Instant};
use std::{io, thread};

/// How long calls took, and how many of them found their mailbox.
#[derive(Clone, Copy, Debug)]
pub(crate) struct Timed {
    pub(crate) nanos: u64,
    pub(crate) found: u64,
}

/// A session, and the number of the account that it uses.
#[derive(Drop)]
pub(crate) struct Session {
    pub(crate) passes: Passes,
    pub(crate) account: u64,
}

// Makes a call on a book. Returns whether it found its mailbox.
fn finds_alone<K: Keeper, R: Rules>(
    alloc: Global,
    book: &mut Book<K, R>,
    call: &Call,
    serial: u64,
) -> bool {
    match book.perform(alloc, call, Stamp { pass: 1, serial }, 0) {
        Ok(done) => is_found(&done.out),
        Err(_) => false,
    }
}

// Makes so many calls on a book. Returns how many found their mailbox.
fn count_alone<K: Keeper, R: Rules>(
    alloc: Global,
    book: &mut Book<K, R>,
    call: &Call,
    calls: u64,
) -> u64 {
    let mut found = 0u64;
    for serial in 0..calls {
        let one = finds_alone(alloc, book, call, serial);
        found = found.saturating_add(u64::from(one));
    }
    found
}

// Makes a call so many times on a book that is lent.
fn time_calls<T: Clock, K: Keeper, R: Rules>(
    rt: &T,
    alloc: Global,
    book: &mut Book<K, R>,
    call: &Call,
    calls: u64,
) -> io::Result<Timed> {
    let start = Instant::now(rt)?;
    let found = count_alone(alloc, book, call, calls);
    let nanos = nanos_since(rt, start)?;
    Ok(Timed { nanos, found })
}

/// Makes so many calls on a book.
pub(crate) fn time_alone<T: Clock, K: Keeper, R: Rules>(
    rt: &T,
    alloc: Global,
    book: Book<K, R>,
    calls: u64,
) -> io::Result<Timed> {
    let mut book = book;
    match get_mailbox(alloc) {
        Ok(call) => time_calls(rt, alloc, &mut book, &call, calls),
        Err(error) => Err(error),
    }
}

// Makes a call of a session. Returns whether it found its mailbox.
fn finds<W: Wait, K: Keeper, R: Rules>(
    rt: &W,
    alloc: Global,
    hall: &Hall<K, R>,
    passes: &mut Passes,
    account: u64,
    call: &Call,
) -> bool
    requires hall { AreOf hall.now passes.old.passes }
    requires account { account < length hall.now }
    ensures { AreOf hall.now passes.new.passes }
{
    match hall.call(rt, alloc, passes, account, call, 0) {
        Ok(out) => is_found(&out),
        Err(_) => false,
    }
}

// Makes so many calls of a session. Returns how many found their mailbox.
fn count<W: Wait, K: Keeper, R: Rules>(
    rt: &W,
    alloc: Global,
    hall: &Hall<K, R>,
    passes: Passes,
    account: u64,
    calls: u64,
) -> u64
    requires hall { AreOf hall.now passes.passes }
    requires account { account < length hall.now }
{
    let Ok(call) = get_mailbox(alloc) else {
        return 0;
    };
    let mut passes = passes;
    let mut found = 0u64;
    for _ in 0..calls {
        let one = finds(rt, alloc, hall, &mut passes, account, &call);
        found = found.saturating_add(u64::from(one));
    }
    found
}

fn add_all(counts: &[u64]) -> u64 {
    let mut all = 0u64;
    for count in counts {
        all = all.saturating_add(*count);
    }
    all
}

/// Makes so many calls of each session, in a thread for each.
pub(crate) fn time_sessions<H: Threads + Wait + Clock + Sync, K: Keeper, R: Rules>(
    rt: &H,
    alloc: Global,
    hall: &Hall<K, R>,
    sessions: Vec<Session>,
    calls: u64,
) -> io::Result<Timed>
    requires { All (λ s. AreOf hall.now s.passes.passes × (s.account < length hall.now))
        sessions.items }
{
    let start = Instant::now(rt)?;
    let counts = thread::map_vec(
        rt,
        sessions,
        &|session: Session| -> u64
            requires { AreOf hall.now session.passes.passes
                × (session.account < length hall.now) }
        { count(rt, alloc, hall, session.passes, session.account, calls) },
    )?;
    let nanos = nanos_since(rt, start)?;
    let found = add_all(counts.as_slice());
    Ok(Timed { nanos, found })
}
