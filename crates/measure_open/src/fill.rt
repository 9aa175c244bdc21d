// Fills an account with messages, and flags them.

use crate::asks::{create_mailbox, flag, import, upload};
use crate::timing::{invalid, nanos_since, no_memory};
use account_book::{Book, Call, Out, Rules, StartFault};
use keep_port::Keeper;
use mail_records::Stamp;
use std::alloc::Global;
use std::io;
use std::time::{Clock, Instant};

// What is done with the keywords of each email, one after the other.
const PATCHES: [&str; 3] = [
    "{\"keywords/$seen\":true}",
    "{\"keywords/$flagged\":true}",
    "{\"keywords/$seen\":null}",
];

/// Opens a book over a keeper.
pub(crate) fn start_book<K: Keeper, R: Rules>(
    alloc: Global,
    keeper: K,
    rules: R,
) -> io::Result<Book<K, R>> {
    match Book::start(alloc, keeper, rules) {
        Ok(book) => Ok(book),
        Err((StartFault::NoMemory, _)) => Err(no_memory()),
        Err(_) => Err(invalid()),
    }
}

fn perform<K: Keeper, R: Rules>(
    alloc: Global,
    book: &mut Book<K, R>,
    call: &Call,
) -> io::Result<Out> {
    let serial = book.account().count().saturating_add(1);
    match book.perform(alloc, call, Stamp { pass: 1, serial }, 0) {
        Ok(done) => Ok(done.out),
        Err(_) => Err(no_memory()),
    }
}

// Uploads a message, and returns the number of its blob.
fn upload_message<K: Keeper, R: Rules>(
    alloc: Global,
    book: &mut Book<K, R>,
    number: u64,
) -> io::Result<u64> {
    let call = upload(alloc, number)?;
    match perform(alloc, book, &call)? {
        Out::Uploaded(blob) => Ok(blob),
        _ => Err(invalid()),
    }
}

// Uploads and imports the messages with the numbers from `first` to before `end`.
fn add_messages<K: Keeper, R: Rules>(
    alloc: Global,
    book: &mut Book<K, R>,
    first: u64,
    end: u64,
) -> io::Result<()> {
    for number in first..end {
        let blob = upload_message(alloc, book, number)?;
        let call = import(alloc, blob)?;
        perform(alloc, book, &call)?;
    }
    Ok(())
}

// Returns the calls that do a patch to the emails with these numbers.
fn flag_calls(alloc: Global, first: u64, end: u64, patch: &str) -> io::Result<Vec<Call>> {
    let mut calls = Vec::new(alloc);
    for number in first..end {
        calls.push(flag(alloc, number, patch)?)?;
    }
    Ok(calls)
}

fn perform_all<K: Keeper, R: Rules>(
    alloc: Global,
    book: &mut Book<K, R>,
    calls: &[Call],
) -> io::Result<()> {
    for call in calls {
        perform(alloc, book, call)?;
    }
    Ok(())
}

// Performs calls that are there. Returns how long that takes, in nanoseconds.
fn timed_calls<T: Clock, K: Keeper, R: Rules>(
    rt: &T,
    alloc: Global,
    book: &mut Book<K, R>,
    calls: &[Call],
) -> io::Result<u64> {
    let start = Instant::now(rt)?;
    perform_all(alloc, book, calls)?;
    nanos_since(rt, start)
}

// Does each patch to the emails with these numbers. Returns how long that takes without the making
// of the calls, in nanoseconds.
fn timed_flags<T: Clock, K: Keeper, R: Rules>(
    rt: &T,
    alloc: Global,
    book: &mut Book<K, R>,
    first: u64,
    end: u64,
) -> io::Result<u64> {
    let mut nanos = 0u64;
    for patch in PATCHES {
        let calls = flag_calls(alloc, first, end, patch)?;
        nanos = nanos.saturating_add(timed_calls(rt, alloc, book, calls.as_slice())?);
    }
    Ok(nanos)
}

// Makes the mailbox M1, if there is none.
fn add_mailbox<K: Keeper, R: Rules>(alloc: Global, book: &mut Book<K, R>) -> io::Result<()> {
    if book.account().content().mailboxes().is_empty() {
        let call = create_mailbox(alloc)?;
        perform(alloc, book, &call)?;
    }
    Ok(())
}

// Adds so many messages, and flags them.
fn fill_book<T: Clock + Print + Eprint, K: Keeper, R: Rules>(
    rt: &T,
    alloc: Global,
    book: &mut Book<K, R>,
    messages: u64,
) -> io::Result<()> {
    add_mailbox(alloc, book)?;
    let first = (book.account().content().emails().len() as u64).saturating_add(1);
    let end = first.saturating_add(messages);
    let start = Instant::now(rt)?;
    add_messages(alloc, book, first, end)?;
    let imports = nanos_since(rt, start)?;
    let flags = timed_flags(rt, alloc, book, first, end)?;
    let commits = book.account().count();
    let emails = book.account().content().emails().len();
    println!(rt; "fill: {commits} commits, {emails} emails")?;
    eprintln!(rt; "fill: imports {imports} ns, flags {flags} ns")
}

/// Performs about so many calls on the account of a keeper: a fifth of them upload a message each,
/// a fifth import it, and the others change the keywords of each email three times. How many
/// commits and emails the account then has goes to standard output, the times without the opening
/// to the error output.
pub(crate) fn fill<T: Clock + Print + Eprint, K: Keeper, R: Rules>(
    rt: &T,
    alloc: Global,
    keeper: K,
    rules: R,
    calls: u64,
) -> io::Result<()> {
    let mut book = start_book(alloc, keeper, rules)?;
    fill_book(rt, alloc, &mut book, calls / 5)
}
