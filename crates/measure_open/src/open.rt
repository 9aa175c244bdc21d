// Opens the account of a keeper, and alone decodes its rows and summarizes its messages.

use crate::fill::start_book;
use crate::timing::{invalid, nanos_since, no_memory};
use account_book::{Book, Rules};
use jm_base::{Bytes, Rows};
use keep_port::Keeper;
use mail_records::Commit;
use mail_summary::summary_of;
use record_codec::decode;
use std::alloc::Global;
use std::io;
use std::time::{Clock, Instant};

// How long the parts of an opening take alone, in nanoseconds, and what there was.
#[derive(Clone, Copy, Debug)]
struct Alone {
    load: u64,
    decode: u64,
    parse: u64,
    rows: u64,
    messages: u64,
}

fn load_rows<K: Keeper>(alloc: Global, keeper: &mut K) -> io::Result<Rows> {
    match keeper.load(alloc) {
        Ok(kept) => Ok(kept.rows),
        Err(_) => Err(invalid()),
    }
}

fn commit_of(alloc: Global, row: &[u8]) -> io::Result<Commit> {
    match decode(alloc, row) {
        Ok(commit) => Ok(commit),
        Err(_) => Err(invalid()),
    }
}

fn decode_rows(alloc: Global, rows: &[Bytes]) -> io::Result<Vec<Commit>> {
    let mut commits = Vec::new(alloc);
    for row in rows {
        commits.push(commit_of(alloc, row.as_slice())?)?;
    }
    Ok(commits)
}

fn summarize(alloc: Global, message: &[u8]) -> io::Result<()> {
    match summary_of(alloc, message) {
        Ok(_) => Ok(()),
        Err(_) => Err(no_memory()),
    }
}

// Summarizes the blobs of a commit. Returns how many they are.
fn summarize_blobs(alloc: Global, blobs: &[Bytes]) -> io::Result<u64> {
    for blob in blobs {
        summarize(alloc, blob.as_slice())?;
    }
    Ok(blobs.len() as u64)
}

// Summarizes the blobs of the commits. Returns how many they are.
fn summarize_all(alloc: Global, commits: &[Commit]) -> io::Result<u64> {
    let mut messages = 0u64;
    for commit in commits {
        let blobs = summarize_blobs(alloc, commit.blobs.as_slice())?;
        messages = messages.saturating_add(blobs);
    }
    Ok(messages)
}

// Decodes the rows, which took so long to load, and then summarizes the messages.
fn measure_rows<T: Clock>(rt: &T, alloc: Global, rows: &[Bytes], load: u64) -> io::Result<Alone> {
    let start = Instant::now(rt)?;
    let commits = decode_rows(alloc, rows)?;
    let decode = nanos_since(rt, start)?;
    let start = Instant::now(rt)?;
    let messages = summarize_all(alloc, commits.as_slice())?;
    let parse = nanos_since(rt, start)?;
    Ok(Alone {
        load,
        decode,
        parse,
        rows: rows.len() as u64,
        messages,
    })
}

fn measure_alone<T: Clock, K: Keeper>(rt: &T, alloc: Global, keeper: &mut K) -> io::Result<Alone> {
    let start = Instant::now(rt)?;
    let rows = load_rows(alloc, keeper)?;
    let load = nanos_since(rt, start)?;
    measure_rows(rt, alloc, rows.as_slice(), load)
}

// Opens the book. Returns it, and how long that took, in nanoseconds.
fn timed_start<T: Clock, K: Keeper, R: Rules>(
    rt: &T,
    alloc: Global,
    keeper: K,
    rules: R,
) -> io::Result<(Book<K, R>, u64)> {
    let start = Instant::now(rt)?;
    let book = start_book(alloc, keeper, rules)?;
    let nanos = nanos_since(rt, start)?;
    Ok((book, nanos))
}

fn print_all<T: Print + Eprint>(rt: &T, alone: Alone, emails: usize, nanos: u64) -> io::Result<()> {
    println!(rt;
        "open: {} commits, {} messages, {emails} emails",
        alone.rows, alone.messages
    )?;
    eprintln!(rt;
        "open: {nanos} ns, load {} ns, decode {} ns, parse {} ns",
        alone.load, alone.decode, alone.parse
    )
}

/// Measures the opening of the account of a keeper: that, and then alone the loading of its rows,
/// their decoding, and the summaries of the blobs that they bring. The counts go to standard
/// output, the times to the error output.
pub(crate) fn open<T: Clock + Print + Eprint, K: Keeper, R: Rules>(
    rt: &T,
    alloc: Global,
    keeper: K,
    rules: R,
) -> io::Result<()> {
    let (book, nanos) = timed_start(rt, alloc, keeper, rules)?;
    let emails = book.account().content().emails().len();
    let mut keeper = book.end();
    let alone = measure_alone(rt, alloc, &mut keeper)?;
    print_all(rt, alone, emails, nanos)
}
