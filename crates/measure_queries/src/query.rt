// Queries over generated emails, and the changes of a log.
use crate::store::{Store, edits, make_store};
use crate::timing::{RUNS, median, nanos_since, no_memory};
use change_calls::answer_changes;
use jm_base::{Bytes, Kind, NoMemory};
use jm_json::{Json, read, write_after};
use mail_records::Edit;
use message_texts::BlobTexts;
use query_engine::answer_query;
use state_log::{Log, note_all_ready};
use std::alloc::Global;
use std::io;
use std::time::{Clock, Instant};

// The name of a query, and its arguments.
const QUERIES: [(&str, &str); 6] = [
    (
        "inbox",
        "{\"accountId\":\"A1\",\"filter\":{\"inMailbox\":\"M1\"},\"sort\":[{\"property\":\"receivedAt\",\"isAscending\":false}],\"collapseThreads\":true,\"limit\":30}",
    ),
    (
        "keyword",
        "{\"accountId\":\"A1\",\"filter\":{\"hasKeyword\":\"$flagged\"},\"sort\":[{\"property\":\"receivedAt\",\"isAscending\":false}],\"limit\":30}",
    ),
    (
        "total",
        "{\"accountId\":\"A1\",\"filter\":{\"hasKeyword\":\"$flagged\"},\"sort\":[{\"property\":\"receivedAt\",\"isAscending\":false}],\"calculateTotal\":true,\"limit\":30}",
    ),
    (
        "from_page",
        "{\"accountId\":\"A1\",\"filter\":{\"from\":\"person 97\"},\"sort\":[{\"property\":\"receivedAt\",\"isAscending\":false}],\"limit\":30}",
    ),
    (
        "from",
        "{\"accountId\":\"A1\",\"filter\":{\"from\":\"person 97\"},\"calculateTotal\":true,\"limit\":30}",
    ),
    (
        "text",
        "{\"accountId\":\"A1\",\"filter\":{\"text\":\"Zebra\"},\"calculateTotal\":true,\"limit\":30}",
    ),
];

fn invalid() -> io::Error {
    io::Error::from(io::ErrorKind::InvalidData)
}

fn read_tree(alloc: Global, text: &str) -> io::Result<Json> {
    match read(alloc, text.as_bytes()) {
        Ok(tree) => Ok(tree),
        Err(_) => Err(invalid()),
    }
}

fn answer(alloc: Global, store: &Store, args: &Json) -> io::Result<Json> {
    let texts = BlobTexts {
        alloc,
        blobs: &store.blobs,
    };
    match answer_query(alloc, Kind::Email, 1, &store.content, &texts, args) {
        Ok(reply) => Ok(reply),
        Err(_) => Err(invalid()),
    }
}

// Asks a query, and prints the reply and the median of the times.
fn measure_one<R: Clock + Print + Eprint + AllocGlobal>(
    rt: &R,
    store: &Store,
    name: &str,
    args: &str,
) -> io::Result<()> {
    let alloc = rt.alloc();
    let args = read_tree(alloc, args)?;
    let mut nanos = [0; RUNS];
    for run in 0..RUNS {
        let start = Instant::now(rt)?;
        let _reply = answer(alloc, store, &args)?;
        nanos[run] = nanos_since(rt, start)?;
    }
    print_reply(rt, name, &answer(alloc, store, &args)?)?;
    eprintln!(rt; "query {name}: {} ns", median(nanos))
}

fn print_reply<R: Print + AllocGlobal>(rt: &R, name: &str, reply: &Json) -> io::Result<()> {
    let mut text = Bytes::new(rt.alloc());
    write_after(rt.alloc(), &mut text, reply).map_err(|_| no_memory())?;
    match str::from_utf8(text.as_slice()) {
        Ok(text) => println!(rt; "query {name}: {text}"),
        Err(_) => Err(invalid()),
    }
}

fn log_of(alloc: Global, edits: &[Edit]) -> Result<Log, NoMemory> {
    let mut log = Log::new(alloc, 0, 0, 0, 0);
    log.reserve(edits)?;
    note_all_ready(&mut log, edits);
    Ok(log)
}

fn find_changes(alloc: Global, log: &Log, args: &Json) -> io::Result<Json> {
    match answer_changes(alloc, log, Kind::Email, args) {
        Ok(reply) => Ok(reply),
        Err(_) => Err(invalid()),
    }
}

// Asks for the changes by the last hundred edits, and prints the reply and the median of the times.
fn measure_changes<R: Clock + Print + Eprint + AllocGlobal>(
    rt: &R,
    log: &Log,
    count: u64,
) -> io::Result<()> {
    let alloc = rt.alloc();
    let args = format!(in alloc;
        "{{\"accountId\":\"A1\",\"sinceState\":\"{}\"}}",
        count.saturating_sub(100)
    )?;
    let args = read_tree(alloc, args.as_str())?;
    let mut nanos = [0; RUNS];
    for run in 0..RUNS {
        let start = Instant::now(rt)?;
        let _reply = find_changes(alloc, log, &args)?;
        nanos[run] = nanos_since(rt, start)?;
    }
    print_reply(rt, "changes", &find_changes(alloc, log, &args)?)?;
    eprintln!(rt; "query changes: {} ns", median(nanos))
}

/// Measures queries over so many emails, and the changes by the last hundred of so many edits. The
/// replies go to standard output, the times to the error output.
pub(crate) fn measure_query<R: Clock + Print + Eprint + AllocGlobal>(
    rt: &R,
    count: u64,
) -> io::Result<()> {
    let store = make_store(rt.alloc(), count)?;
    for (name, args) in QUERIES {
        measure_one(rt, &store, name, args)?;
    }
    let edits = edits(rt.alloc(), count).map_err(|_| no_memory())?;
    let log = log_of(rt.alloc(), &edits).map_err(|_| no_memory())?;
    measure_changes(rt, &log, count)
}
