// Appends of rows to a file, each in a transaction of its own.

use crate::timing::{nanos_since, no_memory};
use jm_base::Text;
use jm_edge::EdgeFault;
use keep_port::Keeper;
use keep_sqlite::{Opens, SqliteKeeper};
use sqlite::Alter;
use std::alloc::Global;
use std::io;
use std::time::{Clock, Instant};

// How many rows are appended.
const ROWS: u64 = 1000;

// A row of 200 bytes.
const ROW: [u8; 200] = [b'x'; 200];

fn io_fault(fault: EdgeFault) -> io::Error {
    match fault {
        EdgeFault::NoMemory => no_memory(),
        EdgeFault::Failed => io::Error::from(io::ErrorKind::Other),
    }
}

fn append_rows<K: Keeper>(alloc: Global, keeper: &mut K) -> Result<(), EdgeFault> {
    for _ in 0..ROWS {
        keeper.append(alloc, &ROW)?;
    }
    Ok(())
}

// Returns the nanoseconds of the appends, without the opening.
fn timed_appends<R: Clock, K: Keeper>(rt: &R, alloc: Global, keeper: &mut K) -> io::Result<u64> {
    let start = Instant::now(rt)?;
    append_rows(alloc, keeper).map_err(io_fault)?;
    nanos_since(rt, start)
}

// Returns how many rows a keeper has.
fn count_rows<K: Keeper>(alloc: Global, keeper: &mut K) -> io::Result<usize> {
    Ok(keeper.load(alloc).map_err(io_fault)?.rows.len())
}

// Measures appends to a keeper that is opened first.
fn measure_keeper<R: Clock + Print + Eprint, S: Alter + Drop + Send, O: Opens<S> + Send>(
    rt: &R,
    alloc: Global,
    mut keeper: SqliteKeeper<S, O>,
) -> io::Result<()> {
    count_rows(alloc, &mut keeper)?;
    let nanos = timed_appends(rt, alloc, &mut keeper)?;
    let rows = count_rows(alloc, &mut keeper)?;
    println!(rt; "append: {rows} rows")?;
    eprintln!(rt; "append: {nanos} ns")
}

/// Measures appends to a file, which is created if there is none. The number of rows that the file
/// has then goes to standard output, the time of the appends to the error output.
pub(crate) fn measure_append(rt: &HostRuntime, file: &str) -> io::Result<()> {
    match Text::from_str(rt.alloc(), file) {
        Ok(path) => measure_keeper(rt, rt.alloc(), SqliteKeeper::open_later(rt, path)),
        Err(_) => Err(no_memory()),
    }
}
