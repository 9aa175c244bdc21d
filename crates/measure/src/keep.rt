// Encoding and decoding of commits next to a plain copy of their bytes.
ghost use Rattle.std.specs.Prelude.{IfOk, All};
ghost use Rattle.mail_records.specs.Commits.{IsFormed};

use crate::timing::{RUNS, median, nanos_since, no_memory};
use jm_base::{Bytes, NoMemory};
use mail_records::Commit;
use record_codec::{decode, encode};
use std::alloc::Global;
use std::rt::Files;
use std::time::{Clock, Instant};
use std::{fs, io};

// How long one run took, in nanoseconds.
#[derive(Clone, Copy, Debug)]
struct Times {
    copy: u64,
    decode: u64,
    encode: u64,
}

fn invalid() -> io::Error {
    io::Error::from(io::ErrorKind::InvalidData)
}

// Returns the first row of the bytes, and the bytes after it. A row is its length, as a big-endian
// number of 8 bytes, and its bytes.
fn read_row(bytes: &[u8]) -> Option<(&[u8], &[u8])> {
    if bytes.len() < 8 {
        return None;
    }
    let (head, rest) = bytes.split_at(8);
    let length = u64::from_be_bytes([
        head[0], head[1], head[2], head[3], head[4], head[5], head[6], head[7],
    ]);
    if (rest.len() as u64) < length {
        return None;
    }
    Some(rest.split_at(length as usize))
}

// Returns the rows that the bytes are.
fn read_rows(alloc: Global, bytes: &[u8]) -> io::Result<Vec<&[u8]>> {
    let mut rows = Vec::new(alloc);
    let mut rest = bytes;
    for _ in 0..bytes.len() {
        let Some((row, after)) = read_row(rest) else {
            break;
        };
        rows.push(row)?;
        rest = after;
    }
    if rest.is_empty() {
        Ok(rows)
    } else {
        Err(invalid())
    }
}

// Returns copies of the rows, each in memory of its own.
fn copied(alloc: Global, rows: &[&[u8]]) -> Result<Vec<Bytes>, NoMemory> {
    let mut copies = Vec::new(alloc);
    for row in rows {
        copies.push(Bytes::from_slice(alloc, row)?)?;
    }
    Ok(copies)
}

fn commit_of(alloc: Global, row: &[u8]) -> io::Result<Commit>
    ensures { IfOk result (λ c. IsFormed c) }
{
    match decode(alloc, row) {
        Ok(commit) => Ok(commit),
        Err(_) => Err(invalid()),
    }
}

// Returns the commits that the rows encode.
fn decoded(alloc: Global, rows: &[&[u8]]) -> io::Result<Vec<Commit>>
    ensures { IfOk result (λ v. All (λ c. IsFormed c) v.items) }
{
    let mut commits = Vec::new(alloc);
    for row in rows {
        commits.push(commit_of(alloc, row)?)?;
    }
    Ok(commits)
}

// Returns the rows that encode the commits.
fn encoded(alloc: Global, commits: &[Commit]) -> Result<Vec<Bytes>, NoMemory>
    requires { All (λ c. IsFormed c) commits.now }
{
    let mut rows = Vec::new(alloc);
    for commit in commits {
        rows.push(encode(alloc, commit)?)?;
    }
    Ok(rows)
}

// Returns whether the rows are equal.
fn are_equal(written: &[Bytes], rows: &[&[u8]]) -> bool {
    written.len() == rows.len()
        && written
            .iter()
            .zip(rows.iter())
            .all(|(one, other)| one.as_slice() == *other)
}

fn edits_in(commits: &[Commit]) -> u64 {
    let mut edits = 0u64;
    for commit in commits {
        edits = edits.saturating_add(commit.edits.len() as u64);
    }
    edits
}

// Copies the rows, then decodes them, then encodes them again. Returns the times, and the number of
// edits.
fn one_run<R: Clock>(rt: &R, alloc: Global, rows: &[&[u8]]) -> io::Result<(Times, u64)> {
    let start = Instant::now(rt)?;
    let copies = copied(alloc, rows).map_err(|_| no_memory())?;
    let copy = nanos_since(rt, start)?;
    let start = Instant::now(rt)?;
    let commits = decoded(alloc, rows)?;
    let decode = nanos_since(rt, start)?;
    let start = Instant::now(rt)?;
    let written = encoded(alloc, &commits).map_err(|_| no_memory())?;
    let encode = nanos_since(rt, start)?;
    if !are_equal(&written, rows) || !are_equal(&copies, rows) {
        return Err(invalid());
    }
    let times = Times {
        copy,
        decode,
        encode,
    };
    Ok((times, edits_in(&commits)))
}

// Returns the medians of the times of all runs, and the number of edits.
fn runs<R: Clock>(rt: &R, alloc: Global, rows: &[&[u8]]) -> io::Result<(Times, u64)> {
    let mut copy = [0; RUNS];
    let mut decode = [0; RUNS];
    let mut encode = [0; RUNS];
    let mut edits = 0;
    for run in 0..RUNS {
        let (times, counted) = one_run(rt, alloc, rows)?;
        copy[run] = times.copy;
        decode[run] = times.decode;
        encode[run] = times.encode;
        edits = counted;
    }
    let times = Times {
        copy: median(copy),
        decode: median(decode),
        encode: median(encode),
    };
    Ok((times, edits))
}

/// Measures the commits of a file: its rows are copied, decoded and encoded again. Each row is its
/// length, as a big-endian number of 8 bytes, and the bytes of a commit. The counts go to standard
/// output, the times to the error output.
pub(crate) fn measure_keep<R: Clock + Print + Eprint + Files + AllocGlobal>(
    rt: &R,
    file: &str,
) -> io::Result<()> {
    let bytes = fs::read(rt, file)?;
    let rows = read_rows(rt.alloc(), &bytes)?;
    let (times, edits) = runs(rt, rt.alloc(), &rows)?;
    println!(rt;
        "keep: {} commits, {edits} edits, {} bytes",
        rows.len(),
        bytes.len()
    )?;
    eprintln!(rt;
        "keep: copy {} ns, decode {} ns, encode {} ns",
        times.copy, times.decode, times.encode
    )
}
