// Rows that are run, and what is said of those that are not as wanted.
use crate::compare::{Difference, find_difference};
use crate::fault::Fault;
use crate::kept_rows::show_rows;
use crate::lines::{Line, read_lines, split_at_byte};
use crate::report::{Place, say, say_texts};
use crate::requests::Kind;
use crate::rows::{Block, Row, is_named_in, split_block, split_setup, wants_something};
use crate::running::{Ran, run_row};
use crate::world::{Input, whole};
use jm_base::{Bytes, NoMemory};
use std::alloc::Global;
use std::sync::Wait;
use std::thread::Threads;

// Says what is wrong with the status or one of the two outputs that are compared as a whole.
// Returns whether nothing is.
fn check_end(
    alloc: Global,
    row: &Row<'_>,
    ran: &Ran,
    place: Place<'_>,
    report: &mut Bytes,
) -> Result<bool, NoMemory> {
    if ran.status != row.options.status {
        let what = format!(in alloc; "status {}, wanted {}", ran.status, row.options.status)?;
        say(alloc, report, place, what.as_str())?;
    }
    let error = row.options.error.as_slice();
    if ran.error.as_slice() != error {
        say(alloc, report, place, "the error output")?;
        say_texts(alloc, report, place, error, ran.error.as_slice())?;
    }
    let out = row.options.out.as_slice();
    if row.kind == Kind::Connection && ran.out.as_slice() != out {
        say(alloc, report, place, "standard output")?;
        say_texts(alloc, report, place, out, ran.out.as_slice())?;
    }
    Ok(
        ran.status == row.options.status
            && ran.error.as_slice() == error
            && (row.kind == Kind::Lines || ran.out.as_slice() == out),
    )
}

// Says which account's keeper doesn't hold the wanted rows. Returns whether each does.
fn check_left(
    alloc: Global,
    row: &Row<'_>,
    ran: &Ran,
    place: Place<'_>,
    report: &mut Bytes,
) -> Result<bool, NoMemory> {
    for one in row.options.left.as_slice() {
        let account = one.account.as_slice();
        let wanted = show_rows(alloc, row.options.left.as_slice(), account)?;
        let got = show_rows(alloc, ran.left.as_slice(), account)?;
        if got.as_slice() != wanted.as_slice() {
            say(alloc, report, place, "the rows of an account")?;
            say_texts(alloc, report, place, wanted.as_slice(), got.as_slice())?;
            return Ok(false);
        }
    }
    Ok(true)
}

// Says where the output differs. Of `batch` it shows the line that differs.
fn say_difference(
    alloc: Global,
    kind: Kind,
    place: Place<'_>,
    difference: Difference<'_, '_>,
    report: &mut Bytes,
) -> Result<(), NoMemory> {
    let got = if kind == Kind::Lines && difference.wanted.ends_with(b"\n") {
        let (line, after) = split_at_byte(difference.got, b'\n');
        if after.is_empty() {
            difference.got
        } else {
            line
        }
    } else {
        difference.got
    };
    let place = place.at(difference.line);
    say_texts(alloc, report, place, difference.wanted, got)
}

// Returns the output that is compared step by step.
fn choose_output(kind: Kind, ran: &Ran) -> &[u8] {
    match kind {
        Kind::Lines => ran.out.as_slice(),
        Kind::Connection => ran.written.as_slice(),
    }
}

// Runs a row over this input, which its own begins with. Returns whether all is as wanted.
fn check_run(
    rt: &(impl Threads + Wait + Sync),
    alloc: Global,
    row: &Row<'_>,
    input: Input<'_>,
    place: Place<'_>,
    report: &mut Bytes,
) -> Result<bool, NoMemory> {
    let Ok(arguments) = str::from_utf8(row.options.arguments.as_slice()) else {
        say(alloc, report, place, "arguments that are not UTF-8")?;
        return Ok(false);
    };
    let ran = run_row(rt, alloc, row, arguments, input)?;
    let text = choose_output(row.kind, &ran);
    let ends_so = check_end(alloc, row, &ran, place, report)?;
    let difference = find_difference(
        row.is_whole_batch(),
        row.script.steps.as_slice(),
        row.script.input.as_slice(),
        row.script.wanted.as_slice(),
        input.bytes.len(),
        text,
    );
    match difference {
        Some(difference) => {
            say_difference(alloc, row.kind, place, difference, report)?;
            Ok(false)
        }
        None => Ok(ends_so && check_left(alloc, row, &ran, place, report)?),
    }
}

// Runs a row with its input in two pieces, cut after each byte, and in pieces of one byte. It stops
// at the first run that is not as wanted.
fn check_cuts(
    rt: &(impl Threads + Wait + Sync),
    alloc: Global,
    row: &Row<'_>,
    place: Place<'_>,
    report: &mut Bytes,
) -> Result<bool, NoMemory> {
    let bytes = row.script.input.as_slice();
    for first in 0..bytes.len() {
        let most = if first == 0 { 1 } else { usize::MAX };
        let input = Input { bytes, first, most };
        if !check_run(rt, alloc, row, input, place, report)? {
            let what = format!(in alloc; "with its input cut after {first} bytes")?;
            say(alloc, report, place, what.as_str())?;
            return Ok(false);
        }
    }
    Ok(true)
}

// Runs a row with each beginning of its input that is shorter. It stops at the first run that is not
// as wanted.
fn check_beginnings(
    rt: &(impl Threads + Wait + Sync),
    alloc: Global,
    row: &Row<'_>,
    place: Place<'_>,
    report: &mut Bytes,
) -> Result<bool, NoMemory> {
    let all = row.script.input.as_slice();
    for end in 0..all.len() {
        let bytes = match all.split_at_checked(end) {
            Some((bytes, _)) => bytes,
            None => all,
        };
        if !check_run(rt, alloc, row, whole(bytes), place, report)? {
            let what = format!(in alloc; "with the first {end} bytes of its input")?;
            say(alloc, report, place, what.as_str())?;
            return Ok(false);
        }
    }
    Ok(true)
}

// Runs a row in each way that it says. Returns whether it is as wanted.
fn check_row(
    rt: &(impl Threads + Wait + Sync),
    alloc: Global,
    row: &Row<'_>,
    place: Place<'_>,
    report: &mut Bytes,
) -> Result<bool, NoMemory> {
    let piece = row.options.piece;
    let input = Input {
        bytes: row.script.input.as_slice(),
        first: piece,
        most: piece,
    };
    if !check_run(rt, alloc, row, input, place, report)? {
        return Ok(false);
    }
    if row.options.is_cut && !check_cuts(rt, alloc, row, place, report)? {
        return Ok(false);
    }
    if row.options.is_shortened {
        return check_beginnings(rt, alloc, row, place, report);
    }
    Ok(true)
}

// Reads a row and runs it. Returns whether it is as wanted.
fn check_block(
    rt: &(impl Threads + Wait + Sync),
    alloc: Global,
    kind: Kind,
    block: &Block<'_>,
    place: Place<'_>,
    report: &mut Bytes,
) -> Result<bool, NoMemory> {
    if !wants_something(block.lines) {
        say(alloc, report, place, "the row wants nothing")?;
        return Ok(false);
    }
    match Row::read(alloc, kind, block) {
        Ok(row) => check_row(rt, alloc, &row, place, report),
        Err(Fault::NoMemory) => Err(NoMemory),
        Err(Fault::Line(number, why)) => {
            say(alloc, report, place.at(number), why)?;
            Ok(false)
        }
    }
}

// Runs the rows of these lines. Returns how many are as wanted.
fn check_lines(
    rt: &(impl Threads + Wait + Sync),
    alloc: Global,
    kind: Kind,
    lines: &[Line<'_>],
    file: Place<'_>,
    report: &mut Bytes,
) -> Result<u64, NoMemory> {
    let (setup, rows) = split_setup(lines);
    if rows.is_empty() {
        say(alloc, report, file, "no row")?;
    }
    let mut rest = rows;
    let mut count = 0u64;
    for _ in 0..rows.len() {
        let Some((block, after)) = split_block(setup, rest) else {
            break;
        };
        rest = after;
        let place = Place {
            file: file.file,
            line: block.name.number,
            name: block.name.text,
        };
        if is_named_in(after, block.name.text) || block.name.text.is_empty() {
            say(alloc, report, place, "no name, or one that a later row has")?;
        } else if check_block(rt, alloc, kind, &block, place, report)? {
            count = count.saturating_add(1);
        }
    }
    Ok(count)
}

/// Runs the rows of a file. Returns how many are as wanted.
pub(crate) fn check_rows(
    rt: &(impl Threads + Wait + Sync),
    alloc: Global,
    kind: Kind,
    bytes: &[u8],
    file: Place<'_>,
    report: &mut Bytes,
) -> Result<u64, NoMemory> {
    match read_lines(alloc, bytes) {
        Ok(lines) => check_lines(rt, alloc, kind, lines.as_slice(), file, report),
        Err(Fault::NoMemory) => Err(NoMemory),
        Err(Fault::Line(number, why)) => {
            say(alloc, report, file.at(number), why)?;
            Ok(0)
        }
    }
}
