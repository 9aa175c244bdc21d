// What is printed of a row that can't be run or whose outcome is not the wanted one.
use crate::escapes::append_escaped;
use jm_base::{Bytes, NoMemory};
use std::alloc::Global;

// How many bytes are shown of a text, and how many of them before the first difference at most.
const MOST_SHOWN: usize = 2_000;

const MOST_BEFORE: usize = 500;

/// A row, or a whole file where the name is empty, and a line of the file, or none where it is 0.
#[derive(Clone, Copy)]
pub(crate) struct Place<'a> {
    pub(crate) file: &'a str,
    pub(crate) line: u64,
    pub(crate) name: &'a [u8],
}

impl<'a> Place<'a> {
    /// Returns the same row with another line.
    pub(crate) fn at(self, line: u64) -> Place<'a> {
        let Place { file, name, .. } = self;
        Place { file, line, name }
    }
}

fn append_place(alloc: Global, report: &mut Bytes, place: Place<'_>) -> Result<(), NoMemory> {
    report.append(place.file.as_bytes())?;
    if place.line > 0 {
        let line = format!(in alloc; ":{}", place.line)?;
        report.append(line.as_bytes())?;
    }
    if !place.name.is_empty() {
        report.append(b": ")?;
        report.append(place.name)?;
    }
    report.append(b": ")
}

/// Says something of a row.
pub(crate) fn say(
    alloc: Global,
    report: &mut Bytes,
    place: Place<'_>,
    what: &str,
) -> Result<(), NoMemory> {
    append_place(alloc, report, place)?;
    report.append(what.as_bytes())?;
    report.append(b"\n")
}

// Returns how many bytes two texts begin with that are the same.
fn count_common(one: &[u8], other: &[u8]) -> usize {
    let mut count = 0usize;
    for (left, right) in one.iter().zip(other.iter()) {
        if *left != *right {
            break;
        }
        count = count.saturating_add(1);
    }
    count
}

// Shows a text from a place on.
fn append_shown(report: &mut Bytes, text: &[u8], from: usize) -> Result<(), NoMemory> {
    let rest = match text.split_at_checked(from) {
        Some((_, rest)) => rest,
        None => &[],
    };
    if from > 0 {
        report.append(b"... ")?;
    }
    match rest.split_at_checked(MOST_SHOWN) {
        Some((shown, _)) => {
            append_escaped(report, shown)?;
            report.append(b" ...\n")
        }
        None => {
            append_escaped(report, rest)?;
            report.append(b"\n")
        }
    }
}

/// Says that a text is not the wanted one, and shows both, in the form of the lines `<<`.
pub(crate) fn say_texts(
    alloc: Global,
    report: &mut Bytes,
    place: Place<'_>,
    wanted: &[u8],
    got: &[u8],
) -> Result<(), NoMemory> {
    let common = count_common(wanted, got);
    let what = format!(in alloc; "differs at byte {common}")?;
    say(alloc, report, place, what.as_str())?;
    let from = common.saturating_sub(MOST_BEFORE);
    report.append(b"  wanted: ")?;
    append_shown(report, wanted, from)?;
    report.append(b"  got:    ")?;
    append_shown(report, got, from)
}
