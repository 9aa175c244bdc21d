// The lines of a file of rows.
use crate::fault::Fault;
use memchr::memchr;
use std::alloc::Global;

/// What a line says.
#[derive(Clone, Copy, Debug, PartialEq, Eq)]
pub(crate) enum Mark {
    /// A row begins.
    Name,
    /// Input, with the line's end.
    Input,
    /// Input with escapes and no line end.
    InputPart,
    /// Wanted output, with the line's end.
    Wanted,
    /// Wanted output with escapes and no line end.
    WantedPart,
    /// A request of one call.
    Request,
    /// A wanted response to it.
    Response,
    /// An upload.
    Upload,
    /// How the row is run, and how it ends.
    Setting,
}

/// A line: its number in the file, from 1, its mark, and the text after the mark and a blank.
#[derive(Clone, Copy, Debug)]
pub(crate) struct Line<'a> {
    pub(crate) number: u64,
    pub(crate) mark: Mark,
    pub(crate) text: &'a [u8],
}

fn find_input_mark(word: &[u8]) -> Option<Mark> {
    if word == b">".as_slice() {
        return Some(Mark::Input);
    }
    if word == b">>".as_slice() {
        return Some(Mark::InputPart);
    }
    if word == b"?".as_slice() {
        return Some(Mark::Request);
    }
    if word == b"+".as_slice() {
        return Some(Mark::Upload);
    }
    None
}

fn find_mark(word: &[u8]) -> Option<Mark> {
    if word == b"==".as_slice() {
        return Some(Mark::Name);
    }
    if word == b"<".as_slice() {
        return Some(Mark::Wanted);
    }
    if word == b"<<".as_slice() {
        return Some(Mark::WantedPart);
    }
    if word == b"!".as_slice() {
        return Some(Mark::Response);
    }
    if word == b":".as_slice() {
        return Some(Mark::Setting);
    }
    find_input_mark(word)
}

/// Returns what is before the first such byte, and what is after it. Without one all is before it.
pub(crate) fn split_at_byte(text: &[u8], byte: u8) -> (&[u8], &[u8]) {
    let Some(at) = memchr(byte, text) else {
        return (text, &[]);
    };
    match text.split_at_checked(at) {
        Some((before, [_, after @ ..])) => (before, after),
        _ => (text, &[]),
    }
}

// Returns the line of these bytes, or the fault that they are none.
fn read_line(number: u64, bytes: &[u8]) -> Result<Line<'_>, Fault> {
    let (word, text) = split_at_byte(bytes, b' ');
    match find_mark(word) {
        Some(mark) => Ok(Line { number, mark, text }),
        None => Err(Fault::Line(number, "no line of the format")),
    }
}

/// Returns the lines of a file that are not empty and no comments.
pub(crate) fn read_lines(alloc: Global, file: &[u8]) -> Result<Vec<Line<'_>>, Fault> {
    let mut lines = Vec::new(alloc);
    let mut rest = file;
    let mut number = 0u64;
    for _ in 0..file.len() {
        let (bytes, after) = split_at_byte(rest, b'\n');
        rest = after;
        number = number.saturating_add(1);
        if !bytes.is_empty() && !bytes.starts_with(b"#") {
            lines.push(read_line(number, bytes)?)?;
        }
    }
    Ok(lines)
}
