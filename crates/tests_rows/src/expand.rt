// Repetitions within a text.
use crate::fault::Fault;
use crate::lines::split_at_byte;
use jm_base::{Bytes, NoMemory};
use memchr::memchr;
use memchr::memmem::find;
use std::alloc::Global;

// The most copies that a repetition may ask for.
const MOST_COPIES: u64 = 1_000_000;

// What `{%N|SEP|TEXT%}` says.
#[derive(Clone, Copy, Debug)]
struct Repetition<'a> {
    copies: u64,
    separator: &'a [u8],
    text: &'a [u8],
}

// Returns what is before and after the first place of these two bytes.
fn split_at_pair<'a>(text: &'a [u8], pair: &[u8]) -> Option<(&'a [u8], &'a [u8])> {
    let at = find(text, pair)?;
    match text.split_at_checked(at) {
        Some((before, [_, _, after @ ..])) => Some((before, after)),
        _ => None,
    }
}

/// Returns the number that these digits are.
pub(crate) fn read_number(digits: &[u8]) -> Option<u64> {
    match str::from_utf8(digits) {
        Ok(text) => text.parse::<u64>().ok(),
        Err(_) => None,
    }
}

// Returns what the bytes between `{%` and `%}` say.
fn read_repetition(inner: &[u8]) -> Option<Repetition<'_>> {
    let (digits, after) = split_at_byte(inner, b'|');
    let (separator, text) = split_at_byte(after, b'|');
    let copies = read_number(digits)?;
    if copies > MOST_COPIES || text.is_empty() {
        return None;
    }
    Some(Repetition {
        copies,
        separator,
        text,
    })
}

// Appends the text with the number in place of each `#`.
fn append_copy(out: &mut Bytes, text: &[u8], number: &[u8]) -> Result<(), NoMemory> {
    let mut rest = text;
    for _ in 0..text.len() {
        let (before, after) = split_at_byte(rest, b'#');
        out.append(before)?;
        if before.len() == rest.len() {
            return Ok(());
        }
        out.append(number)?;
        rest = after;
    }
    Ok(())
}

fn append_repetition(
    alloc: Global,
    out: &mut Bytes,
    repetition: Repetition<'_>,
) -> Result<(), NoMemory> {
    let is_numbered = memchr(b'#', repetition.text).is_some();
    for at in 0..repetition.copies {
        if at > 0 {
            out.append(repetition.separator)?;
        }
        if is_numbered {
            let number = format!(in alloc; "{}", at.saturating_add(1))?;
            append_copy(out, repetition.text, number.as_bytes())?;
        } else {
            out.append(repetition.text)?;
        }
    }
    Ok(())
}

// Appends what a repetition, of which this is all after `{%`, stands for. Returns what follows it.
fn expand_one<'a>(
    alloc: Global,
    out: &mut Bytes,
    number: u64,
    opened: &'a [u8],
) -> Result<&'a [u8], Fault> {
    let Some((inner, after)) = split_at_pair(opened, b"%}") else {
        return Err(Fault::Line(number, "a repetition that doesn't end"));
    };
    let Some(repetition) = read_repetition(inner) else {
        return Err(Fault::Line(number, "no repetition of the form {%N|SEP|TEXT%}"));
    };
    append_repetition(alloc, out, repetition)?;
    Ok(after)
}

/// Appends the text of the line with this number, with each repetition written out.
pub(crate) fn append_expanded(
    alloc: Global,
    out: &mut Bytes,
    number: u64,
    text: &[u8],
) -> Result<(), Fault> {
    let mut rest = text;
    for _ in 0..text.len() {
        let Some((before, opened)) = split_at_pair(rest, b"{%") else {
            break;
        };
        out.append(before)?;
        rest = expand_one(alloc, out, number, opened)?;
    }
    out.append(rest)?;
    Ok(())
}

/// Returns the text of the line with this number, with each repetition written out.
pub(crate) fn expand(alloc: Global, number: u64, text: &[u8]) -> Result<Bytes, Fault> {
    let mut out = Bytes::new(alloc);
    append_expanded(alloc, &mut out, number, text)?;
    Ok(out)
}
