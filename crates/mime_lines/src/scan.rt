// Lines and fields at the start of a slice. Each call takes and returns slices, so that only one
// function adds up byte offsets.
ghost use Rattle.std.specs.Prelude.{◌≡◌, ◌≤◌, ◌<◌, ◌+◌, ◌∷◌, ◌++◌, length, take, drop, cond, None, Some, IfSome};
ghost use Rattle.memchr.specs.Find.{IsFirstByte, Nowhere, Passes, is_byte};
ghost use Rattle.mime_lines.specs.Lines.{lines, text};
ghost use Rattle.mime_lines.specs.Fields.{is_field, name_len, goes_on, is_name_byte};
ghost use Rattle.mime_lines.specs.Scan.{followers, others};

use crate::blocks::{BLOCK_BYTES, count_before};
use memchr::memchr;

/// Returns the byte offset of the first LF, of which none is before `at`.
fn find_line_feed_from(text: &[u8], at: usize) -> Option<usize>
    requires within { at ≤ length text.now }
    requires before { Nowhere (Passes (is_byte 10) text.now) 0 at }
    ensures { IsFirstByte (is_byte 10) text.now result }
{
    match memchr(b'\n', text.split_at(at).1) {
        Some(i) => Some(at + i),
        None => None,
    }
}

/// Returns the byte offset of the first LF.
fn find_line_feed(text: &[u8]) -> Option<usize>
    ensures { IsFirstByte (is_byte 10) text.now result }
{
    let mut at = 0;
    while text.len() - at >= BLOCK_BYTES {
        let len = count_before(text.split_at(at).1, b'\n');
        if len < BLOCK_BYTES {
            return Some(at + len);
        }
        at += BLOCK_BYTES;
    }
    find_line_feed_from(text, at)
}

/// Returns the first line, its LF included, and what follows it.
pub fn split_line(rest: &[u8]) -> (&[u8], &[u8])
    requires { 0 < length rest.now }
    ensures some { 0 < length result.0.now }
    ensures whole { rest.now ≡ result.0.now ++ result.1.now }
    ensures first { lines rest.now ≡ result.0.now ∷ lines result.1.now }
{
    match find_line_feed(rest) {
        Some(i) => rest.split_at(i + 1),
        None => rest.split_at(rest.len()),
    }
}

/// Returns whether this is an LF alone, or a CR and an LF.
pub fn is_line_end(line: &[u8]) -> bool
    ensures { result ≡ Rattle.mime_lines.specs.Lines.is_line_end line.now }
{
    match line {
        [b'\n'] => true,
        [b'\r', b'\n'] => true,
        _ => false,
    }
}

/// Returns how many bytes one or more lines have without the line end at their end.
pub fn count_text_bytes(line: &[u8]) -> usize
    ensures within { result ≤ length line.now }
    ensures value { text line.now ≡ take result line.now }
{
    let len = line.len();
    if len == 0 || line[len - 1] != b'\n' {
        return len;
    }
    if len == 1 || line[len - 2] != b'\r' {
        return len - 1;
    }
    len - 2
}

/// Returns whether a line begins with space or tab: it continues the line before it (RFC 5322,
/// section 2.2.3).
fn is_folded(line: &[u8]) -> bool
    ensures { result ≡ goes_on line.now }
{
    match line {
        [first, ..] => *first == b' ' || *first == b'\t',
        [] => false,
    }
}

/// Returns how many bytes the lines at the start have that continue the line before them.
fn count_folded_bytes(rest: &[u8]) -> usize
    ensures within { result ≤ length rest.now }
    ensures front { followers (lines rest.now) ≡ take result rest.now }
    ensures back { lines (drop result rest.now) ≡ others (lines rest.now) }
{
    let mut len = 0;
    let mut left = rest;
    while !left.is_empty() {
        let (line, more) = split_line(left);
        if !is_folded(line) {
            return len;
        }
        len += line.len();
        left = more;
    }
    len
}

/// Returns the first line with the lines that continue it, and what follows these.
pub fn split_field<'a>(rest: &'a [u8], line: &[u8], after: &[u8]) -> (&'a [u8], &'a [u8])
    requires { rest.now ≡ line.now ++ after.now }
    ensures whole { rest.now ≡ result.0.now ++ result.1.now }
    ensures front { result.0.now ≡ line.now ++ followers (lines after.now) }
    ensures back { lines result.1.now ≡ others (lines after.now) }
{
    rest.split_at(line.len() + count_folded_bytes(after))
}

/// Returns whether a byte may be in the name of a field (ftext; RFC 5322, section 3.6.8).
fn is_in_name(byte: u8) -> bool
    ensures { result ≡ is_name_byte byte }
{
    33 <= byte && byte <= 126 && byte != b':'
}

/// Returns how many bytes of a field's name are at the start.
fn count_name_bytes(line: &[u8]) -> usize
    ensures within { result ≤ length line.now }
    ensures value { result ≡ name_len line.now }
{
    for (i, byte) in line.iter().enumerate() {
        if !is_in_name(*byte) {
            return i;
        }
    }
    line.len()
}

/// Returns the byte offset of a field's colon; none if these lines are no field.
pub fn find_colon(line: &[u8]) -> Option<usize>
    ensures within { IfSome result (λ colon. colon ≤ length line.now) }
    ensures value { result ≡ cond (is_field line.now) (Some (name_len line.now)) None }
{
    let len = count_name_bytes(line);
    if 0 < len && len < line.len() && line[len] == b':' {
        Some(len)
    } else {
        None
    }
}
