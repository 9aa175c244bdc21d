// Where the head of a message ends.
ghost use Rattle.std.specs.Prelude.{◌≡◌, ◌<◌, ◌≤◌, ◌+◌, length, drop, IfSome, None};
ghost use Rattle.memchr.specs.Find.{IsFirstByte, is_byte};
ghost use Rattle.mime_lines.specs.Lines.{lines};
ghost use Rattle.http_parts.specs.declared.limits.TheConstants.{MAX_HEAD_BYTES};
ghost use Rattle.http_parts.specs.Views.{start_as, IsStartWithin, IsShort};
ghost use Rattle.http_parts.specs.Heads.{empty_bytes, after_empty, head_size, beginning_of};
ghost use Rattle.http_parts.specs.Searches.{IsSearched};

use crate::limits::{MAX_HEAD_BYTES, MAX_HEAD_FIELDS};
use memchr::memchr;
use mime_lines::{is_line_end, split_line};

/// How many bytes some lines have up to the end of the first empty one, and how many lines are
/// before it.
#[derive(Clone, Copy, Debug, PartialEq, Eq)]
pub(crate) struct HeadSize {
    pub bytes: usize,
    pub lines: usize,
}

/// The byte offsets between which a head is. Before it are only empty lines.
#[derive(Clone, Copy, Debug, PartialEq, Eq)]
pub struct HeadSpan {
    pub start: usize,
    pub end: usize,
}

/// What is at the beginning of some bytes: a head that is too long, one that has not ended, or one
/// that is there.
#[derive(Clone, Copy, Debug, PartialEq, Eq)]
pub(crate) enum Start {
    TooLong,
    Unfinished,
    Ended(HeadSpan),
}

// Returns how many bytes the empty line at the beginning has: 0 if there is none.
fn count_line_end(bytes: &[u8]) -> usize
    ensures bound { result ≤ length bytes.now }
    ensures goes_on { empty_bytes (lines bytes.now) ≡ result + empty_bytes (lines (drop result
        bytes.now)) }
    ensures ends { result ≡ 0 → empty_bytes (lines bytes.now) ≡ 0 }
    ensures rest { after_empty (lines bytes.now) ≡ after_empty (lines (drop result bytes.now)) }
    ensures begun { result ≡ 0 → after_empty (lines bytes.now) ≡ lines bytes.now }
{
    match bytes.split_first() {
        Some((b'\n', _)) => 1,
        Some((b'\r', rest)) => { if rest.first() == Some(&b'\n') { 2 } else { 0 } }
        _ => 0,
    }
}

// Returns how many bytes the empty lines at the beginning have.
pub(crate) fn count_empty(bytes: &[u8]) -> usize
    ensures bound { result ≤ length bytes.now }
    ensures value { result ≡ empty_bytes (lines bytes.now) }
    ensures rest { after_empty (lines bytes.now) ≡ lines (drop result bytes.now) }
{
    let mut rest = bytes;
    let mut count = 0;
    'line: while count_line_end(rest) > 0 {
        let (front, after) = rest.split_at(count_line_end(rest));
        count += front.len();
        rest = after;
    }
    count
}

// Returns where the first empty line ends.
pub(crate) fn find_end(bytes: &[u8]) -> Option<HeadSize>
    ensures bound { IfSome result (λ s. s.bytes ≤ length bytes.now) }
    ensures value { result ≡ head_size (lines bytes.now) }
{
    let mut rest = bytes;
    let mut size = HeadSize { bytes: 0, lines: 0 };
    'line: while !rest.is_empty() {
        let (line, after) = split_line(rest);
        size.bytes += line.len();
        if is_line_end(line) {
            return Some(size);
        }
        size.lines += 1;
        rest = after;
    }
    None
}

/// How far the search for the end of a head has come: where the head begins, after the empty lines
/// before it; where the line begins that has not ended; how many bytes were looked at; and how many
/// lines of the head have ended, none of which is empty.
#[derive(Clone, Copy)]
pub(crate) struct HeadSearch {
    pub start: usize,
    pub line: usize,
    pub seen: usize,
    pub lines: usize,
}

// A head whose end was found: where it begins, and its size.
#[derive(Clone, Copy)]
struct FoundHead {
    start: usize,
    size: HeadSize,
}

// Returns how many bytes there are from this place on before the next LF.
fn count_to_line_feed(bytes: &[u8], from: usize) -> Option<usize>
    requires { from ≤ length bytes.now }
    ensures { IsFirstByte (is_byte 10) (drop from bytes.now) result }
{
    let (_, rest) = bytes.split_at(from);
    memchr(b'\n', rest)
}

impl HeadSearch {
    ghost use Rattle.std.specs.Prelude.{List, ℕ};
    ghost use Rattle.http_parts.specs.Searches.{IsSearched, IsFound, search_after};

    /// Returns the search at its beginning.
    pub(crate) fn new() -> HeadSearch
        ensures { (bytes : List ℕ) → IsSearched bytes result }
    {
        HeadSearch {
            start: 0,
            line: 0,
            seen: 0,
            lines: 0,
        }
    }

    // Returns the search after a line that ends here and is empty or not. None if the head ends
    // with it.
    fn pass_line(self, empty: bool, end: usize) -> Option<HeadSearch>
        requires { self.lines < end }
        ensures { result ≡ search_after self empty end }
    {
        if !empty {
            return Some(HeadSearch {
                start: self.start,
                line: end,
                seen: end,
                lines: self.lines + 1,
            });
        }
        if self.lines > 0 {
            return None;
        }
        Some(HeadSearch {
            start: end,
            line: end,
            seen: end,
            lines: 0,
        })
    }

    // Goes on with the search in the bytes that were not looked at, until the head ends.
    fn go_on(&mut self, bytes: &[u8]) -> Option<FoundHead>
        requires { IsSearched bytes.now self.old }
        ensures found { IfSome result (IsFound bytes.now) }
        ensures none { result ≡ None → head_size (after_empty (lines bytes.now)) ≡ None }
        ensures searched { result ≡ None → IsSearched bytes.now self.new }
    {
        let mut at = *self;
        'line: while let Some(count) = count_to_line_feed(bytes, at.seen) {
            let end = at.seen + count + 1;
            let empty = is_line_end(&bytes[at.line..end]);
            match at.pass_line(empty, end) {
                Some(next) => at = next,
                None => {
                    let size = HeadSize {
                        bytes: end - at.start,
                        lines: at.lines,
                    };
                    return Some(FoundHead {
                        start: at.start,
                        size,
                    });
                }
            }
        }
        at.seen = bytes.len();
        *self = at;
        None
    }
}

// Returns where the head of the first message is. The search goes on where it stopped.
pub(crate) fn find_head(bytes: &[u8], search: &mut HeadSearch) -> Start
    requires { IsSearched bytes.now search.old }
    ensures value { start_as bytes.now result ≡ beginning_of bytes.now }
    ensures within { IsStartWithin bytes.now result }
    ensures small { IsShort result }
    ensures short { result ≡ Start.Unfinished → length bytes.now < MAX_HEAD_BYTES }
    ensures searched { result ≡ Start.Unfinished → IsSearched bytes.now search.new }
{
    let Some(found) = search.go_on(bytes) else {
        if bytes.len() >= MAX_HEAD_BYTES {
            return Start::TooLong;
        }
        return Start::Unfinished;
    };
    let FoundHead { start, size } = found;
    let end = start + size.bytes;
    if end > MAX_HEAD_BYTES || size.lines > 1 + MAX_HEAD_FIELDS {
        return Start::TooLong;
    }
    Start::Ended(HeadSpan { start, end })
}
