// The line at which a chunk begins.
ghost use Rattle.std.specs.Prelude.{◌≡◌, ◌<◌, ◌≤◌, length, true, MatchOption};
ghost use Rattle.std.specs.Str.Parse.{digits_value};
ghost use Rattle.std.specs.Char.{is_ascii_hexdigit, digit_value};
ghost use Rattle.httparse.specs.Grammar.{skip_ows};
ghost use Rattle.http_parts.specs.declared.limits.TheConstants.{MAX_CHUNK_LINE_BYTES, MAX_CHUNK_DIGITS};
ghost use Rattle.http_parts.specs.Chunks.{is_extension, digit_count, chunk_size, chunk_line, line_feed_at};
ghost use Rattle.http_parts.specs.ChunkParts.{line_as, IsLineWithin, AreHexDigits};

use crate::limits::{MAX_CHUNK_DIGITS, MAX_CHUNK_LINE_BYTES};
use httparse::parse_hex_digit;
use memchr::memchr;
use mime_lines::count_text_bytes;

/// The line of a chunk: how many bytes the chunk has, and how many the line.
#[derive(Clone, Copy, Debug, PartialEq, Eq)]
pub(crate) struct ChunkHead {
    pub size: u64,
    pub bytes: usize,
}

/// What is at the beginning of some bytes: no line of a chunk, one that has not ended, or one that
/// is there.
#[derive(Clone, Copy, Debug, PartialEq, Eq)]
pub(crate) enum LineFound {
    Invalid,
    Unfinished,
    Ended(ChunkHead),
}

// Returns how many hexadecimal digits are at the beginning.
fn count_digits(text: &[u8]) -> usize
    ensures bound { result ≤ length text.now }
    ensures value { result ≡ digit_count text.now }
{
    for (i, byte) in text.iter().enumerate() {
        if !byte.is_ascii_hexdigit() {
            return i;
        }
    }
    text.len()
}

/// Returns the value of a hexadecimal digit.
pub fn read_digit(byte: u8) -> u64
    ensures value { is_ascii_hexdigit byte ≡ true → result ≡ digit_value byte }
    ensures bound { result < 16 }
{
    match parse_hex_digit(byte) {
        Some(digit) => digit,
        None => 0,
    }
}

// Returns the value of some hexadecimal digits.
fn read_digits(digits: &[u8]) -> u64
    requires few { length digits.now ≤ MAX_CHUNK_DIGITS }
    requires digits { AreHexDigits digits.now }
    ensures { result ≡ digits_value 16 digits.now }
{
    let mut value: u64 = 0;
    let mut rest = digits;
    'digit: while let Some((byte, more)) = rest.split_first() {
        value = value * 16 + read_digit(*byte);
        rest = more;
    }
    value
}

// Returns whether spaces and tabs end with the text or before a semicolon.
fn is_size_end(text: &[u8]) -> bool
    ensures { result ≡ is_extension (skip_ows text.now) }
{
    let mut rest = text;
    'blank: while let Some((byte, more)) = rest.split_first() {
        if *byte != b' ' && *byte != b'\t' {
            return *byte == b';';
        }
        rest = more;
    }
    true
}

// Returns the size that the text of a chunk line says.
fn read_size(text: &[u8]) -> Option<u64>
    ensures { result ≡ chunk_size text.now }
{
    let count = count_digits(text);
    if count == 0 || count > MAX_CHUNK_DIGITS {
        return None;
    }
    let (digits, rest) = text.split_at(count);
    if !is_size_end(rest) {
        return None;
    }
    Some(read_digits(digits))
}

// Returns where the first LF is.
fn find_line_feed(bytes: &[u8]) -> Option<usize>
    ensures { MatchOption result (line_feed_at bytes.now ≡ length bytes.now) (λ i. (line_feed_at
        bytes.now ≡ i) × (i < length bytes.now)) }
{
    memchr(b'\n', bytes)
}

// Returns the line at which a chunk begins.
pub(crate) fn find_chunk_line(bytes: &[u8]) -> LineFound
    ensures value { line_as bytes.now result ≡ chunk_line bytes.now }
    ensures within { IsLineWithin bytes.now result }
{
    let Some(at) = find_line_feed(bytes) else {
        if bytes.len() >= MAX_CHUNK_LINE_BYTES {
            return LineFound::Invalid;
        }
        return LineFound::Unfinished;
    };
    if at >= MAX_CHUNK_LINE_BYTES {
        return LineFound::Invalid;
    }
    let (line, _) = bytes.split_at(at + 1);
    let (text, _) = line.split_at(count_text_bytes(line));
    match read_size(text) {
        Some(size) => LineFound::Ended(ChunkHead {
            size,
            bytes: at + 1,
        }),
        None => LineFound::Invalid,
    }
}
