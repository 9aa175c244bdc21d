// How many bytes a body encodes, found without decoding it.
ghost use Rattle.std.specs.Prelude.{◌≡◌, ◌≤◌, ◌<◌, ◌+◌, ◌*◌, ◌++◌, ◌==◌, cond, length};
ghost use Rattle.std.specs.List.{count_by};
ghost use Rattle.mime_codec.specs.Base64;
ghost use Rattle.mime_codec.specs.Base64.{letters, base64};
ghost use Rattle.mime_codec.specs.Decoded.{decoded};
ghost use Rattle.mime_codec.specs.Quoted.{is_hex, is_escape, is_soft, quoted_line, quoted_printable};
ghost use Rattle.mime_codec.specs.Escapes.{escapes};

use crate::coding::Coding;
use crate::quoted::trim_end;
use memchr::memchr;
use mime_lines::{count_text_bytes, split_line};

/// Returns whether a character is of the alphabet. It compares, where `decode_letter` reads a
/// table: a loop over comparisons becomes vector code.
fn is_letter(byte: u8) -> bool
    ensures { result ≡ Base64.is_letter byte }
{
    (65 <= byte && byte <= 90)
        || (97 <= byte && byte <= 122)
        || (48 <= byte && byte <= 57)
        || byte == b'+'
        || byte == b'/'
}

/// Returns one for a character of the alphabet, and else none.
fn count_if_letter(byte: u8) -> u8
    ensures value { result ≡ cond (Base64.is_letter byte) 1 0 }
    ensures within { result ≤ 1 }
{
    if is_letter(byte) { 1 } else { 0 }
}

/// The most bytes whose letters a `u8` counts.
const MAX_BLOCK_BYTES: usize = 255;

/// Returns how many characters of a block are of the alphabet.
fn count_block_letters(block: &[u8]) -> u8
    requires { length block.now ≤ MAX_BLOCK_BYTES }
    ensures { result ≡ count_by Base64.is_letter block.now }
{
    let mut count = 0;
    for byte in block {
        count += count_if_letter(*byte);
    }
    count
}

/// Splits off the next block.
fn split_block(text: &[u8]) -> (&[u8], &[u8])
    ensures whole { text.now ≡ result.0.now ++ result.1.now }
    ensures small { length result.0.now ≤ MAX_BLOCK_BYTES }
    ensures shorter { 0 < length text.now → length result.1.now < length text.now }
{
    if text.len() > MAX_BLOCK_BYTES {
        return text.split_at(MAX_BLOCK_BYTES);
    }
    text.split_at(text.len())
}

/// Returns the bytes before the first equals sign.
fn take_before_padding(bytes: &[u8]) -> &[u8]
    ensures value { length (letters bytes.now) ≡ count_by Base64.is_letter result.now }
    ensures within { length result.now ≤ length bytes.now }
{
    match memchr(b'=', bytes) {
        Some(i) => bytes.split_at(i).0,
        None => bytes,
    }
}

/// Returns how many letters of base64 are before the first equals sign.
fn count_letters(bytes: &[u8]) -> usize
    ensures value { result ≡ length (letters bytes.now) }
    ensures within { result ≤ length bytes.now }
{
    let mut count = 0;
    let mut left = take_before_padding(bytes);
    while !left.is_empty() {
        let (block, rest) = split_block(left);
        count += count_block_letters(block) as usize;
        left = rest;
    }
    count
}

fn compute_base64_size(bytes: &[u8]) -> usize
    ensures value { result ≡ length (base64 bytes.now) }
    ensures within { result ≤ length bytes.now }
{
    let count = count_letters(bytes);
    count / 4 * 3 + (count % 4) * 3 / 4
}

/// Returns whether a byte is a hexadecimal digit.
fn is_digit(byte: u8) -> bool
    ensures { result ≡ is_hex byte }
{
    (48 <= byte && byte <= 57) || (65 <= byte && byte <= 70) || (97 <= byte && byte <= 102)
}

/// Returns one for an equals sign, and else none.
fn count_if_equals_sign(byte: u8) -> u8
    ensures { result ≡ cond (byte == 61) 1 0 }
{
    if byte == b'=' { 1 } else { 0 }
}

/// Returns one for a hexadecimal digit, and else none.
fn count_if_hex_digit(byte: u8) -> u8
    ensures { result ≡ cond (is_hex byte) 1 0 }
{
    if is_digit(byte) { 1 } else { 0 }
}

/// Returns one if these three bytes are an escape, and else none. It has no branch, so that a loop
/// over it becomes vector code.
fn count_if_escape(byte: u8, high: u8, low: u8) -> u8
    ensures value { result ≡ cond (is_escape byte high low) 1 0 }
    ensures within { result ≤ 1 }
{
    count_if_equals_sign(byte) & count_if_hex_digit(high) & count_if_hex_digit(low)
}

/// The most bytes whose escapes a `u8` counts: none begins with one of the last two.
const MAX_WINDOW_BYTES: usize = 257;

/// Returns how many escapes a text has.
fn count_window_escapes(text: &[u8]) -> u8
    requires some { 2 ≤ length text.now }
    requires small { length text.now ≤ MAX_WINDOW_BYTES }
    ensures value { result ≡ escapes text.now }
    ensures within { result + 2 ≤ length text.now }
{
    let mut count = 0;
    for i in 0..text.len() - 2 {
        count += count_if_escape(text[i], text[i + 1], text[i + 2]);
    }
    count
}

/// Splits a text in two, of which the second begins with the last two bytes of the first if it
/// isn't empty: no escape begins there in the first.
fn split_window(text: &[u8]) -> (&[u8], &[u8])
    requires { 2 ≤ length text.now }
    ensures value { escapes text.now ≡ escapes result.0.now + escapes result.1.now }
    ensures some { 2 ≤ length result.0.now }
    ensures small { length result.0.now ≤ MAX_WINDOW_BYTES }
    ensures within { length result.0.now + length result.1.now ≤ length text.now + 2 }
    ensures shorter { length result.1.now < length text.now }
{
    if text.len() <= MAX_WINDOW_BYTES {
        return text.split_at(text.len());
    }
    (
        text.split_at(MAX_WINDOW_BYTES).0,
        text.split_at(MAX_WINDOW_BYTES - 2).1,
    )
}

/// Returns how many escapes a text has.
fn count_escapes(text: &[u8]) -> usize
    ensures value { result ≡ escapes text.now }
    ensures within { result ≤ length text.now }
{
    let mut count = 0;
    let mut left = text;
    while left.len() >= 2 {
        let (window, rest) = split_window(left);
        count += count_window_escapes(window) as usize;
        left = rest;
    }
    count
}

/// Returns whether a line with this text, without the white space at its end, ends with a soft line
/// break.
fn has_soft_line_break(text: &[u8]) -> bool
    ensures { result ≡ is_soft text.now }
{
    match text.last() {
        Some(byte) => *byte == b'=',
        None => false,
    }
}

/// Returns how many bytes of a line encode nothing, but for the digits of escapes: the white space
/// at its end, and a soft line break.
fn count_cut(line: &[u8]) -> usize
    ensures { length (quoted_line line.now) + 2 * escapes line.now + result ≡ length line.now }
{
    let text = line.split_at(count_text_bytes(line)).0;
    let front = trim_end(text);
    if has_soft_line_break(front) {
        return line.len() - (front.len() - 1);
    }
    text.len() - front.len()
}

/// Returns how many bytes of all lines `count_cut` counts.
fn count_all_cut(bytes: &[u8]) -> usize
    ensures { length (quoted_printable bytes.now) + 2 * escapes bytes.now + result
        ≡ length bytes.now }
{
    let mut count = 0;
    let mut rest = bytes;
    while !rest.is_empty() {
        let (line, after) = split_line(rest);
        count += count_cut(line);
        rest = after;
    }
    count
}

fn compute_quoted_printable_size(bytes: &[u8]) -> usize
    ensures value { result ≡ length (quoted_printable bytes.now) }
    ensures within { result ≤ length bytes.now }
{
    let cut = count_all_cut(bytes);
    bytes.len() - (2 * count_escapes(bytes) + cut)
}

/// Returns how many bytes `bytes` encode in this transfer encoding: no more than they are. It
/// allocates nothing.
pub fn count_decoded(coding: Coding, bytes: &[u8]) -> u64
    ensures value { result ≡ length (decoded coding bytes.now) }
    ensures within { result ≤ length bytes.now }
{
    let size = match coding {
        Coding::Plain | Coding::Unknown => bytes.len(),
        Coding::Quoted => compute_quoted_printable_size(bytes),
        Coding::Base64 => compute_base64_size(bytes),
    };
    size as u64
}
