// Quoted-printable (RFC 2045, section 6.7), line by line. A block of a line is copied whole, and
// cut before its first equals sign.
ghost use Rattle.std.specs.Prelude.{◌≡◌, ◌≢◌, true, false, ◌<◌, ◌≤◌, ◌∷◌, ◌++◌, length, take, drop, IfOk, IfSome, IfNone, OnOk};
ghost use Rattle.mime_lines.specs.Lines.{text, is_blank};
ghost use Rattle.mime_codec.specs.Quoted.{is_hex, hex_value, unescaped, without_end_blanks, text_with_end, quoted_line, quoted_printable};
ghost use Rattle.mime_codec.specs.Escapes.{starts_escape};

use crate::base64::entry;
use jm_base::{Bytes, NoMemory};
use mime_lines::{BLOCK_BYTES, count_before, count_text_bytes, split_line};
use std::alloc::Global;

/// What `read_digit` returns for a byte that is no hexadecimal digit.
const NO_DIGIT: u8 = 16;

/// The value of each hexadecimal digit, in either case, or `NO_DIGIT`.
const DIGITS: [u8; 256] = [
    16, 16, 16, 16, 16, 16, 16, 16, 16, 16, 16, 16, 16, 16, 16, 16, 16, 16, 16, 16, 16, 16, 16, 16,
    16, 16, 16, 16, 16, 16, 16, 16, 16, 16, 16, 16, 16, 16, 16, 16, 16, 16, 16, 16, 16, 16, 16, 16,
    0, 1, 2, 3, 4, 5, 6, 7, 8, 9, 16, 16, 16, 16, 16, 16, 16, 10, 11, 12, 13, 14, 15, 16, 16, 16,
    16, 16, 16, 16, 16, 16, 16, 16, 16, 16, 16, 16, 16, 16, 16, 16, 16, 16, 16, 16, 16, 16, 16, 10,
    11, 12, 13, 14, 15, 16, 16, 16, 16, 16, 16, 16, 16, 16, 16, 16, 16, 16, 16, 16, 16, 16, 16, 16,
    16, 16, 16, 16, 16, 16, 16, 16, 16, 16, 16, 16, 16, 16, 16, 16, 16, 16, 16, 16, 16, 16, 16, 16,
    16, 16, 16, 16, 16, 16, 16, 16, 16, 16, 16, 16, 16, 16, 16, 16, 16, 16, 16, 16, 16, 16, 16, 16,
    16, 16, 16, 16, 16, 16, 16, 16, 16, 16, 16, 16, 16, 16, 16, 16, 16, 16, 16, 16, 16, 16, 16, 16,
    16, 16, 16, 16, 16, 16, 16, 16, 16, 16, 16, 16, 16, 16, 16, 16, 16, 16, 16, 16, 16, 16, 16, 16,
    16, 16, 16, 16, 16, 16, 16, 16, 16, 16, 16, 16, 16, 16, 16, 16, 16, 16, 16, 16, 16, 16, 16, 16,
    16, 16, 16, 16, 16, 16, 16, 16, 16, 16, 16, 16, 16, 16,
];

/// Returns the value of a hexadecimal digit, in either case, or `NO_DIGIT`.
fn read_digit(byte: u8) -> u8
    ensures none { result ≡ NO_DIGIT → is_hex byte ≡ false }
    ensures digit { result ≢ NO_DIGIT → is_hex byte ≡ true }
    ensures value { result ≢ NO_DIGIT → result ≡ hex_value byte }
    ensures small { result ≤ NO_DIGIT }
{
    entry(&DIGITS, byte)
}

/// Reads the byte that the escape at the start names; none if no escape is there.
fn read_escape(text: &[u8]) -> Option<u8>
    ensures none { IfNone result (starts_escape text.now ≡ false) }
    ensures value { IfSome result (λ b. unescaped text.now ≡ b ∷ unescaped (drop 3 text.now)) }
    ensures size { IfSome result (λ _. 3 ≤ length text.now) }
{
    if text.len() < 3 || text[0] != b'=' {
        return None;
    }
    let high = read_digit(text[1]);
    let low = read_digit(text[2]);
    if high == NO_DIGIT || low == NO_DIGIT {
        return None;
    }
    Some(16 * high + low)
}

/// The first byte that a text encodes, and how many bytes encode it.
#[derive(Clone, Copy)]
struct First {
    byte: u8,
    size: usize,
}

/// Reads the byte of the escape at the start, or else the first byte itself.
fn read_first(text: &[u8]) -> First
    requires { 0 < length text.now }
    ensures value { unescaped text.now ≡ result.byte ∷ unescaped (drop result.size text.now) }
    ensures some { 0 < result.size }
    ensures within { result.size ≤ length text.now }
{
    match read_escape(text) {
        Some(byte) => First { byte, size: 3 },
        None => First {
            byte: text[0],
            size: 1,
        },
    }
}

/// Adds the first byte that the first `len` bytes of a text encode, and returns how many bytes
/// encode it.
fn push_first(out: &mut Vec<u8>, text: &[u8], len: usize) -> Result<usize, NoMemory>
    requires some { 0 < len }
    requires within { len ≤ length text.now }
    ensures text { IfOk result (λ n. out.new.items ++ unescaped (drop n (take len text.now))
        ≡ out.old.items ++ unescaped (take len text.now)) }
    ensures some { IfOk result (λ n. 0 < n) }
    ensures within { IfOk result (λ n. n ≤ len) }
{
    let first = read_first(text.split_at(len).0);
    out.push(first.byte)?;
    Ok(first.size)
}

/// Returns how many bytes before an equals sign the first `len` bytes of a text begin with, or how
/// many bytes of a block.
fn count_plain(text: &[u8], len: usize) -> usize
    requires block { BLOCK_BYTES ≤ length text.now }
    requires within { len ≤ length text.now }
    ensures value { unescaped (take len text.now)
        ≡ take result text.now ++ unescaped (drop result (take len text.now)) }
    ensures block { result ≤ BLOCK_BYTES }
    ensures within { result ≤ len }
{
    let plain = count_before(text, b'=');
    if plain < len { plain } else { len }
}

/// Adds what the first `len` bytes of a text encode up to the end of the first block, or of the
/// first escape if that comes first, and returns how many bytes encode it. The whole block is
/// copied, and cut: a copy whose length is known is fast.
fn push_block(out: &mut Vec<u8>, text: &[u8], len: usize) -> Result<usize, NoMemory>
    requires block { BLOCK_BYTES ≤ length text.now }
    requires some { 0 < len }
    requires within { len ≤ length text.now }
    ensures text { IfOk result (λ n. out.new.items ++ unescaped (drop n (take len text.now))
        ≡ out.old.items ++ unescaped (take len text.now)) }
    ensures some { IfOk result (λ n. 0 < n) }
    ensures within { IfOk result (λ n. n ≤ len) }
{
    let before = out.as_slice().len();
    let plain = count_plain(text, len);
    out.extend_from_slice(text.split_at(BLOCK_BYTES).0)?;
    out.truncate(before + plain);
    if plain == BLOCK_BYTES || plain == len {
        return Ok(plain);
    }
    let size = push_first(out, text.split_at(plain).1, len - plain)?;
    Ok(plain + size)
}

/// Adds what some of the first `len` bytes of a text encode, and returns how many these are.
fn push_some(out: &mut Vec<u8>, text: &[u8], len: usize) -> Result<usize, NoMemory>
    requires some { 0 < len }
    requires within { len ≤ length text.now }
    ensures text { IfOk result (λ n. out.new.items ++ unescaped (drop n (take len text.now))
        ≡ out.old.items ++ unescaped (take len text.now)) }
    ensures some { IfOk result (λ n. 0 < n) }
    ensures within { IfOk result (λ n. n ≤ len) }
{
    if text.len() >= BLOCK_BYTES {
        return push_block(out, text, len);
    }
    push_first(out, text, len)
}

/// Adds what the first `len` bytes of a text encode: each escape is replaced by the byte that it
/// names. The bytes after these are only copied and cut again.
fn push_unescaped(out: &mut Vec<u8>, text: &[u8], len: usize) -> Result<(), NoMemory>
    requires { len ≤ length text.now }
    ensures { OnOk result (out.new.items ≡ out.old.items ++ unescaped (take len text.now)) }
{
    let mut rest = text;
    let mut left = len;
    while left > 0 {
        let size = push_some(out, rest, left)?;
        rest = rest.split_at(size).1;
        left -= size;
    }
    Ok(())
}

/// Returns the text with each escape, `=` and two hexadecimal digits, replaced by the byte that it
/// names. All else stays, invalid escapes too; lines and white space have no meaning here. It fails
/// only if memory runs out.
pub fn unescape(alloc: Global, text: &[u8]) -> Result<Bytes, NoMemory>
    ensures { IfOk result (λ out. out ≡ unescaped text.now) }
{
    let mut out = Vec::new(alloc);
    push_unescaped(&mut out, text, text.len())?;
    Ok(Bytes::from_vec(out))
}

fn is_blank_byte(byte: u8) -> bool
    ensures { result ≡ is_blank byte }
{
    byte == b' ' || byte == b'\t'
}

/// Returns the text without the spaces and tabs at its end.
pub fn trim_end(text: &[u8]) -> &[u8]
    ensures { result.now ≡ without_end_blanks text.now }
{
    let mut len = text.len();
    while 0 < len && is_blank_byte(text[len - 1]) {
        len -= 1;
    }
    &text[..len]
}

/// Adds what a line encodes whose text, without the white space at its end, is the first `len`
/// bytes of `text`, and whose line end is `end`.
fn push_text(out: &mut Vec<u8>, text: &[u8], len: usize, end: &[u8]) -> Result<(), NoMemory>
    requires { len ≤ length text.now }
    ensures { OnOk result
        (out.new.items ≡ out.old.items ++ text_with_end (take len text.now) end.now) }
{
    if 0 < len && text[len - 1] == b'=' {
        return push_unescaped(out, text, len - 1);
    }
    push_unescaped(out, text, len)?;
    out.extend_from_slice(end)?;
    Ok(())
}

/// Adds what the first line of a text encodes, which is `line`.
fn push_line(out: &mut Vec<u8>, text: &[u8], line: &[u8]) -> Result<(), NoMemory>
    requires { take (length line.now) text.now ≡ line.now }
    ensures { OnOk result (out.new.items ≡ out.old.items ++ quoted_line line.now) }
{
    let (front, end) = line.split_at(count_text_bytes(line));
    push_text(out, text, trim_end(front).len(), end)
}

/// Returns the bytes that quoted-printable encodes.
pub fn decode_quoted(alloc: Global, bytes: &[u8]) -> Result<Vec<u8>, NoMemory>
    ensures { IfOk result (λ out. out.items ≡ quoted_printable bytes.now) }
{
    let mut out = Vec::with_capacity(alloc, bytes.len())?;
    let mut rest = bytes;
    while !rest.is_empty() {
        let (line, after) = split_line(rest);
        push_line(&mut out, rest, line)?;
        rest = after;
    }
    Ok(out)
}
