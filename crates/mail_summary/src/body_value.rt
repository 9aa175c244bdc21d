// The text of a part's body, and a body value.
ghost use Rattle.std.specs.Prelude.{◌≡◌, ◌<◌, ◌≤◌, ◌++◌, Option, is_none, length, IfOk, IfSome, IsTrue, string_bytes};
ghost use Rattle.std.specs.Str.{IsAscii};
ghost use Rattle.mime_codec.specs.Decoded.{decoded};
ghost use Rattle.mime_type.specs.PartViews.{node_of};
ghost use Rattle.mime_tree.specs.Places.{IsPlaced};
ghost use Rattle.mime_words.specs.Charsets.{charset_named, decoded_text, has_problem};
ghost use Rattle.mime_words.specs.declared.charset.Charset.{Charset};
ghost use Rattle.mail_summary.specs.Leaves.{body_bytes};
ghost use Rattle.mail_summary.specs.Texts;
ghost use Rattle.mail_summary.specs.Texts.{body_text, body_value, with_line_feeds};
ghost use Rattle.mail_summary.specs.Views.{value_of};

use crate::texts_lines::{replace_line_ends, with_line_feeds_of};
use jm_base::{NoMemory, Text};
use mime_codec::{Coding, decode};
use mime_type::Part;
use mime_words::{Decoded, decode_charset};
use std::alloc::Global;

/// The text of a leaf's body (RFC 8621, section 4.1.4: EmailBodyValue).
#[derive(Debug, Drop)]
pub struct BodyValue {
    /// The text in Unicode, with LF for each CRLF.
    pub text: Text,
    /// Whether its bytes weren't what their charset allows, or the charset or the transfer encoding
    /// isn't known.
    pub problem: bool,
    /// Whether the text continues after the bytes that were asked for.
    pub truncated: bool,
}

/// Returns whether a transfer encoding isn't known.
fn is_unknown(coding: Coding) -> bool
    ensures { result ≡ Texts.is_unknown coding }
{
    match coding {
        Coding::Unknown => true,
        Coding::Plain | Coding::Quoted | Coding::Base64 => false,
    }
}

/// Returns the charset of a part; a part without one has us-ascii.
fn find_charset_name(part: &Part) -> &[u8]
    ensures { result.now ≡ Texts.charset_name (node_of part.now) }
{
    match &part.charset {
        Some(name) => name.as_bytes(),
        None => b"us-ascii",
    }
}

/// Returns the text that a body in this transfer encoding and charset encodes.
fn read_text(
    alloc: Global,
    coding: Coding,
    charset: &[u8],
    body: &[u8],
) -> Result<Decoded, NoMemory>
    ensures text { IfOk result (λ d. d.text ≡ decoded_text (charset_named charset.now)
        (decoded coding body.now)) }
    ensures problem { IfOk result (λ d. d.problem
        ≡ has_problem (charset_named charset.now) (decoded coding body.now)) }
{
    match coding {
        Coding::Plain | Coding::Unknown => decode_charset(alloc, charset, body),
        Coding::Quoted | Coding::Base64 => {
            let bytes = decode(alloc, coding, body)?;
            decode_charset(alloc, charset, bytes.as_slice())
        }
    }
}

/// Reads the text of a part's body, and whether its charset or its bytes are an encoding problem.
pub(crate) fn read_body_text(alloc: Global, bytes: &[u8], part: &Part) -> Result<Decoded, NoMemory>
    requires { IsPlaced (length bytes.now) (node_of part.now) }
    ensures text { IfOk result (λ d. d.text ≡ body_text bytes.now (node_of part.now)) }
    ensures problem { IfOk result (λ d. d.problem
        ≡ has_problem (charset_named (Texts.charset_name (node_of part.now)))
        (body_bytes bytes.now (node_of part.now))) }
{
    let body = &bytes[part.body as usize..part.end as usize];
    read_text(alloc, part.coding, find_charset_name(part), body)
}

/// How many bytes are looked at together: the most that a `u8` counts.
const BLOCK_BYTES: usize = 255;

/// Returns one for a byte above 127, and else none.
fn count_high_byte(byte: u8) -> u8
    ensures value { result ≡ 0 → byte < 128 }
    ensures within { result ≤ 1 }
{
    if byte > 127 { 1 } else { 0 }
}

/// Returns how many bytes of a block are above 127. The loop doesn't stop early, so that it becomes
/// vector code.
fn count_highs(block: &[u8]) -> u8
    requires { length block.now ≤ BLOCK_BYTES }
    ensures { result ≡ 0 → IsAscii block.now }
{
    let mut count = 0;
    for byte in block {
        count += count_high_byte(*byte);
    }
    count
}

/// Splits off the next block.
fn split_block(bytes: &[u8]) -> (&[u8], &[u8])
    ensures whole { bytes.now ≡ result.0.now ++ result.1.now }
    ensures small { length result.0.now ≤ BLOCK_BYTES }
    ensures shorter { 0 < length bytes.now → length result.1.now < length bytes.now }
{
    if bytes.len() > BLOCK_BYTES {
        return bytes.split_at(BLOCK_BYTES);
    }
    bytes.split_at(bytes.len())
}

/// Returns whether no byte is above 127.
fn is_ascii(bytes: &[u8]) -> bool
    ensures { IsTrue result → IsAscii bytes.now }
{
    let mut left = bytes;
    while !left.is_empty() {
        let (block, rest) = split_block(left);
        if count_highs(block) > 0 {
            return false;
        }
        left = rest;
    }
    true
}

/// Returns ASCII bytes as the text that they are in every charset, with LF for each CRLF. None if a
/// byte is above 127.
fn read_ascii_lines(alloc: Global, bytes: &[u8]) -> Result<Option<String>, NoMemory>
    ensures text { IfOk result (λ o. IfSome o (λ t. (charset : Option Charset)
        → string_bytes t ≡ with_line_feeds (decoded_text charset bytes.now))) }
    ensures problem { IfOk result (λ o. IfSome o (λ _. (charset : Option Charset)
        → has_problem charset bytes.now ≡ is_none charset)) }
{
    if !is_ascii(bytes) {
        return Ok(None);
    }
    match String::from_utf8(replace_line_ends(alloc, bytes)?) {
        Ok(lines) => Ok(Some(lines)),
        Err(_) => Ok(None),
    }
}

/// Returns whether a charset isn't known. Only then is the text of no bytes a problem.
fn is_unknown_charset(alloc: Global, charset: &[u8]) -> Result<bool, NoMemory>
    ensures { IfOk result (λ b. b ≡ is_none (charset_named charset.now)) }
{
    let Decoded { problem, .. } = decode_charset(alloc, charset, b"")?;
    Ok(problem)
}

/// Returns the text of bytes in a charset with LF for each CRLF, and whether they are an encoding
/// problem. ASCII bytes are copied once.
fn read_lines(alloc: Global, charset: &[u8], bytes: &[u8]) -> Result<(String, bool), NoMemory>
    ensures text { IfOk result (λ r. string_bytes r.0
        ≡ with_line_feeds (decoded_text (charset_named charset.now) bytes.now)) }
    ensures problem { IfOk result
        (λ r. r.1 ≡ has_problem (charset_named charset.now) bytes.now) }
{
    if let Some(lines) = read_ascii_lines(alloc, bytes)? {
        return Ok((lines, is_unknown_charset(alloc, charset)?));
    }
    let Decoded { text, problem } = decode_charset(alloc, charset, bytes)?;
    Ok((with_line_feeds_of(alloc, text.as_str())?, problem))
}

/// Returns the text that a body in this transfer encoding and charset encodes with LF for each
/// CRLF, and whether its charset or its bytes are an encoding problem.
fn read_text_lines(
    alloc: Global,
    coding: Coding,
    charset: &[u8],
    body: &[u8],
) -> Result<(String, bool), NoMemory>
    ensures text { IfOk result (λ r. string_bytes r.0
        ≡ with_line_feeds (decoded_text (charset_named charset.now) (decoded coding body.now))) }
    ensures problem { IfOk result
        (λ r. r.1 ≡ has_problem (charset_named charset.now) (decoded coding body.now)) }
{
    match coding {
        Coding::Plain | Coding::Unknown => read_lines(alloc, charset, body),
        Coding::Quoted | Coding::Base64 => {
            let bytes = decode(alloc, coding, body)?;
            read_lines(alloc, charset, bytes.as_slice())
        }
    }
}

/// Returns whether a text has more bytes than this; 0 means all.
fn is_cut(most: u64, text: &str) -> bool
    ensures { result ≡ Texts.is_cut most text.now }
{
    most != 0 && most < text.len() as u64
}

/// Cuts a text to at most this many bytes, before a character that doesn't fit; 0 means all.
fn cut(most: u64, text: &mut String)
    ensures { string_bytes text.new ≡ Texts.cut_to most (string_bytes text.old) }
{
    if is_cut(most, text.as_str()) {
        let end = text.as_str().floor_char_boundary(most as usize);
        text.truncate(end);
    }
}

/// Returns the text of a leaf, cut to at most `most` bytes unless that is 0 (RFC 8621, section 4.2:
/// bodyValues and maxBodyValueBytes).
pub fn read_body_value(
    alloc: Global,
    bytes: &[u8],
    part: &Part,
    most: u64,
) -> Result<BodyValue, NoMemory>
    requires { IsPlaced (length bytes.now) (node_of part.now) }
    ensures { IfOk result (λ v. value_of v ≡ body_value bytes.now most (node_of part.now)) }
{
    let body = &bytes[part.body as usize..part.end as usize];
    let (mut text, problem) = read_text_lines(alloc, part.coding, find_charset_name(part), body)?;
    let truncated = is_cut(most, text.as_str());
    cut(most, &mut text);
    Ok(BodyValue {
        text: Text::from_string(text),
        problem: is_unknown(part.coding) || problem,
        truncated,
    })
}
