// The text of bytes in a charset.
ghost use Rattle.std.specs.Prelude.{◌≡◌, ◌<◌, ◌++◌, length, IfOk, OnOk, IfSome, string_bytes};
ghost use Rattle.mime_words.specs.Charsets;
ghost use Rattle.mime_words.specs.Charsets.{same_charset, text_in, decoded_text, has_problem};

use jm_base::{NoMemory, Text};
use mail_text::is_same_name;
use std::alloc::Global;

/// A charset whose bytes can be read.
#[derive(Clone, Copy, Debug, PartialEq, Eq)]
pub enum Charset {
    /// `utf-8` (RFC 3629).
    Utf8,
    /// `us-ascii` (RFC 2046, section 4.1.2).
    Ascii,
    /// `iso-8859-1`: each byte is the code of its character.
    Latin1,
}

/// A text, and whether its bytes have an encoding problem (RFC 8621, section 4.1.4).
#[derive(Debug, Drop)]
pub struct Decoded {
    /// The text, with U+FFFD for bytes that the charset doesn't allow.
    pub text: Text,
    /// Whether a byte isn't what the charset allows, or the charset isn't known (RFC 8621, section
    /// 4.1.4).
    pub problem: bool,
}

/// Returns the charset of a name, in either case; none if it isn't one of the three.
pub fn find_charset(name: &[u8]) -> Option<Charset>
    ensures { result ≡ Rattle.mime_words.specs.Charsets.charset_named name.now }
{
    if is_same_name(name, b"utf-8") {
        Some(Charset::Utf8)
    } else if is_same_name(name, b"us-ascii") {
        Some(Charset::Ascii)
    } else if is_same_name(name, b"iso-8859-1") {
        Some(Charset::Latin1)
    } else {
        None
    }
}

/// Returns whether two charsets are the same.
pub fn is_same_charset(a: Charset, b: Charset) -> bool
    ensures { result ≡ same_charset a b }
{
    match a {
        Charset::Utf8 => matches!(b, Charset::Utf8),
        Charset::Ascii => matches!(b, Charset::Ascii),
        Charset::Latin1 => matches!(b, Charset::Latin1),
    }
}

/// Returns the character of a byte in us-ascii; a byte above 127 is U+FFFD.
fn decode_ascii_byte(byte: u8) -> char
    ensures { result ≡ Rattle.mime_words.specs.Charsets.ascii_character byte }
{
    if byte < 128 { byte as char } else { '\u{FFFD}' }
}

/// Returns the text that bytes are by themselves, in us-ascii and in iso-8859-1. None if a byte is
/// above 127.
fn find_own_text(bytes: &[u8]) -> Option<&str>
    ensures ascii { IfSome result (λ text. text.now ≡ text_in Charset.Ascii bytes.now) }
    ensures latin { IfSome result (λ text. text.now ≡ text_in Charset.Latin1 bytes.now) }
{
    if !bytes.is_ascii() {
        return None;
    }
    match std::str::from_utf8(bytes) {
        Ok(text) => Some(text),
        Err(_) => None,
    }
}

/// How many bytes are copied at once, where they are ASCII, in a text with other bytes.
const BLOCK_BYTES: usize = 32;

/// Splits off the next block.
fn split_block(bytes: &[u8]) -> (&[u8], &[u8])
    ensures whole { bytes.now ≡ result.0.now ++ result.1.now }
    ensures shorter { 0 < length bytes.now → length result.1.now < length bytes.now }
{
    if bytes.len() > BLOCK_BYTES {
        return bytes.split_at(BLOCK_BYTES);
    }
    bytes.split_at(bytes.len())
}

/// Adds the text of a block in us-ascii.
fn push_ascii(text: &mut String, block: &[u8]) -> Result<(), NoMemory>
    ensures { OnOk result (string_bytes text.new ≡ string_bytes text.old
        ++ text_in Charset.Ascii block.now) }
{
    if let Some(own) = find_own_text(block) {
        text.push_str(own)?;
        return Ok(());
    }
    for byte in block {
        text.push(decode_ascii_byte(*byte))?;
    }
    Ok(())
}

/// Adds the text of a block in iso-8859-1.
fn push_latin(text: &mut String, block: &[u8]) -> Result<(), NoMemory>
    ensures { OnOk result (string_bytes text.new ≡ string_bytes text.old
        ++ text_in Charset.Latin1 block.now) }
{
    if let Some(own) = find_own_text(block) {
        text.push_str(own)?;
        return Ok(());
    }
    for byte in block {
        text.push(*byte as char)?;
    }
    Ok(())
}

/// Returns the text of bytes in us-ascii.
fn decode_ascii(alloc: Global, bytes: &[u8]) -> Result<String, NoMemory>
    ensures { IfOk result (λ text. string_bytes text ≡ text_in Charset.Ascii bytes.now) }
{
    if let Some(own) = find_own_text(bytes) {
        return Ok(String::from_str(alloc, own)?);
    }
    let mut text = String::with_capacity(alloc, bytes.len())?;
    let mut left = bytes;
    while !left.is_empty() {
        let (block, rest) = split_block(left);
        push_ascii(&mut text, block)?;
        left = rest;
    }
    Ok(text)
}

/// Returns the text of bytes in iso-8859-1.
fn decode_latin(alloc: Global, bytes: &[u8]) -> Result<String, NoMemory>
    ensures { IfOk result (λ text. string_bytes text ≡ text_in Charset.Latin1 bytes.now) }
{
    if let Some(own) = find_own_text(bytes) {
        return Ok(String::from_str(alloc, own)?);
    }
    let mut text = String::with_capacity(alloc, bytes.len())?;
    let mut left = bytes;
    while !left.is_empty() {
        let (block, rest) = split_block(left);
        push_latin(&mut text, block)?;
        left = rest;
    }
    Ok(text)
}

/// Returns the text of bytes in a charset.
pub fn decode_known_charset(
    alloc: Global,
    charset: Charset,
    bytes: &[u8],
) -> Result<String, NoMemory>
    ensures { IfOk result (λ text. string_bytes text ≡ text_in charset bytes.now) }
{
    match charset {
        Charset::Utf8 => Ok(String::from_utf8_lossy(alloc, bytes)?),
        Charset::Ascii => decode_ascii(alloc, bytes),
        Charset::Latin1 => decode_latin(alloc, bytes),
    }
}

/// Returns whether the charset doesn't allow some byte.
fn is_broken(charset: Charset, bytes: &[u8]) -> bool
    ensures { result ≡ Rattle.mime_words.specs.Charsets.is_broken charset bytes.now }
{
    match charset {
        Charset::Utf8 => std::str::from_utf8(bytes).is_err(),
        Charset::Ascii => !bytes.is_ascii(),
        Charset::Latin1 => false,
    }
}

/// Returns the text of bytes in utf-8, and whether some are none. It reads valid bytes once.
fn decode_utf8(alloc: Global, bytes: &[u8]) -> Result<Decoded, NoMemory>
    ensures text { IfOk result (λ d. d.text ≡ text_in Charset.Utf8 bytes.now) }
    ensures problem { IfOk result (λ d. d.problem
        ≡ Rattle.mime_words.specs.Charsets.is_broken Charset.Utf8 bytes.now) }
{
    let read = std::str::from_utf8(bytes);
    let problem = read.is_err();
    match read {
        Ok(valid) => Ok(Decoded {
            text: Text::from_string(String::from_str(alloc, valid)?),
            problem,
        }),
        Err(_) => Ok(Decoded {
            text: Text::from_string(String::from_utf8_lossy(alloc, bytes)?),
            problem,
        }),
    }
}

/// Returns the text of bytes in the charset of this name, in either case: `utf-8`, `us-ascii` or
/// `iso-8859-1`. Sequences that are no UTF-8, and in us-ascii each byte above 127, become U+FFFD
/// and are an encoding problem (RFC 8621, section 4.1.4). Any other charset is read as us-ascii and
/// is a problem by itself. It fails only if memory runs out.
pub fn decode_charset(alloc: Global, charset: &[u8], bytes: &[u8]) -> Result<Decoded, NoMemory>
    ensures text { IfOk result (λ d. d.text ≡ decoded_text
        (Rattle.mime_words.specs.Charsets.charset_named charset.now) bytes.now) }
    ensures problem { IfOk result (λ d. d.problem
        ≡ has_problem (Rattle.mime_words.specs.Charsets.charset_named charset.now) bytes.now) }
{
    match find_charset(charset) {
        Some(Charset::Utf8) => decode_utf8(alloc, bytes),
        Some(known) => Ok(Decoded {
            text: Text::from_string(decode_known_charset(alloc, known, bytes)?),
            problem: is_broken(known, bytes),
        }),
        None => Ok(Decoded {
            text: Text::from_string(decode_ascii(alloc, bytes)?),
            problem: true,
        }),
    }
}
