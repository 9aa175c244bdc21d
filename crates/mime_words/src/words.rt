// Encoded-words in a text (RFC 2047).
ghost use Rattle.std.specs.Prelude.{◌≡◌, ◌<◌, ◌≤◌, ◌∷◌, ◌++◌, ◌≢◌, ℕ, true, length, slice_index, map, option_map, IfOk, OnOk, IfSome, Some, None, string_bytes};
ghost use Rattle.std.specs.Char.{is_ascii_whitespace};
ghost use Rattle.std.specs.List.{list_any};
ghost use Rattle.std.specs.Str.Lossy.{utf8_lossy};
ghost use Rattle.mime_codec.specs.Quoted.{unescaped};
ghost use Rattle.mime_words.specs.Words;
ghost use Rattle.mime_words.specs.Words.{bytes_by, coded_bytes, without_controls, content, word_at, Cut, word, cut, meaning, gap, decoded_words};
ghost use Rattle.mime_words.specs.Views.{shape_of, word_of, found_of, said_after, said_with, meaning_of};

use crate::charset::{Charset, decode_known_charset, find_charset, is_same_charset};
use crate::shape::{Shape, split_shape};
use jm_base::{Bytes, NoMemory, Text};
use mime_codec::{Coding, decode, unescape};
use std::alloc::Global;

/// The greatest length of an encoded-word in bytes, from its first `=` to its last (RFC 2047,
/// section 2).
const MAX_ENCODED_WORD_BYTES: usize = 75;

/// What an encoded-word holds: its charset, and the bytes that its encoded-text encodes.
#[derive(Drop)]
pub struct Word {
    pub charset: Charset,
    pub bytes: Bytes,
}

/// An encoded-word, and the text after it.
#[derive(Drop)]
pub struct Found<'a> {
    pub word: Word,
    pub rest: &'a str,
}

/// Returns a space for an underscore; another byte is itself (RFC 2047, section 4.2).
fn decode_underscore(byte: u8) -> u8
    ensures { result ≡ Words.spaced byte }
{
    if byte == b'_' { b' ' } else { byte }
}

/// Returns the bytes that an encoded-text in the Q encoding encodes (RFC 2047, section 4.2).
fn decode_q(alloc: Global, encoded: &[u8]) -> Result<Bytes, NoMemory>
    ensures { IfOk result (λ b. b ≡ unescaped (map Words.spaced encoded.now)) }
{
    let mut text = Vec::with_capacity(alloc, encoded.len())?;
    for byte in encoded {
        text.push(decode_underscore(*byte))?;
    }
    unescape(alloc, text.as_slice())
}

/// Returns the bytes that an encoded-text encodes in the encoding of this letter; none if the
/// letter is neither `B` nor `Q`, in either case.
fn decode_by(alloc: Global, letter: u8, encoded: &[u8]) -> Result<Option<Bytes>, NoMemory>
    ensures { IfOk result (λ b. b ≡ bytes_by letter encoded.now) }
{
    match letter {
        b'B' | b'b' => Ok(Some(decode(alloc, Coding::Base64, encoded)?)),
        b'Q' | b'q' => Ok(Some(decode_q(alloc, encoded)?)),
        _ => Ok(None),
    }
}

/// Returns the bytes that an encoded-text encodes in an encoding, which is one letter.
fn decode_coded(alloc: Global, encoding: &[u8], encoded: &[u8]) -> Result<Option<Bytes>, NoMemory>
    ensures { IfOk result (λ b. b ≡ coded_bytes encoding.now encoded.now) }
{
    match encoding {
        [letter] => decode_by(alloc, *letter, encoded),
        _ => Ok(None),
    }
}

/// Removes the ASCII control characters from a text.
fn drop_controls(text: &mut String)
    ensures { string_bytes text.new ≡ without_controls (string_bytes text.old) }
{
    text.retain(|c| !c.is_ascii_control());
}

/// Reads what an encoded-word of these pieces holds; none if its charset or encoding isn't known.
#[tactic(auto, unfolding(crate::specs::Words::content))]
fn read_content(alloc: Global, shape: Shape<'_>) -> Result<Option<Word>, NoMemory>
    ensures { IfOk result (λ w. option_map word_of w ≡ content (shape_of shape.entry)) }
{
    let Some(charset) = find_charset(shape.charset.as_bytes()) else {
        return Ok(None);
    };
    match decode_coded(alloc, shape.encoding.as_bytes(), shape.encoded.as_bytes())? {
        Some(bytes) => Ok(Some(Word { charset, bytes })),
        None => Ok(None),
    }
}

/// Returns whether there is white space in a text.
fn has_white_space(text: &str) -> bool
    ensures { result ≡ list_any is_ascii_whitespace text.now }
{
    text.as_bytes().iter().any(|b| b.is_ascii_whitespace())
}

/// Reads the encoded-word that begins with an equals sign and this text.
#[tactic(auto, unfolding(crate::specs::Words::word_at))]
fn read_word(alloc: Global, text: &str) -> Result<Option<Found<'_>>, NoMemory>
    ensures value { IfOk result (λ f. option_map found_of f ≡ word_at (61 ∷ text.now)) }
    ensures within { IfOk result (λ o. IfSome o (λ f. length f.rest.now < length text.now)) }
{
    let Some(shape) = split_shape(text) else {
        return Ok(None);
    };
    if MAX_ENCODED_WORD_BYTES <= text.len() - shape.rest.len() || has_white_space(shape.encoded) {
        return Ok(None);
    }
    match read_content(alloc, shape)? {
        Some(word) => Ok(Some(Found {
            word,
            rest: shape.rest,
        })),
        None => Ok(None),
    }
}

/// Returns whether a text is white space alone.
fn is_white(text: &str) -> bool
    ensures { result ≡ Words.is_white text.now }
{
    text.as_bytes().iter().all(|b| b.is_ascii_whitespace())
}

/// Adds the text between two encoded-words, unless it is white space alone.
fn push_between(out: &mut String, text: &str) -> Result<(), NoMemory>
    ensures { OnOk result (string_bytes out.new ≡ string_bytes out.old ++ gap true text.now) }
{
    if !is_white(text) {
        out.push_str(text)?;
    }
    Ok(())
}

/// Adds the text that an encoded-word encodes.
fn push_meaning(alloc: Global, out: &mut String, word: &Word) -> Result<(), NoMemory>
    ensures { OnOk result (string_bytes out.new ≡ string_bytes out.old
        ++ meaning (word_of word.now)) }
{
    let mut text = decode_known_charset(alloc, word.charset, word.bytes.as_slice())?;
    drop_controls(&mut text);
    out.push_str(text.as_str())?;
    Ok(())
}

/// Returns whether two encoded-words with this text between them are read as one.
fn are_one(first: &Word, between: &str, next: &Word) -> bool
    ensures { result ≡ Words.are_one (word_of first.now) between.now (word_of next.now) }
{
    is_white(between) && is_same_charset(first.charset, next.charset)
}

/// Reads an encoded-word that follows another one and the text between them: joins both if they are
/// read as one, else adds the first and the text. Returns the encoded-word that isn't added yet.
fn push_next(
    alloc: Global,
    out: &mut String,
    first: Word,
    between: &str,
    next: Word,
) -> Result<Word, NoMemory>
    ensures { IfOk result (λ w. (later : Cut) → string_bytes out.new ++ said_after w later
        ≡ string_bytes out.old ++ said_after first (word between.now (word_of next) later)) }
{
    let mut first = first;
    if are_one(&first, between, &next) {
        first.bytes.append(next.bytes.as_slice())?;
        return Ok(first);
    }
    push_meaning(alloc, out, &first)?;
    push_between(out, between)?;
    Ok(next)
}

/// Reads an encoded-word and the text before it; `last` is the encoded-word before that text, if
/// there is one that isn't added yet. Returns the encoded-word that isn't added yet.
fn push_word(
    alloc: Global,
    out: &mut String,
    last: Option<Word>,
    front: &str,
    next: Word,
) -> Result<Word, NoMemory>
    ensures { IfOk result (λ w. (later : Cut) → string_bytes out.new ++ said_after w later
        ≡ string_bytes out.old ++ said_with last (word front.now (word_of next) later)) }
{
    match last {
        Some(first) => push_next(alloc, out, first, front, next),
        None => {
            out.push_str(front)?;
            Ok(next)
        }
    }
}

/// Adds the encoded-word that isn't added yet, if there is one, and the text after it, which no
/// encoded-word follows.
fn push_text(
    alloc: Global,
    out: &mut String,
    last: &Option<Word>,
    text: &str,
) -> Result<(), NoMemory>
    ensures { OnOk result (string_bytes out.new ≡ string_bytes out.old
        ++ (meaning_of last.now ++ text.now)) }
{
    if let Some(word) = last {
        push_meaning(alloc, out, word)?;
    }
    out.push_str(text)?;
    Ok(())
}

/// What is left of a text, and the last encoded-word before it, which isn't added yet.
#[derive(Drop)]
struct Left<'a> {
    text: &'a str,
    last: Option<Word>,
}

/// Reads a text up to an equals sign, and the encoded-word that begins there, if there is one.
fn push_piece<'a>(
    alloc: Global,
    out: &mut String,
    last: Option<Word>,
    front: &str,
    inner: &'a str,
) -> Result<Left<'a>, NoMemory>
    requires { (k : ℕ) → k < length front.now → slice_index front.now k ≢ 61 }
    ensures value { IfOk result (λ left. string_bytes out.new
        ++ said_with left.last (cut left.text.now) ≡ string_bytes out.old
        ++ said_with last (cut (front.now ++ 61 ∷ inner.now))) }
    ensures within { IfOk result (λ left. length left.text.now ≤ length inner.now) }
{
    match read_word(alloc, inner)? {
        Some(found) => {
            let last = push_word(alloc, out, last, front, found.word)?;
            Ok(Left {
                text: found.rest,
                last: Some(last),
            })
        }
        None => {
            push_text(alloc, out, &last, front)?;
            out.push('=')?;
            Ok(Left {
                text: inner,
                last: None,
            })
        }
    }
}

/// Decodes the encoded-words of a text.
fn decode_text(alloc: Global, text: &str) -> Result<Text, NoMemory>
    ensures { IfOk result (λ t. t ≡ decoded_words text.now) }
{
    let mut out = String::new(alloc);
    let mut rest = text;
    let mut last: Option<Word> = None;
    while let Some((front, inner)) = rest.split_once('=') {
        let left = push_piece(alloc, &mut out, last, front, inner)?;
        rest = left.text;
        last = left.last;
    }
    push_text(alloc, &mut out, &last, rest)?;
    Ok(Text::from_string(out))
}

/// Decodes the encoded-words of a text (RFC 2047), anywhere in it. Bytes that are no UTF-8 become
/// U+FFFD first.
///
/// An encoded-word stays as it is written if its charset isn't `utf-8`, `us-ascii` or `iso-8859-1`,
/// its encoding isn't `B` or `Q`, it has more than `MAX_ENCODED_WORD_BYTES` bytes, or white space
/// is in its encoded-text. Encoded-words of one charset with only white space between them are read
/// as one: their bytes are joined before the charset is read, so that a character that was split
/// over two is complete. In the text of an encoded-word U+FFFD replaces bytes that its charset
/// doesn't allow, and ASCII control characters are left out. White space alone between two decoded
/// encoded-words is dropped (section 6.2). It fails only if memory runs out.
pub fn decode_words(alloc: Global, bytes: &[u8]) -> Result<Text, NoMemory>
    ensures { IfOk result (λ t. t ≡ decoded_words (utf8_lossy bytes.now)) }
{
    let text = String::from_utf8_lossy(alloc, bytes)?;
    decode_text(alloc, text.as_str())
}
