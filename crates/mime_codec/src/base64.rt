// Base64 (RFC 2045, section 6.8). Four letters make three bytes. Four in a row are read at once;
// else up to three letters wait until the fourth is there.
ghost use Rattle.std.specs.Prelude.{◌≡◌, ◌<◌, ◌+◌, ◌∷◌, ◌++◌, [], List, ℕ, ◌≤◌, ◌≢◌, IfOk, OnOk, IfSome, IfNone, Some, None, length, slice_index, vec_len, vec_capacity};
ghost use Rattle.mime_codec.specs.Base64.{letter, with_letter, letters, packed, base64};
ghost use Rattle.mime_codec.specs.WaitingLetters.{before, AreSmall};

use jm_base::NoMemory;
use std::alloc::Global;

/// The letters that wait until four are there, each as its six bits.
#[derive(Clone, Copy, Debug)]
enum Waiting {
    Nothing,
    One(u8),
    Two(u8, u8),
    Three(u8, u8, u8),
}

/// What `decode_letter` returns for a character that isn't of the alphabet.
pub const NO_LETTER: u8 = 64;

/// The six bits of each character, or `NO_LETTER`. A table is faster than comparisons, whose
/// branches a processor can't predict.
const LETTERS: [u8; 256] = [
    64, 64, 64, 64, 64, 64, 64, 64, 64, 64, 64, 64, 64, 64, 64, 64, 64, 64, 64, 64, 64, 64, 64, 64,
    64, 64, 64, 64, 64, 64, 64, 64, 64, 64, 64, 64, 64, 64, 64, 64, 64, 64, 64, 62, 64, 64, 64, 63,
    52, 53, 54, 55, 56, 57, 58, 59, 60, 61, 64, 64, 64, 64, 64, 64, 64, 0, 1, 2, 3, 4, 5, 6, 7, 8,
    9, 10, 11, 12, 13, 14, 15, 16, 17, 18, 19, 20, 21, 22, 23, 24, 25, 64, 64, 64, 64, 64, 64, 26,
    27, 28, 29, 30, 31, 32, 33, 34, 35, 36, 37, 38, 39, 40, 41, 42, 43, 44, 45, 46, 47, 48, 49, 50,
    51, 64, 64, 64, 64, 64, 64, 64, 64, 64, 64, 64, 64, 64, 64, 64, 64, 64, 64, 64, 64, 64, 64, 64,
    64, 64, 64, 64, 64, 64, 64, 64, 64, 64, 64, 64, 64, 64, 64, 64, 64, 64, 64, 64, 64, 64, 64, 64,
    64, 64, 64, 64, 64, 64, 64, 64, 64, 64, 64, 64, 64, 64, 64, 64, 64, 64, 64, 64, 64, 64, 64, 64,
    64, 64, 64, 64, 64, 64, 64, 64, 64, 64, 64, 64, 64, 64, 64, 64, 64, 64, 64, 64, 64, 64, 64, 64,
    64, 64, 64, 64, 64, 64, 64, 64, 64, 64, 64, 64, 64, 64, 64, 64, 64, 64, 64, 64, 64, 64, 64, 64,
    64, 64, 64, 64, 64, 64, 64, 64, 64, 64, 64, 64, 64, 64,
];

/// Returns the entry of a table for a byte.
pub fn entry(table: &[u8; 256], byte: u8) -> u8
    ensures { result ≡ slice_index table.now byte }
{
    table[byte as usize]
}

/// Returns the six bits of a character of the alphabet, or `NO_LETTER`.
pub fn decode_letter(byte: u8) -> u8
    ensures none { result ≡ NO_LETTER → letter byte ≡ None }
    ensures some { result ≢ NO_LETTER → letter byte ≡ Some result }
    ensures small { result ≤ NO_LETTER }
{
    entry(&LETTERS, byte)
}

/// Reads a letter, and writes three bytes if it is the fourth.
fn push_letter(out: &mut Vec<u8>, waiting: Waiting, value: u8) -> Result<Waiting, NoMemory>
    requires waiting { AreSmall waiting }
    requires value { value < 64 }
    ensures small { IfOk result AreSmall }
    ensures bytes { IfOk result (λ now. (later : List ℕ) → out.new.items
        ++ packed (before now later) ≡ out.old.items ++ packed (before waiting (value ∷ later))) }
{
    match waiting {
        Waiting::Nothing => Ok(Waiting::One(value)),
        Waiting::One(a) => Ok(Waiting::Two(a, value)),
        Waiting::Two(a, b) => Ok(Waiting::Three(a, b, value)),
        Waiting::Three(a, b, c) => {
            out.push(a * 4 + b / 16)?;
            out.push((b % 16) * 16 + c / 4)?;
            out.push((c % 4) * 64 + value)?;
            Ok(Waiting::Nothing)
        }
    }
}

/// Reads a character; one that isn't of the alphabet changes nothing.
fn push_character(out: &mut Vec<u8>, waiting: Waiting, byte: u8) -> Result<Waiting, NoMemory>
    requires { AreSmall waiting }
    ensures small { IfOk result AreSmall }
    ensures bytes { IfOk result (λ now. (later : List ℕ) → out.new.items
        ++ packed (before now later) ≡ out.old.items
        ++ packed (before waiting (with_letter (letter byte) later))) }
{
    let value = decode_letter(byte);
    if value == NO_LETTER {
        return Ok(waiting);
    }
    push_letter(out, waiting, value)
}

/// Four letters, each as its six bits, and the text after them.
#[derive(Clone, Copy)]
struct Group<'a> {
    a: u8,
    b: u8,
    c: u8,
    d: u8,
    rest: &'a [u8],
}

/// Reads the four letters that a text begins with; none if one of its first four characters isn't
/// of the alphabet.
fn split_group(text: &[u8]) -> Option<Group<'_>>
    ensures value { IfSome result (λ g. letters text.now ≡ g.a ∷ g.b ∷ g.c ∷ g.d
        ∷ letters g.rest.now) }
    ensures small { IfSome result (λ g. (g.a < 64) × (g.b < 64) × (g.c < 64) × (g.d < 64)) }
    ensures size { IfSome result (λ g. length text.now ≡ 4 + length g.rest.now) }
{
    if text.len() < 4 {
        return None;
    }
    let a = decode_letter(text[0]);
    let b = decode_letter(text[1]);
    let c = decode_letter(text[2]);
    let d = decode_letter(text[3]);
    if a == NO_LETTER || b == NO_LETTER || c == NO_LETTER || d == NO_LETTER {
        return None;
    }
    Some(Group {
        a,
        b,
        c,
        d,
        rest: &text[4..],
    })
}

/// Writes the three bytes of four letters.
fn push_group(out: &mut Vec<u8>, group: Group<'_>)
    requires small { (group.a < 64) × (group.b < 64) × (group.c < 64) × (group.d < 64) }
    requires room { vec_len out.old + 3 ≤ vec_capacity out.old }
    ensures bytes { (later : List ℕ) → out.new.items ++ packed later ≡ out.old.items
        ++ packed (group.entry.a ∷ group.entry.b ∷ group.entry.c ∷ group.entry.d ∷ later) }
    ensures len { vec_len out.new ≡ vec_len out.old + 3 }
    ensures capacity { vec_capacity out.new ≡ vec_capacity out.old }
{
    let Group { a, b, c, d, .. } = group;
    out.push_reserved(a * 4 + b / 16);
    out.push_reserved((b % 16) * 16 + c / 4);
    out.push_reserved((c % 4) * 64 + d);
}

/// Writes what the letters encode that a text begins with, four by four, and returns the text after
/// them.
fn push_groups<'a>(out: &mut Vec<u8>, text: &'a [u8]) -> Result<&'a [u8], NoMemory>
    ensures bytes { IfOk result (λ rest. out.new.items ++ base64 rest.now ≡ out.old.items
        ++ base64 text.now) }
    ensures within { IfOk result (λ rest. length rest.now ≤ length text.now) }
{
    out.reserve(text.len() / 4 * 3)?;
    let mut left = text;
    while let Some(group) = split_group(left) {
        push_group(out, group);
        left = group.rest;
    }
    Ok(left)
}

/// Goes past the letters after a character by `push_groups`, if no letter waits.
fn push_after<'a>(out: &mut Vec<u8>, waiting: Waiting, text: &'a [u8]) -> Result<&'a [u8], NoMemory>
    ensures bytes { IfOk result (λ rest. out.new.items ++ packed (before waiting (letters rest.now))
        ≡ out.old.items ++ packed (before waiting (letters text.now))) }
    ensures within { IfOk result (λ rest. length rest.now ≤ length text.now) }
{
    match waiting {
        Waiting::Nothing => push_groups(out, text),
        Waiting::One(_) | Waiting::Two(..) | Waiting::Three(..) => Ok(text),
    }
}

/// Returns the first character of a text and the text after it; none where the data end.
fn next_character(text: &[u8]) -> Option<(u8, &[u8])>
    ensures none { IfNone result (letters text.now ≡ []) }
    ensures some { IfSome result
        (λ p. letters text.now ≡ with_letter (letter p.0) (letters p.1.now)) }
    ensures shorter { IfSome result (λ p. length p.1.now < length text.now) }
{
    if text.is_empty() || text[0] == b'=' {
        return None;
    }
    Some((text[0], &text[1..]))
}

/// Writes the complete bytes of the letters that wait at the end of the data.
fn push_last(out: &mut Vec<u8>, waiting: Waiting) -> Result<(), NoMemory>
    requires { AreSmall waiting }
    ensures { OnOk result (out.new.items ≡ out.old.items ++ packed (before waiting [])) }
{
    match waiting {
        Waiting::Nothing | Waiting::One(_) => Ok(()),
        Waiting::Two(a, b) => {
            out.push(a * 4 + b / 16)?;
            Ok(())
        }
        Waiting::Three(a, b, c) => {
            out.push(a * 4 + b / 16)?;
            out.push((b % 16) * 16 + c / 4)?;
            Ok(())
        }
    }
}

/// Returns the bytes that base64 encodes.
pub fn decode_base64(alloc: Global, bytes: &[u8]) -> Result<Vec<u8>, NoMemory>
    ensures { IfOk result (λ out. out.items ≡ base64 bytes.now) }
{
    let mut out = Vec::with_capacity(alloc, bytes.len() / 4 * 3)?;
    let mut waiting = Waiting::Nothing;
    let mut left = push_groups(&mut out, bytes)?;
    while let Some((byte, after)) = next_character(left) {
        waiting = push_character(&mut out, waiting, byte)?;
        left = push_after(&mut out, waiting, after)?;
    }
    push_last(&mut out, waiting)?;
    Ok(out)
}
