// Reads strings and blobs from the start of bytes.
ghost use Rattle.std.specs.Prelude.{◌≡◌, ◌≤◌, ◌-◌, true, false, Some, slice_get, MatchOption};
ghost use Rattle.record_codec.specs.NextBytes.{rest_above, text_rest_after, left_in_text, at_first};
ghost use Rattle.record_codec.specs.Reading.{Gives};
ghost use Rattle.record_codec.specs.Readers.{blob_at, content_at, is_above, is_text_above, least_room, optional_at, text_above, text_at};

use crate::faults::Misread;
use crate::read_fields::{read_number, read_number_between};
use crate::utf8::{CharacterRest, START, find_least_length, find_turn};
use jm_base::Text;
use std::alloc::Global;

/// What is still to come of a string: `room` more bytes, and the rest of its character. If it is
/// `tight`, its bytes up to here are those of its bound, which it still has to pass; it can do so
/// up to the byte `turn`, counted from 1 from here.
#[derive(Clone, Copy, Debug, PartialEq, Eq)]
pub struct TextRest {
    pub follow: CharacterRest,
    pub room: u64,
    pub tight: bool,
    pub turn: usize,
}

impl TextRest {
    fn free(self, follow: CharacterRest) -> Option<TextRest>
        requires { 1 ≤ self.room }
        ensures { result ≡ Some (record {
          follow = follow;
          room = self.room - 1;
          tight = false;
          turn = 0;
        }) }
    {
        Some(TextRest {
            follow,
            room: self.room - 1,
            tight: false,
            turn: 0,
        })
    }

    fn find_rest_above(self, bound: Option<u8>, byte: u8, follow: CharacterRest) -> Option<TextRest>
        requires { 1 ≤ self.room }
        ensures { result ≡ rest_above self bound byte follow }
    {
        let Some(bound) = bound else {
            return self.free(follow);
        };
        if !self.tight || bound < byte {
            return self.free(follow);
        }
        if byte < bound || self.turn <= 1 {
            return None;
        }
        Some(TextRest {
            follow,
            room: self.room - 1,
            tight: true,
            turn: self.turn - 1,
        })
    }

    /// Returns what is still to come after the byte, given the bound's byte at the same index, or
    /// None if no string continues so.
    pub fn advance(self, bound: Option<u8>, byte: u8) -> Option<TextRest>
        ensures { result ≡ text_rest_after self bound byte }
    {
        match self.follow.advance(byte) {
            None => None,
            Some(follow) => {
                if self.room <= follow.more as u64 {
                    return None;
                }
                self.find_rest_above(bound, byte, follow)
            }
        }
    }
}

fn find_byte_at(bytes: &[u8], at: usize) -> Option<u8>
    ensures { result ≡ slice_get bytes.now at }
{
    if at < bytes.len() {
        return Some(bytes[at]);
    }
    None
}

/// Returns how many bytes are left where no string of so many bytes continues that is above the
/// bound.
fn count_left_in_text(room: u64, tight: bool, bound: &[u8], bytes: &[u8]) -> usize
    ensures { result ≡ left_in_text (at_first room tight bound.now) bound.now bytes.now }
{
    let mut rest_of_text = TextRest {
        follow: START,
        room,
        tight,
        turn: find_turn(room, bound),
    };
    for at in 0..bytes.len() {
        match rest_of_text.advance(find_byte_at(bound, at), bytes[at]) {
            None => return bytes.len() - at,
            Some(next) => rest_of_text = next,
        }
    }
    0
}

fn is_above(tight: bool, bound: &[u8], text: &[u8]) -> bool
    ensures { result ≡ is_above tight bound.now text.now }
{
    !tight || bound.cmp(text).is_lt()
}

fn check_text_above<'a>(tight: bool, bound: &[u8], bytes: &'a [u8]) -> Option<&'a str>
    ensures { MatchOption result (is_text_above tight bound.now bytes.now ≡ false)
        (λ t. (t.now ≡ bytes.now) × (is_text_above tight bound.now bytes.now ≡ true)) }
{
    match str::from_utf8(bytes) {
        Ok(text) => {
            if is_above(tight, bound, bytes) {
                Some(text)
            } else {
                None
            }
        }
        Err(_) => None,
    }
}

fn read_content<'a>(
    room: u64,
    tight: bool,
    bound: &[u8],
    bytes: &'a [u8],
) -> Result<(&'a str, &'a [u8]), Misread>
    ensures { Gives (λ x. (x.0.now, x.1.now)) result (content_at room tight bound.now bytes.now) }
{
    if (bytes.len() as u64) < room {
        return Err(Misread::Stuck(count_left_in_text(room, tight, bound, bytes)));
    }
    let (front, rest) = bytes.split_at(room as usize);
    match check_text_above(tight, bound, front) {
        Some(text) => Ok((text, rest)),
        None => Err(Misread::Stuck(count_left_in_text(room, tight, bound, bytes))),
    }
}

fn find_least_room(tight: bool, bound: &[u8]) -> u64
    ensures { result ≡ least_room tight bound.now }
{
    if tight {
        return find_least_length(bound) as u64;
    }
    0
}

/// Reads a text, above the bound where it is `tight` from the start of the bytes; returns it and
/// the bytes after it.
pub fn read_str_above<'a>(
    tight: bool,
    bound: &[u8],
    bytes: &'a [u8],
) -> Result<(&'a str, &'a [u8]), Misread>
    ensures { Gives (λ x. (x.0.now, x.1.now)) result (text_above tight bound.now bytes.now) }
{
    let (room, rest) = read_number_between(find_least_room(tight, bound), u64::MAX, bytes)?;
    read_content(room, tight, bound, rest)
}

/// Reads a text from the start of the bytes; returns it and the bytes after it.
pub fn read_text(alloc: Global, bytes: &[u8]) -> Result<(Text, &[u8]), Misread>
    ensures { Gives (λ x. (x.0, x.1.now)) result (text_at bytes.now) }
{
    let (text, rest) = read_str_above(false, &[], bytes)?;
    Ok((Text::from_str(alloc, text)?, rest))
}

/// Reads a text or none from the start of the bytes; returns it and the bytes after it.
pub fn read_optional_text(alloc: Global, bytes: &[u8]) -> Result<(Option<Text>, &[u8]), Misread>
    ensures { Gives (λ x. (x.0, x.1.now)) result (optional_at text_at bytes.now) }
{
    match bytes {
        [] => Err(Misread::Stuck(0)),
        [0, rest @ ..] => Ok((None, rest)),
        [1, rest @ ..] => {
            let (text, rest) = read_text(alloc, rest)?;
            Ok((Some(text), rest))
        }
        [_, ..] => Err(Misread::Stuck(bytes.len())),
    }
}

/// Reads the bytes of a blob from the start of the bytes; returns it and the bytes after it.
pub fn read_blob(bytes: &[u8]) -> Result<(&[u8], &[u8]), Misread>
    ensures { Gives (λ x. (x.0.now, x.1.now)) result (blob_at bytes.now) }
{
    let (length, rest) = read_number(bytes)?;
    if length <= rest.len() as u64 {
        let (blob, rest) = rest.split_at(length as usize);
        return Ok((blob, rest));
    }
    Err(Misread::Stuck(0))
}
