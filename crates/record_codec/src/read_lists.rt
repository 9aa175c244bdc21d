// Reads lists from the start of bytes.
ghost use Rattle.std.specs.Prelude.{◌≡◌, false, []};
ghost use Rattle.record_codec.specs.Reading.{Gives, items_at};
ghost use Rattle.record_codec.specs.Readers.{number_at, blob_at, any_at, same, rising_number, number_after, next_number, rising_text, next_text, numbers_at, rising_numbers_at, rising_texts_at, blobs_at};

use crate::faults::Misread;
use crate::read_fields::{read_number, read_number_between};
use crate::read_texts::{read_blob, read_str_above};
use jm_base::{Blobs, Bytes, Numbers, Text, Texts};
use std::alloc::Global;

fn read_counted_numbers(
    alloc: Global,
    count: u64,
    bytes: &[u8],
) -> Result<(Vec<u64>, &[u8]), Misread>
    ensures { Gives (λ x. (x.0.items, x.1.now)) result
        (items_at (any_at number_at) same tt count bytes.now) }
{
    let mut numbers = Vec::new(alloc);
    let mut rest = bytes;
    for _ in 0..count {
        let (number, after) = read_number(rest)?;
        numbers.push(number)?;
        rest = after;
    }
    Ok((numbers, rest))
}

fn advance_number(number: u64) -> u64
    ensures { result ≡ number_after number }
{
    if number == u64::MAX {
        number
    } else {
        number + 1
    }
}

fn read_counted_rising_numbers(
    alloc: Global,
    count: u64,
    bytes: &[u8],
) -> Result<(Vec<u64>, &[u8]), Misread>
    ensures { Gives (λ x. (x.0.items, x.1.now)) result
        (items_at rising_number next_number 0 count bytes.now) }
{
    let mut numbers = Vec::new(alloc);
    let mut rest = bytes;
    let mut low = 0;
    for taken in 0..count {
        let (number, behind) = read_number_between(low, u64::MAX - (count - (taken + 1)), rest)?;
        numbers.push(number)?;
        rest = behind;
        low = advance_number(number);
    }
    Ok((numbers, rest))
}

fn read_counted_rising_texts(
    alloc: Global,
    count: u64,
    bytes: &[u8],
) -> Result<(Vec<Text>, &[u8]), Misread>
    ensures { Gives (λ x. (x.0.items, x.1.now)) result
        (items_at rising_text next_text (false, []) count bytes.now) }
{
    let mut texts = Vec::new(alloc);
    let mut rest = bytes;
    let mut tight = false;
    let mut bound: &[u8] = &[];
    for _ in 0..count {
        let (text, after) = read_str_above(tight, bound, rest)?;
        texts.push(Text::from_str(alloc, text)?)?;
        rest = after;
        tight = true;
        bound = text.as_bytes();
    }
    Ok((texts, rest))
}

fn read_counted_blobs(
    alloc: Global,
    count: u64,
    bytes: &[u8],
) -> Result<(Vec<Bytes>, &[u8]), Misread>
    ensures { Gives (λ x. (x.0.items, x.1.now)) result
        (items_at (any_at blob_at) same tt count bytes.now) }
{
    let mut blobs = Vec::new(alloc);
    let mut rest = bytes;
    for _ in 0..count {
        let (blob, after) = read_blob(rest)?;
        blobs.push(Bytes::from_slice(alloc, blob)?)?;
        rest = after;
    }
    Ok((blobs, rest))
}

/// Reads a list of numbers in any order from the start of the bytes; returns it and the bytes after
/// it.
pub fn read_numbers(alloc: Global, bytes: &[u8]) -> Result<(Numbers, &[u8]), Misread>
    ensures { Gives (λ x. (x.0, x.1.now)) result (numbers_at bytes.now) }
{
    let (count, rest) = read_number(bytes)?;
    let (numbers, rest) = read_counted_numbers(alloc, count, rest)?;
    Ok((Numbers::from_vec(numbers), rest))
}

/// Reads a list of numbers that rise strictly from the start of the bytes; returns it and the bytes
/// after it.
pub fn read_rising_numbers(alloc: Global, bytes: &[u8]) -> Result<(Numbers, &[u8]), Misread>
    ensures { Gives (λ x. (x.0, x.1.now)) result (rising_numbers_at bytes.now) }
{
    let (count, rest) = read_number(bytes)?;
    let (numbers, rest) = read_counted_rising_numbers(alloc, count, rest)?;
    Ok((Numbers::from_vec(numbers), rest))
}

/// Reads a list of texts that rise strictly from the start of the bytes; returns it and the bytes
/// after it.
pub fn read_rising_texts(alloc: Global, bytes: &[u8]) -> Result<(Texts, &[u8]), Misread>
    ensures { Gives (λ x. (x.0, x.1.now)) result (rising_texts_at bytes.now) }
{
    let (count, rest) = read_number(bytes)?;
    let (texts, rest) = read_counted_rising_texts(alloc, count, rest)?;
    Ok((Texts::from_vec(texts), rest))
}

/// Reads a list of blobs from the start of the bytes; returns it and the bytes after it.
pub fn read_blobs(alloc: Global, bytes: &[u8]) -> Result<(Blobs, &[u8]), Misread>
    ensures { Gives (λ x. (x.0, x.1.now)) result (blobs_at bytes.now) }
{
    let (count, rest) = read_number(bytes)?;
    let (blobs, rest) = read_counted_blobs(alloc, count, rest)?;
    Ok((Blobs::from_vec(blobs), rest))
}
