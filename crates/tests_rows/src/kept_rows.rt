// Rows that a keeper holds.
use crate::escapes::{append_hex_byte, read_hex_byte};
use crate::expand::read_number;
use crate::lines::split_at_byte;
use jm_base::{Bytes, NoMemory};
use std::alloc::Global;

/// A row that the keeper of an account holds.
#[derive(Drop)]
pub(crate) struct KeptRow {
    pub(crate) account: Bytes,
    pub(crate) row: Bytes,
}

// Appends the bytes of hexadecimal digits. Returns whether they are such.
fn append_hex(out: &mut Bytes, digits: &[u8]) -> Result<bool, NoMemory> {
    let mut rest = digits;
    for _ in 0..digits.len() {
        let [high, low, after @ ..] = rest else {
            break;
        };
        let Some(byte) = read_hex_byte(*high, *low) else {
            return Ok(false);
        };
        out.append(&[byte])?;
        rest = after;
    }
    Ok(rest.is_empty())
}

// Appends a byte as often as a word says: two hexadecimal digits and a count. Returns whether they
// are such.
fn append_repeated(out: &mut Bytes, digits: &[u8], count: &[u8]) -> Result<bool, NoMemory> {
    let [high, low] = digits else {
        return Ok(false);
    };
    let Some(byte) = read_hex_byte(*high, *low) else {
        return Ok(false);
    };
    let Some(count) = read_number(count) else {
        return Ok(false);
    };
    for _ in 0..count {
        out.append(&[byte])?;
    }
    Ok(true)
}

// Appends the bytes of a word. Returns whether it is one.
fn append_word(out: &mut Bytes, word: &[u8]) -> Result<bool, NoMemory> {
    match word {
        [b'#' | b'n', digits @ ..] => match read_number(digits) {
            Some(number) => {
                out.append(number.to_be_bytes().as_slice())?;
                Ok(true)
            }
            None => Ok(false),
        },
        _ => {
            let (digits, count) = split_at_byte(word, b'*');
            if digits.len() == word.len() {
                append_hex(out, word)
            } else {
                append_repeated(out, digits, count)
            }
        }
    }
}

/// Returns the bytes of these words, or `None` if one is not of the format.
pub(crate) fn read_codes(alloc: Global, codes: &[u8]) -> Result<Option<Bytes>, NoMemory> {
    let mut out = Bytes::new(alloc);
    let mut rest = codes;
    for _ in 0..codes.len() {
        let (word, after) = split_at_byte(rest, b' ');
        if !append_word(&mut out, word)? {
            return Ok(None);
        }
        rest = after;
    }
    Ok(Some(out))
}

/// Returns the rows of an account, as a line of hexadecimal digits each.
pub(crate) fn show_rows(
    alloc: Global,
    rows: &[KeptRow],
    account: &[u8],
) -> Result<Bytes, NoMemory> {
    let mut out = Bytes::new(alloc);
    for one in rows {
        if one.account.as_slice() == account {
            for byte in one.row.as_slice() {
                append_hex_byte(&mut out, *byte)?;
            }
            out.append(b"\n")?;
        }
    }
    Ok(out)
}
