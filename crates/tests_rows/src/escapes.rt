// Escapes: `\r`, `\n`, `\t`, `\\` and `\xHH`, and back.
use crate::fault::Fault;
use crate::lines::split_at_byte;
use jm_base::{Bytes, NoMemory};

/// Returns the value of a hexadecimal digit.
pub(crate) fn read_hex_digit(byte: u8) -> Option<u8> {
    match byte {
        b'0'..=b'9' => Some(byte - b'0'),
        b'a'..=b'f' => Some(byte - b'a' + 10),
        b'A'..=b'F' => Some(byte - b'A' + 10),
        _ => None,
    }
}

/// Returns the byte of two hexadecimal digits.
pub(crate) fn read_hex_byte(high: u8, low: u8) -> Option<u8> {
    let high = read_hex_digit(high)?;
    let low = read_hex_digit(low)?;
    Some(high.wrapping_mul(16).wrapping_add(low))
}

// Returns the byte of the escape that begins these bytes, after its backslash, and what follows it.
fn read_escape(text: &[u8]) -> Option<(u8, &[u8])> {
    match text {
        [b'x', high, low, rest @ ..] => match read_hex_byte(*high, *low) {
            Some(byte) => Some((byte, rest)),
            None => None,
        },
        [b'r', rest @ ..] => Some((b'\r', rest)),
        [b'n', rest @ ..] => Some((b'\n', rest)),
        [b't', rest @ ..] => Some((b'\t', rest)),
        [b'\\', rest @ ..] => Some((b'\\', rest)),
        _ => None,
    }
}

/// Appends the bytes for which the text of the line with this number stands.
pub(crate) fn append_unescaped(out: &mut Bytes, number: u64, text: &[u8]) -> Result<(), Fault> {
    let mut rest = text;
    for _ in 0..text.len() {
        let (before, after) = split_at_byte(rest, b'\\');
        out.append(before)?;
        if before.len() == rest.len() {
            break;
        }
        let Some((byte, after)) = read_escape(after) else {
            return Err(Fault::Line(number, "no escape of the format"));
        };
        out.append(&[byte])?;
        rest = after;
    }
    Ok(())
}

// Returns the hexadecimal digit of the lowest four bits.
fn hex_digit(value: u8) -> u8 {
    let low = value & 15;
    if low < 10 {
        b'0' + low
    } else {
        b'a' + (low - 10)
    }
}

/// Appends the two hexadecimal digits of a byte.
pub(crate) fn append_hex_byte(out: &mut Bytes, byte: u8) -> Result<(), NoMemory> {
    out.append(&[hex_digit(byte >> 4), hex_digit(byte)])
}

/// Appends bytes as a text of one line that stands for them, but for those past ASCII, which stay.
pub(crate) fn append_escaped(out: &mut Bytes, text: &[u8]) -> Result<(), NoMemory> {
    for byte in text {
        match *byte {
            b'\r' => out.append(b"\\r")?,
            b'\n' => out.append(b"\\n")?,
            b'\t' => out.append(b"\\t")?,
            b'\\' => out.append(b"\\\\")?,
            0..=31 | 127 => {
                out.append(b"\\x")?;
                append_hex_byte(out, *byte)?;
            }
            _ => out.append(&[*byte])?,
        }
    }
    Ok(())
}
