// Base64 (RFC 2045, section 6.8): each three bytes as four characters, in lines.
ghost use Rattle.std.specs.Prelude.{◌≡◌, ◌<◌, ◌/◌, ◌%◌, ◌*◌, ◌+◌, ◌++◌, ◌∷◌, [], length, OnOk};
ghost use Rattle.mime_codec.specs.Base64Text.{base64_text, encoded, sign};

use jm_base::NoMemory;

/// The characters of the alphabet, by their six bits.
const ALPHABET: &str = "ABCDEFGHIJKLMNOPQRSTUVWXYZabcdefghijklmnopqrstuvwxyz0123456789+/";

/// How many bytes a whole line encodes: 76 characters.
const LINE_BYTES: usize = 57;

/// Returns the character of these six bits.
fn find_sign(bits: u8) -> u8
    requires { bits < 64 }
    ensures { result ≡ sign bits }
{
    ALPHABET.as_bytes()[bits as usize]
}

/// Adds the four characters of three bytes.
fn push_group(out: &mut Vec<u8>, a: u8, b: u8, c: u8) -> Result<(), NoMemory>
    ensures { OnOk result (out.new.items ≡ out.old.items ++ encoded (a ∷ b ∷ c ∷ [])) }
{
    out.push(find_sign(a / 4))?;
    out.push(find_sign(a % 4 * 16 + b / 16))?;
    out.push(find_sign(b % 16 * 4 + c / 64))?;
    out.push(find_sign(c % 64))?;
    Ok(())
}

/// Adds the four characters of one byte.
fn push_one(out: &mut Vec<u8>, a: u8) -> Result<(), NoMemory>
    ensures { OnOk result (out.new.items ≡ out.old.items ++ encoded (a ∷ [])) }
{
    out.push(find_sign(a / 4))?;
    out.push(find_sign(a % 4 * 16))?;
    out.push(b'=')?;
    out.push(b'=')?;
    Ok(())
}

/// Adds the four characters of two bytes.
fn push_two(out: &mut Vec<u8>, a: u8, b: u8) -> Result<(), NoMemory>
    ensures { OnOk result (out.new.items ≡ out.old.items ++ encoded (a ∷ b ∷ [])) }
{
    out.push(find_sign(a / 4))?;
    out.push(find_sign(a % 4 * 16 + b / 16))?;
    out.push(find_sign(b % 16 * 4))?;
    out.push(b'=')?;
    Ok(())
}

/// Adds the characters of at most two bytes.
fn push_last(out: &mut Vec<u8>, bytes: &[u8]) -> Result<(), NoMemory>
    requires { length bytes.now < 3 }
    ensures { OnOk result (out.new.items ≡ out.old.items ++ encoded bytes.now) }
{
    match bytes {
        [a, b, ..] => push_two(out, *a, *b),
        [a] => push_one(out, *a),
        [] => Ok(()),
    }
}

/// Adds the characters of bytes, on one line.
pub(crate) fn push_encoded(out: &mut Vec<u8>, bytes: &[u8]) -> Result<(), NoMemory>
    ensures { OnOk result (out.new.items ≡ out.old.items ++ encoded bytes.now) }
{
    let mut rest = bytes;
    while rest.len() > 2 {
        push_group(out, rest[0], rest[1], rest[2])?;
        rest = &rest[3..];
    }
    push_last(out, rest)
}

/// Adds bytes in base64, in lines of 76 characters; no line end is at the end (RFC 2045, section
/// 6.8). Fails only if memory runs out.
pub fn push_base64(out: &mut Vec<u8>, bytes: &[u8]) -> Result<(), NoMemory>
    ensures { OnOk result (out.new.items ≡ out.old.items ++ base64_text bytes.now) }
{
    let mut rest = bytes;
    while rest.len() > LINE_BYTES {
        let (line, more) = rest.split_at(LINE_BYTES);
        push_encoded(out, line)?;
        out.extend_from_slice("\r\n".as_bytes())?;
        rest = more;
    }
    push_encoded(out, rest)
}
