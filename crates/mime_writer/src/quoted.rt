// Quoted-printable (RFC 2045, section 6.7).
ghost use Rattle.std.specs.Prelude.{◌≡◌, ◌<◌, ◌≤◌, ◌+◌, ◌==◌, ◌++◌, ◌∷◌, [], true, length, IfOk, OnOk, MatchOption};
ghost use Rattle.std.specs.List.{slice_split};
ghost use Rattle.mime_codec.specs.QuotedText;
ghost use Rattle.mime_codec.specs.QuotedText.{broken, byte_texts, escape, hex_digit, is_lf, line_text, quoted_printable_text};
ghost use Rattle.mime_writer.specs.QuotedBytes;
ghost use Rattle.mime_writer.specs.QuotedBytes.{room_of, text_if_plain, text_of_byte};

use jm_base::NoMemory;
use memchr::memchr;

/// How many characters a line has at most, its soft line break included.
const LINE_SIZE: usize = 76;

/// Returns the digit of a number below 16.
fn find_hex_digit(number: u8) -> u8
    requires { number < 16 }
    ensures { result ≡ hex_digit number }
{
    if number < 10 {
        number + 48
    } else {
        number + 55
    }
}

/// Adds a byte as an equals sign and two digits.
fn push_escape(out: &mut Vec<u8>, byte: u8) -> Result<(), NoMemory>
    ensures { OnOk result (out.new.items ≡ out.old.items ++ escape byte) }
{
    out.push(b'=')?;
    out.push(find_hex_digit(byte / 16))?;
    out.push(find_hex_digit(byte % 16))?;
    Ok(())
}

/// Returns whether a byte stands for itself, which may be the last of its line.
fn is_plain(byte: u8, is_last: bool) -> bool
    ensures { result ≡ QuotedBytes.is_plain is_last byte }
{
    32 <= byte && byte <= 126 && byte != b'=' && !(is_last && byte == b' ')
}

/// Adds a byte, as itself or escaped.
fn push_text(out: &mut Vec<u8>, is_plain: bool, byte: u8) -> Result<(), NoMemory>
    ensures { OnOk result (out.new.items ≡ out.old.items ++ text_if_plain is_plain byte) }
{
    if is_plain {
        out.push(byte)?;
        return Ok(());
    }
    push_escape(out, byte)
}

/// Returns how many characters a byte takes.
fn count_characters(is_plain: bool, byte: u8) -> usize
    ensures value { result ≡ length (text_if_plain is_plain byte) }
    ensures small { result ≤ 3 }
{
    if is_plain { 1 } else { 3 }
}

/// Returns how many characters a line may have with a byte that may be its last.
fn find_room(is_last: bool) -> usize
    ensures value { result ≡ room_of is_last }
    ensures small { result ≤ LINE_SIZE }
{
    if is_last { LINE_SIZE } else { LINE_SIZE - 1 }
}

/// Adds a byte that these others follow, and a soft line break before it if the line has no room
/// for it. Returns how many characters the line then has.
fn push_byte(out: &mut Vec<u8>, column: usize, byte: u8, more: &[u8]) -> Result<usize, NoMemory>
    requires { column ≤ LINE_SIZE }
    ensures text { IfOk result (λ n. out.new.items ++ broken n (byte_texts more.now)
        ≡ out.old.items ++ broken column (byte_texts (byte ∷ more.now))) }
    ensures within { IfOk result (λ n. n ≤ LINE_SIZE) }
{
    let is_last = more.is_empty();
    let is_plain = is_plain(byte, is_last);
    let size = count_characters(is_plain, byte);
    if column + size <= find_room(is_last) {
        push_text(out, is_plain, byte)?;
        return Ok(column + size);
    }
    out.extend_from_slice("=\r\n".as_bytes())?;
    push_text(out, is_plain, byte)?;
    Ok(size)
}

/// Adds a line without its line end.
fn push_line(out: &mut Vec<u8>, line: &[u8]) -> Result<(), NoMemory>
    ensures { OnOk result (out.new.items ≡ out.old.items ++ line_text line.now) }
{
    let mut rest = line;
    let mut column = 0;
    while let Some((byte, more)) = rest.split_first() {
        column = push_byte(out, column, *byte, more)?;
        rest = more;
    }
    Ok(())
}

/// Returns the first line and what follows its LF; none if there is no LF.
fn split_line(bytes: &[u8]) -> Option<(&[u8], &[u8])>
    ensures value { MatchOption result (slice_split is_lf bytes.now ≡ bytes.now ∷ [])
        (λ cut. slice_split is_lf bytes.now ≡ cut.0.now ∷ slice_split is_lf cut.1.now) }
    ensures within { MatchOption result (length bytes.now ≤ length bytes.now)
        (λ cut. length cut.1.now < length bytes.now) }
{
    match memchr(b'\n', bytes) {
        Some(at) => Some((bytes.split_at(at).0, bytes.split_at(at + 1).1)),
        None => None,
    }
}

/// Adds bytes in quoted-printable: their lines, with CRLF where they have an LF (RFC 2045, section
/// 6.7). Fails only if memory runs out.
pub fn push_quoted_printable(out: &mut Vec<u8>, bytes: &[u8]) -> Result<(), NoMemory>
    ensures { OnOk result (out.new.items ≡ out.old.items ++ quoted_printable_text bytes.now) }
{
    let mut rest = bytes;
    while let Some((line, more)) = split_line(rest) {
        push_line(out, line)?;
        out.extend_from_slice("\r\n".as_bytes())?;
        rest = more;
    }
    push_line(out, rest)
}
