// A look through the lines of a header for a field of one name, which stores nothing.
ghost use Rattle.std.specs.Prelude.{◌≡◌, ◌||◌, ◌∷◌, ◌+◌, ◌<◌, ◌≤◌, IfSome, drop, false, length, true};
ghost use Rattle.mime_lines.specs.Fields.{goes_on, header, is_field, is_name_byte, name_len};
ghost use Rattle.mime_lines.specs.Lines.{is_line_end, lines, text};
ghost use Rattle.header_forms.specs.Texts.{text_form};
ghost use Rattle.filter_terms.specs.Contains.{contains};
ghost use Rattle.message_texts.specs.Scan;
ghost use Rattle.message_texts.specs.Scan.{lines_have};

use crate::plain_value::read_plain_text;
use filter_terms::contains;
use mime_lines::{count_text_bytes, is_line_end, split_line};

// Returns whether a byte may be in the name of a field (ftext; RFC 5322, section 3.6.8).
fn is_in_name(byte: u8) -> bool
    ensures { result ≡ is_name_byte byte }
{
    33 <= byte && byte <= 126 && byte != b':'
}

// Returns how many bytes of a field's name are at the start.
fn count_name(line: &[u8]) -> usize
    ensures within { result ≤ length line.now }
    ensures value { result ≡ name_len line.now }
{
    for (i, byte) in line.iter().enumerate() {
        if !is_in_name(*byte) {
            return i;
        }
    }
    line.len()
}

// Returns whether a line is a field of a name, in either case.
fn is_field_named(line: &[u8], len: usize, name: &[u8]) -> bool
    requires len { len ≡ name_len line.now }
    requires within { len < length line.now }
    ensures { result ≡ Scan.is_field_named name.now line.now }
{
    0 < len && line[len] == b':' && line[..len].eq_ignore_ascii_case(name)
}

// Returns what follows the colon of a field.
#[tactic(auto, using(mime_lines::proofs::SpanFacts::colon_of_field))]
fn find_value(line: &[u8], len: usize) -> &[u8]
    requires len { len ≡ name_len line.now }
    requires field { is_field line.now ≡ true }
    ensures { result.now ≡ drop (name_len line.now + 1) (text line.now) }
{
    let text = &line[..count_text_bytes(line)];
    &text[len + 1..]
}

// Returns whether the Text form of a value contains the needle, or None if the value needs
// decoding.
fn find_in_value(value: &[u8], needle: &[u8]) -> Option<bool>
    ensures { IfSome result (λ b. b ≡ contains needle.now (text_form value.now)) }
{
    match read_plain_text(value) {
        Some(text) => Some(contains(text, needle)),
        None => None,
    }
}

// Returns whether a line continues the one before it.
fn is_continuation(rest: &[u8]) -> bool
    ensures { result ≡ goes_on rest.now }
{
    match rest {
        [first, ..] => *first == b' ' || *first == b'\t',
        [] => false,
    }
}

// Returns whether a line that is a field contains the needle, or None if that is left open.
fn find_in_field(line: &[u8], len: usize, after: &[u8], needle: &[u8]) -> Option<bool>
    requires len { len ≡ name_len line.now }
    requires field { is_field line.now ≡ true }
    ensures value { IfSome result (λ b. b ≡ contains needle.now
        (text_form (drop (name_len line.now + 1) (text line.now)))) }
    ensures alone { IfSome result (λ b. goes_on after.now ≡ false) }
{
    if is_continuation(after) {
        return None;
    }
    find_in_value(find_value(line, len), needle)
}

// Returns whether a line is a field of a name that contains the needle, or None if that is left
// open: if the field is continued on the next line, or its value needs decoding.
fn find_in_line(line: &[u8], after: &[u8], name: &[u8], needle: &[u8]) -> Option<bool>
    ensures { IfSome result (λ b. lines_have name.now needle.now
        (line.now ∷ header (lines after.now))
        ≡ (b || lines_have name.now needle.now (header (lines after.now)))) }
{
    let len = count_name(line);
    if len == line.len() {
        return None;
    }
    if !is_field_named(line, len, name) {
        return Some(false);
    }
    find_in_field(line, len, after, needle)
}

/// Returns whether a header field of a name contains the needle, or None if that is left open,
/// since a field of the name is folded, or needs decoding. Allocates nothing, and decodes nothing.
pub(crate) fn scan_header(bytes: &[u8], name: &[u8], needle: &[u8]) -> Option<bool>
    ensures { IfSome result (λ b. b
        ≡ lines_have name.now needle.now (header (lines bytes.now))) }
{
    let mut rest = bytes;
    while !rest.is_empty() {
        let (line, after) = split_line(rest);
        if is_line_end(line) {
            return Some(false);
        }
        let found = find_in_line(line, after, name, needle)?;
        if found {
            return Some(true);
        }
        rest = after;
    }
    Some(false)
}
