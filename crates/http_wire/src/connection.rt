// What the fields of a head say of its host and of its connection.
ghost use Rattle.std.specs.Prelude.{◌≡◌, ◌∷◌, ◌+◌, ◌<◌, [], codes, reverse, take, drop, length, MatchOption};
ghost use Rattle.std.specs.List.{list_all, list_any};
ghost use Rattle.std.specs.Str.{str_eq_ignore_ascii_case};
ghost use Rattle.httparse.specs.Grammar.{is_ows, skip_ows, trim_ows};
ghost use Rattle.http_wire.specs.Fields.{pairs, values_of, is_host_byte, has_host, parts_of, lists_name, lists_word, is_last, expects_continue};

use crate::fields::{find_next, has_field, is_same_word};
use crate::request::HttpField;
use memchr::memchr;

// Returns whether a byte is one of a host.
fn is_host_byte(byte: u8) -> bool
    ensures { result ≡ is_host_byte byte }
{
    byte.is_ascii_alphanumeric() || b"._-:[]".contains(&byte)
}

// Returns whether each byte is one of a host.
fn is_host(value: &[u8]) -> bool
    ensures { result ≡ list_all is_host_byte value.now }
{
    value.iter().all(|byte| is_host_byte(*byte))
}

// Returns whether each Host field has bytes of hosts alone.
fn are_hosts(fields: &[HttpField]) -> bool
    ensures { result ≡ list_all (list_all is_host_byte) (values_of (codes "Host") (pairs
        fields.now)) }
{
    let mut rest = fields;
    'field: while let Some((value, more)) = find_next(rest, b"Host") {
        if !is_host(value) {
            return false;
        }
        rest = more;
    }
    true
}

// Returns whether a head has a Host field, and valid ones alone.
pub(crate) fn has_host(fields: &[HttpField]) -> bool
    ensures { result ≡ has_host (pairs fields.now) }
{
    has_field(fields, b"Host") && are_hosts(fields)
}

// Returns whether a request with this minor version asks for the interim response.
pub(crate) fn expects_continue(minor: u8, fields: &[HttpField]) -> bool
    ensures { result ≡ expects_continue minor (pairs fields.now) }
{
    minor == 1 && asks_to_continue(fields)
}

// Returns whether an Expect field asks for the interim response.
fn asks_to_continue(fields: &[HttpField]) -> bool
    ensures { result ≡ list_any (λ v. str_eq_ignore_ascii_case v (codes "100-continue")) (values_of
        (codes "Expect") (pairs fields.now)) }
{
    let mut rest = fields;
    'field: while let Some((value, more)) = find_next(rest, b"Expect") {
        if is_same_word(value, b"100-continue") {
            return true;
        }
        rest = more;
    }
    false
}

// Returns whether a byte is a space or a tab.
fn is_blank(byte: u8) -> bool
    ensures { result ≡ is_ows byte }
{
    byte == b' ' || byte == b'\t'
}

// Returns the bytes from the first that is no space or tab.
fn skip_blanks(text: &[u8]) -> &[u8]
    ensures { result.now ≡ skip_ows text.now }
{
    let mut rest = text;
    'blank: while let Some((byte, more)) = rest.split_first() {
        if !is_blank(*byte) {
            return rest;
        }
        rest = more;
    }
    rest
}

// Returns the bytes up to the last that is no space or tab.
#[tactic(auto, using(crate::proofs::Words::back_yes, crate::proofs::Words::back_no))]
fn cut_blanks(text: &[u8]) -> &[u8]
    ensures { result.now ≡ reverse (skip_ows (reverse text.now)) }
{
    let mut rest = text;
    'blank: while let Some((byte, more)) = rest.split_last() {
        if !is_blank(*byte) {
            return rest;
        }
        rest = more;
    }
    rest
}

// Returns the bytes without the spaces and tabs around them.
fn trim_blanks(text: &[u8]) -> &[u8]
    ensures { result.now ≡ trim_ows text.now }
{
    cut_blanks(skip_blanks(text))
}

// Returns where the first comma is.
#[tactic(auto, using(crate::proofs::Words::comma_found))]
fn find_comma(bytes: &[u8]) -> Option<usize>
    ensures { MatchOption result (parts_of bytes.now ≡ bytes.now ∷ []) (λ i. (parts_of bytes.now ≡
        take i bytes.now ∷ parts_of (drop (i + 1) bytes.now)) × (i < length bytes.now)) }
{
    memchr(b',', bytes)
}

/// Returns whether a value that is a list of words has this word, in either case. Words are
/// separated by commas, and spaces and tabs around a word do not count (RFC 9110, section 5.6.1).
pub fn lists_word(value: &[u8], word: &[u8]) -> bool
    ensures { result ≡ lists_word word.now value.now }
{
    let mut rest = value;
    'part: loop {
        let Some(at) = find_comma(rest) else {
            return is_same_word(trim_blanks(rest), word);
        };
        let (part, _) = rest.split_at(at);
        if is_same_word(trim_blanks(part), word) {
            return true;
        }
        let (_, next) = rest.split_at(at + 1);
        rest = next;
    }
}

/// Returns whether a value that is a list of words has exactly this word.
pub fn lists_name(value: &[u8], name: &[u8]) -> bool
    ensures { result ≡ lists_name name.now value.now }
{
    let mut rest = value;
    'part: loop {
        let Some(at) = find_comma(rest) else {
            return trim_blanks(rest) == name;
        };
        let (part, _) = rest.split_at(at);
        if trim_blanks(part) == name {
            return true;
        }
        let (_, next) = rest.split_at(at + 1);
        rest = next;
    }
}

// Returns whether a Connection field asks that the connection ends.
fn asks_to_close(fields: &[HttpField]) -> bool
    ensures { result ≡ list_any (lists_word (codes "close")) (values_of (codes "Connection") (pairs
        fields.now)) }
{
    let mut rest = fields;
    'field: while let Some((value, more)) = find_next(rest, b"Connection") {
        if lists_word(value, b"close") {
            return true;
        }
        rest = more;
    }
    false
}

// Returns whether the connection ends after a message with this minor version.
pub(crate) fn is_last(minor: u8, fields: &[HttpField]) -> bool
    ensures { result ≡ is_last minor (pairs fields.now) }
{
    minor == 0 || asks_to_close(fields)
}
