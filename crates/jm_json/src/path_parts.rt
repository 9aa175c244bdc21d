// The parts of a path, and the names that are escaped as them (RFC 6901, sections 3 and 4).
ghost use Rattle.std.specs.Prelude.{◌≡◌, ◌≤◌, ◌∷◌, ◌++◌, true, None, length, is_some, option_map, IfOk, IfSome, OnOk, MatchOption};
ghost use Rattle.jm_json.specs.Integers.{pointer_byte, pointer_part};
ghost use Rattle.jm_json.specs.Pointer.{name_of, stripped, unescaped};

use crate::paths::skip_byte;
use jm_base::{NoMemory, Text};
use std::alloc::Global;

/// Returns what follows some bytes in a path, if the path begins with them.
pub fn strip_prefix<'a>(prefix: &[u8], path: &'a [u8]) -> Option<&'a [u8]>
    ensures { option_map (λ r. r.now) result ≡ stripped prefix.now path.now }
{
    let mut rest = path;
    for byte in prefix {
        match skip_byte(rest, *byte) {
            Some(more) => rest = more,
            None => return None,
        }
    }
    Some(rest)
}

/// Adds a name to a path, escaped as a part. If an allocation fails, some of the part was added.
pub fn push_escaped(path: &mut Vec<u8>, name: &[u8]) -> Result<(), NoMemory>
    ensures { OnOk result (path.new.items ≡ path.old.items ++ pointer_part name.now) }
{
    for byte in name {
        push_byte(path, *byte)?;
    }
    Ok(())
}

fn push_byte(path: &mut Vec<u8>, byte: u8) -> Result<(), NoMemory>
    ensures { OnOk result (path.new.items ≡ path.old.items ++ pointer_byte byte) }
{
    match byte {
        b'~' => path.extend_from_slice(b"~0")?,
        b'/' => path.extend_from_slice(b"~1")?,
        _ => path.push(byte)?,
    }
    Ok(())
}

// A byte of a name that is escaped in a part, and the rest of the part.
#[derive(Clone, Copy)]
struct Unescaped<'a> {
    byte: u8,
    rest: &'a [u8],
}

// Returns the first byte of the name that is escaped as this byte and the rest.
fn unescape_first<'a>(byte: u8, rest: &'a [u8]) -> Option<Unescaped<'a>>
    ensures name { MatchOption result (name_of (byte ∷ rest.now) ≡ None)
        (λ u. name_of (byte ∷ rest.now) ≡ option_map (λ k. u.byte ∷ k) (name_of u.rest.now)) }
    ensures shorter { IfSome result (λ u. length u.rest.now ≤ length rest.now) }
{
    match byte {
        b'~' => unescape_tilde(rest),
        b'/' => None,
        _ => Some(Unescaped { byte, rest }),
    }
}

fn unescape_tilde<'a>(part: &'a [u8]) -> Option<Unescaped<'a>>
    ensures name { MatchOption result (unescaped true part.now ≡ None)
        (λ u. unescaped true part.now ≡ option_map (λ k. u.byte ∷ k) (name_of u.rest.now)) }
    ensures shorter { IfSome result (λ u. length u.rest.now ≤ length part.now) }
{
    match part.split_first() {
        Some((first, rest)) => unescape_letter(*first, rest),
        None => None,
    }
}

fn unescape_letter<'a>(letter: u8, rest: &'a [u8]) -> Option<Unescaped<'a>>
    ensures name { MatchOption result (unescaped true (letter ∷ rest.now) ≡ None)
        (λ u. unescaped true (letter ∷ rest.now) ≡ option_map
        (λ k. u.byte ∷ k) (name_of u.rest.now)) }
    ensures shorter { IfSome result (λ u. length u.rest.now ≤ length rest.now) }
{
    match letter {
        b'0' => Some(Unescaped { byte: b'~', rest }),
        b'1' => Some(Unescaped { byte: b'/', rest }),
        _ => None,
    }
}

// Returns whether a part is an escaped name.
pub(crate) fn is_name(part: &[u8]) -> bool
    ensures { result ≡ is_some (name_of part.now) }
{
    let mut rest = part;
    'bytes: while let Some((byte, more)) = rest.split_first() {
        match unescape_first(*byte, more) {
            Some(first) => rest = first.rest,
            None => return false,
        }
    }
    true
}

/// Returns the name that is escaped as a part, if there is one.
pub fn unescape_part(alloc: Global, part: &[u8]) -> Result<Option<Text>, NoMemory>
    ensures { IfOk result (λ o. o ≡ name_of part.now) }
{
    let mut name = Vec::with_capacity(alloc, part.len())?;
    let mut rest = part;
    'bytes: while let Some((byte, more)) = rest.split_first() {
        match unescape_first(*byte, more) {
            Some(first) => {
                name.push(first.byte)?;
                rest = first.rest;
            }
            None => return Ok(None),
        }
    }
    match Text::from_utf8(name) {
        Some(name) => Ok(Some(name)),
        None => Err(NoMemory),
    }
}
