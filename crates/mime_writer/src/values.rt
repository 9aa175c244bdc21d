// Values of header fields: all that follows the colon (RFC 5322, sections 2.2.3 and 3.6).
ghost use Rattle.std.specs.Prelude.{◌≡◌, ◌++◌, option_map, OnOk};
ghost use Rattle.std.specs.List.{list_all};
ghost use Rattle.header_forms.specs.WrittenForms.{angled, text_value};
ghost use Rattle.header_forms.specs.WrittenForms;
ghost use Rattle.mime_writer.specs.Leads;
ghost use Rattle.mime_writer.specs.Leads.{lead_before};

use crate::words::{is_plain_text, push_words};
use jm_base::NoMemory;
use std::alloc::Global;

/// The end of a line that the next line continues.
const FOLD: &str = "\r\n ";

/// How many bytes a display-name has at most that is written as it is.
const MAX_PLAIN_BYTES: usize = 900;

/// Adds the value of a text: as it is, or in encoded-words, each on a line of its own. Fails only
/// if memory runs out.
pub fn push_text_value(alloc: Global, out: &mut Vec<u8>, text: &str) -> Result<(), NoMemory>
    ensures { OnOk result (out.new.items ≡ out.old.items ++ text_value text.now) }
{
    if is_plain_text(text.as_bytes()) {
        out.push(b' ')?;
        out.extend_from_slice(text.as_bytes())?;
        return Ok(());
    }
    out.extend_from_slice(FOLD.as_bytes())?;
    push_words(alloc, out, FOLD.as_bytes(), text)
}

/// Adds a text in angle brackets. Fails only if memory runs out.
pub fn push_angled(out: &mut Vec<u8>, text: &[u8]) -> Result<(), NoMemory>
    ensures { OnOk result (out.new.items ≡ out.old.items ++ angled text.now) }
{
    out.push(b'<')?;
    out.extend_from_slice(text)?;
    out.push(b'>')?;
    Ok(())
}

/// Returns whether two spaces begin some bytes.
fn begins_with_two_spaces(bytes: &[u8]) -> bool
    ensures { result ≡ Leads.begins_with_two_spaces bytes.now }
{
    match bytes {
        [b' ', b' ', ..] => true,
        _ => false,
    }
}

/// Returns whether two spaces in a row are in a text.
fn has_two_spaces(text: &[u8]) -> bool
    ensures { result ≡ WrittenForms.has_two_spaces text.now }
{
    let mut rest = text;
    while let Some((_, more)) = rest.split_first() {
        if begins_with_two_spaces(rest) {
            return true;
        }
        rest = more;
    }
    false
}

/// Returns whether a byte of a display-name may be written as it is.
fn is_name_character(byte: u8) -> bool
    ensures { result ≡ WrittenForms.is_name_character byte }
{
    byte.is_ascii_alphanumeric() || byte == b'-' || byte == b' '
}

fn are_name_characters(name: &[u8]) -> bool
    ensures { result ≡ list_all WrittenForms.is_name_character name.now }
{
    name.iter().all(|b| is_name_character(*b))
}

/// Returns whether a display-name is written as it is: it has few bytes, all letters, digits,
/// hyphens and single spaces.
fn is_plain_name(name: &[u8]) -> bool
    ensures { result ≡ WrittenForms.is_plain_name name.now }
{
    if name.len() > MAX_PLAIN_BYTES || !are_name_characters(name) {
        return false;
    }
    !has_two_spaces(name)
}

/// Adds a display-name, if there is one, and what parts it from an address. Fails only if memory
/// runs out.
pub fn push_name(alloc: Global, out: &mut Vec<u8>, name: Option<&str>) -> Result<(), NoMemory>
    ensures { OnOk result (out.new.items ≡ out.old.items
        ++ WrittenForms.name_text (option_map (λ t. t.now) name.entry)) }
{
    let Some(name) = name else {
        return Ok(());
    };
    if is_plain_name(name.as_bytes()) {
        out.extend_from_slice(name.as_bytes())?;
        out.push(b' ')?;
        return Ok(());
    }
    push_words(alloc, out, FOLD.as_bytes(), name)?;
    out.extend_from_slice(FOLD.as_bytes())?;
    Ok(())
}

/// Returns whether a display-name is written in encoded-words.
fn is_in_words(name: Option<&str>) -> bool
    ensures { result ≡ WrittenForms.is_in_words (option_map (λ t. t.now) name.entry) }
{
    match name {
        Some(name) => !is_plain_name(name.as_bytes()),
        None => false,
    }
}

/// Adds what is before the first address, which has this name. Fails only if memory runs out.
pub fn push_lead(out: &mut Vec<u8>, name: Option<&str>) -> Result<(), NoMemory>
    ensures { OnOk result (out.new.items ≡ out.old.items
        ++ lead_before (option_map (λ t. t.now) name.entry)) }
{
    if is_in_words(name) {
        out.extend_from_slice(FOLD.as_bytes())?;
        return Ok(());
    }
    out.push(b' ')?;
    Ok(())
}
