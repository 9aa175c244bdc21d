// The paths of a patch as they are applied to an email (RFC 8621, sections 4.1.1 and 4.6).
ghost use Rattle.std.specs.Prelude.{◌≡◌, ◌++◌, IfOk, List, OnOk, codes};
ghost use Rattle.jm_json.specs.Pointer.{cut, stripped};
ghost use Rattle.jm_json.specs.declared.invocation.Created.{Created as TheCreated};
ghost use Rattle.email_set.specs.Patches.{is_fixed, meant_in_mailboxes, meant_part, meant_path, property_of};
ghost use Rattle.set_parts.specs.Views.{HoldTexts};

use jm_base::{NoMemory, Text};
use jm_json::{part_end, push_escaped, strip_prefix, unescape_part};
use set_parts::{CreatedTexts, find_text, read_reference};
use std::alloc::Global;

// Puts a part at the end of a path: the id of a created record in the place of a reference to it.
fn push_meant_part<'a>(
    alloc: Global,
    texts: &CreatedTexts<'a>,
    path: &mut Vec<u8>,
    part: &[u8],
) -> Result<(), NoMemory>
    ensures { OnOk result ((made : List TheCreated) → HoldTexts texts.now made
        → path.new.items ≡ path.old.items ++ meant_part made part.now) }
{
    let Some(escaped) = read_reference(part) else {
        path.extend_from_slice(part)?;
        return Ok(());
    };
    let Some(creation) = unescape_part(alloc, escaped)? else {
        path.extend_from_slice(part)?;
        return Ok(());
    };
    match find_text(texts, creation.as_bytes()) {
        Some(id) => push_escaped(path, id.as_bytes()),
        None => {
            path.extend_from_slice(part)?;
            Ok(())
        }
    }
}

fn build_mailbox_path<'a>(
    alloc: Global,
    texts: &CreatedTexts<'a>,
    part: &[u8],
) -> Result<Text, NoMemory>
    ensures { IfOk result (λ p. (made : List TheCreated) → HoldTexts texts.now made
        → p ≡ codes "mailboxIds/" ++ meant_part made part.now) }
{
    let mut path = Vec::from_slice(alloc, b"mailboxIds/")?;
    push_meant_part(alloc, texts, &mut path, part)?;
    match Text::from_utf8(path) {
        Some(path) => Ok(path),
        None => Err(NoMemory),
    }
}

// Builds a path that does not begin with `keywords/` as it is applied.
fn build_other_path<'a>(
    alloc: Global,
    texts: &CreatedTexts<'a>,
    path: &Text,
) -> Result<Text, NoMemory>
    ensures { IfOk result (λ p. (made : List TheCreated) → HoldTexts texts.now made
        → p ≡ meant_in_mailboxes made path.now (stripped (codes "mailboxIds/") path.now)) }
{
    match strip_prefix(b"mailboxIds/", path.as_bytes()) {
        Some(part) => build_mailbox_path(alloc, texts, part),
        None => path.copy(),
    }
}

/// Builds a path as it is applied: a keyword is in lower case, and a mailbox is named by its id.
pub fn build_meant_path<'a>(
    alloc: Global,
    texts: &CreatedTexts<'a>,
    path: &Text,
) -> Result<Text, NoMemory>
    ensures { IfOk result (λ p. (made : List TheCreated) → HoldTexts texts.now made
        → p ≡ meant_path made path.now) }
{
    if strip_prefix(b"keywords/", path.as_bytes()).is_some() {
        return Ok(Text::from_string(path.as_str().to_ascii_lowercase(alloc)?));
    }
    build_other_path(alloc, texts, path)
}

/// Returns the property that a path of one part names; None for a path of more parts, and for one
/// that is no name.
pub fn read_property(alloc: Global, path: &Text) -> Result<Option<Text>, NoMemory>
    ensures { IfOk result (λ o. o ≡ property_of (cut path.now)) }
{
    let bytes = path.as_bytes();
    if part_end(bytes) < bytes.len() {
        return Ok(None);
    }
    unescape_part(alloc, bytes)
}

/// Returns whether a property of an email is none of the two that may change.
pub fn is_fixed(name: &str) -> bool
    ensures { result ≡ is_fixed name.now }
{
    !(name == "keywords" || name == "mailboxIds")
}
