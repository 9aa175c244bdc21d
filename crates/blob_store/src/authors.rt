// The texts by which the blobs are found in a search for an author.
ghost use Rattle.std.specs.Prelude.{◌≡◌, [], ◌∷◌, All, IfOk, IfSome, MatchOption, option_map};
ghost use Rattle.mime_lines.specs.FieldOffsets.{IsWithin, lowered};
ghost use Rattle.header_forms.specs.Texts.{text_form};
ghost use Rattle.blob_store.specs.Authors.{AreSearched, IsSearched, author_values};

use header_forms::read_text_form;
use jm_base::{Bytes, NoMemory};
use mime_lines::{Field, fields};
use std::alloc::Global;
use text_column::TextColumn;

/// How many bytes a blob has at most whose author is kept: 1 MiB. A larger blob is no message whose
/// header is worth a look before a query asks for it.
const MAX_READ_BYTES: usize = 1_048_576;

// Returns the value of the only field From of these, `Some(None)` if there is no such field, and
// `None` if there are two or more.
fn find_only_author<'a>(bytes: &'a [u8], fields: &[Field]) -> Option<Option<&'a [u8]>>
    requires { All (IsWithin bytes.now) fields.now }
    ensures { IfSome result (λ only. MatchOption only (author_values bytes.now fields.now ≡ [])
        (λ v. author_values bytes.now fields.now ≡ v.now ∷ [])) }
{
    let mut only = None;
    for field in fields {
        if field.is_named(bytes, b"From") {
            if only.is_some() {
                return None;
            }
            only = Some(field.value(bytes));
        }
    }
    Some(only)
}

// Returns the Text form of a value, in lower case, unless it has more than `most` bytes.
fn read_searched_text(alloc: Global, value: &[u8], most: usize) -> Result<Option<Vec<u8>>, NoMemory>
    ensures { IfOk result (λ o. IfSome o (λ t. t.items ≡ lowered (text_form value.now))) }
{
    let text = read_text_form(alloc, value)?;
    if text.as_bytes().len() > most {
        return Ok(None);
    }
    Ok(Some(text.as_bytes().to_ascii_lowercase(alloc)?))
}

// Returns the text by which the message with these bytes is found in a search for its author, or
// None if it is not kept: of a message with two authors' fields, of one with more than
// `MAX_READ_BYTES`, and of one whose text has more bytes than the message.
fn read_author(alloc: Global, bytes: &[u8]) -> Result<Option<Vec<u8>>, NoMemory>
    ensures { IfOk result (λ o. IsSearched bytes.now (option_map (λ v. v.items) o)) }
{
    if bytes.len() > MAX_READ_BYTES {
        return Ok(None);
    }
    let head = fields(alloc, bytes)?;
    match find_only_author(bytes, head.fields.as_slice()) {
        None => Ok(None),
        Some(None) => Ok(Some(Vec::new(alloc))),
        Some(Some(value)) => read_searched_text(alloc, value, bytes.len()),
    }
}

/// Adds the texts of the blobs that have none yet. If memory runs out, the texts of some blobs may
/// have been added.
pub(crate) fn catch_up(
    alloc: Global,
    blobs: &[Bytes],
    authors: &mut TextColumn,
) -> Result<(), NoMemory>
    requires { AreSearched authors.old blobs.now }
    ensures { AreSearched authors.new blobs.now }
{
    while authors.len() < blobs.len() {
        let text = read_author(alloc, blobs[authors.len()].as_slice())?;
        authors.push(text.as_deref())?;
    }
    Ok(())
}
