// Content-Id, Content-Language, Content-Location and Content-Transfer-Encoding.
ghost use Rattle.std.specs.Prelude.{◌≡◌, ◌++◌, ◌∷◌, [], ℕ, option_map, IfOk, OnOk};
ghost use Rattle.mime_type.specs.Content;
ghost use Rattle.mime_type.specs.Labels.{without_open, without_close, id_in, items, languages_in, coding_named};
ghost use Rattle.mail_text.specs.Texts.{trimmed};
ghost use Rattle.std.specs.Str.{IsUtf8};

use crate::characters::lower_copy;
use jm_base::{NoMemory, Sequence, Text, Texts};
use mail_text::trim;
use mime_codec::Coding;
use std::alloc::Global;

/// Returns a text without one angle bracket at each end.
fn strip_brackets(text: &[u8]) -> &[u8]
    ensures { result.now ≡ without_close (without_open text.now) }
{
    let inner = match text {
        [b'<', rest @ ..] => rest,
        _ => text,
    };
    match inner {
        [id @ .., b'>'] => id,
        _ => inner,
    }
}

/// Copies bytes that are UTF-8.
fn copy_text(alloc: Global, bytes: &[u8]) -> Result<Text, NoMemory>
    requires { IsUtf8 bytes.now }
    ensures { IfOk result (λ t. t ≡ bytes.now) }
{
    Ok(Text::from_string(String::from_utf8_lossy(alloc, bytes)?))
}

/// Reads the identifier of a Content-Id field, if there is one.
pub fn read_id(alloc: Global, field: &Option<Text>) -> Result<Option<Text>, NoMemory>
    ensures { IfOk result (λ r. r ≡ option_map id_in field.now) }
{
    match field {
        Some(text) => Ok(Some(copy_text(alloc, strip_brackets(trim(text.as_str()).as_bytes()))?)),
        None => Ok(None),
    }
}

/// Reads the URI of a Content-Location field, if there is one.
pub fn read_location(alloc: Global, field: &Option<Text>) -> Result<Option<Text>, NoMemory>
    ensures { IfOk result (λ r. r ≡ option_map trimmed field.now) }
{
    match field {
        Some(text) => Ok(Some(Text::from_str(alloc, trim(text.as_str()))?)),
        None => Ok(None),
    }
}

/// Adds the tag that is between two commas, if there is one.
fn push_tag(alloc: Global, tags: &mut Texts, text: &str) -> Result<(), NoMemory>
    ensures { OnOk result (tags.new ≡ tags.old ++ items (text.now ∷ [])) }
{
    let tag = trim(text);
    if !tag.is_empty() {
        tags.push(Text::from_str(alloc, tag)?)?;
    }
    Ok(())
}

/// Reads the tags between commas.
fn read_tags(alloc: Global, text: &str) -> Result<Texts, NoMemory>
    ensures { IfOk result (λ tags. tags ≡ languages_in text.now) }
{
    let mut tags = Sequence::new(alloc);
    let mut rest = text;
    while let Some((tag, after)) = rest.split_once(',') {
        push_tag(alloc, &mut tags, tag)?;
        rest = after;
    }
    push_tag(alloc, &mut tags, rest)?;
    Ok(tags)
}

/// Reads the tags of a Content-Language field, if there is one.
pub fn read_language(alloc: Global, field: &Option<Text>) -> Result<Option<Texts>, NoMemory>
    ensures { IfOk result (λ r. r ≡ option_map languages_in field.now) }
{
    match field {
        Some(text) => Ok(Some(read_tags(alloc, text.as_str())?)),
        None => Ok(None),
    }
}

/// Returns the transfer encoding of a name in lower case (RFC 2045, section 6.1).
fn find_coding(name: &[u8]) -> Coding
    ensures { result ≡ coding_named name.now }
{
    if name == b"quoted-printable".as_slice() {
        Coding::Quoted
    } else if name == b"base64".as_slice() {
        Coding::Base64
    } else if name == b"7bit".as_slice()
        || name == b"8bit".as_slice()
        || name == b"binary".as_slice()
    {
        Coding::Plain
    } else {
        Coding::Unknown
    }
}

/// Reads the transfer encoding of a part from its Content-Transfer-Encoding field, if it has one.
pub fn read_coding(alloc: Global, field: &Option<Text>) -> Result<Coding, NoMemory>
    ensures { IfOk result (λ c. c ≡ Rattle.mime_type.specs.Content.coding_of field.now) }
{
    match field {
        Some(text) => {
            let name = lower_copy(alloc, trim(text.as_str()).as_bytes())?;
            Ok(find_coding(name.as_slice()))
        }
        None => Ok(Coding::Plain),
    }
}
