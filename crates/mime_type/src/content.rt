// What a type and a disposition say of a part (RFC 2045, section 5; RFC 2046, section 5.1; RFC
// 2183).
ghost use Rattle.std.specs.Prelude.{◌≡◌, option_map, IfOk};
ghost use Rattle.std.specs.Option.{ForSome};
ghost use Rattle.mime_lines.specs.FieldOffsets.{lowered};
ghost use Rattle.mime_type.specs.Content;
ghost use Rattle.mime_type.specs.Texts.{IsText};
ghost use Rattle.mime_type.specs.Views.{kind_of};

use crate::kind::Kind;
use crate::params::{into_text, read_parameter};
use jm_base::{NoMemory, Text};
use std::alloc::Global;

/// Puts a text in lower case, in its own memory.
fn lower_text(text: Text) -> Text
    ensures { result ≡ lowered text }
{
    let mut string = text.into_string();
    string.make_ascii_lowercase();
    Text::from_string(string)
}

/// Returns the charset of a type that has no such parameter.
fn default_charset(alloc: Global, kind: &[u8]) -> Result<Option<Text>, NoMemory>
    ensures { IfOk result (λ c. c ≡ Rattle.mime_type.specs.Content.default_charset kind.now) }
{
    if kind.starts_with(b"text/") {
        return Ok(Some(Text::from_str(alloc, "us-ascii")?));
    }
    Ok(None)
}

/// Reads the charset of a type, in lower case.
pub fn read_charset(alloc: Global, kind: &Kind<'_>) -> Result<Option<Text>, NoMemory>
    requires { IsText (kind_of kind.now) }
    ensures { IfOk result (λ c. c ≡ Rattle.mime_type.specs.Content.charset_of (kind_of kind.now)) }
{
    match read_parameter(alloc, kind.params, b"charset")? {
        Some(charset) => Ok(Some(lower_text(charset))),
        None => default_charset(alloc, kind.kind.as_slice()),
    }
}

fn is_multipart(kind: &[u8]) -> bool
    ensures { result ≡ Rattle.mime_type.specs.Content.is_multipart kind.now }
{
    kind.starts_with(b"multipart/")
}

/// Returns a boundary, if it isn't empty.
fn keep_if_not_empty(boundary: Option<Text>) -> Option<Text>
    ensures { result ≡ Rattle.mime_type.specs.Content.if_any boundary }
{
    match boundary {
        None => None,
        Some(text) => {
            if text.as_bytes().is_empty() {
                None
            } else {
                Some(text)
            }
        }
    }
}

/// Reads the boundary of a multipart.
pub fn read_boundary(alloc: Global, kind: &Kind<'_>) -> Result<Option<Text>, NoMemory>
    requires { IsText (kind_of kind.now) }
    ensures { IfOk result (λ b. b ≡ Rattle.mime_type.specs.Content.boundary_of (kind_of kind.now)) }
{
    if !is_multipart(kind.kind.as_slice()) {
        return Ok(None);
    }
    Ok(keep_if_not_empty(read_parameter(alloc, kind.params, b"boundary")?))
}

/// Returns the type that a part is read as. A multipart without a boundary is
/// application/octet-stream.
pub fn read_media(alloc: Global, kind: Kind<'_>, boundary: &Option<Text>) -> Result<Text, NoMemory>
    requires text { IsText (kind_of kind) }
    requires boundary { boundary.now ≡ Rattle.mime_type.specs.Content.boundary_of (kind_of kind) }
    ensures { IfOk result (λ m. m ≡ Rattle.mime_type.specs.Content.media_of (kind_of kind.entry)) }
{
    if boundary.is_none() && is_multipart(kind.kind.as_slice()) {
        return Text::from_str(alloc, "application/octet-stream");
    }
    Ok(into_text(kind.kind))
}

/// Reads the filename of a disposition.
fn read_filename(alloc: Global, shown: &Option<Kind<'_>>) -> Result<Option<Text>, NoMemory>
    requires { ForSome shown.now (λ k. IsText (kind_of k)) }
    ensures { IfOk result (λ n. n ≡ Rattle.mime_type.specs.Content.filename_of
        (option_map kind_of shown.now)) }
{
    match shown {
        Some(kind) => read_parameter(alloc, kind.params, b"filename"),
        None => Ok(None),
    }
}

/// Reads the name of a part, before its encoded-words are decoded.
pub fn read_name(
    alloc: Global,
    shown: &Option<Kind<'_>>,
    kind: &Kind<'_>,
) -> Result<Option<Text>, NoMemory>
    requires shown { ForSome shown.now (λ k. IsText (kind_of k)) }
    requires kind { IsText (kind_of kind.now) }
    ensures { IfOk result (λ n. n ≡ Rattle.mime_type.specs.Content.name_of
        (option_map kind_of shown.now) (kind_of kind.now)) }
{
    match read_filename(alloc, shown)? {
        Some(name) => Ok(Some(name)),
        None => read_parameter(alloc, kind.params, b"name"),
    }
}

/// Returns the disposition's name.
pub fn read_shown(shown: Option<Kind<'_>>) -> Option<Text>
    requires { ForSome shown (λ k. IsText (kind_of k)) }
    ensures { result ≡ option_map (λ k. k.kind) (option_map kind_of shown.entry) }
{
    match shown {
        Some(kind) => Some(into_text(kind.kind)),
        None => None,
    }
}
