// The head of a part (RFC 2045; RFC 2046, section 5.1; RFC 2183).
ghost use Rattle.std.specs.Prelude.{◌≡◌, ◌++◌, ◌∷◌, [], List, ℕ, None, Some, codes, option_map, OnOk};
ghost use Rattle.std.specs.List.{flat_map, list_all};
ghost use Rattle.mime_lines.specs.Written.{crlf, field_line, fold, parted_by};
ghost use Rattle.mime_type.specs.HeadText.{between_quotes, coding_name, name_text, parameter_if, parameters_text, part_fields, type_parameters};
ghost use Rattle.mime_type.specs.HeadText;
ghost use Rattle.mime_writer.specs.Heads;
ghost use Rattle.mime_writer.specs.Heads.{boundary_parameter, cid_field, coding_field, disposition_field, head_text, language_field, location_field, name_lines, name_parameter, type_field};

use crate::words::{is_plain_text, push_words};
use jm_base::{Bytes, NoMemory, Text, Texts};
use mime_codec::Coding;
use std::alloc::Global;

/// What a client says of a part.
#[derive(Drop)]
pub struct PartHead {
    /// The type, before the slash.
    pub main: Bytes,
    /// The subtype, after the slash.
    pub sub: Bytes,
    pub charset: Option<Text>,
    /// The name of a file, as it is shown.
    pub name: Option<Text>,
    pub disposition: Option<Text>,
    /// The identifier of Content-ID, without angle brackets.
    pub cid: Option<Text>,
    /// The tags of Content-Language.
    pub language: Option<Texts>,
    /// The URI of Content-Location.
    pub location: Option<Text>,
}

/// Returns whether a byte of a name stands for itself between quote marks.
fn is_name_character(byte: u8) -> bool
    ensures { result ≡ HeadText.is_name_character byte }
{
    32 <= byte && byte <= 126 && byte != b'"' && byte != b'\\'
}

/// Returns whether all bytes of a name stand for themselves between quote marks.
fn are_name_characters(name: &[u8]) -> bool
    ensures { result ≡ list_all HeadText.is_name_character name.now }
{
    name.iter().all(|b| is_name_character(*b))
}

/// Returns whether a name is written as it is.
fn is_plain(name: &[u8]) -> bool
    ensures { result ≡ Heads.is_plain name.now }
{
    is_plain_text(name) && are_name_characters(name)
}

/// Adds a name between quote marks.
fn push_quoted_name(alloc: Global, out: &mut Vec<u8>, name: &str) -> Result<(), NoMemory>
    ensures { OnOk result (out.new.items ≡ out.old.items
        ++ between_quotes (parted_by fold (name_lines name.now))) }
{
    out.push(b'"')?;
    if is_plain(name.as_bytes()) {
        out.extend_from_slice(name.as_bytes())?;
    } else {
        push_words(alloc, out, "\r\n ".as_bytes(), name)?;
    }
    out.push(b'"')?;
    Ok(())
}

/// Adds a parameter that has a name of a file, if there is one.
fn push_name_parameter(
    alloc: Global,
    out: &mut Vec<u8>,
    parameter: &[u8],
    name: Option<&Text>,
) -> Result<(), NoMemory>
    ensures { OnOk result (out.new.items ≡ out.old.items
        ++ name_parameter parameter.now (option_map (λ t. t.now) name.entry)) }
{
    let Some(name) = name else {
        return Ok(());
    };
    out.extend_from_slice("; ".as_bytes())?;
    out.extend_from_slice(parameter)?;
    out.push(b'=')?;
    push_quoted_name(alloc, out, name.as_str())
}

/// Adds the charset, if there is one.
fn push_charset(out: &mut Vec<u8>, charset: Option<&Text>) -> Result<(), NoMemory>
    ensures { OnOk result (out.new.items ≡ out.old.items
        ++ parameters_text (parameter_if (codes "charset") (option_map (λ t. t.now) charset.entry))) }
{
    let Some(charset) = charset else {
        return Ok(());
    };
    out.extend_from_slice("; charset=".as_bytes())?;
    out.extend_from_slice(charset.as_bytes())?;
    Ok(())
}

/// Adds the boundary, if there is one.
fn push_boundary(out: &mut Vec<u8>, boundary: Option<&Text>) -> Result<(), NoMemory>
    ensures { OnOk result (out.new.items ≡ out.old.items
        ++ boundary_parameter (option_map (λ t. t.now) boundary.entry)) }
{
    let Some(boundary) = boundary else {
        return Ok(());
    };
    out.extend_from_slice("; boundary=\"".as_bytes())?;
    out.extend_from_slice(boundary.as_bytes())?;
    out.push(b'"')?;
    Ok(())
}

/// Adds the Content-Type field.
fn push_type(
    alloc: Global,
    out: &mut Vec<u8>,
    head: &PartHead,
    boundary: Option<&Text>,
) -> Result<(), NoMemory>
    ensures { OnOk result (out.new.items ≡ out.old.items
        ++ type_field (head_text head.now (option_map (λ t. t.now) boundary.entry) None)) }
{
    out.extend_from_slice("Content-Type: ".as_bytes())?;
    out.extend_from_slice(head.main.as_slice())?;
    out.push(b'/')?;
    out.extend_from_slice(head.sub.as_slice())?;
    push_charset(out, head.charset.as_ref())?;
    push_name_parameter(alloc, out, "name".as_bytes(), head.name.as_ref())?;
    push_boundary(out, boundary)?;
    out.extend_from_slice("\r\n".as_bytes())?;
    Ok(())
}

/// Adds the Content-Disposition field, if there is a disposition.
fn push_disposition(
    alloc: Global,
    out: &mut Vec<u8>,
    disposition: Option<&Text>,
    name: Option<&Text>,
) -> Result<(), NoMemory>
    ensures { OnOk result (out.new.items ≡ out.old.items ++ disposition_field
        (option_map (λ t. t.now) disposition.entry) (option_map (λ t. t.now) name.entry)) }
{
    let Some(disposition) = disposition else {
        return Ok(());
    };
    out.extend_from_slice("Content-Disposition: ".as_bytes())?;
    out.extend_from_slice(disposition.as_bytes())?;
    push_name_parameter(alloc, out, "filename".as_bytes(), name)?;
    out.extend_from_slice("\r\n".as_bytes())?;
    Ok(())
}

/// Adds the Content-ID field, if there is an identifier.
fn push_cid(out: &mut Vec<u8>, cid: Option<&Text>) -> Result<(), NoMemory>
    ensures { OnOk result (out.new.items ≡ out.old.items
        ++ cid_field (option_map (λ t. t.now) cid.entry)) }
{
    let Some(cid) = cid else {
        return Ok(());
    };
    out.extend_from_slice("Content-ID: <".as_bytes())?;
    out.extend_from_slice(cid.as_bytes())?;
    out.extend_from_slice(">\r\n".as_bytes())?;
    Ok(())
}

/// Adds texts, with a comma and a space between each and the next.
fn push_tags(out: &mut Vec<u8>, tags: &[Text]) -> Result<(), NoMemory>
    ensures { OnOk result (out.new.items ≡ out.old.items ++ parted_by (44 ∷ 32 ∷ []) tags.now) }
{
    let mut rest = tags;
    while let Some((tag, more)) = rest.split_first() {
        out.extend_from_slice(tag.as_bytes())?;
        if !more.is_empty() {
            out.extend_from_slice(", ".as_bytes())?;
        }
        rest = more;
    }
    Ok(())
}

/// Adds the Content-Language field, if there are tags.
fn push_language(out: &mut Vec<u8>, language: Option<&Texts>) -> Result<(), NoMemory>
    ensures { OnOk result (out.new.items ≡ out.old.items
        ++ language_field (option_map (λ t. t.now) language.entry)) }
{
    let Some(language) = language else {
        return Ok(());
    };
    out.extend_from_slice("Content-Language: ".as_bytes())?;
    push_tags(out, language.as_slice())?;
    out.extend_from_slice("\r\n".as_bytes())?;
    Ok(())
}

/// Adds the Content-Location field, if there is a location.
fn push_location(out: &mut Vec<u8>, location: Option<&Text>) -> Result<(), NoMemory>
    ensures { OnOk result (out.new.items ≡ out.old.items
        ++ location_field (option_map (λ t. t.now) location.entry)) }
{
    let Some(location) = location else {
        return Ok(());
    };
    out.extend_from_slice("Content-Location: ".as_bytes())?;
    out.extend_from_slice(location.as_bytes())?;
    out.extend_from_slice("\r\n".as_bytes())?;
    Ok(())
}

/// Returns the name of a transfer encoding.
fn find_coding_name(coding: Coding) -> &'static [u8]
    ensures { result.now ≡ coding_name coding }
{
    match coding {
        Coding::Plain => "8bit".as_bytes(),
        Coding::Quoted => "quoted-printable".as_bytes(),
        Coding::Base64 => "base64".as_bytes(),
        Coding::Unknown => "x-unknown".as_bytes(),
    }
}

/// Adds the Content-Transfer-Encoding field, if there is an encoding.
fn push_coding(out: &mut Vec<u8>, coding: Option<Coding>) -> Result<(), NoMemory>
    ensures { OnOk result (out.new.items ≡ out.old.items ++ coding_field coding) }
{
    let Some(coding) = coding else {
        return Ok(());
    };
    out.extend_from_slice("Content-Transfer-Encoding: ".as_bytes())?;
    out.extend_from_slice(find_coding_name(coding))?;
    out.extend_from_slice("\r\n".as_bytes())?;
    Ok(())
}

/// Adds the fields of a part's head: Content-Type, Content-Disposition, Content-ID,
/// Content-Language, Content-Location and Content-Transfer-Encoding, each if there is something to
/// say. Fails only if memory runs out.
pub fn push_head(
    alloc: Global,
    out: &mut Vec<u8>,
    head: &PartHead,
    boundary: Option<&Text>,
    coding: Option<Coding>,
) -> Result<(), NoMemory>
    ensures { OnOk result (out.new.items ≡ out.old.items ++ flat_map field_line
        (part_fields (head_text head.now (option_map (λ t. t.now) boundary.entry) coding))) }
{
    push_type(alloc, out, head, boundary)?;
    push_disposition(alloc, out, head.disposition.as_ref(), head.name.as_ref())?;
    push_cid(out, head.cid.as_ref())?;
    push_language(out, head.language.as_ref())?;
    push_location(out, head.location.as_ref())?;
    push_coding(out, coding)
}
