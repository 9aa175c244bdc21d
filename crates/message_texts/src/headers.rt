// Which header fields contain a text (RFC 8621, sections 4.1.2.2 and 4.4.1).
ghost use Rattle.std.specs.Prelude.{◌≡◌, IfOk, map};
ghost use Rattle.std.specs.List.{list_any};
ghost use Rattle.mime_lines.specs.Fields.{fields_of};
ghost use Rattle.mime_lines.specs.FieldTexts.{read_at};
ghost use Rattle.message_texts.specs.Texts.{field_has, is_field_named};

use crate::header_field::{HeaderField, has_text};
use jm_base::NoMemory;
use mime_lines::fields;
use std::alloc::Global;

/// Returns the fields of the header of the message with these bytes. No value is decoded.
pub(crate) fn read_header_fields<'a>(
    alloc: Global,
    bytes: &'a [u8],
) -> Result<Vec<HeaderField<'a>>, NoMemory>
    ensures { IfOk result (λ v. v.items ≡ map (read_at bytes.now) (fields_of bytes.now)) }
{
    let head = fields(alloc, bytes)?;
    let spans = head.fields.as_slice();
    let mut all = Vec::with_capacity(alloc, spans.len())?;
    for span in spans {
        all.push(HeaderField::new(span.name(bytes), span.value(bytes)))?;
    }
    Ok(all)
}

// Returns whether one of these fields has this name and contains the needle.
fn has_in_fields(
    alloc: Global,
    fields: &mut [HeaderField<'_>],
    name: &[u8],
    needle: &[u8],
) -> Result<bool, NoMemory>
    ensures value { IfOk result (λ b. b
        ≡ list_any (λ f. field_has name.now needle.now f) fields.old) }
    ensures same { fields.new ≡ fields.old }
{
    for field in fields.iter_mut() {
        if has_text(alloc, field, name, needle)? {
            return Ok(true);
        }
    }
    Ok(false)
}

/// Returns whether one of these fields has one of these names and contains the needle.
pub(crate) fn has_in_named_fields(
    alloc: Global,
    fields: &mut [HeaderField<'_>],
    names: &[&[u8]],
    needle: &[u8],
) -> Result<bool, NoMemory>
    ensures value { IfOk result (λ b. b ≡ list_any
        (λ name. list_any (λ f. field_has name.now needle.now f) fields.old) names.now) }
    ensures same { fields.new ≡ fields.old }
{
    for name in names {
        if has_in_fields(alloc, fields, name, needle)? {
            return Ok(true);
        }
    }
    Ok(false)
}

/// Returns whether one of these fields has this name.
pub(crate) fn is_any_named(fields: &[HeaderField<'_>], name: &[u8]) -> bool
    ensures { result ≡ list_any (λ f. is_field_named name.now f) fields.now }
{
    for field in fields {
        if field.is_named(name) {
            return true;
        }
    }
    false
}
