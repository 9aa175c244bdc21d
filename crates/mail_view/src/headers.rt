// The JSON view of header fields (RFC 8621, sections 4.1.2 and 4.1.3).
ghost use Rattle.std.specs.Prelude.{◌≡◌, All, IfOk, map};
ghost use Rattle.jm_json.specs.Json.{tree_of};
ghost use Rattle.mime_lines.specs.Fields.{fields_of};
ghost use Rattle.mime_lines.specs.FieldOffsets.{IsWithin, last_value_of};
ghost use Rattle.header_forms.specs.Forms.{form_tree};
ghost use Rattle.mail_view.specs.Headers.{field_tree, header_among, header_tree, headers_tree, value_or_null, values_of};

use get_args::HeaderProperty;
use header_forms::{Form, form_of};
use jm_base::{NoMemory, Text};
use jm_json::{Items, Json, Members};
use mime_lines::{Field, FieldSpans, find_last_value};
use std::alloc::Global;

// Returns the values of all fields of this name, in a form.
fn write_all_values(
    alloc: Global,
    bytes: &[u8],
    fields: &[Field],
    name: &[u8],
    form: Form,
) -> Result<Items, NoMemory>
    requires { All (IsWithin bytes.now) fields.now }
    ensures { IfOk result (λ ts.
        ts ≡ map (form_tree form) (values_of bytes.now name.now fields.now)) }
{
    let mut values = Items::new(alloc);
    for field in fields {
        if !field.is_named(bytes, name) {
            continue;
        }
        values.push(form_of(alloc, field.value(bytes), form)?)?;
    }
    Ok(values)
}

// Returns the value of the last field of this name, in a form, or null.
fn write_last_value(
    alloc: Global,
    bytes: &[u8],
    fields: &FieldSpans,
    name: &[u8],
    form: Form,
) -> Result<Json, NoMemory>
    requires { All (IsWithin bytes.now) fields.now }
    ensures { IfOk result (λ t. tree_of t
        ≡ value_or_null form (last_value_of bytes.now name.now fields.now)) }
{
    match find_last_value(bytes, fields, name) {
        Some(value) => form_of(alloc, value, form),
        None => Ok(Json::Null),
    }
}

// Returns a field that is asked for, of these fields.
fn write_header_among(
    alloc: Global,
    bytes: &[u8],
    fields: &FieldSpans,
    asked: &HeaderProperty,
) -> Result<Json, NoMemory>
    requires { All (IsWithin bytes.now) fields.now }
    ensures { IfOk result (λ t. tree_of t ≡ header_among bytes.now fields.now asked.now) }
{
    let name = asked.field.as_bytes();
    if asked.all {
        let values = write_all_values(alloc, bytes, fields.as_slice(), name, asked.form)?;
        return Ok(Json::List(values));
    }
    write_last_value(alloc, bytes, fields, name, asked.form)
}

/// Returns a header field that is asked for, of a message or a part with these bytes and fields.
pub(crate) fn write_header(
    alloc: Global,
    bytes: &[u8],
    fields: &FieldSpans,
    asked: &HeaderProperty,
) -> Result<Json, NoMemory>
    requires found { fields.now ≡ fields_of bytes.now }
    requires within { All (IsWithin bytes.now) fields.now }
    ensures { IfOk result (λ t. tree_of t ≡ header_tree bytes.now asked.now) }
{
    write_header_among(alloc, bytes, fields, asked)
}

// Returns a field with its name and its raw value.
fn write_field(alloc: Global, bytes: &[u8], field: &Field) -> Result<Json, NoMemory>
    requires { IsWithin bytes.now field.now }
    ensures { IfOk result (λ t. tree_of t ≡ field_tree bytes.now field.now) }
{
    let name = Text::from_string(String::from_utf8_lossy(alloc, field.name(bytes))?);
    let value = form_of(alloc, field.value(bytes), Form::Raw)?;
    let mut object = Members::with_room(alloc, 2)?;
    object.set(alloc, "name", Json::Text(name))?;
    object.set(alloc, "value", value)?;
    Ok(Json::Object(object))
}

fn write_fields(alloc: Global, bytes: &[u8], fields: &[Field]) -> Result<Items, NoMemory>
    requires { All (IsWithin bytes.now) fields.now }
    ensures { IfOk result (λ ts. ts ≡ map (field_tree bytes.now) fields.now) }
{
    let mut objects = Items::with_room(alloc, fields.len())?;
    for field in fields {
        objects.push(write_field(alloc, bytes, field)?)?;
    }
    Ok(objects)
}

/// Returns all header fields of a message or a part with these bytes and fields.
pub(crate) fn write_headers(
    alloc: Global,
    bytes: &[u8],
    fields: &FieldSpans,
) -> Result<Json, NoMemory>
    requires found { fields.now ≡ fields_of bytes.now }
    requires within { All (IsWithin bytes.now) fields.now }
    ensures { IfOk result (λ t. tree_of t ≡ headers_tree bytes.now) }
{
    Ok(Json::List(write_fields(alloc, bytes, fields.as_slice())?))
}
