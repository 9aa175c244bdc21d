// The JSON view of a message (RFC 8621, sections 4.1, 4.2 and 4.9).
ghost use Rattle.std.specs.Prelude.{◌≡◌, All, IfOk, IfSome};
ghost use Rattle.jm_json.specs.Json.{tree_of as json_of};
ghost use Rattle.mime_lines.specs.Fields.{fields_of};
ghost use Rattle.mime_lines.specs.FieldOffsets.{IsWithin};
ghost use Rattle.mail_view.specs.Messages.{IsRead};
ghost use Rattle.mail_view.specs.View.{property_tree, view_members, view_tree};
ghost use Rattle.mail_view.specs.Views.{email_of};

use crate::headers::{write_header, write_headers};
use crate::message::{
    Message, write_attachments, write_body_structure, write_has_attachment, write_html_body,
    write_preview, write_text_body,
};
use crate::metadata::write_metadata;
use crate::part::Showing;
use crate::part_list::list_parts;
use crate::sizes::collect_shown_sizes;
use crate::values::write_body_values;
use body_lists::lists;
use get_args::{NamedProperty, Property, Wanted};
use jm_base::NoMemory;
use jm_json::{Json, Members};
use mail_records::Email;
use mime_lines::{FieldSpans, fields};
use mime_tree::parts;
use std::alloc::Global;

// Returns a property of a message that is read, and of the email that it is, if it is one.
fn write_property(
    alloc: Global,
    message: &Message<'_>,
    email: Option<&Email>,
    wanted: &Wanted,
    property: &Property,
) -> Result<Json, NoMemory>
    requires read { IsRead message.now }
    requires asked { message.now.showing.asked.now ≡ wanted.now.parts }
    ensures { IfOk result (λ t. json_of t
        ≡ property_tree message.now.showing.bytes.now message.now.showing.blob.now
        (email_of email.entry) wanted.now property.now) }
{
    let bytes = message.showing.bytes;
    match property {
        Property::Metadata(metadata) => {
            write_metadata(alloc, bytes, message.showing.blob, email, *metadata)
        }
        Property::Header(header) => write_header(alloc, bytes, message.fields, header),
        Property::Headers => write_headers(alloc, bytes, message.fields),
        Property::BodyStructure => write_body_structure(alloc, message),
        Property::BodyValues => write_body_values(alloc, message, wanted),
        Property::TextBody => write_text_body(alloc, message),
        Property::HtmlBody => write_html_body(alloc, message),
        Property::Attachments => write_attachments(alloc, message),
        Property::HasAttachment => write_has_attachment(alloc, message),
        Property::Preview => write_preview(alloc, message),
    }
}

// Returns the properties that are asked for, of a message that is read.
fn write_members(
    alloc: Global,
    message: &Message<'_>,
    email: Option<&Email>,
    wanted: &Wanted,
) -> Result<Members, NoMemory>
    requires read { IsRead message.now }
    requires asked { message.now.showing.asked.now ≡ wanted.now.parts }
    ensures { IfOk result (λ ms. ms
        ≡ view_members message.now.showing.bytes.now message.now.showing.blob.now
        (email_of email.entry) wanted.now) }
{
    let properties = wanted.properties.as_slice();
    let mut members = Members::with_room(alloc, properties.len())?;
    for asked in properties {
        let value = write_property(alloc, message, email, wanted, &asked.property)?;
        members.put(asked.name.copy()?, value)?;
    }
    Ok(members)
}

// Returns the properties that are asked for, if all of them are metadata: no line of the message is
// read.
fn write_metadata_members(
    alloc: Global,
    bytes: &[u8],
    blob: &str,
    email: Option<&Email>,
    wanted: &Wanted,
) -> Result<Option<Members>, NoMemory>
    ensures { IfOk result (λ o. IfSome o (λ ms.
        ms ≡ view_members bytes.now blob.now (email_of email.entry) wanted.now)) }
{
    let properties = wanted.properties.as_slice();
    let mut members = Members::with_room(alloc, properties.len())?;
    for asked in properties {
        let Property::Metadata(metadata) = &asked.property else {
            return Ok(None);
        };
        let value = write_metadata(alloc, bytes, blob, email, *metadata)?;
        members.put(asked.name.copy()?, value)?;
    }
    Ok(Some(members))
}

// Returns a property for which no body is read, of a message with these header fields. It does not
// depend on what else is wanted.
fn write_header_property(
    alloc: Global,
    bytes: &[u8],
    blob: &str,
    email: Option<&Email>,
    fields: &FieldSpans,
    _wanted: &Wanted,
    property: &Property,
) -> Result<Option<Json>, NoMemory>
    requires found { fields.now ≡ fields_of bytes.now }
    requires within { All (IsWithin bytes.now) fields.now }
    ensures { IfOk result (λ o. IfSome o (λ t. json_of t
        ≡ property_tree bytes.now blob.now (email_of email.entry) _wanted.now property.now)) }
{
    match property {
        Property::Metadata(metadata) => {
            Ok(Some(write_metadata(alloc, bytes, blob, email, *metadata)?))
        }
        Property::Header(header) => Ok(Some(write_header(alloc, bytes, fields, header)?)),
        Property::Headers => Ok(Some(write_headers(alloc, bytes, fields)?)),
        _ => Ok(None),
    }
}

// Returns the properties that are asked for, if none of them needs a body: only the header is read.
fn write_header_members(
    alloc: Global,
    bytes: &[u8],
    blob: &str,
    email: Option<&Email>,
    wanted: &Wanted,
) -> Result<Option<Members>, NoMemory>
    ensures { IfOk result (λ o. IfSome o (λ ms.
        ms ≡ view_members bytes.now blob.now (email_of email.entry) wanted.now)) }
{
    let head = fields(alloc, bytes)?;
    let properties = wanted.properties.as_slice();
    let mut members = Members::with_room(alloc, properties.len())?;
    for asked in properties {
        let property = &asked.property;
        let Some(value) = write_header_property(
            alloc,
            bytes,
            blob,
            email,
            &head.fields,
            wanted,
            property,
        )?
        else {
            return Ok(None);
        };
        members.put(asked.name.copy()?, value)?;
    }
    Ok(Some(members))
}

// Returns the properties that are asked for, of a message that is read here.
fn write_message_members(
    alloc: Global,
    bytes: &[u8],
    blob: &str,
    email: Option<&Email>,
    wanted: &Wanted,
) -> Result<Members, NoMemory>
    ensures { IfOk result (λ ms.
        ms ≡ view_members bytes.now blob.now (email_of email.entry) wanted.now) }
{
    let head = fields(alloc, bytes)?;
    let root = parts(alloc, bytes)?;
    let lists = lists(alloc, &root)?;
    let parts = list_parts(alloc, &root)?;
    let sizes = collect_shown_sizes(alloc, bytes, parts.as_slice(), wanted)?;
    let message = Message {
        showing: Showing {
            bytes,
            blob,
            asked: wanted.parts.as_slice(),
            sizes: sizes.as_slice(),
        },
        fields: &head.fields,
        root: &root,
        parts: parts.as_slice(),
        lists: &lists,
    };
    write_members(alloc, &message, email, wanted)
}

// Returns whether a property is found only in the parts of a message.
fn needs_parts(property: &Property) -> bool {
    !matches!(
        property,
        Property::Metadata(_) | Property::Header(_) | Property::Headers
    )
}

fn needs_parts_for_any(properties: &[NamedProperty]) -> bool {
    for asked in properties {
        if needs_parts(&asked.property) {
            return true;
        }
    }
    false
}

/// Returns the JSON view of a message with these bytes: an object with the properties that are
/// asked for (RFC 8621, sections 4.1 and 4.9). It is total for all bytes.
///
/// `blob` is the id of the blob that holds the bytes, and `email` the email that the message is, if
/// it is one; id, threadId, mailboxIds, keywords and receivedAt are null if it is none. Metadata
/// properties read nothing of the message, and header fields read its header alone.
pub fn view(
    alloc: Global,
    bytes: &[u8],
    blob: &[u8],
    email: Option<&Email>,
    wanted: &Wanted,
) -> Result<Json, NoMemory>
    ensures { IfOk result (λ t.
        json_of t ≡ view_tree bytes.now blob.now (email_of email.entry) wanted.now) }
{
    let blob = String::from_utf8_lossy(alloc, blob)?;
    let blob = blob.as_str();
    if needs_parts_for_any(wanted.properties.as_slice()) {
        let members = write_message_members(alloc, bytes, blob, email, wanted)?;
        return Ok(Json::Object(members));
    }
    if let Some(members) = write_metadata_members(alloc, bytes, blob, email, wanted)? {
        return Ok(Json::Object(members));
    }
    if let Some(members) = write_header_members(alloc, bytes, blob, email, wanted)? {
        return Ok(Json::Object(members));
    }
    Ok(Json::Object(write_message_members(alloc, bytes, blob, email, wanted)?))
}
