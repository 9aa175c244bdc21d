// Names of properties (RFC 8621, sections 4.1 and 4.2).
ghost use Rattle.std.specs.Prelude.{◌≡◌, IfOk, map, option_map};
ghost use Rattle.get_args.specs.NameHalves.{first_own_part_property, first_own_property, last_own_part_property, last_own_property};
ghost use Rattle.get_args.specs.PropertyNames as Names;
ghost use Rattle.get_args.specs.PropertyNames.{field_form, last_field};
ghost use Rattle.get_args.specs.Wanted.{each, named_part_property, named_property};

use crate::header_names::{find_field_form, read_header_property};
use crate::property::{
    HeaderProperty, MetadataProperty, NamedPartProperty, NamedProperty, PartProperty, Property,
};
use jm_base::{NoMemory, Sequence, Text};
use std::alloc::Global;

// Returns a property of an email that names no header field, of those up to `id` in byte order.
fn find_own_property_up_to_id(name: &str) -> Option<Property>
    ensures { result ≡ first_own_property name.now }
{
    if name == "attachments" {
        Some(Property::Attachments)
    } else if name == "blobId" {
        Some(Property::Metadata(MetadataProperty::BlobId))
    } else if name == "bodyStructure" {
        Some(Property::BodyStructure)
    } else if name == "bodyValues" {
        Some(Property::BodyValues)
    } else if name == "hasAttachment" {
        Some(Property::HasAttachment)
    } else if name == "headers" {
        Some(Property::Headers)
    } else if name == "htmlBody" {
        Some(Property::HtmlBody)
    } else if name == "id" {
        Some(Property::Metadata(MetadataProperty::Id))
    } else {
        None
    }
}

// Returns such a property, of those after `id`.
fn find_own_property_after_id(name: &str) -> Option<Property>
    ensures { result ≡ last_own_property name.now }
{
    if name == "keywords" {
        Some(Property::Metadata(MetadataProperty::Keywords))
    } else if name == "mailboxIds" {
        Some(Property::Metadata(MetadataProperty::MailboxIds))
    } else if name == "preview" {
        Some(Property::Preview)
    } else if name == "receivedAt" {
        Some(Property::Metadata(MetadataProperty::ReceivedAt))
    } else if name == "size" {
        Some(Property::Metadata(MetadataProperty::Size))
    } else if name == "textBody" {
        Some(Property::TextBody)
    } else if name == "threadId" {
        Some(Property::Metadata(MetadataProperty::ThreadId))
    } else {
        None
    }
}

// Returns the properties of an email that name no header field.
fn find_own_property(name: &str) -> Option<Property>
    ensures { result ≡ Names.own_property name.now }
{
    match find_own_property_up_to_id(name) {
        Some(found) => Some(found),
        None => find_own_property_after_id(name),
    }
}

// Returns the property that names a header field.
fn find_field_property(alloc: Global, name: &str) -> Result<Option<Property>, NoMemory>
    ensures { IfOk result (λ o. o ≡ option_map last_field (field_form name.now)) }
{
    match find_field_form(name) {
        Some(known) => {
            let field = Text::from_str(alloc, known.field)?;
            let form = known.form;
            let all = false;
            Ok(Some(Property::Header(HeaderProperty { field, form, all })))
        }
        None => Ok(None),
    }
}

// Returns the property that is a header field.
fn find_header_property(alloc: Global, name: &str) -> Result<Option<Property>, NoMemory>
    ensures { IfOk result (λ o. o ≡ option_map Property.Header (Names.header_named name.now)) }
{
    match read_header_property(alloc, name)? {
        Some(header) => Ok(Some(Property::Header(header))),
        None => Ok(None),
    }
}

// Returns the property of an email that a name means, if it means one.
fn find_property(alloc: Global, name: &str) -> Result<Option<Property>, NoMemory>
    ensures { IfOk result (λ o. o ≡ Names.property_named name.now) }
{
    if let Some(property) = find_own_property(name) {
        return Ok(Some(property));
    }
    if let Some(property) = find_field_property(alloc, name)? {
        return Ok(Some(property));
    }
    find_header_property(alloc, name)
}

// Returns a property of a body part that is no field of its header, of those up to `language` in
// byte order.
fn find_part_property_up_to_language(name: &str) -> Option<PartProperty>
    ensures { result ≡ first_own_part_property name.now }
{
    if name == "blobId" {
        Some(PartProperty::BlobId)
    } else if name == "charset" {
        Some(PartProperty::Charset)
    } else if name == "cid" {
        Some(PartProperty::Cid)
    } else if name == "disposition" {
        Some(PartProperty::Disposition)
    } else if name == "headers" {
        Some(PartProperty::Headers)
    } else if name == "language" {
        Some(PartProperty::Language)
    } else {
        None
    }
}

// Returns such a property, of those after `language`.
fn find_part_property_after_language(name: &str) -> Option<PartProperty>
    ensures { result ≡ last_own_part_property name.now }
{
    if name == "location" {
        Some(PartProperty::Location)
    } else if name == "name" {
        Some(PartProperty::Name)
    } else if name == "partId" {
        Some(PartProperty::PartId)
    } else if name == "size" {
        Some(PartProperty::Size)
    } else if name == "subParts" {
        Some(PartProperty::SubParts)
    } else if name == "type" {
        Some(PartProperty::MediaType)
    } else {
        None
    }
}

// Returns the properties of a body part that are no fields of its header.
fn find_own_part_property(name: &str) -> Option<PartProperty>
    ensures { result ≡ Names.own_part_property name.now }
{
    match find_part_property_up_to_language(name) {
        Some(found) => Some(found),
        None => find_part_property_after_language(name),
    }
}

// Returns the property of a body part that a name means, if it means one.
fn part_property_named(alloc: Global, name: &str) -> Result<Option<PartProperty>, NoMemory>
    ensures { IfOk result (λ o. o ≡ Names.part_property_named name.now) }
{
    if let Some(property) = find_own_part_property(name) {
        return Ok(Some(property));
    }
    match read_header_property(alloc, name)? {
        Some(header) => Ok(Some(PartProperty::Header(header))),
        None => Ok(None),
    }
}

// Returns the property of a name, with the name.
fn find_named_property(alloc: Global, name: &str) -> Result<Option<NamedProperty>, NoMemory>
    ensures { IfOk result (λ o. o ≡ named_property name.now) }
{
    match find_property(alloc, name)? {
        Some(property) => {
            let name = Text::from_str(alloc, name)?;
            Ok(Some(NamedProperty { name, property }))
        }
        None => Ok(None),
    }
}

fn find_named_part_property(
    alloc: Global,
    name: &str,
) -> Result<Option<NamedPartProperty>, NoMemory>
    ensures { IfOk result (λ o. o ≡ named_part_property name.now) }
{
    match part_property_named(alloc, name)? {
        Some(property) => {
            let name = Text::from_str(alloc, name)?;
            Ok(Some(NamedPartProperty { name, property }))
        }
        None => Ok(None),
    }
}

/// Returns the properties of these names, or `None` if a name is no property's.
pub(crate) fn read_properties(
    alloc: Global,
    names: &[&str],
) -> Result<Option<Sequence<NamedProperty>>, NoMemory>
    ensures { IfOk result (λ o. o ≡ each named_property (map (λ t. t.now) names.now)) }
{
    let mut properties = Sequence::new(alloc);
    for name in names {
        match find_named_property(alloc, name)? {
            Some(property) => properties.push(property)?,
            None => return Ok(None),
        }
    }
    Ok(Some(properties))
}

/// Returns the properties of body parts of these names, or `None` if a name is no property's.
pub(crate) fn read_part_properties(
    alloc: Global,
    names: &[&str],
) -> Result<Option<Sequence<NamedPartProperty>>, NoMemory>
    ensures { IfOk result (λ o. o ≡ each named_part_property (map (λ t. t.now) names.now)) }
{
    let mut properties = Sequence::new(alloc);
    for name in names {
        match find_named_part_property(alloc, name)? {
            Some(property) => properties.push(property)?,
            None => return Ok(None),
        }
    }
    Ok(Some(properties))
}
