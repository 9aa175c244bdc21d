// The JSON view of a body part (RFC 8621, section 4.1.4).
ghost use Rattle.std.specs.Prelude.{◌≡◌, All, IfOk, length, map, option_map};
ghost use Rattle.jm_json.specs.Json.{tree_of};
ghost use Rattle.jm_json.specs.Tree.{text};
ghost use Rattle.mime_lines.specs.Fields.{fields_of};
ghost use Rattle.mime_lines.specs.FieldOffsets.{IsWithin};
ghost use Rattle.mime_tree.specs.Places.{IsPlaced};
ghost use Rattle.mime_type.specs.PartViews.{node_of};
ghost use Rattle.mime_words.specs.Words.{decoded_words};
ghost use Rattle.header_forms.specs.Forms;
ghost use Rattle.mail_view.specs.Objects;
ghost use Rattle.mail_view.specs.Parts;
ghost use Rattle.mail_view.specs.Sizes.{IsSizeOf};
ghost use Rattle.mail_view.specs.Parts.{leaf_tree, bytes_with_header, part_tree, size_tree};

use crate::headers::{write_header, write_headers};
use crate::sizes::{BodySize, find_size};
use get_args::{NamedPartProperty, PartProperty};
use jm_base::{NoMemory, Text, Texts};
use jm_json::{Items, Json, Members};
use mime_codec::count_decoded;
use mime_lines::{FieldSpans, fields};
use mime_type::Part;
use mime_words::decode_words;
use std::alloc::Global;

/// What the view of a part needs: the bytes of the message, its blob id, the properties that are
/// asked for, and the sizes of bodies that are known.
#[derive(Clone, Copy)]
pub(crate) struct Showing<'a> {
    pub bytes: &'a [u8],
    pub blob: &'a str,
    pub asked: &'a [NamedPartProperty],
    pub sizes: &'a [BodySize],
}

/// Returns a string, or null.
pub(crate) fn write_text(text: &Option<Text>) -> Result<Json, NoMemory>
    ensures { IfOk result (λ t. tree_of t ≡ Forms.text_or_null text.now) }
{
    match text {
        Some(text) => Ok(Json::Text(text.copy()?)),
        None => Ok(Json::Null),
    }
}

/// Returns a list of strings.
pub(crate) fn write_text_items(alloc: Global, texts: &[Text]) -> Result<Items, NoMemory>
    ensures { IfOk result (λ ts. ts ≡ map text texts.now) }
{
    let mut items = Items::with_room(alloc, texts.len())?;
    for text in texts {
        items.push(Json::Text(text.copy()?))?;
    }
    Ok(items)
}

fn write_texts(alloc: Global, texts: &Option<Texts>) -> Result<Json, NoMemory>
    ensures { IfOk result (λ t. tree_of t ≡ Objects.texts_or_null texts.now) }
{
    match texts {
        Some(texts) => Ok(Json::List(write_text_items(alloc, texts.as_slice())?)),
        None => Ok(Json::Null),
    }
}

fn write_decimal(alloc: Global, number: Option<u64>) -> Result<Json, NoMemory>
    ensures { IfOk result (λ t. tree_of t ≡ Objects.decimal_or_null number) }
{
    match number {
        Some(number) => {
            let decimal = format!(in alloc; "{number}")?;
            Ok(Json::Text(Text::from_string(decimal)))
        }
        None => Ok(Json::Null),
    }
}

// Returns the blob id of a leaf's decoded body.
fn write_leaf_blob_id(alloc: Global, blob: &str, number: Option<u64>) -> Result<Json, NoMemory>
    ensures { IfOk result (λ t. tree_of t ≡ Parts.leaf_blob blob.now number) }
{
    match number {
        Some(number) => {
            let id = format!(in alloc; "{blob}-{number}")?;
            Ok(Json::Text(Text::from_string(id)))
        }
        None => Ok(Json::Null),
    }
}

// Returns a file name, with its encoded-words decoded (RFC 2047).
fn write_name(alloc: Global, name: &Option<Text>) -> Result<Json, NoMemory>
    ensures { IfOk result (λ t.
        tree_of t ≡ Forms.text_or_null (option_map decoded_words name.now)) }
{
    match name {
        Some(name) => Ok(Json::Text(decode_words(alloc, name.as_bytes())?)),
        None => Ok(Json::Null),
    }
}

// Returns the number of bytes of the decoded body of a part.
fn write_size(showing: &Showing<'_>, part: &Part) -> Json
    requires placed { IsPlaced (length showing.now.bytes.now) (node_of part.now) }
    requires sizes { All (IsSizeOf showing.now.bytes.now) showing.now.sizes.now }
    ensures { tree_of result ≡ size_tree showing.now.bytes.now (node_of part.now) }
{
    if let Some(size) = find_size(showing.bytes, showing.sizes, part) {
        return Json::Int(size as i64);
    }
    let body = &showing.bytes[part.body as usize..part.end as usize];
    Json::Int(count_decoded(part.coding, body) as i64)
}

// Returns a property of a part with these bytes, `own`, and these header fields.
fn write_part_property(
    alloc: Global,
    showing: &Showing<'_>,
    part: &Part,
    own: &[u8],
    fields: &FieldSpans,
    property: &PartProperty,
) -> Result<Json, NoMemory>
    requires placed { IsPlaced (length showing.now.bytes.now) (node_of part.now) }
    requires sizes { All (IsSizeOf showing.now.bytes.now) showing.now.sizes.now }
    requires own { own.now ≡ bytes_with_header showing.now.bytes.now (node_of part.now) }
    requires found { fields.now ≡ fields_of own.now }
    requires within { All (IsWithin own.now) fields.now }
    ensures { IfOk result (λ t. tree_of t
        ≡ part_tree showing.now.bytes.now showing.now.blob.now (node_of part.now) property.now) }
{
    match property {
        PartProperty::PartId => write_decimal(alloc, part.number),
        PartProperty::BlobId => write_leaf_blob_id(alloc, showing.blob, part.number),
        PartProperty::Size => Ok(write_size(showing, part)),
        PartProperty::Header(asked) => write_header(alloc, own, fields, asked),
        PartProperty::Headers => write_headers(alloc, own, fields),
        PartProperty::Name => write_name(alloc, &part.name),
        PartProperty::MediaType => Ok(Json::Text(part.media.copy()?)),
        PartProperty::Charset => write_text(&part.charset),
        PartProperty::Disposition => write_text(&part.disposition),
        PartProperty::Cid => write_text(&part.cid),
        PartProperty::Language => write_texts(alloc, &part.language),
        PartProperty::Location => write_text(&part.location),
        PartProperty::SubParts => Ok(Json::Null),
    }
}

/// Returns the properties of a part that are asked for.
pub(crate) fn write_part_members(
    alloc: Global,
    showing: &Showing<'_>,
    part: &Part,
) -> Result<Members, NoMemory>
    requires placed { IsPlaced (length showing.now.bytes.now) (node_of part.now) }
    requires sizes { All (IsSizeOf showing.now.bytes.now) showing.now.sizes.now }
    ensures { IfOk result (λ ms. ms
        ≡ Parts.part_members showing.now.bytes.now showing.now.blob.now showing.now.asked.now
        (node_of part.now)) }
{
    let own = &showing.bytes[part.start as usize..part.end as usize];
    let head = fields(alloc, own)?;
    let mut members = Members::with_room(alloc, showing.asked.len())?;
    for asked in showing.asked {
        let value = write_part_property(alloc, showing, part, own, &head.fields, &asked.property)?;
        members.put(asked.name.copy()?, value)?;
    }
    Ok(members)
}

/// Returns the view of a leaf in a list of parts.
pub(crate) fn write_leaf(
    alloc: Global,
    showing: &Showing<'_>,
    part: &Part,
) -> Result<Json, NoMemory>
    requires placed { IsPlaced (length showing.now.bytes.now) (node_of part.now) }
    requires sizes { All (IsSizeOf showing.now.bytes.now) showing.now.sizes.now }
    ensures { IfOk result (λ t. tree_of t
        ≡ leaf_tree showing.now.bytes.now showing.now.blob.now showing.now.asked.now
        (node_of part.now)) }
{
    Ok(Json::Object(write_part_members(alloc, showing, part)?))
}
