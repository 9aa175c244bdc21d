// The head of a part, read from its header.
ghost use Rattle.std.specs.Prelude.{◌≡◌, ◌≤◌, All, IfOk, length, option_map, slice_range, codes};
ghost use Rattle.mime_lines.specs.Fields.{fields_of};
ghost use Rattle.mime_lines.specs.FieldOffsets.{IsWithin};
ghost use Rattle.mime_type.specs.Content.{charset_of, boundary_of, media_of, name_of, coding_of, type_of, disposition_of};
ghost use Rattle.mime_type.specs.PartTrees.{none};
ghost use Rattle.mime_type.specs.Head;
ghost use Rattle.mime_type.specs.Head.{head_at, kind_in, shown_in};
ghost use Rattle.mime_type.specs.PartViews.{node_of};
ghost use Rattle.mime_type.specs.Texts.{IsText};
ghost use Rattle.mime_type.specs.Views.{kind_of};
ghost use Rattle.mime_type.specs.Labels.{id_in, languages_in};
ghost use Rattle.mail_text.specs.Texts.{trimmed};

use crate::content::{read_boundary, read_charset, read_media, read_name, read_shown};
use crate::kind::{Kind, read_disposition, read_type};
use crate::labels::{read_coding, read_id, read_language, read_location};
use crate::part::{Part, Parts};
use jm_base::{NoMemory, Text, Texts};
use mime_codec::Coding;
use mime_lines::{FieldSpans, fields, find_last_value, unfold};
use std::alloc::Global;

/// Reads the value of the last field of a name, on one line, if there is one.
#[tactic(auto, unfolding(crate::specs::Head::field_text))]
fn read_field_text(
    alloc: Global,
    bytes: &[u8],
    fields: &FieldSpans,
    name: &[u8],
) -> Result<Option<Text>, NoMemory>
    requires within { All (IsWithin bytes.now) fields.now }
    requires whole { fields.now ≡ fields_of bytes.now }
    ensures { IfOk result (λ t. t ≡ Head.field_text name.now bytes.now) }
{
    let Some(value) = find_last_value(bytes, fields, name) else {
        return Ok(None);
    };
    let line = unfold(alloc, value)?;
    Ok(Some(Text::from_string(String::from_utf8_lossy(alloc, line.as_slice())?)))
}

/// What Content-Type and Content-Disposition say of a part.
#[derive(Drop)]
struct Content {
    media: Text,
    charset: Option<Text>,
    boundary: Option<Text>,
    disposition: Option<Text>,
    name: Option<Text>,
}

/// Reads what a type says of a part, of which its disposition and its name are known.
fn build_content(
    alloc: Global,
    kind: Kind<'_>,
    disposition: Option<Text>,
    name: Option<Text>,
) -> Result<Content, NoMemory>
    requires { IsText (kind_of kind) }
    ensures media { IfOk result (λ c. c.media ≡ media_of (kind_of kind.entry)) }
    ensures charset { IfOk result (λ c. c.charset ≡ charset_of (kind_of kind.entry)) }
    ensures boundary { IfOk result (λ c. c.boundary ≡ boundary_of (kind_of kind.entry)) }
    ensures disposition { IfOk result (λ c. c.disposition ≡ disposition) }
    ensures name { IfOk result (λ c. c.name ≡ name) }
{
    let boundary = read_boundary(alloc, &kind)?;
    let charset = read_charset(alloc, &kind)?;
    let media = read_media(alloc, kind, &boundary)?;
    Ok(Content {
        media,
        charset,
        boundary,
        disposition,
        name,
    })
}

/// Reads the type and the disposition of a part from the texts of their fields.
fn read_kinds(
    alloc: Global,
    kind_text: &Option<Text>,
    shown_text: &Option<Text>,
    digest: bool,
) -> Result<Content, NoMemory>
    ensures media { IfOk result (λ c. c.media ≡ media_of (type_of digest kind_text.now)) }
    ensures charset { IfOk result (λ c. c.charset ≡ charset_of (type_of digest kind_text.now)) }
    ensures boundary { IfOk result (λ c. c.boundary ≡ boundary_of (type_of digest kind_text.now)) }
    ensures disposition { IfOk result (λ c. c.disposition
        ≡ option_map (λ d. d.kind) (disposition_of shown_text.now)) }
    ensures name { IfOk result (λ c. c.name ≡ name_of (disposition_of shown_text.now)
        (type_of digest kind_text.now)) }
{
    let kind = read_type(alloc, kind_text, digest)?;
    let shown = read_disposition(alloc, shown_text)?;
    let name = read_name(alloc, &shown, &kind)?;
    build_content(alloc, kind, read_shown(shown), name)
}

/// Reads Content-Type and Content-Disposition.
fn read_content(
    alloc: Global,
    bytes: &[u8],
    fields: &FieldSpans,
    digest: bool,
) -> Result<Content, NoMemory>
    requires within { All (IsWithin bytes.now) fields.now }
    requires whole { fields.now ≡ fields_of bytes.now }
    ensures media { IfOk result (λ c. c.media ≡ media_of (kind_in digest bytes.now)) }
    ensures charset { IfOk result (λ c. c.charset ≡ charset_of (kind_in digest bytes.now)) }
    ensures boundary { IfOk result (λ c. c.boundary ≡ boundary_of (kind_in digest bytes.now)) }
    ensures disposition { IfOk result (λ c. c.disposition
        ≡ option_map (λ d. d.kind) (shown_in bytes.now)) }
    ensures name { IfOk result (λ c. c.name ≡ name_of (shown_in bytes.now)
        (kind_in digest bytes.now)) }
{
    let kind_text = read_field_text(alloc, bytes, fields, b"content-type")?;
    let shown_text = read_field_text(alloc, bytes, fields, b"content-disposition")?;
    read_kinds(alloc, &kind_text, &shown_text, digest)
}

/// What the other fields say of a part.
#[derive(Drop)]
struct Labels {
    cid: Option<Text>,
    language: Option<Texts>,
    location: Option<Text>,
    coding: Coding,
}

/// Reads Content-Id.
fn read_content_id(
    alloc: Global,
    bytes: &[u8],
    fields: &FieldSpans,
) -> Result<Option<Text>, NoMemory>
    requires within { All (IsWithin bytes.now) fields.now }
    requires whole { fields.now ≡ fields_of bytes.now }
    ensures { IfOk result (λ r. r ≡ option_map id_in (Head.field_text (codes "content-id") bytes.now)) }
{
    let text = read_field_text(alloc, bytes, fields, b"content-id")?;
    read_id(alloc, &text)
}

/// Reads Content-Language.
fn read_content_language(
    alloc: Global,
    bytes: &[u8],
    fields: &FieldSpans,
) -> Result<Option<Texts>, NoMemory>
    requires within { All (IsWithin bytes.now) fields.now }
    requires whole { fields.now ≡ fields_of bytes.now }
    ensures { IfOk result (λ r. r ≡ option_map languages_in (Head.field_text (codes "content-language") bytes.now)) }
{
    let text = read_field_text(alloc, bytes, fields, b"content-language")?;
    read_language(alloc, &text)
}

/// Reads Content-Location.
fn read_content_location(
    alloc: Global,
    bytes: &[u8],
    fields: &FieldSpans,
) -> Result<Option<Text>, NoMemory>
    requires within { All (IsWithin bytes.now) fields.now }
    requires whole { fields.now ≡ fields_of bytes.now }
    ensures { IfOk result (λ r. r ≡ option_map trimmed (Head.field_text (codes "content-location") bytes.now)) }
{
    let text = read_field_text(alloc, bytes, fields, b"content-location")?;
    read_location(alloc, &text)
}

/// Reads Content-Transfer-Encoding.
fn read_transfer_encoding(
    alloc: Global,
    bytes: &[u8],
    fields: &FieldSpans,
) -> Result<Coding, NoMemory>
    requires within { All (IsWithin bytes.now) fields.now }
    requires whole { fields.now ≡ fields_of bytes.now }
    ensures { IfOk result (λ r. r ≡ coding_of (Head.field_text (codes "content-transfer-encoding") bytes.now)) }
{
    let text = read_field_text(alloc, bytes, fields, b"content-transfer-encoding")?;
    read_coding(alloc, &text)
}

/// Reads Content-Id, Content-Language, Content-Location and Content-Transfer-Encoding.
fn read_labels(alloc: Global, bytes: &[u8], fields: &FieldSpans) -> Result<Labels, NoMemory>
    requires within { All (IsWithin bytes.now) fields.now }
    requires whole { fields.now ≡ fields_of bytes.now }
    ensures cid { IfOk result (λ l. l.cid ≡ option_map id_in (Head.field_text (codes "content-id") bytes.now)) }
    ensures language { IfOk result (λ l. l.language ≡ option_map languages_in (Head.field_text (codes "content-language") bytes.now)) }
    ensures location { IfOk result (λ l. l.location ≡ option_map trimmed (Head.field_text (codes "content-location") bytes.now)) }
    ensures coding { IfOk result (λ l. l.coding ≡ coding_of (Head.field_text (codes "content-transfer-encoding") bytes.now)) }
{
    let cid = read_content_id(alloc, bytes, fields)?;
    let language = read_content_language(alloc, bytes, fields)?;
    let location = read_content_location(alloc, bytes, fields)?;
    let coding = read_transfer_encoding(alloc, bytes, fields)?;
    Ok(Labels {
        cid,
        language,
        location,
        coding,
    })
}

/// Reads the head of the part between these byte offsets of a message: what its header says of it,
/// with no parts within it and no number yet. `digest` says that it is in a multipart/digest, where
/// a part without a Content-Type is a message (RFC 2046, section 5.1.5). It fails only if memory
/// runs out.
pub fn part_head(
    alloc: Global,
    bytes: &[u8],
    start: u64,
    end: u64,
    digest: bool,
) -> Result<Part, NoMemory>
    requires ordered { start ≤ end }
    requires within { end ≤ length bytes.now }
    ensures node { IfOk result (λ p. node_of p
        ≡ head_at start (slice_range bytes.now start end) digest) }
    ensures parts { IfOk result (λ p. p.parts ≡ none) }
{
    let piece = &bytes[start as usize..end as usize];
    let head = fields(alloc, piece)?;
    let content = read_content(alloc, piece, &head.fields, digest)?;
    let labels = read_labels(alloc, piece, &head.fields)?;
    Ok(Part {
        start,
        body: start + head.body,
        end,
        number: None,
        media: content.media,
        charset: content.charset,
        boundary: content.boundary,
        disposition: content.disposition,
        name: content.name,
        cid: labels.cid,
        language: labels.language,
        location: labels.location,
        coding: labels.coding,
        parts: Parts::from_vec(Vec::new(alloc)),
    })
}
