// The preview of a message (RFC 8621, section 4.1.4).
ghost use Rattle.std.specs.Prelude.{◌≡◌, Option, length, option_map, IfOk, IfSome, Some, None};
ghost use Rattle.std.specs.Str.{chars};
ghost use Rattle.mime_codec.specs.Decoded.{decoded};
ghost use Rattle.mime_codec.specs.Quoted.{quoted_printable};
ghost use Rattle.mime_type.specs.PartTrees.{none};
ghost use Rattle.mime_type.specs.PartViews.{node_of, part_before};
ghost use Rattle.mime_tree.specs.Places.{IsPlaced, AllPlaced};
ghost use Rattle.mime_words.specs.Charsets.{decoded_text};
ghost use Rattle.mime_words.specs.declared.charset.Charset.{Charset};
ghost use Rattle.mail_summary.specs.Leaves;
ghost use Rattle.mail_summary.specs.Leaves.{leaf_numbered, if_text, first_text};
ghost use Rattle.mail_summary.specs.Views.{node_in};
ghost use Rattle.mail_summary.specs.Texts.{Begins, brief, one_spaced, preview_by, shown_text};

use crate::body_value::read_body_text;
use crate::characters::{find_settled_brief, shorten_spaced};
use crate::leaves::find_leaf;
use crate::texts_tags::remove_tags;
use body_lists::{is_html, is_plain};
use jm_base::{NoMemory, Text};
use memchr::memrchr;
use mime_codec::{Coding, decode};
use mime_type::Part;
use mime_words::Decoded;
use std::alloc::Global;

/// Returns whether a part is plain text or HTML.
fn is_text(part: &Part) -> bool
    ensures { result ≡ Leaves.is_text (node_of part.now) }
{
    is_plain(part) || is_html(part)
}

/// Returns the leaf with this number, if it is plain text or HTML.
fn find_text_leaf(root: &Part, number: u64) -> Option<&Part>
    ensures { option_map node_in result ≡ if_text (leaf_numbered number (part_before root.now none))
        None }
{
    let found = find_leaf(root, number)?;
    if is_text(found) { Some(found) } else { None }
}

/// Returns the first of the leaves with these numbers that is plain text or HTML, of a part and
/// those within it.
pub fn find_first_text<'a>(root: &'a Part, numbers: &[u64]) -> Option<&'a Part>
    ensures { option_map node_in result ≡ first_text (part_before root.now none) numbers.now }
{
    for number in numbers {
        if let Some(found) = find_text_leaf(root, *number) {
            return Some(found);
        }
    }
    None
}

/// Returns a part's text, without its tags if it is HTML.
fn show(alloc: Global, part: &Part, text: Text) -> Result<Text, NoMemory>
    ensures { IfOk result (λ t. t ≡ shown_text (node_of part.now) text) }
{
    if is_html(part) {
        remove_tags(alloc, text.as_str())
    } else {
        Ok(text)
    }
}

/// How many bytes of a body are decoded at first. They have more than `MAX_SHOWN_CHARACTERS`
/// characters in every transfer encoding, but for white space.
const FIRST_BYTES: usize = 4096;

fn take_first_bytes(body: &[u8]) -> &[u8]
    ensures { Begins result.now body.now }
{
    if body.len() > FIRST_BYTES {
        return body.split_at(FIRST_BYTES).0;
    }
    body
}

/// Returns the whole lines among the first bytes of a body in quoted-printable.
fn take_first_lines(body: &[u8]) -> &[u8]
    ensures { Begins (quoted_printable result.now) (quoted_printable body.now) }
{
    let first = take_first_bytes(body);
    match memrchr(b'\n', first) {
        Some(i) => first.split_at(i + 1).0,
        None => first.split_at(0).0,
    }
}

/// Returns bytes at the beginning of a body that encode the beginning of what it encodes.
fn take_encoded_prefix(coding: Coding, body: &[u8]) -> &[u8]
    ensures { Begins (decoded coding result.now) (decoded coding body.now) }
{
    match coding {
        Coding::Plain => take_first_bytes(body),
        Coding::Quoted => take_first_lines(body),
        Coding::Base64 => take_first_bytes(body),
        Coding::Unknown => take_first_bytes(body),
    }
}

/// Returns the preview of plain text with this body in any charset, if its first bytes are ASCII
/// and decide it.
fn build_early_preview(alloc: Global, coding: Coding, body: &[u8]) -> Result<Option<Text>, NoMemory>
    ensures { IfOk result (λ found. IfSome found (λ t. (charset : Option Charset)
        → t ≡ brief (one_spaced (chars (decoded_text charset (decoded coding body.now)))))) }
{
    let bytes = decode(alloc, coding, take_encoded_prefix(coding, body))?;
    if !bytes.as_slice().is_ascii() {
        return Ok(None);
    }
    match std::str::from_utf8(bytes.as_slice()) {
        Ok(text) => find_settled_brief(alloc, text),
        Err(_) => Ok(None),
    }
}

/// Reads the whole text of a part for its preview.
fn build_full_preview(alloc: Global, bytes: &[u8], part: &Part) -> Result<Text, NoMemory>
    requires { IsPlaced (length bytes.now) (node_of part.now) }
    ensures { IfOk result (λ t. t ≡ preview_by bytes.now (Some (node_of part.now))) }
{
    let Decoded { text, .. } = read_body_text(alloc, bytes, part)?;
    let shown = show(alloc, part, text)?;
    shorten_spaced(alloc, shown.as_str())
}

fn part_preview(alloc: Global, bytes: &[u8], part: &Part) -> Result<Text, NoMemory>
    requires { IsPlaced (length bytes.now) (node_of part.now) }
    ensures { IfOk result (λ t. t ≡ preview_by bytes.now (Some (node_of part.now))) }
{
    if !is_html(part) {
        let body = &bytes[part.body as usize..part.end as usize];
        if let Some(preview) = build_early_preview(alloc, part.coding, body)? {
            return Ok(preview);
        }
    }
    build_full_preview(alloc, bytes, part)
}

/// Returns the preview of a message with this tree of parts, whose text is the leaves of these
/// numbers: the text of the first of them that is plain text or HTML, without the tags of HTML, cut
/// to `MAX_SHOWN_CHARACTERS` characters (RFC 8621, section 4.1.4: preview).
pub fn build_preview(
    alloc: Global,
    bytes: &[u8],
    root: &Part,
    numbers: &[u64],
) -> Result<Text, NoMemory>
    requires { AllPlaced (length bytes.now) (part_before root.now none) }
    ensures { IfOk result (λ t. t ≡ preview_by bytes.now
        (first_text (part_before root.now none) numbers.now)) }
{
    match find_first_text(root, numbers) {
        Some(first) => part_preview(alloc, bytes, first),
        None => Ok(Text::from_string(String::new(alloc))),
    }
}
