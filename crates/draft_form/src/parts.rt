// The form of one part of a draft (RFC 8621, sections 4.1.4 and 4.6; RFC 2045, section 5.1; RFC
// 2183), and what it says.
ghost use Rattle.std.specs.Prelude.{◌≡◌, codes, option_map, IfOk};
ghost use Rattle.jm_json.specs.Json.{tree_of};
ghost use Rattle.draft_form.specs.Members.{is_some_list, is_text, optional, required};
ghost use Rattle.draft_form.specs.Members as Rules;
ghost use Rattle.draft_form.specs.Names;
ghost use Rattle.draft_form.specs.Parts;
ghost use Rattle.draft_form.specs.declared.texts.TextRule.TheVariants.{Token as token};
ghost use Rattle.draft_form.specs.Views.{halves};

use crate::members::{
    copy_text_at, copy_texts, has_names, is_absent_or_false, is_given, is_null, is_optional_text,
    is_required_text, is_text_list, lend_items,
};
use crate::names::begins_with;
use crate::texts::{TextRule, keeps};
use jm_base::{Bytes, NoMemory, Text, Texts};
use jm_json::{Json, Members};
use mail_text::is_same_name;
use mime_writer::PartHead;
use std::alloc::Global;

// ---- a type

// Returns the string before the first slash, and the string after it.
fn split_slash(text: &str) -> Option<(&str, &str)>
    ensures { option_map halves result ≡ Parts.at_slash text.now }
{
    text.split_once('/')
}

// Returns whether a string is two tokens with a slash between them.
fn is_media_type(text: &str) -> bool
    ensures { result ≡ Parts.are_tokens (Parts.at_slash text.now) }
{
    match split_slash(text) {
        Some((main, sub)) => {
            keeps(TextRule::Token, main.as_bytes()) && keeps(TextRule::Token, sub.as_bytes())
        }
        None => false,
    }
}

// Returns whether a member is there and is a type.
fn is_type(value: Option<&Json>) -> bool
    ensures { result ≡ required Parts.is_type (option_map (λ j. tree_of j.now) value.entry) }
{
    let Some(value) = value else {
        return false;
    };
    match value.as_text() {
        Some(text) => is_media_type(text.as_str()),
        None => false,
    }
}

/// Lends the type that a part sends.
pub fn find_type(members: &Members) -> &str
    ensures { result.now ≡ Parts.type_of members.now }
{
    let Some(value) = members.get("type") else {
        return "";
    };
    match value.as_text() {
        Some(text) => text.as_str(),
        None => "",
    }
}

/// Returns whether a part sends the type of a multipart.
pub fn is_multipart(members: &Members) -> bool
    ensures { result ≡ Parts.is_multipart members.now }
{
    begins_with("multipart/".as_bytes(), find_type(members).as_bytes())
}

fn is_text_type(members: &Members) -> bool
    ensures { result ≡ Names.begins_with (codes "text/") (Parts.type_of members.now) }
{
    begins_with("text/".as_bytes(), find_type(members).as_bytes())
}

// ---- the form

/// The members of a part.
const PART_NAMES: [&str; 11] = [
    "blobId",
    "charset",
    "cid",
    "disposition",
    "language",
    "location",
    "name",
    "partId",
    "size",
    "subParts",
    "type",
];

// Returns whether a member is a list of one or more tokens, or null, or not there.
fn is_language(value: Option<&Json>) -> bool
    ensures { result ≡ optional (is_some_list (is_text token))
        (option_map (λ j. tree_of j.now) value.entry) }
{
    match value {
        Some(value) => is_null(value) || is_text_list(TextRule::Token, value),
        None => true,
    }
}

fn has_labels(members: &Members) -> bool
    ensures { result ≡ Parts.has_labels members.now }
{
    is_optional_text(TextRule::Token, members.get("charset"))
        && is_optional_text(TextRule::Token, members.get("disposition"))
        && is_optional_text(TextRule::Label, members.get("cid"))
        && is_optional_text(TextRule::Label, members.get("location"))
        && is_optional_text(TextRule::Shown, members.get("name"))
        && is_language(members.get("language"))
}

fn is_utf8(value: &Json) -> bool
    ensures { result ≡ Parts.is_utf8 (tree_of value.now) }
{
    match value.as_text() {
        Some(text) => is_same_name(text.as_bytes(), "utf-8".as_bytes()),
        None => false,
    }
}

// Returns whether a member is the name of UTF-8, or null, or not there.
fn is_utf8_charset(value: Option<&Json>) -> bool
    ensures { result ≡ optional Parts.is_utf8 (option_map (λ j. tree_of j.now) value.entry) }
{
    match value {
        Some(value) => is_null(value) || is_utf8(value),
        None => true,
    }
}

// Returns whether a member is there and names one of the values.
fn names_value(values: &Members, value: Option<&Json>) -> bool
    ensures { result ≡ required (Parts.names_value values.now)
        (option_map (λ j. tree_of j.now) value.entry) }
{
    let Some(value) = value else {
        return false;
    };
    match value.as_text() {
        Some(id) => values.get(id.as_str()).is_some(),
        None => false,
    }
}

fn holds_value(values: &Members, members: &Members) -> bool
    ensures { result ≡ Parts.holds_value values.now members.now }
{
    names_value(values, members.get("partId"))
        && is_text_type(members)
        && is_utf8_charset(members.get("charset"))
        && !is_given(members.get("blobId"))
}

fn holds_body(values: &Members, members: &Members) -> bool
    ensures { result ≡ Parts.holds_body values.now members.now }
{
    if is_given(members.get("subParts")) {
        return false;
    }
    if is_given(members.get("partId")) {
        return holds_value(values, members);
    }
    is_required_text(TextRule::Any, members.get("blobId"))
}

// Returns whether a member is there and is a list of one or more items.
fn has_items(value: Option<&Json>) -> bool
    ensures { result ≡ required Parts.some_items (option_map (λ j. tree_of j.now) value.entry) }
{
    match value {
        Some(value) => !lend_items(value).is_empty(),
        None => false,
    }
}

fn holds_parts(members: &Members) -> bool
    ensures { result ≡ Parts.holds_parts members.now }
{
    has_items(members.get("subParts"))
        && !is_given(members.get("partId"))
        && !is_given(members.get("blobId"))
}

fn holds(values: &Members, members: &Members) -> bool
    ensures { result ≡ Parts.holds values.now members.now }
{
    if is_multipart(members) {
        holds_parts(members)
    } else {
        holds_body(values, members)
    }
}

/// Returns whether an object is a part by itself, whatever the parts within it are.
pub fn has_part(values: &Members, members: &Members) -> bool
    ensures { result ≡ Parts.has_part values.now members.now }
{
    has_names(&PART_NAMES, members.as_slice())
        && is_type(members.get("type"))
        && has_labels(members)
        && holds(values, members)
}

// ---- what it says

fn copy_language(value: Option<&Json>, alloc: Global) -> Result<Option<Texts>, NoMemory>
    ensures { IfOk result
        (λ o. o ≡ Parts.language_of (option_map (λ j. tree_of j.now) value.entry)) }
{
    let Some(value) = value else {
        return Ok(None);
    };
    match value.as_list() {
        Some(items) => Ok(Some(copy_texts(alloc, items.as_slice())?)),
        None => Ok(None),
    }
}

fn copy_charset(alloc: Global, members: &Members) -> Result<Option<Text>, NoMemory>
    ensures { IfOk result (λ o. o ≡ Parts.charset_of members.now) }
{
    if is_given(members.get("partId")) {
        return Ok(Some(Text::from_str(alloc, "utf-8")?));
    }
    copy_text_at("charset", members)
}

// The two halves of a type.
#[derive(Drop)]
struct MediaType {
    main: Bytes,
    sub: Bytes,
}

fn copy_type(alloc: Global, members: &Members) -> Result<MediaType, NoMemory>
    ensures main { IfOk result (λ t. t.main ≡ Parts.main_of (Parts.at_slash
        (Parts.type_of members.now))) }
    ensures sub { IfOk result (λ t. t.sub ≡ Parts.sub_of (Parts.at_slash
        (Parts.type_of members.now))) }
{
    match split_slash(find_type(members)) {
        Some((main, sub)) => Ok(MediaType {
            main: Bytes::from_slice(alloc, main.as_bytes())?,
            sub: Bytes::from_slice(alloc, sub.as_bytes())?,
        }),
        None => Ok(MediaType {
            main: Bytes::new(alloc),
            sub: Bytes::new(alloc),
        }),
    }
}

/// Returns the head that a part sends.
pub fn read_head(alloc: Global, members: &Members) -> Result<PartHead, NoMemory>
    ensures { IfOk result (λ h. h ≡ Parts.head_of members.now) }
{
    let MediaType { main, sub } = copy_type(alloc, members)?;
    Ok(PartHead {
        main,
        sub,
        charset: copy_charset(alloc, members)?,
        name: copy_text_at("name", members)?,
        disposition: copy_text_at("disposition", members)?,
        cid: copy_text_at("cid", members)?,
        language: copy_language(members.get("language"), alloc)?,
        location: copy_text_at("location", members)?,
    })
}

// ---- values

/// The members of a value of bodyValues.
const VALUE_NAMES: [&str; 3] = ["isEncodingProblem", "isTruncated", "value"];

fn has_value(members: &Members) -> bool
    ensures { result ≡ Parts.has_value members.now }
{
    has_names(&VALUE_NAMES, members.as_slice())
        && is_required_text(TextRule::Any, members.get("value"))
        && is_absent_or_false(members.get("isEncodingProblem"))
        && is_absent_or_false(members.get("isTruncated"))
}

/// Returns whether a value of bodyValues is a text without a problem.
pub fn is_value(value: &Json) -> bool
    ensures { result ≡ Rules.is_object Parts.has_value (tree_of value.now) }
{
    match value.as_object() {
        Some(members) => has_value(members),
        None => false,
    }
}

fn copy_value(alloc: Global, value: &Json) -> Result<Text, NoMemory>
    ensures { IfOk result (λ t. t ≡ Parts.value_of (tree_of value.now)) }
{
    let Some(members) = value.as_object() else {
        return Text::from_str(alloc, "");
    };
    match copy_text_at("value", members)? {
        Some(text) => Ok(text),
        None => Text::from_str(alloc, ""),
    }
}

/// Returns a copy of the text of the value that a partId names.
pub fn copy_named_value(alloc: Global, values: &Members, id: Option<&str>) -> Result<Text, NoMemory>
    ensures { IfOk result (λ t. t
        ≡ Parts.named_value values.now (option_map (λ s. s.now) id.entry)) }
{
    let Some(id) = id else {
        return Text::from_str(alloc, "");
    };
    match values.get(id) {
        Some(value) => copy_value(alloc, value),
        None => Text::from_str(alloc, ""),
    }
}
