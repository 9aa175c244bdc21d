// The properties of a draft that name a header field: header:NAME:asText (RFC 8621, sections 4.1.3
// and 4.6).
ghost use Rattle.std.specs.Prelude.{◌≡◌, ◌++◌, ◌∷◌, [], map, option_map, IfOk, OnOk};
ghost use Rattle.std.specs.List.{list_all};
ghost use Rattle.jm_json.specs.Json.{member_of, tree_of};
ghost use Rattle.draft_form.specs.Names;
ghost use Rattle.draft_form.specs.Views.{halves};

use crate::draft::{DraftField, DraftFields, FieldValue};
use crate::members::{copy_text, is_text};
use crate::texts::TextRule;
use jm_base::{NoMemory, Text};
use jm_json::{Json, Member, Members};
use mail_text::is_same_name;
use std::alloc::Global;

/// How many bytes the name of a field may have.
pub const MAX_FIELD_NAME_BYTES: usize = 64;

// The fields that a draft may not have as text.
const TAKEN_FIELDS: [&str; 27] = [
    "From",
    "Sender",
    "Reply-To",
    "To",
    "Cc",
    "Bcc",
    "Resent-From",
    "Resent-Sender",
    "Resent-To",
    "Resent-Cc",
    "Resent-Bcc",
    "Message-ID",
    "In-Reply-To",
    "References",
    "Resent-Message-ID",
    "Date",
    "Resent-Date",
    "List-Help",
    "List-Unsubscribe",
    "List-Subscribe",
    "List-Post",
    "List-Owner",
    "List-Archive",
    "Return-Path",
    "Received",
    "Subject",
    "MIME-Version",
];

// Returns whether a name is one of these, in either case.
fn is_one_of(names: &[&str], name: &str) -> bool
    ensures { result ≡ Names.is_one_of (map (λ t. t.now) names.now) name.now }
{
    for known in names {
        if is_same_name(name.as_bytes(), known.as_bytes()) {
            return true;
        }
    }
    false
}

fn is_taken(name: &str) -> bool
    ensures { result ≡ Names.is_one_of Names.taken_fields name.now }
{
    is_one_of(&TAKEN_FIELDS, name)
}

/// Returns whether a text begins with another, in either case.
pub fn begins_with(start: &[u8], text: &[u8]) -> bool
    ensures { result ≡ Names.begins_with start.now text.now }
{
    if text.len() < start.len() {
        return false;
    }
    is_same_name(text.split_at(start.len()).0, start)
}

fn is_name_character(byte: u8) -> bool
    ensures { result ≡ Names.is_name_character byte }
{
    byte.is_ascii_alphanumeric() || byte == b'-'
}

fn are_name_characters(name: &[u8]) -> bool
    ensures { result ≡ list_all Names.is_name_character name.now }
{
    name.iter().all(|b| is_name_character(*b))
}

// Returns whether a draft may have the field of this name as text.
fn is_free_name(name: &str) -> bool
    ensures { result ≡ Names.is_free_name name.now }
{
    if name.is_empty() || name.len() > MAX_FIELD_NAME_BYTES {
        return false;
    }
    are_name_characters(name.as_bytes())
        && !is_taken(name)
        && !begins_with("Content-".as_bytes(), name.as_bytes())
}

// Returns the string before the first colon, and the string after it.
fn split_colon(text: &str) -> Option<(&str, &str)>
    ensures { option_map halves result ≡ Names.at_colon text.now }
{
    text.split_once(':')
}

// Returns the string before the first colon, if `asText` follows it.
fn find_text_field(text: &str) -> Option<&str>
    ensures { option_map (λ t. t.now) result ≡ Names.as_text_field (Names.at_colon text.now) }
{
    match split_colon(text) {
        Some((name, form)) => if form == "asText" { Some(name) } else { None },
        None => None,
    }
}

/// Returns NAME of header:NAME:asText.
pub fn find_field_name(key: &str) -> Option<&str>
    ensures { option_map (λ t. t.now) result ≡ Names.field_named key.now }
{
    match split_colon(key) {
        Some((prefix, rest)) => if prefix == "header" {
            find_text_field(rest)
        } else {
            None
        },
        None => None,
    }
}

// Returns whether a key names this field, in either case.
fn is_same_field(name: &str, key: &str) -> bool
    ensures { result ≡ Names.is_same_field name.now (Names.field_named key.now) }
{
    match find_field_name(key) {
        Some(other) => is_same_name(name.as_bytes(), other.as_bytes()),
        None => false,
    }
}

// Returns how many members name this field, in either case.
fn count_twins(name: &str, members: &[Member]) -> usize
    ensures { result ≡ Names.twin_count name.now (map member_of members.now) }
{
    let mut count = 0;
    for member in members {
        if is_same_field(name, member.name.as_str()) {
            count += 1;
        }
    }
    count
}

fn is_own_name(members: &[Member], key: &str) -> bool
    ensures { result ≡ Names.is_own_name (map member_of members.now) (Names.field_named key.now) }
{
    match find_field_name(key) {
        Some(name) => is_free_name(name) && count_twins(name, members) <= 1,
        None => false,
    }
}

/// Returns whether a property is a valid header:NAME:asText that no other member names.
pub fn is_good_header(members: &[Member], key: &str, value: &Json) -> bool
    ensures { result
        ≡ Names.is_good_header (map member_of members.now) key.now (tree_of value.now) }
{
    is_text(TextRule::FieldText, value) && is_own_name(members, key)
}

// Puts the field that a member names.
fn put_field(alloc: Global, fields: &mut Members, key: &str, value: &Json) -> Result<(), NoMemory>
    ensures { OnOk result (fields.new
        ≡ Names.put_field (Names.field_named key.now) (tree_of value.now) fields.old) }
{
    let Some(name) = find_field_name(key) else {
        return Ok(());
    };
    let text = Json::Text(copy_text(alloc, value)?);
    fields.put(Text::from_str(alloc, name)?, text)
}

// Returns the fields that members name, in byte order of their names.
fn order_fields(alloc: Global, members: &[Member]) -> Result<Members, NoMemory>
    ensures { IfOk result (λ fs. fs ≡ Names.put_fields (map member_of members.now) []) }
{
    let mut fields = Members::new(alloc);
    for member in members {
        put_field(alloc, &mut fields, member.name.as_str(), &member.value)?;
    }
    Ok(fields)
}

// Adds a field whose value is text.
fn push_text_field(alloc: Global, fields: &mut DraftFields, member: &Member) -> Result<(), NoMemory>
    ensures { OnOk result (fields.new ≡ fields.old
        ++ Names.text_field (member_of member.now) ∷ []) }
{
    let value = FieldValue::OfText(copy_text(alloc, &member.value)?);
    let name = member.name.copy()?;
    fields.push(DraftField { name, value })
}

/// Adds the fields that members name, in byte order of their names.
pub fn push_text_fields(
    alloc: Global,
    fields: &mut DraftFields,
    members: &[Member],
) -> Result<(), NoMemory>
    ensures { OnOk result (fields.new ≡ fields.old
        ++ Names.text_fields (map member_of members.now)) }
{
    let named = order_fields(alloc, members)?;
    for member in named.as_slice() {
        push_text_field(alloc, fields, member)?;
    }
    Ok(())
}
