// The parts of a draft: its bodyStructure, or those of textBody, htmlBody and attachments (RFC
// 8621, section 4.6).
ghost use Rattle.std.specs.Prelude.{◌≡◌, ◌++◌, ◌∷◌, [], codes, map, nat_le, option_map, None, IfOk, OnOk};
ghost use Rattle.std.specs.List.{list_all};
ghost use Rattle.jm_json.specs.Json.{member_of, tree_of};
ghost use Rattle.draft_form.specs.Bodies;
ghost use Rattle.draft_form.specs.Members as Rules;
ghost use Rattle.draft_form.specs.Structures;
ghost use Rattle.draft_form.specs.Structures.{DraftParts, ids_of, part_count};
ghost use Rattle.draft_form.specs.Rows;
ghost use Rattle.draft_form.specs.Rows.{rows_of};
ghost use Rattle.draft_form.specs.declared.draft.Row.TheVariants.{Opens as opens};

use crate::draft::{Content, DraftRows, Row};
use crate::members::{find_items, is_given, lend_items};
use crate::parts::{find_type, is_value};
use crate::structures::{is_part, push_part, push_parts};
use jm_base::{Bytes, NoMemory, Sequence, Text, Texts};
use jm_json::{Json, Member, Members};
use mail_text::is_same_name;
use mime_writer::PartHead;
use std::alloc::Global;

/// How deep the parts of a draft may nest: the message itself is at depth 1.
pub const MAX_DEPTH: usize = 32;

/// How many parts a draft may have, its multiparts counted.
pub const MAX_PARTS: usize = 1000;

/// Lends the values of bodyValues; `none` has no members.
pub fn find_values<'a>(members: &'a Members, none: &'a Members) -> &'a Members
    requires { none.now ≡ [] }
    ensures { result.now ≡ Bodies.values_in members.now }
{
    let Some(value) = members.get("bodyValues") else {
        return none;
    };
    match value.as_object() {
        Some(values) => values,
        None => none,
    }
}

// ---- the form

fn is_one(values: &Members, kind: &str, items: &[Json]) -> bool
    ensures { result ≡ Bodies.is_one values.now kind.now (map tree_of items.now) }
{
    match items.split_first() {
        Some((item, more)) => {
            more.is_empty() && is_part(values, item, 1) && has_type(kind, item)
        }
        None => false,
    }
}

/// Returns whether a bodyStructure is a part.
#[tactic(auto, unfolding(crate::specs::Bodies::is_whole))]
pub fn is_whole(values: &Members, value: &Json) -> bool
    ensures { result ≡ Bodies.is_whole values.now (tree_of value.now) }
{
    is_part(values, value, MAX_DEPTH)
}

// Returns whether a part sends this type, in either case.
fn has_type(kind: &str, item: &Json) -> bool
    ensures { result ≡ Bodies.has_type kind.now (tree_of item.now) }
{
    match item.as_object() {
        Some(members) => is_same_name(kind.as_bytes(), find_type(members).as_bytes()),
        None => is_same_name(kind.as_bytes(), "".as_bytes()),
    }
}

/// Returns whether a value is a list of one part of this type.
pub fn is_body(values: &Members, kind: &str, value: &Json) -> bool
    ensures { result ≡ Bodies.is_one values.now kind.now (Rules.list_items (tree_of value.now)) }
{
    is_one(values, kind, lend_items(value))
}

fn has_blob(item: &Json) -> bool
    ensures { result ≡ Bodies.has_blob (tree_of item.now) }
{
    match item.as_object() {
        Some(members) => is_given(members.get("blobId")),
        None => false,
    }
}

fn is_attachment(values: &Members, item: &Json) -> bool
    ensures { result ≡ Bodies.is_attachment values.now (tree_of item.now) }
{
    is_part(values, item, 1) && has_blob(item)
}

fn are_attached(values: &Members, items: &[Json]) -> bool
    ensures { result ≡ list_all (Bodies.is_attachment values.now) (map tree_of items.now) }
{
    for item in items {
        if !is_attachment(values, item) {
            return false;
        }
    }
    true
}

/// Returns whether a value is a list of parts that are blobs.
pub fn are_attachments(values: &Members, value: &Json) -> bool
    ensures { result ≡ Rules.is_list (Bodies.is_attachment values.now) (tree_of value.now) }
{
    match value.as_list() {
        Some(items) => are_attached(values, items.as_slice()),
        None => false,
    }
}

fn has_values(members: &[Member]) -> bool
    ensures { result ≡ Bodies.has_values (map member_of members.now) }
{
    for member in members {
        if !is_value(&member.value) {
            return false;
        }
    }
    true
}

/// Returns whether a value is an object of values without a problem.
pub fn are_values(value: &Json) -> bool
    ensures { result ≡ Bodies.are_values (tree_of value.now) }
{
    match value.as_object() {
        Some(members) => has_values(members.as_slice()),
        None => false,
    }
}

// ---- what is said

// Returns the head of a part of this type.
fn build_head(
    alloc: Global,
    main: &str,
    sub: &str,
    charset: Option<Text>,
) -> Result<PartHead, NoMemory>
    ensures { IfOk result (λ h. h ≡ Bodies.plain_head main.now sub.now charset) }
{
    Ok(PartHead {
        main: Bytes::from_slice(alloc, main.as_bytes())?,
        sub: Bytes::from_slice(alloc, sub.as_bytes())?,
        charset,
        name: None,
        disposition: None,
        cid: None,
        language: None,
        location: None,
    })
}

// Adds an empty text.
fn push_empty(alloc: Global, parts: &mut DraftRows) -> Result<(), NoMemory>
    ensures rows { OnOk result ((later : DraftParts) → parts.new.rows ++ rows_of later
        ≡ parts.old.rows ++ rows_of (Bodies.empty_before later)) }
    ensures ids { OnOk result (parts.new.blob_ids ≡ parts.old.blob_ids) }
{
    let charset = Text::from_str(alloc, "utf-8")?;
    let head = build_head(alloc, "text", "plain", Some(charset))?;
    let text = Text::from_str(alloc, "")?;
    parts.rows.push(Row::Holds(head, Content::Value(text)))
}

// Begins a multipart of this subtype.
fn push_multipart(alloc: Global, parts: &mut DraftRows, sub: &str) -> Result<(), NoMemory>
    ensures rows { OnOk result (parts.new.rows ≡ parts.old.rows
        ++ opens (Bodies.plain_head (codes "multipart") sub.now None) ∷ []) }
    ensures ids { OnOk result (parts.new.blob_ids ≡ parts.old.blob_ids) }
{
    let head = build_head(alloc, "multipart", sub, None)?;
    parts.rows.push(Row::Opens(head))
}

// Adds the alternative of a text and HTML.
fn push_alternative(
    alloc: Global,
    parts: &mut DraftRows,
    values: &Members,
    text: &Json,
    html: &Json,
) -> Result<(), NoMemory>
    ensures rows { OnOk result ((later : DraftParts) → parts.new.rows ++ rows_of later
        ≡ parts.old.rows ++ rows_of (Bodies.both_before values.now (tree_of text.now)
        (tree_of html.now) later)) }
    ensures ids { OnOk result ((later : DraftParts) → parts.new.blob_ids ++ ids_of later
        ≡ parts.old.blob_ids ++ ids_of (Bodies.both_before values.now (tree_of text.now)
        (tree_of html.now) later)) }
{
    push_multipart(alloc, parts, "alternative")?;
    push_part(alloc, parts, values, text, 1)?;
    push_part(alloc, parts, values, html, 1)?;
    parts.rows.push(Row::Closes)?;
    Ok(())
}

// Adds the text or the HTML, or the alternative of both, or an empty text if neither is sent.
fn push_text(
    alloc: Global,
    parts: &mut DraftRows,
    values: &Members,
    text: Option<&Json>,
    html: Option<&Json>,
) -> Result<(), NoMemory>
    ensures rows { OnOk result ((later : DraftParts) → parts.new.rows ++ rows_of later
        ≡ parts.old.rows ++ rows_of (Bodies.text_before values.now
        (option_map (λ j. tree_of j.now) text.entry) (option_map
        (λ j. tree_of j.now) html.entry) later)) }
    ensures ids { OnOk result ((later : DraftParts) → parts.new.blob_ids ++ ids_of later
        ≡ parts.old.blob_ids ++ ids_of (Bodies.text_before values.now
        (option_map (λ j. tree_of j.now) text.entry) (option_map
        (λ j. tree_of j.now) html.entry) later)) }
{
    let Some(text) = text else {
        return match html {
            Some(html) => push_part(alloc, parts, values, html, 1),
            None => push_empty(alloc, parts),
        };
    };
    match html {
        Some(html) => push_alternative(alloc, parts, values, text, html),
        None => push_part(alloc, parts, values, text, 1),
    }
}

// Adds the multipart of a text and attachments.
fn push_mixed(
    alloc: Global,
    parts: &mut DraftRows,
    values: &Members,
    text: Option<&Json>,
    html: Option<&Json>,
    attached: &[Json],
) -> Result<(), NoMemory>
    ensures rows { OnOk result (parts.new.rows ≡ parts.old.rows
        ++ rows_of (Bodies.mixed_before values.now (option_map (λ j. tree_of j.now) text.entry)
        (option_map (λ j. tree_of j.now) html.entry) (map tree_of attached.now))) }
    ensures ids { OnOk result (parts.new.blob_ids ≡ parts.old.blob_ids
        ++ ids_of (Bodies.mixed_before values.now (option_map (λ j. tree_of j.now) text.entry)
        (option_map (λ j. tree_of j.now) html.entry) (map tree_of attached.now))) }
{
    push_multipart(alloc, parts, "mixed")?;
    push_text(alloc, parts, values, text, html)?;
    push_parts(alloc, parts, values, attached, 1)?;
    parts.rows.push(Row::Closes)?;
    Ok(())
}

// Adds a text alone.
fn push_text_alone(
    alloc: Global,
    parts: &mut DraftRows,
    values: &Members,
    text: Option<&Json>,
    html: Option<&Json>,
) -> Result<(), NoMemory>
    ensures rows { OnOk result (parts.new.rows ≡ parts.old.rows
        ++ rows_of (Bodies.text_before values.now (option_map (λ j. tree_of j.now) text.entry)
        (option_map (λ j. tree_of j.now) html.entry) Structures.none)) }
    ensures ids { OnOk result (parts.new.blob_ids ≡ parts.old.blob_ids
        ++ ids_of (Bodies.text_before values.now (option_map (λ j. tree_of j.now) text.entry)
        (option_map (λ j. tree_of j.now) html.entry) Structures.none)) }
{
    push_text(alloc, parts, values, text, html)?;
    Ok(())
}

// Adds a text, and the attachments if there are any.
fn push_bodies(
    alloc: Global,
    parts: &mut DraftRows,
    values: &Members,
    text: Option<&Json>,
    html: Option<&Json>,
    attached: &[Json],
) -> Result<(), NoMemory>
    ensures rows { OnOk result (parts.new.rows ≡ parts.old.rows
        ++ rows_of (Bodies.with_attached values.now (option_map (λ j. tree_of j.now) text.entry)
        (option_map (λ j. tree_of j.now) html.entry) (map tree_of attached.now))) }
    ensures ids { OnOk result (parts.new.blob_ids ≡ parts.old.blob_ids
        ++ ids_of (Bodies.with_attached values.now (option_map (λ j. tree_of j.now) text.entry)
        (option_map (λ j. tree_of j.now) html.entry) (map tree_of attached.now))) }
{
    if attached.is_empty() {
        push_text_alone(alloc, parts, values, text, html)
    } else {
        push_mixed(alloc, parts, values, text, html, attached)
    }
}

// Lends the first item of a member that is a list.
fn find_first<'a>(name: &str, members: &'a Members) -> Option<&'a Json>
    ensures { option_map (λ j. tree_of j.now) result ≡ Bodies.first_part name.now members.now }
{
    match find_items(name, members).split_first() {
        Some((item, _)) => Some(item),
        None => None,
    }
}

// Adds the parts of a draft without bodyStructure.
fn push_lists(
    alloc: Global,
    parts: &mut DraftRows,
    values: &Members,
    members: &Members,
) -> Result<(), NoMemory>
    ensures rows { OnOk result (parts.new.rows ≡ parts.old.rows
        ++ rows_of (Bodies.lists_in values.now members.now)) }
    ensures ids { OnOk result (parts.new.blob_ids ≡ parts.old.blob_ids
        ++ ids_of (Bodies.lists_in values.now members.now)) }
{
    let text = find_first("textBody", members);
    let html = find_first("htmlBody", members);
    let attached = find_items("attachments", members);
    push_bodies(alloc, parts, values, text, html, attached)
}

// Adds the parts of a bodyStructure.
#[tactic(auto, unfolding(crate::specs::Bodies::whole_part))]
fn push_whole(
    alloc: Global,
    parts: &mut DraftRows,
    values: &Members,
    tree: &Json,
) -> Result<(), NoMemory>
    ensures rows { OnOk result (parts.new.rows ≡ parts.old.rows
        ++ rows_of (Bodies.whole_part values.now (tree_of tree.now))) }
    ensures ids { OnOk result (parts.new.blob_ids ≡ parts.old.blob_ids
        ++ ids_of (Bodies.whole_part values.now (tree_of tree.now))) }
{
    push_part(alloc, parts, values, tree, MAX_DEPTH)?;
    Ok(())
}

// Adds the parts of a draft.
fn push_structure(
    alloc: Global,
    parts: &mut DraftRows,
    values: &Members,
    members: &Members,
) -> Result<(), NoMemory>
    requires { values.now ≡ Bodies.values_in members.now }
    ensures rows { OnOk result (parts.new.rows ≡ parts.old.rows
        ++ rows_of (Bodies.structure_in members.now)) }
    ensures ids { OnOk result (parts.new.blob_ids ≡ parts.old.blob_ids
        ++ ids_of (Bodies.structure_in members.now)) }
{
    match members.get("bodyStructure") {
        Some(tree) => push_whole(alloc, parts, values, tree),
        None => push_lists(alloc, parts, values, members),
    }
}

/// Returns the parts of a draft over these values.
pub fn read_structure(
    alloc: Global,
    values: &Members,
    members: &Members,
) -> Result<DraftRows, NoMemory>
    requires { values.now ≡ Bodies.values_in members.now }
    ensures rows { IfOk result (λ p. p.rows ≡ rows_of (Bodies.structure_in members.now)) }
    ensures ids { IfOk result (λ p. p.blob_ids ≡ ids_of (Bodies.structure_in members.now)) }
{
    let mut parts = DraftRows {
        rows: Sequence::new(alloc),
        blob_ids: Texts::new(alloc),
    };
    push_structure(alloc, &mut parts, values, members)?;
    Ok(parts)
}

/// Returns whether there are no more parts than a draft may have.
pub fn has_few_parts(rows: &[Row]) -> bool
    ensures { (p : DraftParts) → rows.now ≡ rows_of p
        → result ≡ nat_le (part_count p) MAX_PARTS }
{
    count_parts(rows) <= MAX_PARTS
}

// Returns how many parts there are.
fn count_parts(rows: &[Row]) -> usize
    ensures { result ≡ Rows.row_count rows.now }
{
    let mut count = 0;
    for row in rows {
        match row {
            Row::Opens(_) | Row::Holds(_, _) => count += 1,
            Row::Closes => {}
        }
    }
    count
}
