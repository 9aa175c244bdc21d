// The parts of a draft in their order.
ghost use Rattle.std.specs.Prelude.{◌≡◌, ◌++◌, ◌∷◌, [], codes, map, unwrap_or, IfOk, OnOk};
ghost use Rattle.std.specs.List.{list_all};
ghost use Rattle.jm_json.specs.Json.{tree_of};
ghost use Rattle.draft_form.specs.Structures;
ghost use Rattle.draft_form.specs.Structures.{DraftParts, each_before, ids_of, leaf, part_before};
ghost use Rattle.draft_form.specs.Rows.{rows_of};
ghost use Rattle.draft_form.specs.Parts.{head_of, named_value};
ghost use Rattle.draft_form.specs.Members.{text_at};

use crate::draft::{Content, DraftRows, Row};
use crate::members::{copy_text_at, find_items, is_given, lend_members};
use crate::parts::{copy_named_value, has_part, is_multipart, read_head};
use jm_base::{NoMemory, Text};
use jm_json::{Json, Members};
use std::alloc::Global;

/// Returns whether a part and those within it are of the form, over these values, to this depth.
#[cycle(form)]
pub fn is_part(values: &Members, tree: &Json, levels: usize) -> bool
    ensures { result ≡ Structures.is_part levels values.now (tree_of tree.now) }
{
    if levels == 0 {
        return false;
    }
    match tree.as_object() {
        Some(members) => has_parts(values, members, levels - 1),
        None => false,
    }
}

// Returns whether an object is a part and those within it are of the form, to this depth.
#[cycle(form)]
fn has_parts(values: &Members, members: &Members, levels: usize) -> bool
    ensures { result ≡ Structures.has_parts levels values.now members.now }
{
    has_part(values, members) && are_parts(values, find_items("subParts", members), levels)
}

#[cycle(form)]
fn are_parts(values: &Members, items: &[Json], levels: usize) -> bool
    ensures { result ≡ list_all (Structures.is_part levels values.now) (map tree_of items.now) }
{
    for item in items {
        if !is_part(values, item, levels) {
            return false;
        }
    }
    true
}

// Adds the id of a blob.
fn push_blob_id(alloc: Global, parts: &mut DraftRows, id: Option<Text>) -> Result<(), NoMemory>
    ensures ids { OnOk result (parts.new.blob_ids
        ≡ parts.old.blob_ids ++ unwrap_or id [] ∷ []) }
    ensures rows { OnOk result (parts.new.rows ≡ parts.old.rows) }
{
    match id {
        Some(id) => parts.blob_ids.push(id),
        None => parts.blob_ids.push(Text::from_str(alloc, "")?),
    }
}

// Returns the text of the value that a part names.
fn read_part_value(alloc: Global, values: &Members, members: &Members) -> Result<Text, NoMemory>
    ensures { IfOk result (λ t. t ≡ named_value values.now (text_at (codes "partId") members.now)) }
{
    let Some(id) = members.get("partId") else {
        return copy_named_value(alloc, values, None);
    };
    match id.as_text() {
        Some(id) => copy_named_value(alloc, values, Some(id.as_str())),
        None => copy_named_value(alloc, values, None),
    }
}

// Adds a part that is no multipart.
fn push_leaf(
    alloc: Global,
    parts: &mut DraftRows,
    values: &Members,
    members: &Members,
) -> Result<(), NoMemory>
    ensures rows { OnOk result (parts.new.rows ≡ parts.old.rows
        ++ rows_of (leaf (head_of members.now)
        (Structures.body_of values.now members.now) Structures.none)) }
    ensures ids { OnOk result (parts.new.blob_ids ≡ parts.old.blob_ids
        ++ Structures.id_of (Structures.body_of values.now members.now)) }
{
    let head = read_head(alloc, members)?;
    if is_given(members.get("partId")) {
        let text = read_part_value(alloc, values, members)?;
        return parts.rows.push(Row::Holds(head, Content::Value(text)));
    }
    parts.rows.push(Row::Holds(head, Content::Blob))?;
    let id = copy_text_at("blobId", members)?;
    push_blob_id(alloc, parts, id)
}

/// Adds a part with those within it, to this depth.
#[cycle(rows)]
pub fn push_part(
    alloc: Global,
    parts: &mut DraftRows,
    values: &Members,
    tree: &Json,
    levels: usize,
) -> Result<(), NoMemory>
    ensures rows { OnOk result ((later : DraftParts) → parts.new.rows ++ rows_of later
        ≡ parts.old.rows ++ rows_of (part_before levels values.now (tree_of tree.now) later)) }
    ensures ids { OnOk result ((later : DraftParts) → parts.new.blob_ids ++ ids_of later
        ≡ parts.old.blob_ids ++ ids_of (part_before levels values.now (tree_of tree.now) later)) }
{
    if levels == 0 {
        return Ok(());
    }
    let none = Members::new(alloc);
    let members = lend_members(tree, &none);
    push_members(alloc, parts, values, members, levels - 1)?;
    Ok(())
}

#[cycle(rows)]
fn push_members(
    alloc: Global,
    parts: &mut DraftRows,
    values: &Members,
    members: &Members,
    levels: usize,
) -> Result<(), NoMemory>
    ensures rows { OnOk result ((later : DraftParts) → parts.new.rows ++ rows_of later
        ≡ parts.old.rows ++ rows_of
        (Structures.members_before levels values.now members.now later)) }
    ensures ids { OnOk result ((later : DraftParts) → parts.new.blob_ids ++ ids_of later
        ≡ parts.old.blob_ids ++ ids_of
        (Structures.members_before levels values.now members.now later)) }
{
    if is_multipart(members) {
        push_multipart(alloc, parts, values, members, levels)
    } else {
        push_leaf(alloc, parts, values, members)
    }
}

// Adds a multipart with the parts within it, to this depth.
#[cycle(rows)]
fn push_multipart(
    alloc: Global,
    parts: &mut DraftRows,
    values: &Members,
    members: &Members,
    levels: usize,
) -> Result<(), NoMemory>
    ensures rows { OnOk result ((later : DraftParts) → parts.new.rows ++ rows_of later
        ≡ parts.old.rows ++ rows_of
        (Structures.multipart_before levels values.now members.now later)) }
    ensures ids { OnOk result ((later : DraftParts) → parts.new.blob_ids ++ ids_of later
        ≡ parts.old.blob_ids ++ ids_of
        (Structures.multipart_before levels values.now members.now later)) }
{
    let head = read_head(alloc, members)?;
    parts.rows.push(Row::Opens(head))?;
    push_parts(
        alloc,
        parts,
        values,
        find_items("subParts", members),
        levels,
    )?;
    parts.rows.push(Row::Closes)?;
    Ok(())
}

/// Adds parts with those within them, to this depth.
#[cycle(rows)]
pub fn push_parts(
    alloc: Global,
    parts: &mut DraftRows,
    values: &Members,
    items: &[Json],
    levels: usize,
) -> Result<(), NoMemory>
    ensures rows { OnOk result ((later : DraftParts) → parts.new.rows ++ rows_of later
        ≡ parts.old.rows ++ rows_of (each_before (part_before levels values.now)
        (map tree_of items.now) later)) }
    ensures ids { OnOk result ((later : DraftParts) → parts.new.blob_ids ++ ids_of later
        ≡ parts.old.blob_ids ++ ids_of (each_before (part_before levels values.now)
        (map tree_of items.now) later)) }
{
    for item in items {
        push_part(alloc, parts, values, item, levels)?;
    }
    Ok(())
}
