// The ids that a request has created, as strings by creation id (RFC 8620, sections 3.3 and 5.3).
ghost use Rattle.std.specs.Prelude.{◌≡◌, ◌∷◌, [], ◌++◌, IfOk, List, OnOk, option_map};
ghost use Rattle.jm_json.specs.declared.invocation.Created.{Created as TheCreated};
ghost use Rattle.set_parts.specs.CreationIds.{identifier, reported_id};
ghost use Rattle.set_parts.specs.Views.{AreMade, HoldTexts, text_at};

use crate::creation_ids::{CreatedIds, collect_ids, read_reference};
use jm_base::NoMemory;
use jm_json::Created;
use std::alloc::Global;
use std::collections::BTreeMap;

/// The id that was created last under each creation id.
#[derive(Drop)]
pub struct CreatedTexts<'a> {
    pub texts: BTreeMap<&'a [u8], &'a str>,
}

/// Notes what was created under a creation id.
pub fn note_text<'a>(
    texts: &mut CreatedTexts<'a>,
    creation: &'a [u8],
    id: &'a str,
) -> Result<(), NoMemory>
    ensures { OnOk result
        ((made : List TheCreated) (x : TheCreated) → HoldTexts texts.old made → x.creation
        ≡ creation.now → x.id ≡ id.now → HoldTexts texts.new (made ++ x ∷ [])) }
{
    let _earlier = texts.texts.insert(creation, id)?;
    Ok(())
}

/// Returns the ids of all records that were created up to here.
pub fn collect_texts<'a>(alloc: Global, made: &'a [Created]) -> Result<CreatedTexts<'a>, NoMemory>
    ensures { IfOk result (λ t. HoldTexts t made.now) }
{
    let mut texts = CreatedTexts {
        texts: BTreeMap::new(alloc),
    };
    for created in made {
        note_text(&mut texts, created.creation.as_bytes(), created.id.as_str())?;
    }
    Ok(texts)
}

/// Returns the id that was created last under a creation id, if anything was.
pub fn find_text<'a>(texts: &CreatedTexts<'a>, creation: &[u8]) -> Option<&'a str>
    ensures { option_map (λ t. t.now) result ≡ text_at texts.now creation.now }
{
    match texts.texts.get(creation) {
        Some(text) => Some(*text),
        None => None,
    }
}

/// Returns the id that a string or its reference means, or None if it is a reference that means
/// nothing.
pub fn find_identifier<'a>(texts: &CreatedTexts<'a>, id: &'a str) -> Option<&'a str>
    ensures { (made : List TheCreated) → HoldTexts texts.now made
        → option_map (λ t. t.now) result ≡ identifier made id.now }
{
    match read_reference(id.as_bytes()) {
        Some(creation) => find_text(texts, creation),
        None => Some(id),
    }
}

/// Returns the id under which an object is reported: the one that its reference means, or the
/// string as it was sent.
pub fn find_reported_id<'a>(texts: &CreatedTexts<'a>, id: &'a str) -> &'a str
    ensures { (made : List TheCreated) → HoldTexts texts.now made
        → result.now ≡ reported_id made id.now }
{
    match find_identifier(texts, id) {
        Some(meant) => meant,
        None => id,
    }
}

/// What a request has created, by creation id: the ids as strings, and the numbers of those that
/// are mailboxes.
#[derive(Drop)]
pub struct CreatedRecords<'a> {
    pub texts: CreatedTexts<'a>,
    pub ids: CreatedIds<'a>,
}

/// Returns what was created up to here, by creation id.
pub fn collect_created<'a>(
    alloc: Global,
    made: &'a [Created],
) -> Result<CreatedRecords<'a>, NoMemory>
    ensures { IfOk result (λ r. AreMade r made.now) }
{
    let texts = collect_texts(alloc, made)?;
    let ids = collect_ids(alloc, made)?;
    Ok(CreatedRecords { texts, ids })
}
