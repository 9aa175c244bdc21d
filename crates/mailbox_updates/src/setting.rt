// What the updates and destroys of a set are performed on (RFC 8620, section 5.3).
ghost use Rattle.std.specs.Prelude.{◌≡◌, ◌++◌, IfOk, List, OnOk, ℕ, option_map};
ghost use Rattle.jm_json.specs.declared.invocation.Created.{Created as TheCreated};
ghost use Rattle.mail_records.specs.Contents.{Content as TheContent};
ghost use Rattle.mailbox_creates.specs.Properties.{mailbox_meant};
ghost use Rattle.mailbox_updates.specs.Views.{Shows};
ghost use Rattle.set_parts.specs.CreationIds.{identifier};
ghost use Rattle.set_parts.specs.Views.{AreMade, HoldIds, MeansIfAny};

use crate::current::{Current, find_present};
use jm_base::NoMemory;
use jm_json::Created;
use mail_records::Mailbox;
use set_parts::{
    CreatedIds, CreatedRecords, TextSet, collect_created, find_id, note_id, note_text,
    read_mailbox_number, read_reference,
};
use std::alloc::Global;

/// What the request has created, the ids that the set destroys, and whether destroys remove the
/// emails of the mailboxes.
#[derive(Drop)]
pub struct Setting<'a> {
    pub created: CreatedRecords<'a>,
    pub destroyed: TextSet<'a>,
    pub removes_emails: bool,
}

// Adds what the set itself has created.
fn add_created<'a>(records: &mut CreatedRecords<'a>, fresh: &'a [Created]) -> Result<(), NoMemory>
    ensures { OnOk result ((made : List TheCreated) → AreMade records.old made
        → AreMade records.new (made ++ fresh.now)) }
{
    for created in fresh {
        note_text(
            &mut records.texts,
            created.creation.as_bytes(),
            created.id.as_str(),
        )?;
        note_id(
            &mut records.ids,
            created.creation.as_bytes(),
            read_mailbox_number(created.id.as_bytes()),
        )?;
    }
    Ok(())
}

/// Returns what was created by the calls before the set, and by the set itself.
pub fn collect_all_created<'a>(
    alloc: Global,
    made: &'a [Created],
    fresh: &'a [Created],
) -> Result<CreatedRecords<'a>, NoMemory>
    ensures { IfOk result (λ r. AreMade r (made.now ++ fresh.now)) }
{
    let mut records = collect_created(alloc, made)?;
    add_created(&mut records, fresh)?;
    Ok(records)
}

/// Returns the number of the mailbox that a string names: by its id, or by a reference to a created
/// one.
pub fn find_number<'a>(ids: &CreatedIds<'a>, text: &[u8]) -> Option<u64>
    ensures { (made : List TheCreated) → HoldIds ids.now made
        → MeansIfAny (identifier made text.now) result }
{
    match read_reference(text) {
        Some(creation) => match find_id(ids, creation) {
            Some(number) => number,
            None => None,
        },
        None => read_mailbox_number(text),
    }
}

/// Returns the mailbox that a string means, as the set has left it.
pub fn find_meant<'a, 'b>(
    current: &'b Current,
    created: &CreatedRecords<'a>,
    id: &'a str,
) -> Option<&'b Mailbox>
    ensures { (made : List TheCreated) (c : TheContent) → AreMade created.now made
        → Shows current.now c
        → option_map (λ r. r.now) result ≡ mailbox_meant made c id.now }
{
    match find_number(&created.ids, id.as_bytes()) {
        Some(number) => find_present(current, number),
        None => None,
    }
}
