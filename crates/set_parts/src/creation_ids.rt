// The ids that a request has created, by creation id (RFC 8620, sections 3.3 and 5.3).
ghost use Rattle.std.specs.Prelude.{IfOk, List, OnOk, [], option_map, ◌++◌, ◌∷◌, ◌≡◌};
ghost use Rattle.jm_json.specs.declared.invocation.Created.{Created as TheCreated};
ghost use Rattle.set_parts.specs.CreationIds.{reference};
ghost use Rattle.set_parts.specs.Views.{Means, HoldIds, id_at};

use jm_base::{Kind, NoMemory, read_id};
use jm_json::Created;
use std::alloc::Global;
use std::collections::BTreeMap;

/// The number of the mailbox that was created last under each creation id; none if a record of
/// another kind was.
#[derive(Drop)]
pub struct CreatedIds<'a> {
    pub numbers: BTreeMap<&'a [u8], Option<u64>>,
}

/// Parses the number of the mailbox whose id a string is.
pub fn read_mailbox_number(text: &[u8]) -> Option<u64>
    ensures { Means text.now result }
{
    match read_id(text) {
        Ok(id) => match id.kind {
            Kind::Mailbox => Some(id.number),
            Kind::Email => None,
            Kind::Thread => None,
        },
        Err(_) => None,
    }
}

/// Returns the creation id that a string refers to: what follows its `#`.
pub fn read_reference<'a>(text: &'a [u8]) -> Option<&'a [u8]>
    ensures { option_map (λ s. s.now) result ≡ reference text.now }
{
    match text.split_first() {
        Some((first, rest)) => if *first == b'#' { Some(rest) } else { None },
        None => None,
    }
}

/// Notes what was created under a creation id.
pub fn note_id<'a>(
    ids: &mut CreatedIds<'a>,
    creation: &'a [u8],
    number: Option<u64>,
) -> Result<(), NoMemory>
    ensures { OnOk result
        ((made : List TheCreated) (x : TheCreated) → HoldIds ids.old made → x.creation
        ≡ creation.now → Means x.id number → HoldIds ids.new (made ++ x ∷ [])) }
{
    let _earlier = ids.numbers.insert(creation, number)?;
    Ok(())
}

/// Returns the ids of all records that were created up to here.
pub fn collect_ids<'a>(alloc: Global, made: &'a [Created]) -> Result<CreatedIds<'a>, NoMemory>
    ensures { IfOk result (λ k. HoldIds k made.now) }
{
    let mut ids = CreatedIds {
        numbers: BTreeMap::new(alloc),
    };
    for created in made {
        note_id(
            &mut ids,
            created.creation.as_bytes(),
            read_mailbox_number(created.id.as_bytes()),
        )?;
    }
    Ok(ids)
}

/// Returns what was created under a creation id, if anything was.
pub fn find_id<'a>(ids: &CreatedIds<'a>, creation: &[u8]) -> Option<Option<u64>>
    ensures { result ≡ id_at ids.now creation.now }
{
    match ids.numbers.get(creation) {
        Some(number) => Some(*number),
        None => None,
    }
}
