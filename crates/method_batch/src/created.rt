// The `createdIds` of a request, moved out of its tree (RFC 8620, section 3.3), and those of a
// Response, moved into its tree (section 3.4).
ghost use Rattle.std.specs.Prelude.{◌≡◌, [], IfOk, option_and_then};
ghost use Rattle.jm_json.specs.Json.{tree_of};
ghost use Rattle.jm_json.specs.Find.{as_object};
ghost use Rattle.method_batch.specs.Request.{created_from};
ghost use Rattle.method_batch.specs.Outcome.{put_ids};

use jm_base::NoMemory;
use jm_json::{Created, Json, Made, Members};
use std::alloc::Global;
use std::collections::VecDeque;

/// Returns the created records of an object of strings, in the order of its creation ids, if all of
/// its values are strings.
pub(crate) fn read_created(alloc: Global, tree: Json) -> Result<Option<Made>, NoMemory>
    ensures { IfOk result (λ o. o ≡ option_and_then created_from (as_object (tree_of tree))) }
{
    match tree.into_members() {
        Some(members) => read_pairs(alloc, members),
        None => Ok(None),
    }
}

fn read_pairs(alloc: Global, members: Members) -> Result<Option<Made>, NoMemory>
    ensures { IfOk result (λ o. o ≡ created_from members) }
{
    let mut made = Made::new(alloc);
    let mut rest = VecDeque::from_vec(members.into_vec());
    while let Some(member) = rest.pop_front() {
        match member.value.into_text() {
            Some(id) => made.push(Created {
                creation: member.name,
                id,
            })?,
            None => return Ok(None),
        }
    }
    Ok(Some(made))
}

// Sorts created records by creation id; records with one creation id stay in the order of creation.
fn sort_created(made: Made) -> Result<Vec<Created>, NoMemory>
    ensures { IfOk result (λ cs. put_ids [] cs.items ≡ put_ids [] made) }
{
    let mut all = made.into_vec();
    all.sort_by(|a, b| a.creation.as_bytes().cmp(b.creation.as_bytes()))?;
    Ok(all)
}

/// Returns the members for created records: of records with one creation id the last counts. Each
/// is put at the end, or in place of the last one.
pub(crate) fn build_id_members(alloc: Global, made: Made) -> Result<Members, NoMemory>
    ensures { IfOk result (λ ms. ms ≡ put_ids [] made) }
{
    let mut members = Members::new(alloc);
    let mut rest = VecDeque::from_vec(sort_created(made)?);
    while let Some(created) = rest.pop_front() {
        members.put(created.creation, Json::Text(created.id))?;
    }
    Ok(members)
}
