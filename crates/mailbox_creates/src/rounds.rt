// The order of creates: a create may refer to the parent that another creates (RFC 8620, section
// 5.3).
ghost use Rattle.std.specs.Prelude.{IfSome, OnOk, length, map, option_map, ◌+◌, ◌<◌, ◌≡◌, ◌≤◌};
ghost use Rattle.jm_base.specs.declared.identifiers.TheConstants.{NUMBER_LIMIT};
ghost use Rattle.set_parts.specs.Creates.{Creating};
ghost use Rattle.mailbox_creates.specs.Views.{Follows, IsFirst};
ghost use Rattle.set_parts.specs.Views.{create_of};
ghost use Rattle.mailbox_creates.specs.Rounds.{after_creates, after_each, stands, waits_for};

use crate::create::perform_create;
use crate::planner::Planner;
use jm_base::NoMemory;
use jm_json::Members;
use set_parts::{SentCreate, find_id, read_reference};
use std::alloc::Global;

// Reads the creation id that the `parentId` of a create refers to.
fn read_awaited_id<'a>(members: &'a Members) -> Option<&'a [u8]>
    ensures { option_map (λ k. k.now) result ≡ waits_for members.now }
{
    read_reference(members.get("parentId")?.as_text()?.as_bytes())
}

// Returns whether the create that this one refers to was performed.
fn is_ready<'a>(planner: &Planner<'a>, draft: &SentCreate<'a>) -> bool
    ensures { (s : Creating) → Follows planner.now s → result
        ≡ stands s.made (create_of draft.now) }
{
    match read_awaited_id(draft.members) {
        Some(creation) => find_id(&planner.creates.ids, creation).is_some(),
        None => true,
    }
}

fn find_ready<'a>(planner: &Planner<'a>, drafts: &[SentCreate<'a>]) -> Option<usize>
    ensures within { IfSome result (λ i. i < length drafts.now) }
    ensures first { (s : Creating) → Follows planner.now s
        → IsFirst (stands s.made) drafts.now result }
{
    for i in 0..drafts.len() {
        if is_ready(planner, &drafts[i]) {
            return Some(i);
        }
    }
    None
}

// Performs creates one after the other.
fn do_each<'a>(
    alloc: Global,
    planner: &mut Planner<'a>,
    drafts: &[SentCreate<'a>],
) -> Result<(), NoMemory>
    requires { planner.old.next + length drafts.now < NUMBER_LIMIT }
    ensures { OnOk result
        ((s : Creating) → Follows planner.old s
        → Follows planner.new (after_each s (map create_of drafts.now))) }
{
    for i in 0..drafts.len() {
        perform_create(alloc, planner, &drafts[i])?;
    }
    Ok(())
}

/// Performs creates in rounds, in each the first one whose reference is resolved. Those whose
/// references are never resolved come last.
pub fn do_creates<'a>(
    alloc: Global,
    planner: &mut Planner<'a>,
    drafts: Vec<SentCreate<'a>>,
) -> Result<(), NoMemory>
    requires { planner.old.next + length drafts.items < NUMBER_LIMIT }
    ensures { OnOk result
        ((s : Creating) → Follows planner.old s
        → Follows planner.new (after_creates s (map create_of drafts.entry.items))) }
{
    let mut rest = drafts;
    'rounds: while let Some(at) = find_ready(planner, rest.as_slice()) {
        let draft = rest.remove(at);
        perform_create(alloc, planner, &draft)?;
    }
    do_each(alloc, planner, rest.as_slice())
}
