// How far the updates and destroys of a set have come.
ghost use Rattle.std.specs.Prelude.{◌≡◌, ◌∷◌, [], ℕ, OnOk, length, option_map};
ghost use Rattle.std.specs.BTreeMap.{get};
ghost use Rattle.std.specs.List.{AllByRecursion};
ghost use Rattle.std.specs.Ordering.{nat_cmp};
ghost use Rattle.jm_base.specs.declared.identifiers.Kind.TheVariants.{Email as OfEmail};
ghost use Rattle.mail_counts.specs.Overlay.{email_put, last_edit};
ghost use Rattle.mail_records.specs.Contents.{Content as TheContent, email_at};
ghost use Rattle.set_parts.specs.Steps.{Progress, before_steps, with_edits};
ghost use Rattle.email_set.specs.Views.{Follows, IsOfEmail, email_named_by, index_after};

use jm_base::NoMemory;
use mail_records::{Content, Edit, Edits, Email};
use set_parts::{Reported, start_report};
use std::alloc::Global;
use std::collections::{BTreeMap, VecDeque};

/// How far the updates and destroys of a set have come: the edits, the index of the last edit of
/// each email that they change, and what is reported.
#[derive(Drop)]
pub struct Planner {
    pub edits: Vec<Edit>,
    pub last: BTreeMap<u64, usize>,
    pub reported: Reported,
}

/// Returns a planner before the first update.
pub fn start_planner(alloc: Global, content: &Content) -> Planner
    ensures { Follows content.now.content result (before_steps content.now.content) }
{
    // Emails are looked up in the content, which has them in number order.
    let _in_order = content.emails();
    Planner {
        edits: Vec::new(alloc),
        last: BTreeMap::new(alloc),
        reported: start_report(alloc),
    }
}

// Returns the email that an edit puts.
fn find_put_email(edit: &Edit) -> Option<&Email>
    ensures { option_map (λ r. r.now) result ≡ email_put edit.now }
{
    match edit {
        Edit::PutEmail { item, .. } => Some(item),
        _ => None,
    }
}

// Returns the last edit of the email of a number.
fn find_last_edit(planner: &Planner, number: u64) -> Option<&Edit>
    ensures { (c : TheContent) (s : Progress) → Follows c planner.now s
        → option_map (λ r. r.now) result ≡ last_edit OfEmail number planner.now.edits.items }
{
    match planner.last.get(&number) {
        Some(index) => planner.edits.get(*index),
        None => None,
    }
}

/// Returns the email of a number, as the edits up to here leave it.
pub fn find_email<'a>(content: &'a Content, planner: &'a Planner, number: u64) -> Option<&'a Email>
    ensures { (s : Progress) → Follows content.now.content planner.now s
        → option_map (λ r. r.now) result ≡ email_at s.content number }
{
    match find_last_edit(planner, number) {
        Some(edit) => find_put_email(edit),
        None => content.email(number),
    }
}

// Returns the number of the email that an edit puts or drops.
fn read_email_number(edit: &Edit) -> Option<u64>
    ensures { result ≡ email_named_by edit.now }
{
    match edit {
        Edit::PutEmail { item, .. } => Some(item.number),
        Edit::DropEmail { number, .. } => Some(*number),
        _ => None,
    }
}

// Notes that the next edit is the last one of its email.
fn note_edit(planner: &mut Planner, edit: &Edit) -> Result<(), NoMemory>
    ensures last { OnOk result
        ((n : ℕ) → get nat_cmp planner.new.last n
        ≡ index_after (email_named_by edit.now) n (length planner.old.edits.items)
        (get nat_cmp planner.old.last n)) }
    ensures edits { OnOk result (planner.new.edits ≡ planner.old.edits) }
    ensures reported { OnOk result (planner.new.reported ≡ planner.old.reported) }
{
    match read_email_number(edit) {
        Some(number) => {
            let _earlier = planner.last.insert(number, planner.edits.len())?;
            Ok(())
        }
        None => Ok(()),
    }
}

fn enter_edit(planner: &mut Planner, edit: Edit) -> Result<(), NoMemory>
    ensures { OnOk result
        ((c : TheContent) (s : Progress) → Follows c planner.old s → IsOfEmail edit
        → Follows c planner.new (with_edits (edit ∷ []) s)) }
{
    note_edit(planner, &edit)?;
    planner.edits.push(edit)?;
    Ok(())
}

/// Enters edits of emails, one after the other.
pub fn enter_edits(planner: &mut Planner, edits: Edits) -> Result<(), NoMemory>
    ensures { OnOk result
        ((c : TheContent) (s : Progress) → Follows c planner.old s
        → AllByRecursion IsOfEmail edits → Follows c planner.new (with_edits edits s)) }
{
    let mut rest = VecDeque::from_vec(edits.into_vec());
    while let Some(edit) = rest.pop_front() {
        enter_edit(planner, edit)?;
    }
    Ok(())
}
