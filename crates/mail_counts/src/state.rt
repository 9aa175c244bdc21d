// The state of a kind of record after the edits of a plan (RFC 8620, section 5.1).
ghost use Rattle.std.specs.Prelude.{◌≡◌, ◌+◌, ◌<◌, ◌^◌, length, if◌then◌else◌};
ghost use Rattle.mail_records.specs.Edits.{id_of};
ghost use Rattle.mail_records.specs.States.{is_kind_of};
ghost use Rattle.mail_counts.specs.Plans.{Ground, present_end, present_state, state_after};

use jm_base::Kind;
use mail_records::Edit;

// Returns the position of an edit if the edit is of the kind, else the state before it.
fn compute_state_after_edit(kind: Kind, before: u64, position: u64, edit: &Edit) -> u64
    ensures { result ≡ (if is_kind_of kind (id_of edit.now) then position else before) }
{
    if edit.kind() == kind {
        position
    } else {
        before
    }
}

/// Returns the state of a kind of record after these edits, which follow the position `last`, at
/// which the state of the kind is `before`: the position of the last edit of the kind, or `before`
/// if no edit is of the kind (RFC 8620, section 5.1).
pub fn find_state_after(kind: Kind, before: u64, last: u64, edits: &[Edit]) -> u64
    requires room { last + length edits.now < 2 ^ 64 }
    ensures { (g : Ground) → present_state kind g ≡ before → present_end g ≡ last → result
        ≡ state_after kind g edits.now }
{
    let mut after = before;
    for i in 0..edits.len() {
        after = compute_state_after_edit(kind, after, last + i as u64 + 1, &edits[i]);
    }
    after
}
