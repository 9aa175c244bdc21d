// What the notes of edits say of each record that they name.
ghost use Rattle.std.specs.Prelude.{◌≡◌, ◌≤◌, ◌+◌, ◌-◌, IfOk, drop, false, length, true};
ghost use Rattle.change_calls.specs.Changes.{is_within};
ghost use Rattle.mail_records.specs.States.{is_kind};
ghost use Rattle.change_calls.specs.TouchedRecords.{IsFull, IsTaken, IsWalk, are_counts, is_mark, mark_after, mark_of, notes_of, numbers_marked};
ghost use Rattle.state_log.specs.Logs.{ids_in, log_end};
ghost use Rattle.state_log.specs.Positions.{positions_of};

use jm_base::{Kind, NoMemory, Numbers};
use state_log::{Log, Note};
use std::alloc::Global;
use std::collections::BTreeMap;

/// What the edits between two positions say of a record that they name.
#[derive(Clone, Copy, Debug)]
pub struct Mark {
    /// Whether the record was there before the first of them.
    pub before: bool,
    /// Whether it is there after the last of them.
    pub after: bool,
    /// Whether each of them changes only the counts of a mailbox.
    pub counts: bool,
}

/// The marks of the records that the first notes name, and how many notes these are.
#[derive(Drop)]
pub struct Walk {
    pub marks: BTreeMap<u64, Mark>,
    pub taken: usize,
}

fn mark_after(earlier: Option<Mark>, note: &Note) -> Mark
    ensures { result ≡ mark_after earlier note.now }
{
    match earlier {
        Some(mark) => Mark {
            before: mark.before,
            after: note.put,
            counts: mark.counts && note.counts,
        },
        None => Mark {
            before: note.was,
            after: note.put,
            counts: note.counts,
        },
    }
}

fn find_mark(marks: &BTreeMap<u64, Mark>, number: u64) -> Option<Mark>
    ensures { result ≡ mark_of number marks.now.entries }
{
    match marks.get(&number) {
        Some(mark) => Some(*mark),
        None => None,
    }
}

fn is_within(max: Option<u64>, count: usize) -> bool
    ensures { result ≡ is_within max count }
{
    match max {
        Some(max) => count as u64 <= max,
        None => true,
    }
}

fn is_of(note: &Note, kind: Kind) -> bool
    ensures { result ≡ is_kind kind note.now.kind }
{
    note.kind == kind
}

// Sets the mark of the record that a note of the kind names. Returns false, and sets nothing, if
// there would be more marks than the maximum.
fn take_note(
    marks: &mut BTreeMap<u64, Mark>,
    note: &Note,
    kind: Kind,
    max: Option<u64>,
) -> Result<bool, NoMemory>
    requires few { is_within max (length marks.old.entries) ≡ true }
    ensures taken { IfOk result (λ taken. taken ≡ true
        → IsTaken kind max marks.old.entries note.now marks.new.entries) }
    ensures full { IfOk result (λ taken. taken ≡ false
        → IsFull kind max marks.old.entries note.now marks.new.entries) }
{
    if !is_of(note, kind) {
        return Ok(true);
    }
    let earlier = find_mark(marks, note.number);
    if earlier.is_none() && !is_within(max, marks.len() + 1) {
        return Ok(false);
    }
    let _earlier = marks.insert(note.number, mark_after(earlier, note))?;
    Ok(true)
}

/// Sets the marks of the records of a kind that the edits after a position name, up to the first
/// edit that would name more than the maximum. The positions are those of the kind's edits.
pub fn mark_positions(
    alloc: Global,
    log: &Log,
    kind: Kind,
    from: u64,
    positions: &[u64],
    max: Option<u64>,
) -> Result<Walk, NoMemory>
    requires reached { from ≤ log_end log.now }
    requires positions { positions.now ≡ positions_of kind (log.now.floor + (from - log.now.floor))
        (ids_in (drop (from - log.now.floor) log.now.notes)) }
    ensures { IfOk result (λ w. IsWalk kind max
        (notes_of kind (drop (from - log.now.floor) log.now.notes)) w.taken w.marks.entries) }
{
    let mut marks = BTreeMap::new(alloc);
    let mut taken = 0;
    for position in positions {
        let note = log.note(*position);
        if !take_note(&mut marks, &note, kind, max)? {
            return Ok(Walk { marks, taken });
        }
        taken += 1;
    }
    Ok(Walk { marks, taken })
}

fn is_mark(mark: &Mark, before: bool, after: bool) -> bool
    ensures { result ≡ is_mark before after mark.now }
{
    mark.before == before && mark.after == after
}

/// Returns the numbers of the records that were there before, or not, and are there after, or not,
/// in number order.
pub fn collect_numbers(
    alloc: Global,
    marks: &BTreeMap<u64, Mark>,
    before: bool,
    after: bool,
) -> Result<Numbers, NoMemory>
    ensures { IfOk result (λ ns. ns ≡ numbers_marked before after marks.now.entries) }
{
    let mut numbers = Vec::new(alloc);
    for (number, mark) in marks {
        if is_mark(mark, before, after) {
            numbers.push(*number)?;
        }
    }
    Ok(Numbers::from_vec(numbers))
}

/// Returns whether each record that is there before and after was changed only in its counts.
pub fn are_counts(marks: &BTreeMap<u64, Mark>) -> bool
    ensures { result ≡ are_counts marks.now.entries }
{
    for (_, mark) in marks {
        if is_mark(mark, true, true) && !mark.counts {
            return false;
        }
    }
    true
}
