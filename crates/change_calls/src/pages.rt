// Changes since a state (RFC 8620, section 5.2).
ghost use Rattle.std.specs.Prelude.{◌≡◌, ◌≤◌, ◌==◌, false, not, IfErr, IfOk, IfSome, slice_get};
ghost use Rattle.mail_records.specs.Histories.{History};
ghost use Rattle.mail_records.specs.States.{state_at};
ghost use Rattle.state_log.specs.Logs.{IsLogOf, log_end};
ghost use Rattle.change_calls.specs.Changes.{ChangesFail, IsKeptBy, answer_of, answered, is_some_there, maximum_of, page_end, page_of, positive, reached_state};
ghost use Rattle.change_calls.specs.TouchedRecords.{before_or_end, page_with};

use crate::touched_records::{Mark, are_counts, collect_numbers, mark_positions};
use crate::{ChangeFault, ChangePage};
use jm_base::{Kind, NoMemory, Numbers, read_state};
use state_log::Log;
use std::alloc::Global;
use std::collections::BTreeMap;

fn check_positive(number: i64) -> Option<u64>
    ensures { result ≡ positive number }
{
    if number < 1 {
        return None;
    }
    Some(number as u64)
}

// Returns the maximum, which may be none, or None if it is below 1.
fn read_maximum(max: Option<i64>) -> Option<Option<u64>>
    ensures { result ≡ maximum_of max }
{
    match max {
        Some(number) => match check_positive(number) {
            Some(max) => Some(Some(max)),
            None => None,
        },
        None => Some(None),
    }
}

/// Returns the position that a state's text names, if the log reaches it.
pub fn find_state(log: &Log, kind: Kind, text: &[u8]) -> Option<u64>
    ensures state { (h : History) → IsLogOf h log.now → result ≡ reached_state h kind text.now }
    ensures reached { IfSome result (λ s. s ≤ log_end log.now) }
{
    match read_state(text) {
        Ok(position) => {
            if log.reaches(kind, position) {
                Some(position)
            } else {
                None
            }
        }
        Err(_) => None,
    }
}

// Returns the state of a kind at a position up to the end.
fn find_state_at(log: &Log, kind: Kind, position: u64, more: bool) -> u64
    requires end { more ≡ false → position ≡ log_end log.now }
    ensures { (h : History) → IsLogOf h log.now → result ≡ state_at h kind position }
{
    if more {
        return log.state_at(kind, position);
    }
    log.state_of(kind)
}

// Returns the position before that of the first edit that a page leaves out, or the end.
fn find_page_end(positions: &[u64], taken: usize, end: u64) -> u64
    ensures { result ≡ before_or_end (slice_get positions.now taken) end }
{
    match positions.get(taken) {
        Some(position) => position.saturating_sub(1),
        None => end,
    }
}

fn is_below(upto: u64, end: u64) -> bool
    ensures { result ≡ not (upto == end) }
{
    upto != end
}

fn has_items(numbers: &Numbers) -> bool
    ensures { result ≡ is_some_there numbers.now }
{
    match numbers.as_slice() {
        [] => false,
        [..] => true,
    }
}

// Returns the page that marks come to.
fn build_page(
    alloc: Global,
    marks: &BTreeMap<u64, Mark>,
    new_state: u64,
    more: bool,
) -> Result<ChangePage, NoMemory>
    ensures { IfOk result (λ page. page ≡ page_with marks.now.entries new_state more) }
{
    let created = collect_numbers(alloc, marks, false, true)?;
    let updated = collect_numbers(alloc, marks, true, true)?;
    let destroyed = collect_numbers(alloc, marks, true, false)?;
    let counts_only = has_items(&updated) && are_counts(marks);
    Ok(ChangePage {
        created,
        updated,
        destroyed,
        new_state,
        more,
        counts_only,
    })
}

// Returns the page from a position that the log reaches.
fn make_page(
    alloc: Global,
    log: &Log,
    kind: Kind,
    from: u64,
    max: Option<u64>,
) -> Result<ChangePage, NoMemory>
    requires { from ≤ log_end log.now }
    ensures { IfOk result (λ page. (h : History) → IsKeptBy log.now h
        → page ≡ page_of h kind from (page_end h kind max from)) }
{
    let end = log.end();
    let positions = log.positions_between(kind, from, end);
    let walk = mark_positions(alloc, log, kind, from, positions, max)?;
    let upto = find_page_end(positions, walk.taken, end);
    let more = is_below(upto, end);
    let new_state = find_state_at(log, kind, upto, more);
    let page = build_page(alloc, &walk.marks, new_state, more)?;
    Ok(page)
}

/// Returns what happened to the records of a kind since a state, up to the greatest position up to
/// which the edits of the kind name at most the maximum of records (RFC 8620, section 5.2).
/// `since` is the text of the state. The answer is exact for every history whose log this is and
/// whose edits fit one after the other.
///
/// Fails with `BadMaximum` if the maximum is below 1, else with `CannotCalculate` if the text is
/// not that of a state from which all edits of the kind are known, or with `NoMemory` if an
/// allocation fails.
///
/// It costs what the edits of the kind since the state cost, up to where the page ends.
#[tactic(auto, using(crate::proofs::Finding::answers))]
pub fn changes(
    alloc: Global,
    log: &Log,
    kind: Kind,
    since: &[u8],
    max: Option<i64>,
) -> Result<ChangePage, ChangeFault>
    ensures page { IfOk result (λ page. (h : History) → IsKeptBy log.now h
        → answer_of h kind since.now max ≡ answered page) }
    ensures fault { IfErr result (λ fault. (h : History) → IsKeptBy log.now h
        → ChangesFail fault (answer_of h kind since.now max)) }
{
    match read_maximum(max) {
        Some(max) => match find_state(log, kind, since) {
            Some(from) => Ok(make_page(alloc, log, kind, from, max)?),
            None => Err(ChangeFault::CannotCalculate),
        },
        None => Err(ChangeFault::BadMaximum),
    }
}
