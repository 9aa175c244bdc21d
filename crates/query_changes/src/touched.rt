// Which records the edits since a state touch, and where they are in a list.
ghost use Rattle.std.specs.Prelude.{◌≡◌, ◌≤◌, ◌||◌, ◌==◌, ℕ, IfOk, OnOk};
ghost use Rattle.std.specs.List.Sorted.{IsStrictlyIncreasing};
ghost use Rattle.jm_base.specs.Splices.{has, with_index};
ghost use Rattle.mail_records.specs.Contents.{email_at};
ghost use Rattle.mail_records.specs.Histories.{History};
ghost use Rattle.method_args.specs.Arguments.{passes};
ghost use Rattle.state_log.specs.Logs.{log_end};
ghost use Rattle.query_changes.specs.Deltas.{AreOf};
ghost use Rattle.query_changes.specs.Notes.{is_in_threads};
ghost use Rattle.query_changes.specs.Touched.{looks_at_threads, touched};

use crate::delta::Added;
use jm_base::{AddedItem, Kind, NoMemory, put_in_order};
use mail_records::Content;
use query_engine::Query;
use state_log::Log;
use std::alloc::Global;

// Adds the numbers of the emails of a thread.
fn push_thread(numbers: &mut Vec<u64>, content: &Content, thread: u64) -> Result<(), NoMemory>
    ensures { OnOk result ((n : ℕ) → has numbers.new.items n ≡ (has numbers.old.items n
        || passes (λ e. thread == e.thread) (email_at content.now.content n))) }
{
    let _emails = content.emails();
    let entries = content.find_in_thread(thread);
    for entry in entries {
        numbers.push(entry.email)?;
    }
    Ok(())
}

// Adds the numbers of the emails of these threads.
fn push_threads(numbers: &mut Vec<u64>, content: &Content, threads: &[u64]) -> Result<(), NoMemory>
    ensures { OnOk result ((n : ℕ) → has numbers.new.items n ≡ (has numbers.old.items n
        || is_in_threads threads.now content.now.content n)) }
{
    for thread in threads {
        push_thread(numbers, content, *thread)?;
    }
    Ok(())
}

// Adds the numbers of the emails of these threads, of which some may be named more than once, and
// puts all in order.
fn add_threads(
    alloc: Global,
    numbers: &mut Vec<u64>,
    content: &Content,
    named: &[u64],
) -> Result<(), NoMemory>
    ensures rise { OnOk result (IsStrictlyIncreasing numbers.new.items) }
    ensures same { OnOk result ((n : ℕ) → has numbers.new.items n ≡ (has numbers.old.items n
        || is_in_threads named.now content.now.content n)) }
{
    let mut threads = Vec::from_slice(alloc, named)?;
    put_in_order(&mut threads);
    push_threads(numbers, content, &threads)?;
    put_in_order(numbers);
    Ok(())
}

// Returns whether another email of its thread may decide whether an email is shown, or where.
fn looks_at_threads(query: &Query) -> bool
    ensures { result ≡ looks_at_threads query.now }
{
    query.kind() == Kind::Email && query.is_wide()
}

/// Returns the numbers of the records that the edits after a position touch, in number order: those
/// of the query's kind that they name and, where threads matter, the emails of the threads that
/// they name.
pub(crate) fn find_touched(
    alloc: Global,
    log: &Log,
    content: &Content,
    query: &Query,
    from: u64,
) -> Result<Vec<u64>, NoMemory>
    requires { from ≤ log_end log.now }
    ensures rise { IfOk result (λ v. IsStrictlyIncreasing v.items) }
    ensures touched { IfOk result (λ v. (h : History) → AreOf h log.now content.now.content
        → v.items ≡ touched h query.now from) }
{
    let end = log.end();
    let named = log.touched(alloc, query.kind(), from, end)?;
    let mut numbers = named.into_vec();
    if looks_at_threads(query) {
        add_threads(alloc, &mut numbers, content, log.threads_between(from, end))?;
        return Ok(numbers);
    }
    Ok(numbers)
}

// Returns whether a number is among numbers in order.
fn is_among(numbers: &[u64], number: u64) -> bool
    requires { IsStrictlyIncreasing numbers.now }
    ensures { result ≡ has numbers.now number }
{
    numbers.binary_search(&number).is_ok()
}

/// Returns those numbers of a list that are among touched numbers in order, each with its index.
pub(crate) fn place_touched(alloc: Global, touched: &[u64], list: &[u64]) -> Result<Added, NoMemory>
    requires { IsStrictlyIncreasing touched.now }
    ensures { IfOk result (λ added. added ≡ with_index (has touched.now) 0 list.now) }
{
    let mut added = Vec::new(alloc);
    let mut index = 0;
    for number in list {
        if is_among(touched, *number) {
            added.push(AddedItem {
                number: *number,
                index,
            })?;
        }
        index += 1;
    }
    Ok(Added::from_vec(added))
}
