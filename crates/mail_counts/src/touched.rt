// The threads and the emails that edits touch.
ghost use Rattle.std.specs.Prelude.{◌≡◌, ◌++◌, ℕ, true, IfOk, OnOk, map, Some};
ghost use Rattle.mail_records.specs.Commits.{NumbersRise};
ghost use Rattle.mail_records.specs.Contents.{email_at};
ghost use Rattle.mail_records.specs.Edits.{named_thread};
ghost use Rattle.mail_records.specs.Orders.{threaded_owner};
ghost use Rattle.mail_records.specs.declared.records.Email.{Email as TheEmail};
ghost use Rattle.mail_counts.specs.Overlay.{emails_named};
ghost use Rattle.mail_counts.specs.Touched.{is_one_of, rising, threads_named, touched_threads};

use jm_base::NoMemory;
use mail_records::{Content, Edit, Threaded};
use std::alloc::Global;

/// Sorts numbers, and leaves each once.
pub fn put_in_order(numbers: &mut Vec<u64>)
    ensures is { numbers.new.items ≡ rising numbers.old.items }
    ensures rise { NumbersRise numbers.new.items }
{
    jm_base::put_in_order(numbers);
}

/// Returns whether a number is one of these, which are in order, each once.
pub(crate) fn is_one_of(numbers: &[u64], number: u64) -> bool
    requires rise { NumbersRise numbers.now }
    ensures { result ≡ is_one_of numbers.now number }
{
    numbers.binary_search(&number).is_ok()
}

// Returns the thread that an edit names for its email.
fn find_named_thread(edit: &Edit) -> Option<u64>
    ensures { result ≡ named_thread edit.now }
{
    match edit {
        Edit::PutEmail { item, .. } => Some(item.thread),
        Edit::DropEmail { thread, .. } => Some(*thread),
        Edit::PutMailbox { .. }
        | Edit::DropMailbox { .. }
        | Edit::PutThread { .. }
        | Edit::DropThread { .. } => None,
    }
}

// Returns the threads that the edits name for their emails.
fn collect_named_threads(alloc: Global, edits: &[Edit]) -> Result<Vec<u64>, NoMemory>
    ensures { IfOk result (λ v. v.items ≡ threads_named edits.now) }
{
    let mut threads = Vec::new(alloc);
    for edit in edits {
        if let Some(thread) = find_named_thread(edit) {
            threads.push(thread)?;
        }
    }
    Ok(threads)
}

/// Returns the threads that edits of emails name, in order, each once.
pub(crate) fn collect_touched_threads(alloc: Global, edits: &[Edit]) -> Result<Vec<u64>, NoMemory>
    ensures is { IfOk result (λ v. v.items ≡ touched_threads edits.now) }
    ensures rise { IfOk result (λ v. NumbersRise v.items) }
{
    let mut threads = collect_named_threads(alloc, edits)?;
    put_in_order(&mut threads);
    Ok(threads)
}

// Returns the emails that the edits name.
fn collect_named_emails(alloc: Global, edits: &[Edit]) -> Result<Vec<u64>, NoMemory>
    ensures { IfOk result (λ v. v.items ≡ emails_named edits.now) }
{
    let mut emails = Vec::new(alloc);
    for edit in edits {
        match edit {
            Edit::PutEmail { item, .. } => emails.push(item.number)?,
            Edit::DropEmail { number, .. } => emails.push(*number)?,
            Edit::PutMailbox { .. }
            | Edit::DropMailbox { .. }
            | Edit::PutThread { .. }
            | Edit::DropThread { .. } => {}
        }
    }
    Ok(emails)
}

// Adds the emails of these entries.
fn add_entries(numbers: &mut Vec<u64>, entries: &[Threaded]) -> Result<(), NoMemory>
    ensures { OnOk result (numbers.new.items
        ≡ numbers.old.items ++ map threaded_owner entries.now) }
{
    for entry in entries {
        numbers.push(entry.email)?;
    }
    Ok(())
}

// Adds the emails of these threads.
fn add_emails_of(numbers: &mut Vec<u64>, content: &Content, threads: &[u64]) -> Result<(), NoMemory>
    ensures kept { OnOk result ((n : ℕ) → is_one_of numbers.old.items n ≡ true
        → is_one_of numbers.new.items n ≡ true) }
    ensures added { OnOk result ((e : TheEmail) → email_at content.now.content e.number ≡ Some e
        → is_one_of threads.now e.thread ≡ true → is_one_of numbers.new.items e.number ≡ true) }
{
    for thread in threads {
        add_entries(numbers, content.find_in_thread(*thread))?;
    }
    Ok(())
}

/// Returns the numbers, in order, each once, of the emails that the edits name and of those that
/// are of these threads.
pub(crate) fn collect_touched_emails(
    alloc: Global,
    content: &Content,
    edits: &[Edit],
    threads: &[u64],
) -> Result<Vec<u64>, NoMemory>
    ensures rise { IfOk result (λ v. NumbersRise v.items) }
    ensures named { IfOk result (λ v. (n : ℕ) → is_one_of (emails_named edits.now) n ≡ true
        → is_one_of v.items n ≡ true) }
    ensures there { IfOk result (λ v. (e : TheEmail)
        → email_at content.now.content e.number ≡ Some e
        → is_one_of threads.now e.thread ≡ true → is_one_of v.items e.number ≡ true) }
{
    let mut numbers = collect_named_emails(alloc, edits)?;
    add_emails_of(&mut numbers, content, threads)?;
    put_in_order(&mut numbers);
    Ok(numbers)
}
