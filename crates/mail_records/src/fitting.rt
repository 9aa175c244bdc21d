// Whether edits fit a content and keep the threads of emails, and lists of edits applied whole.
ghost use Rattle.std.specs.Prelude.{◌≡◌, ◌↔◌, ◌+◌, ◌≤◌, ◌<◌, ⊤, Some, None, IsTrue, true, is_some, IfOk, MatchOption, length};
ghost use Rattle.mail_records.specs.Contents.{email_number};
ghost use Rattle.mail_records.specs.Edits.{AllFit, AllKeepThread, Fits, HasNumbers, IsSmall, KeepsThread, PutFits, after_edits, email_puts};
ghost use Rattle.mail_records.specs.Tables.{lookup};
ghost use Rattle.mail_records.specs.declared.records.Email.{Email as TheEmail};
ghost use Rattle.std.specs.List.{AllByRecursion};

use crate::waiting::Waiting;
use crate::{Content, Edit, Edits, Email, Record, Table};
use jm_base::NoMemory;
use std::alloc::Global;
use std::collections::VecDeque;
use std::mem;

fn put_fits<R: Record>(table: &Table<R>, number: u64, was: bool, next: u64) -> bool
    ensures { IsTrue result ↔ PutFits (is_some
        (lookup R.number number table.now.rows)) was number next }
{
    let present = table.get(number).is_some();
    was == present && (was || number == next)
}

fn drop_fits<R: Record>(table: &Table<R>, number: u64) -> bool
    ensures { IsTrue result ↔ (is_some (lookup R.number number table.now.rows) ≡ true) }
{
    table.get(number).is_some()
}

fn drop_email_fits(table: &Table<Email>, number: u64, thread: u64) -> bool
    ensures { IsTrue result ↔ ((x : TheEmail) ×
        (lookup email_number number table.now.rows ≡ Some x) × (x.thread ≡ thread)) }
{
    match table.get(number) {
        Some(email) => email.thread == thread,
        None => false,
    }
}

/// Returns whether an edit fits the content before it: its `was` is right, a new record has its
/// kind's next number, and a record that is dropped is there, an email with the thread that the
/// edit names.
pub fn fits(content: &Content, edit: &Edit) -> bool
    ensures { IsTrue result ↔ Fits content.now.content edit.now }
{
    match edit {
        Edit::PutMailbox { item, was, .. } => {
            put_fits(
                content.mailboxes.table(),
                item.number,
                *was,
                content.next_mailbox,
            )
        }
        Edit::DropMailbox { number } => drop_fits(content.mailboxes.table(), *number),
        Edit::PutEmail { item, was } => {
            put_fits(
                content.emails.table(),
                item.number,
                *was,
                content.next_email,
            )
        }
        Edit::DropEmail { number, thread } => drop_email_fits(
            content.emails.table(),
            *number,
            *thread,
        ),
        Edit::PutThread { item, was } => {
            put_fits(&content.threads, item.number, *was, content.next_thread)
        }
        Edit::DropThread { number } => drop_fits(&content.threads, *number),
    }
}

fn stays_in_thread(table: &Table<Email>, number: u64, thread: u64) -> bool
    ensures { IsTrue result ↔ ((x : TheEmail) → lookup email_number number table.now.rows ≡ Some x
        → x.thread ≡ thread) }
{
    match table.get(number) {
        Some(old) => old.thread == thread,
        None => true,
    }
}

/// Returns whether an edit keeps the thread of its email: it doesn't replace an email by one of
/// another thread.
pub fn keeps_thread(content: &Content, edit: &Edit) -> bool
    ensures { IsTrue result ↔ KeepsThread content.now.content edit.now }
{
    match edit {
        Edit::PutEmail { item, .. } => {
            stays_in_thread(content.emails.table(), item.number, item.thread)
        }
        Edit::PutMailbox { .. }
        | Edit::DropMailbox { .. }
        | Edit::DropEmail { .. }
        | Edit::PutThread { .. }
        | Edit::DropThread { .. } => true,
    }
}

/// Applies edits of which each fits the content before it, and for which room is reserved. It
/// needs no memory: where there is some, many removals are one pass over the records.
pub fn apply_all_ready(content: &mut Content, edits: Edits)
    requires room { length edits ≤ content.old.spare }
    requires email_room { email_puts edits ≤ content.old.email_spare }
    requires fits { AllFit content.old.content edits }
    requires next { HasNumbers (length edits) content.old.content }
    requires small { AllByRecursion IsSmall edits }
    ensures content { content.new.content ≡ after_edits content.old.content edits }
    ensures spare { content.old.spare ≤ content.new.spare + length edits }
    ensures email_spare { content.old.email_spare ≤ content.new.email_spare + email_puts edits }
{
    let list = edits.into_vec();
    let alloc = *list.allocator();
    let mut waiting = Waiting::new(alloc, mem::replace(content, Content::new(alloc)));
    let mut rest = VecDeque::from_vec(list);
    while let Some(edit) = rest.pop_front() {
        waiting.apply_ready(edit);
    }
    *content = waiting.finish();
}

/// What comes of edits of which each fits the content before it.
#[derive(Drop)]
pub struct Applied {
    /// The content after them.
    pub content: Content,
    /// Whether each of them keeps the thread of its email.
    pub keeps_threads: bool,
}

// Returns whether the edits up to one kept the threads of their emails, and this one does.
fn has_kept_threads(before: bool, waiting: &mut Waiting, edit: &Edit) -> bool
    ensures same { waiting.new.content ≡ waiting.old.content }
    ensures kept { IsTrue result ↔ (IsTrue before × KeepsThread waiting.old.content edit.now) }
{
    let keeps = waiting.keeps_thread(edit);
    before && keeps
}

/// Applies edits one after the other, or returns None if one of them doesn't fit the content before
/// it.
pub fn apply_fitting(
    alloc: Global,
    content: Content,
    edits: &[Edit],
) -> Result<Option<Applied>, NoMemory>
    requires { HasNumbers (length edits.now) content.content }
    ensures fits { IfOk result (λ o. MatchOption o (¬ AllFit content.content edits.now)
        (λ a. AllFit content.content edits.now)) }
    ensures content { IfOk result (λ o. MatchOption o ⊤
        (λ a. a.content.content ≡ after_edits content.content edits.now)) }
    ensures threads { IfOk result (λ o. MatchOption o ⊤
        (λ a. IsTrue a.keeps_threads ↔ AllKeepThread content.content edits.now)) }
{
    let mut waiting = Waiting::new(alloc, content);
    let mut keeps_threads = true;
    for edit in edits {
        if !waiting.fits(edit) {
            return Ok(None);
        }
        keeps_threads = has_kept_threads(keeps_threads, &mut waiting, edit);
        waiting.apply(alloc, edit)?;
    }
    Ok(Some(Applied {
        content: waiting.finish(),
        keeps_threads,
    }))
}
