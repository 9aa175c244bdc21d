// The mailboxes and emails of an account, as the updates and destroys of a set have changed them.
ghost use Rattle.std.specs.Prelude.{◌≡◌, [], Bool, IfOk, None, OnOk, false, if◌then◌else◌, option_map, suc, ℕ};
ghost use Rattle.std.specs.List.{AllByRecursion};
ghost use Rattle.mail_counts.specs.Touched.{is_one_of};
ghost use Rattle.mail_records.specs.Contents.{Content as TheContent, mailbox_at, mailbox_number};
ghost use Rattle.mail_records.specs.Edits.{after_edit, after_edits};
ghost use Rattle.mail_records.specs.Tables.{lookup};
ghost use Rattle.mailbox_updates.specs.PresentMailboxes.{is_untouched};
ghost use Rattle.mailbox_updates.specs.UpdateViews.{Counts};
ghost use Rattle.mailbox_updates.specs.Views.{PutsMailbox, Shows, Tracks};
ghost use Rattle.set_parts.specs.Steps.{before_steps};

use jm_base::NoMemory;
use mail_records::{Content, Edit, Mailbox, Record, Table};
use set_parts::{Reported, start_report};
use std::alloc::Global;

/// The content that a set began with, the mailboxes that the set has put, and the numbers of those
/// that it has destroyed; the edits of its updates and destroys up to here, and what is reported of
/// them.
#[derive(Drop)]
pub struct Current<'a> {
    pub content: &'a Content,
    pub changed: Table<Mailbox>,
    pub destroyed: Vec<u64>,
    pub count: usize,
    pub edits: Vec<Edit>,
    pub reported: Reported,
}

// Returns whether a number is one of these.
fn is_one_of(numbers: &[u64], number: u64) -> bool
    ensures { result ≡ is_one_of numbers.now number }
{
    numbers.iter().any(|x| *x == number)
}

/// Returns the mailbox of a number, as the set has left it.
pub fn find_present<'b>(current: &'b Current, number: u64) -> Option<&'b Mailbox>
    ensures { (c : TheContent) → Shows current.now c
        → option_map (λ r. r.now) result ≡ mailbox_at c number }
{
    match current.changed.get(number) {
        Some(mailbox) => Some(mailbox),
        None => find_unchanged(current, number),
    }
}

// Returns the mailbox of a number that was there at the beginning, unless the set destroyed it.
fn find_unchanged<'b>(current: &'b Current, number: u64) -> Option<&'b Mailbox>
    ensures { option_map (λ r. r.now) result ≡ (if is_one_of current.now.destroyed.items number
        then None else lookup mailbox_number number current.now.content.now.content.mailboxes) }
{
    if is_one_of(&current.destroyed, number) {
        return None;
    }
    current.content.mailbox(number)
}

/// Returns whether the set has neither put nor destroyed the mailbox of a number.
pub fn is_untouched(current: &Current, number: u64) -> bool
    ensures { result ≡ is_untouched current.now.changed.rows current.now.destroyed.items number }
{
    current.changed.get(number).is_none() && !is_one_of(&current.destroyed, number)
}

/// Puts a mailbox in the place of the one with its number, or as a new one.
pub fn put_mailbox(current: &mut Current, item: Mailbox) -> Result<(), NoMemory>
    ensures shows { OnOk result ((c : TheContent) (was counts : Bool) → Shows current.old c
        → is_one_of current.old.destroyed.items item.number ≡ false
        → Shows current.new (after_edit c (Edit.PutMailbox item was counts))) }
    ensures destroyed { OnOk result (current.new.destroyed.items ≡ current.old.destroyed.items) }
    ensures edits { OnOk result (current.new.edits.items ≡ current.old.edits.items) }
    ensures reported { OnOk result (current.new.reported ≡ current.old.reported) }
    ensures count { OnOk result (current.new.count ≡ current.old.count) }
{
    current.changed.reserve(1)?;
    current.changed.put_ready(item);
    Ok(())
}

// Counts one mailbox more.
fn count_new(current: &mut Current) -> Result<(), NoMemory>
    ensures { OnOk result (current.new
        ≡ record current.old { count = suc current.old.count }) }
{
    current.count = current.count.checked_add(1).ok_or(NoMemory)?;
    Ok(())
}

// Puts a mailbox, and counts it.
fn put_new(current: &mut Current, item: Mailbox) -> Result<(), NoMemory>
    ensures shows { OnOk result ((c : TheContent) (was counts : Bool) → Shows current.old c
        → is_one_of current.old.destroyed.items item.number ≡ false
        → Shows current.new (after_edit c (Edit.PutMailbox item was counts))) }
    ensures destroyed { OnOk result (current.new.destroyed.items ≡ current.old.destroyed.items) }
    ensures edits { OnOk result (current.new.edits.items ≡ current.old.edits.items) }
    ensures reported { OnOk result (current.new.reported ≡ current.old.reported) }
    ensures count { OnOk result (current.new.count ≡ suc current.old.count) }
{
    count_new(current)?;
    put_mailbox(current, item)?;
    Ok(())
}

// Puts a mailbox that a create has made, and counts it if none had its number.
fn put_created(current: &mut Current, item: Mailbox) -> Result<(), NoMemory>
    ensures shows { OnOk result ((c : TheContent) (was counts : Bool) → Shows current.old c
        → is_one_of current.old.destroyed.items item.number ≡ false
        → Shows current.new (after_edit c (Edit.PutMailbox item was counts))) }
    ensures destroyed { OnOk result (current.new.destroyed.items ≡ current.old.destroyed.items) }
    ensures edits { OnOk result (current.new.edits.items ≡ current.old.edits.items) }
    ensures reported { OnOk result (current.new.reported ≡ current.old.reported) }
    ensures count { OnOk result ((c : TheContent) (was counts : Bool) → Shows current.old c
        → Counts current.old c
        → Counts current.new (after_edit c (Edit.PutMailbox item was counts))) }
{
    if find_present(current, item.number).is_none() {
        return put_new(current, item);
    }
    put_mailbox(current, item)
}

// Puts the mailbox that an edit puts.
fn enter_created(alloc: Global, current: &mut Current, edit: &Edit) -> Result<(), NoMemory>
    ensures shows { OnOk result ((c : TheContent) → PutsMailbox edit.now → Shows current.old c
        → current.old.destroyed.items ≡ [] → Shows current.new (after_edit c edit.now)) }
    ensures destroyed { OnOk result (current.new.destroyed.items ≡ current.old.destroyed.items) }
    ensures edits { OnOk result (current.new.edits.items ≡ current.old.edits.items) }
    ensures reported { OnOk result (current.new.reported ≡ current.old.reported) }
    ensures count { OnOk result ((c : TheContent) → PutsMailbox edit.now → Shows current.old c
        → Counts current.old c → Counts current.new (after_edit c edit.now)) }
{
    match edit {
        Edit::PutMailbox { item, .. } => put_created(current, item.copy(alloc)?),
        _ => Ok(()),
    }
}

// Returns the content before the first edit.
fn start_unchanged<'a>(alloc: Global, content: &'a Content) -> Current<'a>
    ensures tracks { Tracks result (before_steps content.now.content) }
    ensures destroyed { result.destroyed.items ≡ [] }
    ensures count { Counts result content.now.content }
{
    // Mailboxes and emails are looked up in the content, which has them in number order.
    let mailboxes = content.mailboxes();
    let _emails = content.emails();
    Current {
        content,
        changed: Table::new(alloc),
        destroyed: Vec::new(alloc),
        count: mailboxes.len(),
        edits: Vec::new(alloc),
        reported: start_report(alloc),
    }
}

/// Returns the content as the creates of a set have left it, whose edits are these.
pub fn start_current<'a>(
    alloc: Global,
    content: &'a Content,
    creates: &[Edit],
) -> Result<Current<'a>, NoMemory>
    ensures tracks { IfOk result (λ p. AllByRecursion PutsMailbox creates.now
        → Tracks p (before_steps (after_edits content.now.content creates.now))) }
    ensures destroyed { IfOk result (λ p. p.destroyed.items ≡ []) }
    ensures count { IfOk result (λ p. AllByRecursion PutsMailbox creates.now
        → Counts p (after_edits content.now.content creates.now)) }
{
    let mut current = start_unchanged(alloc, content);
    for edit in creates {
        enter_created(alloc, &mut current, edit)?;
    }
    Ok(current)
}
