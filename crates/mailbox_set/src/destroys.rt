// The destroys of mailboxes (RFC 8620, section 5.3; RFC 8621, section 2.5).
ghost use Rattle.std.specs.Prelude.{◌≡◌, ◌<◌, ◌++◌, [], length, slice_index_or, IfOk, List, MatchResult, OnOk, Some, false, is_some, map, true};
ghost use Rattle.std.specs.List.{flat_map, list_any};
ghost use Rattle.jm_json.specs.declared.invocation.Created.{Created as TheCreated};
ghost use Rattle.mail_counts.specs.Counts.{emails_in};
ghost use Rattle.mail_counts.specs.Touched.{is_one_of, rising};
ghost use Rattle.mail_records.specs.Contents.{Content as TheContent, email_at, email_number, mailbox_at};
ghost use Rattle.mail_records.specs.Orders.{placed_owner};
ghost use Rattle.mail_records.specs.declared.entries.Named.{Named as TheNamed};
ghost use Rattle.mail_records.specs.declared.records.Mailbox.{Mailbox as TheMailbox};
ghost use Rattle.mail_counts.specs.Tidy.{same_parent};
ghost use Rattle.mailbox_set.specs.Destroys.{destroy_edits, destroy_mailbox, destroy_there, has_child, has_email, removal_at, removal_of};
ghost use Rattle.mailbox_updates.specs.EmailsLeft.{mailboxes_but, mailboxes_left};
ghost use Rattle.mailbox_updates.specs.PresentMailboxes.{is_untouched};
ghost use Rattle.mailbox_set.specs.Views.{Drops, IsToDestroy};
ghost use Rattle.mailbox_updates.specs.Views.{Shows, Tracks};
ghost use Rattle.set_parts.specs.Steps.{Progress, after_destroy, after_destroys, with_edits};
ghost use Rattle.set_parts.specs.CreationIds.{reported_id};
ghost use Rattle.set_parts.specs.Views.{AreMade};
ghost use Rattle.set_parts.specs.declared.steps.Step.TheVariants.{Done, Rejected};

use jm_base::{NoMemory, Numbers};
use mail_counts::put_in_order;
use mail_records::{Content, Edit, Email, Mailbox, Named, Placed, Record};
use mailbox_updates::{Current, Setting, find_meant, is_untouched};
use set_parts::{SetError, find_reported_id};
use std::alloc::Global;

// ---- what is in a mailbox

// Returns whether a mailbox is in the one of this number.
fn is_child(mailbox: &Mailbox, number: u64) -> bool
    ensures { result ≡ same_parent mailbox.now.parent (Some number) }
{
    match mailbox.parent {
        Some(parent) => parent == number,
        None => false,
    }
}

// Returns whether one of these mailboxes is in the one of this number.
fn has_changed_child(changed: &[Mailbox], number: u64) -> bool
    ensures { result
        ≡ list_any (λ (m : TheMailbox). same_parent m.parent (Some number)) changed.now }
{
    for mailbox in changed {
        if is_child(mailbox, number) {
            return true;
        }
    }
    false
}

// Returns whether the set has left one of these mailboxes as it was.
fn has_untouched(current: &Current, children: &[Named]) -> bool
    ensures { result ≡ list_any (λ (n : TheNamed). is_untouched current.now.changed.rows
        current.now.destroyed.items n.mailbox) children.now }
{
    for child in children {
        if is_untouched(current, child.mailbox) {
            return true;
        }
    }
    false
}

// Returns whether some mailbox is in the one of this number.
fn has_child(current: &Current, number: u64) -> bool
    ensures { (c : TheContent) → Shows current.now c → result ≡ has_child c number }
{
    if has_changed_child(current.changed.as_slice(), number) {
        return true;
    }
    has_untouched(current, current.content.children(Some(number)))
}

// Returns whether some email is in the mailbox of this number, which the set has not destroyed.
fn has_email(current: &Current, number: u64) -> bool
    ensures { (c : TheContent) → Shows current.now c
        → is_one_of current.now.destroyed.items number ≡ false → result ≡ has_email c number }
{
    !current.content.in_mailbox(number).is_empty()
}

// ---- the emails of a mailbox lose it

fn collect_numbers(alloc: Global, placed: &[Placed]) -> Result<Vec<u64>, NoMemory>
    ensures { IfOk result (λ v. v.items ≡ map placed_owner placed.now) }
{
    let mut numbers = Vec::with_capacity(alloc, placed.len())?;
    for email in placed {
        numbers.push(email.email)?;
    }
    Ok(numbers)
}

// Returns the numbers of the emails in a mailbox, rising, as they were at the beginning.
fn find_emails(alloc: Global, content: &Content, mailbox: u64) -> Result<Vec<u64>, NoMemory>
    ensures { IfOk result (λ v. v.items
        ≡ map email_number (emails_in mailbox content.now.content.emails)) }
{
    let _in_order = content.emails();
    let mut numbers = collect_numbers(alloc, content.in_mailbox(mailbox))?;
    put_in_order(&mut numbers);
    Ok(numbers)
}

// Returns the mailboxes that are neither this one nor among the destroyed ones.
fn collect_left(
    alloc: Global,
    mailboxes: &[u64],
    destroyed: &[u64],
    number: u64,
) -> Result<Vec<u64>, NoMemory>
    ensures { IfOk result
        (λ v. v.items ≡ mailboxes_but number (mailboxes_left destroyed.now mailboxes.now)) }
{
    let mut left = Vec::with_capacity(alloc, mailboxes.len())?;
    for mailbox in mailboxes {
        if !destroyed.contains(mailbox) && *mailbox != number {
            left.push(*mailbox)?;
        }
    }
    Ok(left)
}

fn copy_with(alloc: Global, email: &Email, mailboxes: Vec<u64>) -> Result<Email, NoMemory>
    ensures { IfOk result (λ e. e ≡ record email.now { mailboxes = mailboxes.items }) }
{
    let mut copy = email.copy(alloc)?;
    copy.mailboxes = Numbers::from_vec(mailboxes);
    Ok(copy)
}

// Builds the edit by which an email is left in these mailboxes.
fn build_removal(alloc: Global, email: &Email, mailboxes: Vec<u64>) -> Result<Edit, NoMemory>
    ensures { IfOk result (λ e. e ≡ removal_of email.now mailboxes.items) }
{
    if mailboxes.is_empty() {
        return Ok(Edit::DropEmail {
            number: email.number,
            thread: email.thread,
        });
    }
    Ok(Edit::PutEmail {
        item: copy_with(alloc, email, mailboxes)?,
        was: true,
    })
}

// Adds the edit by which an email loses a mailbox, after those that are destroyed, if it is there.
fn add_removal(
    alloc: Global,
    edits: &mut Vec<Edit>,
    content: &Content,
    destroyed: &[u64],
    mailbox: u64,
    number: u64,
) -> Result<(), NoMemory>
    ensures { OnOk result (edits.new.items ≡ edits.old.items
        ++ removal_at destroyed.now mailbox (email_at content.now.content number)) }
{
    match content.email(number) {
        Some(email) => {
            let left = collect_left(alloc, email.mailboxes.as_slice(), destroyed, mailbox)?;
            edits.push(build_removal(alloc, email, left)?)?;
            Ok(())
        }
        None => Ok(()),
    }
}

// Adds the edits by which the emails of these numbers lose a mailbox.
fn add_removals(
    alloc: Global,
    edits: &mut Vec<Edit>,
    content: &Content,
    destroyed: &[u64],
    mailbox: u64,
    numbers: &[u64],
) -> Result<(), NoMemory>
    ensures { OnOk result (edits.new.items ≡ edits.old.items
        ++ flat_map (λ k. removal_at destroyed.now mailbox (email_at content.now.content k))
        numbers.now) }
{
    for number in numbers {
        add_removal(alloc, edits, content, destroyed, mailbox, *number)?;
    }
    Ok(())
}

// Adds the edits by which the emails of a mailbox lose it.
fn remove_emails(
    alloc: Global,
    edits: &mut Vec<Edit>,
    content: &Content,
    destroyed: &[u64],
    mailbox: u64,
) -> Result<(), NoMemory>
    ensures { OnOk result (edits.new.items ≡ edits.old.items
        ++ flat_map (λ k. removal_at destroyed.now mailbox (email_at content.now.content k))
        (map email_number (emails_in mailbox content.now.content.emails))) }
{
    let numbers = find_emails(alloc, content, mailbox)?;
    add_removals(alloc, edits, content, destroyed, mailbox, &numbers)
}

// ---- a destroy

// Returns the number of a mailbox that is there, or why it is not destroyed.
fn check_there(current: &Current, removes_emails: bool, number: u64) -> Result<u64, SetError>
    ensures { MatchResult result
        (λ n. (n ≡ number) × ((c : TheContent) → Shows current.now c
        → is_some (mailbox_at c number) ≡ true
        → destroy_there removes_emails c number ≡ Done (destroy_edits c number)))
        (λ e. (c : TheContent) → Shows current.now c → is_some (mailbox_at c number) ≡ true
        → destroy_there removes_emails c number ≡ Rejected e) }
{
    if has_child(current, number) {
        return Err(SetError::MailboxHasChild);
    }
    if has_email(current, number) && !removes_emails {
        return Err(SetError::MailboxHasEmail);
    }
    Ok(number)
}

// Returns the number of the mailbox to destroy, or why it is not destroyed.
fn check_destroy<'a>(current: &Current, setting: &Setting<'a>, id: &'a str) -> Result<u64, SetError>
    ensures { MatchResult result
        (λ n. (made : List TheCreated) (c : TheContent) → AreMade setting.now.created made
        → Shows current.now c → IsToDestroy made setting.now.removes_emails c id.now n)
        (λ e. (made : List TheCreated) (c : TheContent) → AreMade setting.now.created made
        → Shows current.now c
        → destroy_mailbox made setting.now.removes_emails c id.now ≡ Rejected e) }
{
    match find_meant(current, &setting.created, id) {
        Some(mailbox) => check_there(current, setting.removes_emails, mailbox.number),
        None => Err(SetError::NotFound),
    }
}

// Drops the mailbox of a number.
fn drop_mailbox(current: &mut Current, number: u64) -> Result<(), NoMemory>
    ensures { OnOk result (Drops current.old number current.new) }
{
    current.changed.take_out(number);
    current.edits.push(Edit::DropMailbox { number })?;
    current.destroyed.push(number)?;
    Ok(())
}

// Destroys the mailbox of a number.
fn destroy_present(alloc: Global, current: &mut Current, number: u64) -> Result<(), NoMemory>
    ensures { OnOk result ((s : Progress) → Tracks current.old s
        → is_some (mailbox_at s.content number) ≡ true
        → Tracks current.new (with_edits (destroy_edits s.content number) s)) }
{
    remove_emails(
        alloc,
        &mut current.edits,
        current.content,
        &current.destroyed,
        number,
    )?;
    drop_mailbox(current, number)
}

// Performs a destroy.
fn perform_destroy<'a>(
    alloc: Global,
    current: &mut Current,
    setting: &Setting<'a>,
    id: &'a str,
) -> Result<(), NoMemory>
    ensures { OnOk result ((made : List TheCreated) (s : Progress)
        → AreMade setting.now.created made → Tracks current.old s
        → Tracks current.new (after_destroy (reported_id made id.now) s
        (destroy_mailbox made setting.now.removes_emails s.content id.now))) }
{
    let reported = find_reported_id(&setting.created.texts, id);
    match check_destroy(current, setting, id) {
        Ok(number) => {
            current.reported.note_destroyed(alloc, reported)?;
            destroy_present(alloc, current, number)
        }
        Err(error) => current.reported.note_not_destroyed(alloc, reported, error),
    }
}

// Returns the destroy at an index.
fn read_destroy<'a>(destroys: &[&'a str], index: usize) -> &'a str
    requires { index < length destroys.now }
    ensures { result.now ≡ slice_index_or (map (λ d. d.now) destroys.now) index [] }
{
    destroys[index]
}

/// Performs destroys, in the order of their list.
pub fn perform_destroys<'a>(
    alloc: Global,
    current: &mut Current,
    setting: &Setting<'a>,
    destroys: &[&'a str],
) -> Result<(), NoMemory>
    ensures { OnOk result ((made : List TheCreated) (s : Progress)
        → AreMade setting.now.created made → Tracks current.old s
        → Tracks current.new (after_destroys
        (destroy_mailbox made setting.now.removes_emails) made s
        (map (λ d. d.now) destroys.now))) }
{
    for i in 0..destroys.len() {
        perform_destroy(alloc, current, setting, read_destroy(destroys, i))?;
    }
    Ok(())
}
