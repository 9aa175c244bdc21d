// Which rules a mailbox breaks, as an update leaves it (RFC 8621, section 2): a sibling has its
// name, its chain of parents does not end, another mailbox has its role.
ghost use Rattle.std.specs.Prelude.{◌≡◌, ◌&&◌, ◌++◌, ◌==◌, IfOk, OnOk, Some, false, is_some, not, true};
ghost use Rattle.std.specs.List.{list_all, list_any};
ghost use Rattle.mail_records.specs.Contents.{Content as TheContent, mailbox_at};
ghost use Rattle.mail_records.specs.Edits.{after_edit};
ghost use Rattle.mail_records.specs.declared.entries.Named.{Named as TheNamed};
ghost use Rattle.mail_records.specs.declared.entries.Roled.{Roled as TheRoled};
ghost use Rattle.mail_records.specs.declared.edits.Edit.TheVariants.{PutMailbox};
ghost use Rattle.mail_records.specs.declared.records.Mailbox.{Mailbox as TheMailbox};
ghost use Rattle.mail_counts.specs.Tidy.{is_sibling, parent_of, same_parent, same_role};
ghost use Rattle.mailbox_updates.specs.PresentMailboxes.{is_untouched};
ghost use Rattle.mailbox_updates.specs.Updates.{all_keep_rules, broken_names, is_another, is_chain_broken, is_name_shared, is_role_shared, keeps_rules, keeps_rules_at, name_if};
ghost use Rattle.mailbox_updates.specs.UpdateViews.{Counts};
ghost use Rattle.mailbox_updates.specs.Views.{Shows, Tracks};
ghost use Rattle.set_parts.specs.Steps.{Progress};

use crate::current::{Current, find_present, is_untouched};
use jm_base::{NoMemory, Text, Texts};
use mail_records::{Edit, Mailbox, Named, Roled};
use std::alloc::Global;

// ---- names of siblings

// Returns whether one of these mailboxes, but the one of this number, has a parent and a name.
fn has_changed_sibling(changed: &[Mailbox], mailbox: &Mailbox) -> bool
    ensures { result ≡ list_any (λ (n : TheMailbox). is_another mailbox.now n
        && is_sibling mailbox.now.parent mailbox.now.name n) changed.now }
{
    for other in changed {
        if is_changed_sibling(other, mailbox) {
            return true;
        }
    }
    false
}

fn is_changed_sibling(other: &Mailbox, mailbox: &Mailbox) -> bool
    ensures { result ≡ (is_another mailbox.now other.now
        && is_sibling mailbox.now.parent mailbox.now.name other.now) }
{
    other.number != mailbox.number
        && is_same_parent(other.parent, mailbox.parent)
        && other.name == mailbox.name
}

/// Returns whether parents are the same, or none both.
pub fn is_same_parent(left: Option<u64>, right: Option<u64>) -> bool
    ensures { result ≡ same_parent left right }
{
    match left {
        Some(left) => match right {
            Some(right) => left == right,
            None => false,
        },
        None => right.is_none(),
    }
}

// Returns whether one of these mailboxes, but the one of this number, is as it was.
fn has_untouched_sibling(current: &Current, siblings: &[Named], number: u64) -> bool
    ensures { result ≡ list_any (λ (n : TheNamed). is_untouched current.now.changed.rows
        current.now.destroyed.items n.mailbox && not (n.mailbox == number)) siblings.now }
{
    for sibling in siblings {
        if is_untouched(current, sibling.mailbox) && sibling.mailbox != number {
            return true;
        }
    }
    false
}

// Returns whether another mailbox of its parent has the name of a mailbox.
fn is_name_shared(current: &Current, mailbox: &Mailbox) -> bool
    ensures { (c : TheContent) → Shows current.now c → result ≡ is_name_shared c mailbox.now }
{
    if has_changed_sibling(current.changed.as_slice(), mailbox) {
        return true;
    }
    let siblings = current
        .content
        .find_children_named(mailbox.parent, mailbox.name.as_bytes());
    has_untouched_sibling(current, siblings, mailbox.number)
}

// ---- roles

fn is_same_role(given: &Option<Text>, role: &Text) -> bool
    ensures { result ≡ same_role given.now (Some role.now) }
{
    match given {
        Some(given) => given == role,
        None => false,
    }
}

fn has_role_of(other: &Mailbox, number: u64, role: &Text) -> bool
    ensures { result
        ≡ (not (other.now.number == number) && same_role other.now.role (Some role.now)) }
{
    other.number != number && is_same_role(&other.role, role)
}

// Returns whether one of these mailboxes, but the one of this number, has a role.
fn has_changed_role(changed: &[Mailbox], number: u64, role: &Text) -> bool
    ensures { result ≡ list_any (λ (n : TheMailbox). not (n.number == number)
        && same_role n.role (Some role.now)) changed.now }
{
    for other in changed {
        if has_role_of(other, number, role) {
            return true;
        }
    }
    false
}

// Returns whether one of these mailboxes, but the one of this number, is as it was.
fn has_untouched_role(current: &Current, mailboxes: &[Roled], number: u64) -> bool
    ensures { result ≡ list_any (λ (r : TheRoled). is_untouched current.now.changed.rows
        current.now.destroyed.items r.mailbox && not (r.mailbox == number)) mailboxes.now }
{
    for mailbox in mailboxes {
        if is_untouched(current, mailbox.mailbox) && mailbox.mailbox != number {
            return true;
        }
    }
    false
}

fn is_role_used(current: &Current, number: u64, role: &Text) -> bool
    ensures { (c : TheContent) → Shows current.now c → result
        ≡ list_any (λ (n : TheMailbox). not (n.number == number)
        && same_role n.role (Some role.now)) c.mailboxes }
{
    if has_changed_role(current.changed.as_slice(), number, role) {
        return true;
    }
    has_untouched_role(current, current.content.with_role(role.as_bytes()), number)
}

// Returns whether another mailbox has the role of a mailbox.
fn is_role_shared(current: &Current, mailbox: &Mailbox) -> bool
    ensures { (c : TheContent) → Shows current.now c → result ≡ is_role_shared c mailbox.now }
{
    match &mailbox.role {
        Some(role) => is_role_used(current, mailbox.number, role),
        None => false,
    }
}

// ---- chains of parents

// Returns the parent of a mailbox, with this mailbox in its place.
fn find_parent(current: &Current, mailbox: &Mailbox, number: u64) -> Option<u64>
    ensures { (c : TheContent) → Shows current.now c → result
        ≡ parent_of (after_edit c (PutMailbox mailbox.now true false)) number }
{
    if mailbox.number == number {
        return mailbox.parent;
    }
    match find_present(current, number) {
        Some(found) => found.parent,
        None => None,
    }
}

// Returns whether the chain of parents of a mailbox, with it in its place, does not end.
fn is_chain_broken(current: &Current, mailbox: &Mailbox) -> bool
    ensures { (c : TheContent) → Shows current.now c → Counts current.now c
        → is_some (mailbox_at c mailbox.now.number) ≡ true → result
        ≡ is_chain_broken (after_edit c (PutMailbox mailbox.now true false)) mailbox.now }
{
    let mut left = current.count;
    let mut at = mailbox.parent;
    while let Some(number) = at {
        if left == 0 {
            return true;
        }
        left -= 1;
        at = find_parent(current, mailbox, number);
    }
    false
}

// ---- all rules

/// Returns the names, in byte order, of the properties by which a mailbox breaks a rule, with it in
/// its place.
pub fn find_broken(alloc: Global, current: &Current, mailbox: &Mailbox) -> Result<Texts, NoMemory>
    ensures { IfOk result (λ ts. (c : TheContent) → Shows current.now c → Counts current.now c
        → is_some (mailbox_at c mailbox.now.number) ≡ true → ts
        ≡ broken_names (after_edit c (PutMailbox mailbox.now true false)) mailbox.now) }
{
    let mut names = Texts::new(alloc);
    add_if(alloc, &mut names, is_name_shared(current, mailbox), "name")?;
    add_if(
        alloc,
        &mut names,
        is_chain_broken(current, mailbox),
        "parentId",
    )?;
    add_if(alloc, &mut names, is_role_shared(current, mailbox), "role")?;
    Ok(names)
}

// Adds a name where a rule is broken.
fn add_if(alloc: Global, names: &mut Texts, is_broken: bool, name: &str) -> Result<(), NoMemory>
    ensures { OnOk result (names.new ≡ names.old ++ name_if is_broken name.now) }
{
    if is_broken {
        names.push(Text::from_str(alloc, name)?)?;
        return Ok(());
    }
    Ok(())
}

// Returns whether the mailbox that an edit put, if it is there, breaks no rule.
fn keeps_rules(current: &Current, edit: &Edit) -> bool
    ensures { (c : TheContent) → Shows current.now c → Counts current.now c
        → result ≡ keeps_rules c edit.now }
{
    match edit {
        Edit::PutMailbox { item, .. } => keeps_rules_at(current, item.number),
        _ => true,
    }
}

fn keeps_rules_at(current: &Current, number: u64) -> bool
    ensures { (c : TheContent) → Shows current.now c → Counts current.now c
        → result ≡ keeps_rules_at c (mailbox_at c number) }
{
    match find_present(current, number) {
        Some(mailbox) => breaks_none(current, mailbox),
        None => true,
    }
}

// Returns whether a mailbox that is there breaks no rule.
fn breaks_none(current: &Current, mailbox: &Mailbox) -> bool
    ensures { (c : TheContent) → Shows current.now c → Counts current.now c
        → is_some (mailbox_at c mailbox.now.number) ≡ true → result
        ≡ ((not (is_name_shared c mailbox.now) && not (is_chain_broken
        (after_edit c (PutMailbox mailbox.now true false)) mailbox.now))
        && not (is_role_shared c mailbox.now)) }
{
    !is_name_shared(current, mailbox)
        && !is_chain_broken(current, mailbox)
        && !is_role_shared(current, mailbox)
}

// Returns whether all mailboxes that edits put break no rule.
fn are_rules_kept_by(current: &Current, edits: &[Edit]) -> bool
    ensures { (c : TheContent) → Shows current.now c → Counts current.now c
        → result ≡ list_all (keeps_rules c) edits.now }
{
    for edit in edits {
        if !keeps_rules(current, edit) {
            return false;
        }
    }
    true
}

/// Returns whether all mailboxes that the updates up to here put break no rule.
pub fn are_rules_kept(current: &Current) -> bool
    ensures { (s : Progress) → Tracks current.now s → Counts current.now s.content
        → result ≡ all_keep_rules s }
{
    are_rules_kept_by(current, &current.edits)
}
