// Mailboxes: their forms, their parents and counts, and that no two siblings share a name and no
// two mailboxes a role (RFC 8621, section 2).
ghost use Rattle.std.specs.Prelude.{◌≡◌, ◌==◌, ℕ, not};
ghost use Rattle.std.specs.List.{list_all, list_any};
ghost use Rattle.mail_records.specs.Contents.{mailbox_number};
ghost use Rattle.mail_records.specs.Tables.{IsTable};
ghost use Rattle.mail_records.specs.declared.entries.Named.{Named as TheNamed};
ghost use Rattle.mail_records.specs.declared.entries.Roled.{Roled as TheRoled};
ghost use Rattle.mail_counts.specs.DerivedEdits.{counts_over};
ghost use Rattle.mail_counts.specs.Forms.{is_role};
ghost use Rattle.mail_counts.specs.Members.{tallied_counts};
ghost use Rattle.tidy_check.specs.Checks.{has_parent, is_mailbox, is_name_shared, is_placed, is_role_shared, is_well_formed, passes_if_any};

use crate::numbers::is_in_use;
use jm_base::Kind;
use mail_counts::{Tally, is_name, is_role, is_sort_order};
use mail_records::{Content, Mailbox, Named, Roled};

// Returns whether the role of a mailbox is one of the registered ones, if it has one.
fn has_role(mailbox: &Mailbox) -> bool
    ensures { result ≡ passes_if_any is_role mailbox.now.role }
{
    match &mailbox.role {
        Some(role) => is_role(role.as_str()),
        None => true,
    }
}

fn is_well_formed(mailbox: &Mailbox) -> bool
    ensures { result ≡ is_well_formed mailbox.now }
{
    is_name(mailbox.name.as_str()) && has_role(mailbox) && is_sort_order(mailbox.sort_order)
}

/// Returns whether there is a mailbox of this number.
pub(crate) fn is_mailbox(content: &Content, number: u64) -> bool
    ensures { result ≡ is_mailbox content.now.content number }
{
    content.mailbox(number).is_some()
}

fn has_parent(content: &Content, mailbox: &Mailbox) -> bool
    ensures { result ≡ has_parent content.now.content mailbox.now }
{
    match mailbox.parent {
        Some(parent) => is_mailbox(content, parent),
        None => true,
    }
}

// Returns whether one of these mailboxes has another number.
fn has_other_named(siblings: &[Named], number: u64) -> bool
    ensures { result ≡ list_any (λ (x : TheNamed). not (x.mailbox == number)) siblings.now }
{
    for sibling in siblings {
        if sibling.mailbox != number {
            return true;
        }
    }
    false
}

// Returns whether one of these mailboxes has another number.
fn has_other_roled(mailboxes: &[Roled], number: u64) -> bool
    ensures { result ≡ list_any (λ (x : TheRoled). not (x.mailbox == number)) mailboxes.now }
{
    for roled in mailboxes {
        if roled.mailbox != number {
            return true;
        }
    }
    false
}

// Returns whether another mailbox has its parent and its name.
fn is_name_shared(content: &Content, mailbox: &Mailbox) -> bool
    requires table { IsTable mailbox_number content.now.content.mailboxes }
    ensures { result ≡ is_name_shared content.now.content mailbox.now }
{
    let siblings = content.find_children_named(mailbox.parent, mailbox.name.as_bytes());
    has_other_named(siblings, mailbox.number)
}

// Returns whether another mailbox has its role.
fn is_role_shared(content: &Content, mailbox: &Mailbox) -> bool
    requires table { IsTable mailbox_number content.now.content.mailboxes }
    ensures { result ≡ is_role_shared content.now.content mailbox.now }
{
    match &mailbox.role {
        Some(role) => has_other_roled(content.with_role(role.as_bytes()), mailbox.number),
        None => false,
    }
}

fn is_placed(content: &Content, tally: &Tally, mailbox: &Mailbox) -> bool
    requires table { IsTable mailbox_number content.now.content.mailboxes }
    requires tally { (m : ℕ) → tallied_counts tally.now m
        ≡ counts_over content.now.content.emails m }
    ensures { result ≡ is_placed content.now.content mailbox.now }
{
    is_in_use(content.next(Kind::Mailbox), mailbox.number)
        && is_well_formed(mailbox)
        && has_parent(content, mailbox)
        && !is_name_shared(content, mailbox)
        && !is_role_shared(content, mailbox)
        && tally.has_counts(mailbox)
}

/// Returns whether each of these mailboxes passes in the content, of whose emails the tally is.
pub(crate) fn are_placed(content: &Content, tally: &Tally, mailboxes: &[Mailbox]) -> bool
    requires table { IsTable mailbox_number content.now.content.mailboxes }
    requires tally { (m : ℕ) → tallied_counts tally.now m
        ≡ counts_over content.now.content.emails m }
    ensures { result ≡ list_all (is_placed content.now.content) mailboxes.now }
{
    for mailbox in mailboxes {
        if !is_placed(content, tally, mailbox) {
            return false;
        }
    }
    true
}
