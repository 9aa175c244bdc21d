// A content with edits laid over it, whose records are looked up without a copy of the content.
ghost use Rattle.std.specs.Prelude.{◌≡◌, ℕ, IfOk, None, Some, option_map};
ghost use Rattle.std.specs.BTreeMap.{get};
ghost use Rattle.std.specs.Ordering.{nat_cmp};
ghost use Rattle.jm_base.specs.declared.identifiers.Kind.TheVariants.{Mailbox as OfMailbox, Email as OfEmail, Thread as OfThread};
ghost use Rattle.mail_records.specs.Contents.{AreTables, email_at, mailbox_at, thread_at};
ghost use Rattle.mail_records.specs.Edits.{after_edits, id_of};
ghost use Rattle.mail_counts.specs.Overlay.{email_put, last_edit, mailbox_put, thread_put};

use jm_base::{Kind, NoMemory};
use mail_records::{Content, Edit, Email, Mailbox, Thread};
use std::alloc::Global;
use std::collections::BTreeMap;
use std::marker::Model;

// Returns the number of the record that an edit puts or drops.
fn find_record_number(edit: &Edit) -> u64
    ensures { result ≡ (id_of edit.now).number }
{
    match edit {
        Edit::PutMailbox { item, .. } => item.number,
        Edit::DropMailbox { number } => *number,
        Edit::PutEmail { item, .. } => item.number,
        Edit::DropEmail { number, .. } => *number,
        Edit::PutThread { item, .. } => item.number,
        Edit::DropThread { number } => *number,
    }
}

// Returns the mailbox that an edit puts.
fn find_put_mailbox(edit: &Edit) -> Option<&Mailbox>
    ensures { option_map (λ r. r.now) result ≡ mailbox_put edit.now }
{
    match edit {
        Edit::PutMailbox { item, .. } => Some(item),
        _ => None,
    }
}

// Returns the email that an edit puts.
fn find_put_email(edit: &Edit) -> Option<&Email>
    ensures { option_map (λ r. r.now) result ≡ email_put edit.now }
{
    match edit {
        Edit::PutEmail { item, .. } => Some(item),
        _ => None,
    }
}

// Returns the thread that an edit puts.
fn find_put_thread(edit: &Edit) -> Option<&Thread>
    ensures { option_map (λ r. r.now) result ≡ thread_put edit.now }
{
    match edit {
        Edit::PutThread { item, .. } => Some(item),
        _ => None,
    }
}

// Returns the last edit of each record of a kind.
fn collect_last_edits<'a>(
    alloc: Global,
    edits: &'a [Edit],
    kind: Kind,
) -> Result<BTreeMap<u64, &'a Edit>, NoMemory>
    ensures { IfOk result (λ m. (n : ℕ) → option_map (λ r. r.now) (get nat_cmp m n)
        ≡ last_edit kind n edits.now) }
{
    let mut last = BTreeMap::new(alloc);
    for edit in edits {
        if edit.kind() == kind {
            last.insert(find_record_number(edit), edit)?;
        }
    }
    Ok(last)
}

/// A content with edits laid over it. Contracts see the content after the edits.
#[derive(Drop)]
pub(crate) struct Overlaid<'a> {
    content: &'a Content,
    edits: &'a [Edit],
    mailboxes: BTreeMap<u64, &'a Edit>,
    emails: BTreeMap<u64, &'a Edit>,
    threads: BTreeMap<u64, &'a Edit>,
}

impl<'a> Model for Overlaid<'a> {
    ghost use Rattle.std.specs.Prelude.{◌≡◌, ℕ, option_map};
    ghost use Rattle.std.specs.BTreeMap.{get};
    ghost use Rattle.std.specs.Ordering.{nat_cmp};
    ghost use Rattle.jm_base.specs.declared.identifiers.Kind.TheVariants.{Mailbox as OfMailbox, Email as OfEmail, Thread as OfThread};
    ghost use Rattle.mail_records.specs.Contents.{Content as TheContent};
    ghost use Rattle.mail_records.specs.Edits.{after_edits};
    ghost use Rattle.mail_counts.specs.Overlay.{last_edit};

    ghost Value = { TheContent };

    ghost view = { λ o. after_edits o.content.now.content o.edits.now };

    ghost invariant = { λ o.
        ((n : ℕ) → option_map (λ r. r.now) (get nat_cmp o.mailboxes n)
        ≡ last_edit OfMailbox n o.edits.now)
        × ((n : ℕ) → option_map (λ r. r.now) (get nat_cmp o.emails n)
        ≡ last_edit OfEmail n o.edits.now)
        × ((n : ℕ) → option_map (λ r. r.now) (get nat_cmp o.threads n)
        ≡ last_edit OfThread n o.edits.now) };
}

impl<'a> Overlaid<'a> {
    /// Lays edits over a content.
    pub(crate) fn new(
        alloc: Global,
        content: &'a Content,
        edits: &'a [Edit],
    ) -> Result<Overlaid<'a>, NoMemory>
        ensures is { IfOk result (λ o. o ≡ after_edits content.now.content edits.now) }
        ensures tables { IfOk result AreTables }
    {
        let _mailboxes = content.mailboxes();
        let _emails = content.emails();
        let _threads = content.threads();
        let mailboxes = collect_last_edits(alloc, edits, Kind::Mailbox)?;
        let emails = collect_last_edits(alloc, edits, Kind::Email)?;
        let threads = collect_last_edits(alloc, edits, Kind::Thread)?;
        Ok(Overlaid {
            content,
            edits,
            mailboxes,
            emails,
            threads,
        })
    }

    /// Returns the mailbox of a number.
    pub(crate) fn mailbox(&self, number: u64) -> Option<&'a Mailbox>
        ensures { option_map (λ r. r.now) result ≡ mailbox_at self.now number }
    {
        let _mailboxes = self.content.mailboxes();
        match self.mailboxes.get(&number) {
            Some(edit) => find_put_mailbox(edit),
            None => self.content.mailbox(number),
        }
    }

    /// Returns the email of a number.
    pub(crate) fn email(&self, number: u64) -> Option<&'a Email>
        ensures { option_map (λ r. r.now) result ≡ email_at self.now number }
    {
        let _emails = self.content.emails();
        match self.emails.get(&number) {
            Some(edit) => find_put_email(edit),
            None => self.content.email(number),
        }
    }

    /// Returns the thread of a number.
    pub(crate) fn thread(&self, number: u64) -> Option<&'a Thread>
        ensures { option_map (λ r. r.now) result ≡ thread_at self.now number }
    {
        let _threads = self.content.threads();
        match self.threads.get(&number) {
            Some(edit) => find_put_thread(edit),
            None => self.content.thread(number),
        }
    }
}
