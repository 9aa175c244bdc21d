// The content of an account: a table of each kind of record, and the next numbers.
ghost use Rattle.std.specs.Prelude.{◌≡◌, ◌+◌, ◌*◌, ◌<◌, ◌≤◌, ◌^◌, false, Some, None, OnOk, OnErr, IfOk, MatchOption, length, map};
ghost use Rattle.mail_records.specs.Contents.{blob_of, mailbox_number, email_number, thread_number, mailbox_at, email_at, thread_at, next_of, empty_content};
ghost use Rattle.mail_records.specs.Edits.{Fits, HasNext, IsSmall, after_edit, email_puts, puts_of};
ghost use Rattle.mail_records.specs.Orders.{AreByReceived, AreChildren, AreChildrenNamed, AreInMailbox, AreInThread, AreWithLink, AreWithRole};
ghost use Rattle.mail_records.specs.Tables.{IsTable};
ghost use Rattle.jm_base.specs.declared.limits.TheConstants.{MAX_MAILBOXES_PER_EMAIL};
ghost use Rattle.mail_records.specs.declared.limits.TheConstants.{MAX_LINKS_PER_EMAIL};

use crate::edits::count_email_puts;
use crate::emails::Emails;
use crate::limits::MAX_LINKS_PER_EMAIL;
use crate::mailboxes::Mailboxes;
use crate::{
    Dated, Edit, Email, EmailBlob, Linked, Mailbox, Named, Placed, Roled, Table, Thread, Threaded,
};
use jm_base::{Kind, MAX_MAILBOXES_PER_EMAIL, NoMemory};
use std::alloc::Global;
use std::marker::Model;

/// The mailboxes, emails and threads of an account, each by number, and the next number of each
/// kind. Contracts also see for how many edits room is reserved, and how many of them may put an
/// email.
#[derive(Drop)]
pub struct Content {
    pub(crate) mailboxes: Mailboxes,
    pub(crate) emails: Emails,
    pub(crate) threads: Table<Thread>,
    pub(crate) next_mailbox: u64,
    pub(crate) next_email: u64,
    pub(crate) next_thread: u64,
}

impl Model for Content {
    ghost use Rattle.std.specs.Prelude.{min, ◌/◌};
    ghost use Rattle.mail_records.specs.Contents.{Held};
    ghost use Rattle.jm_base.specs.declared.limits.TheConstants.{MAX_MAILBOXES_PER_EMAIL};
    ghost use Rattle.mail_records.specs.declared.limits.TheConstants.{MAX_LINKS_PER_EMAIL};

    ghost Value = { Held };

    ghost view = { λ c. record {
      content = record {
        mailboxes = c.mailboxes.rows;
        emails = c.emails.rows;
        threads = c.threads.rows;
        next_mailbox = c.next_mailbox;
        next_email = c.next_email;
        next_thread = c.next_thread;
      };
      spare = min c.mailboxes.spare c.threads.spare;
      email_spare = min c.emails.spare
          (min (c.emails.placed / MAX_MAILBOXES_PER_EMAIL)
          (c.emails.linked / MAX_LINKS_PER_EMAIL));
    } };
}

impl Content {
    /// Returns a content with no record, each kind's next number being 1. Allocates nothing.
    pub fn new(alloc: Global) -> Content
        ensures { result.content ≡ empty_content }
    {
        Content {
            mailboxes: Mailboxes::new(alloc),
            emails: Emails::new(alloc),
            threads: Table::new(alloc),
            next_mailbox: 1,
            next_email: 1,
            next_thread: 1,
        }
    }

    /// Returns the content of these records and next numbers. Each list is in number order. Each
    /// order of the content is sorted once.
    pub fn of(
        alloc: Global,
        mailboxes: Vec<Mailbox>,
        emails: Vec<Email>,
        threads: Vec<Thread>,
        next_mailbox: u64,
        next_email: u64,
        next_thread: u64,
    ) -> Result<Content, NoMemory>
        requires mailboxes { IsTable mailbox_number mailboxes.items }
        requires emails { IsTable email_number emails.items }
        requires threads { IsTable thread_number threads.items }
        ensures { IfOk result (λ c. c.content ≡ record {
          mailboxes = mailboxes.items;
          emails = emails.items;
          threads = threads.items;
          next_mailbox = next_mailbox;
          next_email = next_email;
          next_thread = next_thread;
        }) }
    {
        let mailboxes = Mailboxes::from_rows(alloc, mailboxes)?;
        let emails = Emails::from_rows(alloc, emails)?;
        Ok(Content {
            mailboxes,
            emails,
            threads: Table::from_rows(threads),
            next_mailbox,
            next_email,
            next_thread,
        })
    }

    /// Returns a copy of the content, in memory of its own.
    pub fn copy(&self, alloc: Global) -> Result<Content, NoMemory>
        ensures { IfOk result (λ c. c.content ≡ self.now.content) }
    {
        let mailboxes = self.mailboxes.copy(alloc)?;
        let emails = self.emails.copy(alloc)?;
        let threads = self.threads.copy(alloc)?;
        Ok(Content {
            mailboxes,
            emails,
            threads,
            next_mailbox: self.next_mailbox,
            next_email: self.next_email,
            next_thread: self.next_thread,
        })
    }

    /// Lends the mailboxes, in number order.
    pub fn mailboxes(&self) -> &[Mailbox]
        ensures items { result.now ≡ self.now.content.mailboxes }
        ensures table { IsTable mailbox_number result.now }
    {
        self.mailboxes.table().as_slice()
    }

    /// Lends the emails, in number order.
    pub fn emails(&self) -> &[Email]
        ensures items { result.now ≡ self.now.content.emails }
        ensures table { IsTable email_number result.now }
    {
        self.emails.table().as_slice()
    }

    /// Lends the number of each email with that of the blob that is its message, in the order of
    /// the emails' numbers. It holds 16 bytes an email, so a walk over it reads no record.
    pub fn email_blobs(&self) -> &[EmailBlob]
        ensures { result.now ≡ map blob_of self.now.content.emails }
    {
        self.emails.blobs()
    }

    /// Lends the threads, in number order.
    pub fn threads(&self) -> &[Thread]
        ensures items { result.now ≡ self.now.content.threads }
        ensures table { IsTable thread_number result.now }
    {
        self.threads.as_slice()
    }

    /// Lends the mailbox of a number.
    pub fn mailbox(&self, number: u64) -> Option<&Mailbox>
        ensures { MatchOption result (mailbox_at self.now.content number ≡ None)
            (λ r. mailbox_at self.now.content number ≡ Some r.now) }
    {
        self.mailboxes.table().get(number)
    }

    /// Lends the email of a number.
    pub fn email(&self, number: u64) -> Option<&Email>
        ensures { MatchOption result (email_at self.now.content number ≡ None)
            (λ r. email_at self.now.content number ≡ Some r.now) }
    {
        self.emails.table().get(number)
    }

    /// Lends the thread of a number.
    pub fn thread(&self, number: u64) -> Option<&Thread>
        ensures { MatchOption result (thread_at self.now.content number ≡ None)
            (λ r. thread_at self.now.content number ≡ Some r.now) }
    {
        self.threads.get(number)
    }

    /// Returns the number that the next new record of a kind has.
    pub fn next(&self, kind: Kind) -> u64
        ensures { result ≡ next_of self.now.content kind }
    {
        match kind {
            Kind::Mailbox => self.next_mailbox,
            Kind::Email => self.next_email,
            Kind::Thread => self.next_thread,
        }
    }

    /// Lends the mailboxes with a parent, or those without one, in the order of name, then number.
    pub fn children(&self, parent: Option<u64>) -> &[Named]
        ensures { AreChildren self.now.content parent result.now }
    {
        self.mailboxes.children(parent)
    }

    /// Lends the mailboxes with a parent, or those without one, and with a name, in the order of
    /// number.
    pub fn find_children_named(&self, parent: Option<u64>, name: &[u8]) -> &[Named]
        ensures { AreChildrenNamed self.now.content parent name.now result.now }
    {
        self.mailboxes.find_children_named(parent, name)
    }

    /// Lends the mailboxes with a role, in the order of number.
    pub fn with_role(&self, role: &[u8]) -> &[Roled]
        ensures { AreWithRole self.now.content role.now result.now }
    {
        self.mailboxes.with_role(role)
    }

    /// Lends all emails in the order of the time received, then number.
    pub fn by_received(&self) -> &[Dated]
        ensures { AreByReceived self.now.content result.now }
    {
        self.emails.by_received()
    }

    /// Lends the emails of a thread in the order of the time received, then number (RFC 8621,
    /// section 3).
    pub fn find_in_thread(&self, thread: u64) -> &[Threaded]
        ensures { AreInThread self.now.content thread result.now }
    {
        self.emails.find_in_thread(thread)
    }

    /// Lends the emails in a mailbox in the order of the time received, then number.
    pub fn in_mailbox(&self, mailbox: u64) -> &[Placed]
        ensures { AreInMailbox self.now.content mailbox result.now }
    {
        self.emails.find_in_mailbox(mailbox)
    }

    /// Lends the emails with a link in their summary, in the order of number, then the index of the
    /// link there.
    pub fn with_link(&self, link: &[u8]) -> &[Linked]
        ensures { AreWithLink self.now.content link.now result.now }
    {
        self.emails.with_link(link)
    }

    /// Makes room for these edits. If an allocation fails, all but the room is as before.
    pub fn reserve(&mut self, edits: &[Edit]) -> Result<(), NoMemory>
        ensures same { self.new.content ≡ self.old.content }
        ensures spare { OnOk result (length edits.now ≤ self.new.spare) }
        ensures email_spare { OnOk result (email_puts edits.now ≤ self.new.email_spare) }
        ensures no_less { (self.old.spare ≤ self.new.spare)
            × (self.old.email_spare ≤ self.new.email_spare) }
    {
        self.make_room(edits.len(), count_email_puts(edits))
    }

    // Makes room for so many edits, of which so many put an email.
    fn make_room(&mut self, edits: usize, puts: usize) -> Result<(), NoMemory>
        ensures same { self.new.content ≡ self.old.content }
        ensures spare { OnOk result (edits ≤ self.new.spare) }
        ensures email_spare { OnOk result (puts ≤ self.new.email_spare) }
        ensures no_less { (self.old.spare ≤ self.new.spare)
            × (self.old.email_spare ≤ self.new.email_spare) }
    {
        let placed = multiply_counts(puts, MAX_MAILBOXES_PER_EMAIL as usize)?;
        let linked = multiply_counts(puts, MAX_LINKS_PER_EMAIL as usize)?;
        self.mailboxes.reserve(edits)?;
        self.emails.reserve(puts, placed, linked)?;
        self.threads.reserve(edits)?;
        Ok(())
    }

    fn put_mailbox(&mut self, item: Mailbox, was: bool)
        requires room { 1 ≤ self.old.spare }
        requires next { was ≡ false → item.number + 1 < 2 ^ 64 }
        ensures content { self.new.content ≡ after_edit self.old.content
            (Edit.PutMailbox item was false) }
        ensures spare { self.old.spare ≤ self.new.spare + 1 }
        ensures email_spare { self.old.email_spare ≤ self.new.email_spare }
    {
        if !was {
            self.next_mailbox = item.number + 1;
        }
        self.mailboxes.put_ready(item);
    }

    fn put_email(&mut self, item: Email, was: bool)
        requires room { 1 ≤ self.old.email_spare }
        requires mailboxes { length item.mailboxes ≤ MAX_MAILBOXES_PER_EMAIL }
        requires links { length item.summary.links ≤ MAX_LINKS_PER_EMAIL }
        requires next { was ≡ false → item.number + 1 < 2 ^ 64 }
        ensures content { self.new.content ≡ after_edit self.old.content (Edit.PutEmail item was) }
        ensures spare { self.old.spare ≤ self.new.spare }
        ensures email_spare { self.old.email_spare ≤ self.new.email_spare + 1 }
    {
        if !was {
            self.next_email = item.number + 1;
        }
        self.emails.put_ready(item);
    }

    fn put_thread(&mut self, item: Thread, was: bool)
        requires room { 1 ≤ self.old.spare }
        requires next { was ≡ false → item.number + 1 < 2 ^ 64 }
        ensures content { self.new.content ≡ after_edit self.old.content (Edit.PutThread item was) }
        ensures spare { self.old.spare ≤ self.new.spare + 1 }
        ensures email_spare { self.old.email_spare ≤ self.new.email_spare }
    {
        if !was {
            self.next_thread = item.number + 1;
        }
        self.threads.put_ready(item);
    }

    // Puts an email with any number of mailboxes and links. If an allocation fails, the content is
    // as before.
    fn put_large(&mut self, item: Email, was: bool) -> Result<(), NoMemory>
        requires next { was ≡ false → item.number + 1 < 2 ^ 64 }
        ensures ok { OnOk result (self.new.content ≡ after_edit self.old.content
            (Edit.PutEmail item was)) }
        ensures err { OnErr result (self.new.content ≡ self.old.content) }
    {
        let placed = item.mailboxes.len();
        let linked = item.summary.links.len();
        self.emails.reserve(1, placed, linked)?;
        if !was {
            self.next_email = item.number + 1;
        }
        self.emails.put_ready(item);
        Ok(())
    }

    // Applies an edit that fits. If an allocation fails, the content is as before.
    fn enter(&mut self, edit: Edit) -> Result<(), NoMemory>
        requires fits { Fits self.old.content edit }
        requires next { HasNext self.old.content edit }
        ensures ok { OnOk result (self.new.content ≡ after_edit self.old.content edit) }
        ensures err { OnErr result (self.new.content ≡ self.old.content) }
    {
        self.make_room(1, 0)?;
        match edit {
            Edit::PutMailbox { item, was, .. } => Ok(self.put_mailbox(item, was)),
            Edit::DropMailbox { number } => Ok(self.mailboxes.take_out(number)),
            Edit::PutEmail { item, was } => self.put_large(item, was),
            Edit::DropEmail { number, .. } => Ok(self.emails.take_out(number)),
            Edit::PutThread { item, was } => Ok(self.put_thread(item, was)),
            Edit::DropThread { number } => Ok(self.threads.take_out(number)),
        }
    }

    /// Applies an edit that fits, for which room is reserved. Allocates nothing.
    pub fn apply_ready(&mut self, edit: Edit)
        requires room { 1 ≤ self.old.spare }
        requires email_room { puts_of edit ≤ self.old.email_spare }
        requires fits { Fits self.old.content edit }
        requires next { HasNext self.old.content edit }
        requires small { IsSmall edit }
        ensures content { self.new.content ≡ after_edit self.old.content edit }
        ensures spare { self.old.spare ≤ self.new.spare + 1 }
        ensures email_spare { self.old.email_spare ≤ self.new.email_spare + puts_of edit }
    {
        match edit {
            Edit::PutMailbox { item, was, .. } => self.put_mailbox(item, was),
            Edit::DropMailbox { number } => self.mailboxes.take_out(number),
            Edit::PutEmail { item, was } => self.put_email(item, was),
            Edit::DropEmail { number, .. } => self.emails.take_out(number),
            Edit::PutThread { item, was } => self.put_thread(item, was),
            Edit::DropThread { number } => self.threads.take_out(number),
        }
    }
}

// Multiplies two numbers; a product that is too large is out of memory.
fn multiply_counts(count: usize, each: usize) -> Result<usize, NoMemory>
    ensures { IfOk result (λ n. n ≡ count * each) }
{
    match count.checked_mul(each) {
        Some(product) => Ok(product),
        None => Err(NoMemory),
    }
}

/// Applies an edit that fits. If an allocation fails, the content is as before.
pub fn apply(alloc: Global, content: &mut Content, edit: &Edit) -> Result<(), NoMemory>
    requires fits { Fits content.old.content edit.now }
    requires next { HasNext content.old.content edit.now }
    ensures ok { OnOk result (content.new.content ≡ after_edit content.old.content edit.now) }
    ensures err { OnErr result (content.new.content ≡ content.old.content) }
{
    let copy = edit.copy(alloc)?;
    content.enter(copy)
}
