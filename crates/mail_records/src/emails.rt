// The emails of a content: their table, the blob of each, and the orders by the time received, by
// thread, by mailbox and by link.
ghost use Rattle.std.specs.Prelude.{◌≡◌, ◌+◌, ◌≤◌, [], None, Some, OnOk, IfOk, ◌&&◌, length, map};
ghost use Rattle.mail_records.specs.Contents.{blob_of, email_number};
ghost use Rattle.mail_records.specs.Orders.{AreKeys, any_key, has_text, is_in_group, keys_of, dated_key, dated_owner, link_keys, linked_key, linked_owner, mailbox_keys, placed_key, placed_owner, received_keys, thread_keys, threaded_key, threaded_owner};
ghost use Rattle.mail_records.specs.Tables.{IsTable, put, without, without_all};
ghost use Rattle.std.specs.List.Sorted.{IsStrictlyIncreasing};

use crate::entries::{Dated, EmailBlob, Linked, Placed, Threaded};
use crate::fills::fill;
use crate::order_drops::forget_all;
use crate::orders::{copy_entries, find_group_entries, forget, leave, settle, with_text};
use crate::{Email, Record, Table};
use jm_base::NoMemory;
use std::alloc::Global;
use std::marker::Model;

/// The emails by number, the blob of each, and their orders. Contracts see for how many puts, and
/// for how many entries of the orders by mailbox and by link, there is room.
#[derive(Drop)]
pub(crate) struct Emails {
    table: Table<Email>,
    blobs: Table<EmailBlob>,
    by_received: Vec<Dated>,
    by_thread: Vec<Threaded>,
    by_mailbox: Vec<Placed>,
    by_link: Vec<Linked>,
}

impl Model for Emails {
    ghost use Rattle.std.specs.Prelude.{◌≡◌, ◌-◌, map, min, vec_len, vec_capacity};
    ghost use Rattle.mail_records.specs.Contents.{blob_of, email_number};
    ghost use Rattle.mail_records.specs.Orders.{AreKeys, any_key, keys_of, dated_key, dated_owner, link_keys, linked_key, linked_owner, mailbox_keys, placed_key, placed_owner, received_keys, thread_keys, threaded_key, threaded_owner};
    ghost use Rattle.mail_records.specs.Views.{EmailRows};

    ghost Value = { EmailRows };

    ghost view = { λ e. record {
      rows = e.table.rows;
      spare = min e.table.spare
          (min e.blobs.spare
          (min (vec_capacity e.by_received - vec_len e.by_received)
          (vec_capacity e.by_thread - vec_len e.by_thread)));
      placed = vec_capacity e.by_mailbox - vec_len e.by_mailbox;
      linked = vec_capacity e.by_link - vec_len e.by_link;
    } };

    ghost invariant = { λ e. (e.blobs.rows ≡ map blob_of e.table.rows)
        × AreKeys any_key email_number received_keys e.table.rows
        (keys_of email_number dated_owner dated_key e.table.rows e.by_received.items)
        × AreKeys any_key email_number thread_keys e.table.rows
        (keys_of email_number threaded_owner threaded_key e.table.rows e.by_thread.items)
        × AreKeys any_key email_number mailbox_keys e.table.rows
        (keys_of email_number placed_owner placed_key e.table.rows e.by_mailbox.items)
        × AreKeys any_key email_number link_keys e.table.rows
        (keys_of email_number linked_owner linked_key e.table.rows e.by_link.items) };
}

// Returns the number of each email with that of its blob, in number order.
fn collect_blobs(alloc: Global, rows: &[Email]) -> Result<Vec<EmailBlob>, NoMemory>
    ensures { IfOk result (λ v. v.items ≡ map blob_of rows.now) }
{
    let mut all = Vec::with_capacity(alloc, rows.len())?;
    for email in rows {
        all.push(EmailBlob {
            email: email.number,
            blob: email.blob,
        })?;
    }
    Ok(all)
}

impl Emails {
    /// Returns no emails. It takes no memory.
    pub(crate) fn new(alloc: Global) -> Emails
        ensures { result.rows ≡ [] }
    {
        Emails {
            table: Table::new(alloc),
            blobs: Table::new(alloc),
            by_received: Vec::new(alloc),
            by_thread: Vec::new(alloc),
            by_mailbox: Vec::new(alloc),
            by_link: Vec::new(alloc),
        }
    }

    /// Returns these emails, which are in number order. Each of their orders is sorted once.
    pub(crate) fn from_rows(alloc: Global, rows: Vec<Email>) -> Result<Emails, NoMemory>
        requires { IsTable email_number rows.items }
        ensures { IfOk result (λ e. e.rows ≡ rows.items) }
    {
        let blobs = Table::from_rows(collect_blobs(alloc, &rows)?);
        let table = Table::from_rows(rows);
        let by_received = fill(alloc, &table)?;
        let by_thread = fill(alloc, &table)?;
        let by_mailbox = fill(alloc, &table)?;
        let by_link = fill(alloc, &table)?;
        Ok(Emails {
            table,
            blobs,
            by_received,
            by_thread,
            by_mailbox,
            by_link,
        })
    }

    /// Copies the emails into memory of their own.
    pub(crate) fn copy(&self, alloc: Global) -> Result<Emails, NoMemory>
        ensures { IfOk result (λ e. e.rows ≡ self.now.rows) }
    {
        let table = self.table.copy(alloc)?;
        let blobs = self.blobs.copy(alloc)?;
        let by_received = copy_entries(alloc, &self.by_received)?;
        let by_thread = copy_entries(alloc, &self.by_thread)?;
        let by_mailbox = copy_entries(alloc, &self.by_mailbox)?;
        let by_link = copy_entries(alloc, &self.by_link)?;
        Ok(Emails {
            table,
            blobs,
            by_received,
            by_thread,
            by_mailbox,
            by_link,
        })
    }

    /// Lends the table.
    pub(crate) fn table(&self) -> &Table<Email>
        ensures { result.now.rows ≡ self.now.rows }
    {
        &self.table
    }

    /// Lends the number of each email with that of its blob, in number order.
    pub(crate) fn blobs(&self) -> &[EmailBlob]
        ensures { result.now ≡ map blob_of self.now.rows }
    {
        self.blobs.as_slice()
    }

    /// Makes room for so many more emails, and so many entries by mailbox and by link.
    pub(crate) fn reserve(
        &mut self,
        more: usize,
        placed: usize,
        linked: usize,
    ) -> Result<(), NoMemory>
        ensures rows { self.new.rows ≡ self.old.rows }
        ensures spare { OnOk result (more ≤ self.new.spare) }
        ensures placed { OnOk result (placed ≤ self.new.placed) }
        ensures linked { OnOk result (linked ≤ self.new.linked) }
        ensures no_less { (self.old.spare ≤ self.new.spare) × (self.old.placed ≤ self.new.placed)
            × (self.old.linked ≤ self.new.linked) }
    {
        self.table.reserve(more)?;
        self.blobs.reserve(more)?;
        self.by_received.reserve(more)?;
        self.by_thread.reserve(more)?;
        self.by_mailbox.reserve(placed)?;
        self.by_link.reserve(linked)?;
        Ok(())
    }

    /// Puts an email at the index of its number, for which there is room.
    pub(crate) fn put_ready(&mut self, item: Email)
        requires spare { 1 ≤ self.old.spare }
        requires placed { length item.mailboxes ≤ self.old.placed }
        requires linked { length item.summary.links ≤ self.old.linked }
        ensures rows { self.new.rows ≡ put email_number item self.old.rows }
        ensures spare { self.old.spare ≤ self.new.spare + 1 }
        ensures placed { self.old.placed ≤ self.new.placed + length item.mailboxes }
        ensures linked { self.old.linked ≤ self.new.linked + length item.summary.links }
    {
        let number = item.number;
        let blob = EmailBlob {
            email: number,
            blob: item.blob,
        };
        let dated = leave(&self.table, &mut self.by_received, &item);
        let threaded = leave(&self.table, &mut self.by_thread, &item);
        let placed = leave(&self.table, &mut self.by_mailbox, &item);
        let linked = leave(&self.table, &mut self.by_link, &item);
        self.table.put_ready(item);
        self.blobs.put_ready(blob);
        settle(&self.table, &mut self.by_received, number, dated);
        settle(&self.table, &mut self.by_thread, number, threaded);
        settle(&self.table, &mut self.by_mailbox, number, placed);
        settle(&self.table, &mut self.by_link, number, linked);
    }

    /// Takes the email of a number out, if it is there.
    pub(crate) fn take_out(&mut self, number: u64)
        ensures rows { self.new.rows ≡ without email_number number self.old.rows }
        ensures spare { self.old.spare ≤ self.new.spare }
        ensures placed { self.old.placed ≤ self.new.placed }
        ensures linked { self.old.linked ≤ self.new.linked }
    {
        forget(&self.table, &mut self.by_received, number);
        forget(&self.table, &mut self.by_thread, number);
        forget(&self.table, &mut self.by_mailbox, number);
        forget(&self.table, &mut self.by_link, number);
        self.table.take_out(number);
        self.blobs.take_out(number);
    }

    /// Takes the emails of these numbers out, which rise, in one pass.
    pub(crate) fn take_out_all(&mut self, numbers: &[u64])
        requires { IsStrictlyIncreasing numbers.now }
        ensures rows { self.new.rows ≡ without_all email_number numbers.now self.old.rows }
        ensures spare { self.old.spare ≤ self.new.spare }
        ensures placed { self.old.placed ≤ self.new.placed }
        ensures linked { self.old.linked ≤ self.new.linked }
    {
        forget_all(&self.table, &mut self.by_received, numbers);
        forget_all(&self.table, &mut self.by_thread, numbers);
        forget_all(&self.table, &mut self.by_mailbox, numbers);
        forget_all(&self.table, &mut self.by_link, numbers);
        self.table.take_out_all(numbers);
        self.blobs.take_out_all(numbers);
    }

    /// Lends all emails in the order of the time received, then number.
    pub(crate) fn by_received(&self) -> &[Dated]
        ensures { AreKeys any_key email_number received_keys self.now.rows
            (keys_of email_number dated_owner dated_key self.now.rows result.now) }
    {
        self.by_received.as_slice()
    }

    /// Lends the emails of a thread in the order of the time received, then number.
    pub(crate) fn find_in_thread(&self, thread: u64) -> &[Threaded]
        ensures { AreKeys (is_in_group (Some thread)) email_number thread_keys self.now.rows
            (keys_of email_number threaded_owner threaded_key self.now.rows result.now) }
    {
        find_group_entries(&self.table, self.by_thread.as_slice(), Some(thread))
    }

    /// Lends the emails in a mailbox in the order of the time received, then number.
    pub(crate) fn find_in_mailbox(&self, mailbox: u64) -> &[Placed]
        ensures { AreKeys (is_in_group (Some mailbox)) email_number mailbox_keys self.now.rows
            (keys_of email_number placed_owner placed_key self.now.rows result.now) }
    {
        find_group_entries(&self.table, self.by_mailbox.as_slice(), Some(mailbox))
    }

    /// Lends the emails with a link in the order of number, then the index of the link.
    pub(crate) fn with_link(&self, link: &[u8]) -> &[Linked]
        ensures { AreKeys (λ k. is_in_group None k
            && has_text link.now k) email_number link_keys self.now.rows
            (keys_of email_number linked_owner linked_key self.now.rows result.now) }
    {
        with_text(&self.table, self.by_link.as_slice(), None, link)
    }
}
