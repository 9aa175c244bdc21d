// A content of which some records are still to be dropped: a removal notes a number, and the
// records of all these numbers are dropped in one pass.
ghost use Rattle.std.specs.Prelude.{◌≡◌, ◌↔◌, ◌+◌, ◌≤◌, ℕ, List, IsTrue, true, false, OnOk};
ghost use Rattle.mail_records.specs.Contents.{AreTables, Content as TheContent, email_number, thread_number};
ghost use Rattle.mail_records.specs.Edits.{Fits, HasNext, IsSmall, KeepsThread, after_edit, puts_of};
ghost use Rattle.mail_records.specs.Tables.{without, without_all};
ghost use Rattle.std.specs.List.Sorted.{IsStrictlyIncreasing};
ghost use Rattle.jm_base.specs.Splices.{has};
ghost use Rattle.mail_records.specs.Waiting.{IsPast, without_records};

use crate::dropped::Dropped;
use crate::{Content, Edit, apply, fits, keeps_thread};
use jm_base::{NoMemory, put_in_order};
use std::alloc::Global;
use std::marker::Model;

/// Up to so many records are dropped one by one, as a pass over all records costs more.
const FEW_DROPS: usize = 8;

// Drops an email.
fn drop_email(content: &mut Content, number: u64)
    ensures content { content.new.content ≡ record content.old.content {
      emails = without email_number number content.old.content.emails;
    } }
    ensures spare { content.old.spare ≤ content.new.spare }
    ensures email_spare { content.old.email_spare ≤ content.new.email_spare }
{
    content.emails.take_out(number);
}

// Drops the emails of these numbers, each by itself.
fn drop_few_emails(content: &mut Content, numbers: &[u64])
    ensures content { content.new.content ≡ record content.old.content {
      emails = without_all email_number numbers.now content.old.content.emails;
    } }
    ensures spare { content.old.spare ≤ content.new.spare }
    ensures email_spare { content.old.email_spare ≤ content.new.email_spare }
{
    for number in numbers {
        drop_email(content, *number);
    }
}

// Drops the emails of these numbers, which rise, in one pass.
fn drop_many_emails(content: &mut Content, numbers: &[u64])
    requires { IsStrictlyIncreasing numbers.now }
    ensures content { content.new.content ≡ record content.old.content {
      emails = without_all email_number numbers.now content.old.content.emails;
    } }
    ensures spare { content.old.spare ≤ content.new.spare }
    ensures email_spare { content.old.email_spare ≤ content.new.email_spare }
{
    content.emails.take_out_all(numbers);
}

// Drops the emails of these numbers.
fn drop_emails(content: &mut Content, dropped: Vec<u64>)
    ensures content { content.new.content ≡ record content.old.content {
      emails = without_all email_number dropped.items content.old.content.emails;
    } }
    ensures spare { content.old.spare ≤ content.new.spare }
    ensures email_spare { content.old.email_spare ≤ content.new.email_spare }
{
    if dropped.len() <= FEW_DROPS {
        drop_few_emails(content, &dropped);
        return;
    }
    let mut numbers = dropped;
    put_in_order(&mut numbers);
    drop_many_emails(content, &numbers);
}

// Drops a thread.
fn drop_thread(content: &mut Content, number: u64)
    ensures content { content.new.content ≡ record content.old.content {
      threads = without thread_number number content.old.content.threads;
    } }
    ensures spare { content.old.spare ≤ content.new.spare }
    ensures email_spare { content.old.email_spare ≤ content.new.email_spare }
{
    content.threads.take_out(number);
}

// Drops the threads of these numbers, each by itself.
fn drop_few_threads(content: &mut Content, numbers: &[u64])
    ensures content { content.new.content ≡ record content.old.content {
      threads = without_all thread_number numbers.now content.old.content.threads;
    } }
    ensures spare { content.old.spare ≤ content.new.spare }
    ensures email_spare { content.old.email_spare ≤ content.new.email_spare }
{
    for number in numbers {
        drop_thread(content, *number);
    }
}

// Drops the threads of these numbers, which rise, in one pass.
fn drop_many_threads(content: &mut Content, numbers: &[u64])
    requires { IsStrictlyIncreasing numbers.now }
    ensures content { content.new.content ≡ record content.old.content {
      threads = without_all thread_number numbers.now content.old.content.threads;
    } }
    ensures spare { content.old.spare ≤ content.new.spare }
    ensures email_spare { content.old.email_spare ≤ content.new.email_spare }
{
    content.threads.take_out_all(numbers);
}

// Drops the threads of these numbers.
fn drop_threads(content: &mut Content, dropped: Vec<u64>)
    ensures content { content.new.content ≡ record content.old.content {
      threads = without_all thread_number dropped.items content.old.content.threads;
    } }
    ensures spare { content.old.spare ≤ content.new.spare }
    ensures email_spare { content.old.email_spare ≤ content.new.email_spare }
{
    if dropped.len() <= FEW_DROPS {
        drop_few_threads(content, &dropped);
        return;
    }
    let mut numbers = dropped;
    put_in_order(&mut numbers);
    drop_many_threads(content, &numbers);
}

/// A content, and the numbers of its emails and threads that are still to be dropped. Contracts
/// see the content without them.
#[derive(Drop)]
pub(crate) struct Waiting {
    content: Content,
    emails: Dropped,
    threads: Dropped,
}

impl Model for Waiting {
    ghost use Rattle.mail_records.specs.Contents.{Held};
    ghost use Rattle.mail_records.specs.Waiting.{without_records};

    ghost Value = { Held };

    ghost view = { λ w. record {
      content = without_records w.content.content w.emails w.threads;
      spare = w.content.spare;
      email_spare = w.content.email_spare;
    } };
}

// Drops the emails that wait, unless an email's number is none of theirs.
fn settle_email(content: &mut Content, emails: &mut Dropped, number: u64)
    ensures past { has emails.new number ≡ false }
    ensures content { (threads : List ℕ) → without_records content.new.content emails.new threads
        ≡ without_records content.old.content emails.old threads }
    ensures spare { content.old.spare ≤ content.new.spare }
    ensures email_spare { content.old.email_spare ≤ content.new.email_spare }
{
    if emails.is_past(number) {
        return;
    }
    drop_emails(content, emails.take_all());
}

// Drops the threads that wait, unless a thread's number is none of theirs.
fn settle_thread(content: &mut Content, threads: &mut Dropped, number: u64)
    ensures past { has threads.new number ≡ false }
    ensures content { (emails : List ℕ) → without_records content.new.content emails threads.new
        ≡ without_records content.old.content emails threads.old }
    ensures spare { content.old.spare ≤ content.new.spare }
    ensures email_spare { content.old.email_spare ≤ content.new.email_spare }
{
    if threads.is_past(number) {
        return;
    }
    drop_threads(content, threads.take_all());
}

// The records of a content are in number order.
fn show_tables(content: &Content)
    ensures { AreTables content.now.content }
{
    let _mailboxes = content.mailboxes();
    let _emails = content.emails();
    let _threads = content.threads();
}

// Makes the content ready for an edit: what waits of its kind is dropped, unless the edit is of
// none of it.
fn settle(content: &mut Content, emails: &mut Dropped, threads: &mut Dropped, edit: &Edit)
    ensures past { IsPast edit.now emails.new threads.new }
    ensures tables { AreTables content.new.content }
    ensures content { without_records content.new.content emails.new threads.new
        ≡ without_records content.old.content emails.old threads.old }
    ensures spare { content.old.spare ≤ content.new.spare }
    ensures email_spare { content.old.email_spare ≤ content.new.email_spare }
{
    settle_record(content, emails, threads, edit);
    show_tables(content);
}

// Drops what waits of the edit's kind, unless the edit is of none of it.
fn settle_record(content: &mut Content, emails: &mut Dropped, threads: &mut Dropped, edit: &Edit)
    ensures past { IsPast edit.now emails.new threads.new }
    ensures content { without_records content.new.content emails.new threads.new
        ≡ without_records content.old.content emails.old threads.old }
    ensures spare { content.old.spare ≤ content.new.spare }
    ensures email_spare { content.old.email_spare ≤ content.new.email_spare }
{
    match edit {
        Edit::PutMailbox { .. } | Edit::DropMailbox { .. } => {}
        Edit::PutEmail { item, .. } => settle_email(content, emails, item.number),
        Edit::DropEmail { number, .. } => settle_email(content, emails, *number),
        Edit::PutThread { item, .. } => settle_thread(content, threads, item.number),
        Edit::DropThread { number } => settle_thread(content, threads, *number),
    }
}

// Notes the record that an edit drops, if it drops an email or a thread and there is memory.
// Returns whether it did.
fn note_drop(emails: &mut Dropped, threads: &mut Dropped, edit: &Edit) -> bool
    ensures noted { result ≡ true → (c : TheContent) → without_records c emails.new threads.new
        ≡ after_edit (without_records c emails.old threads.old) edit.now }
    ensures same { result ≡ false → (emails.new ≡ emails.old) × (threads.new ≡ threads.old) }
{
    match edit {
        Edit::DropEmail { number, .. } => emails.note(*number),
        Edit::DropThread { number } => threads.note(*number),
        Edit::PutMailbox { .. }
        | Edit::DropMailbox { .. }
        | Edit::PutEmail { .. }
        | Edit::PutThread { .. } => false,
    }
}

impl Waiting {
    /// Returns a content of which nothing waits. Allocates nothing.
    pub(crate) fn new(alloc: Global, content: Content) -> Waiting
        ensures { result ≡ content }
    {
        Waiting {
            content,
            emails: Dropped::new(alloc),
            threads: Dropped::new(alloc),
        }
    }

    /// Drops what waits, and returns the content.
    pub(crate) fn finish(self) -> Content
        ensures content { result.content ≡ self.content }
        ensures spare { self.spare ≤ result.spare }
        ensures email_spare { self.email_spare ≤ result.email_spare }
    {
        let Waiting {
            mut content,
            mut emails,
            mut threads,
        } = self;
        drop_emails(&mut content, emails.take_all());
        drop_threads(&mut content, threads.take_all());
        content
    }

    /// Returns whether an edit fits.
    pub(crate) fn fits(&mut self, edit: &Edit) -> bool
        ensures same { self.new.content ≡ self.old.content }
        ensures fits { IsTrue result ↔ Fits self.old.content edit.now }
    {
        settle(&mut self.content, &mut self.emails, &mut self.threads, edit);
        fits(&self.content, edit)
    }

    /// Returns whether an edit keeps the thread of its email.
    pub(crate) fn keeps_thread(&mut self, edit: &Edit) -> bool
        ensures same { self.new.content ≡ self.old.content }
        ensures keeps { IsTrue result ↔ KeepsThread self.old.content edit.now }
    {
        settle(&mut self.content, &mut self.emails, &mut self.threads, edit);
        keeps_thread(&self.content, edit)
    }

    /// Applies an edit that fits. If an allocation fails, the content may be another.
    pub(crate) fn apply(&mut self, alloc: Global, edit: &Edit) -> Result<(), NoMemory>
        requires fits { Fits self.old.content edit.now }
        requires next { HasNext self.old.content edit.now }
        ensures { OnOk result (self.new.content ≡ after_edit self.old.content edit.now) }
    {
        settle(&mut self.content, &mut self.emails, &mut self.threads, edit);
        if note_drop(&mut self.emails, &mut self.threads, edit) {
            return Ok(());
        }
        apply(alloc, &mut self.content, edit)
    }

    /// Applies an edit that fits, for which room is reserved. It needs no memory.
    pub(crate) fn apply_ready(&mut self, edit: Edit)
        requires room { 1 ≤ self.old.spare }
        requires email_room { puts_of edit ≤ self.old.email_spare }
        requires fits { Fits self.old.content edit }
        requires next { HasNext self.old.content edit }
        requires small { IsSmall edit }
        ensures content { self.new.content ≡ after_edit self.old.content edit }
        ensures spare { self.old.spare ≤ self.new.spare + 1 }
        ensures email_spare { self.old.email_spare ≤ self.new.email_spare + puts_of edit }
    {
        settle(
            &mut self.content,
            &mut self.emails,
            &mut self.threads,
            &edit,
        );
        if note_drop(&mut self.emails, &mut self.threads, &edit) {
            return;
        }
        self.content.apply_ready(edit);
    }
}
