// The counts of mailboxes over some emails, at the cost of these emails alone.
ghost use Rattle.std.specs.Prelude.{◌≡◌, ◌++◌, ℕ, IfOk, OnOk, bytes_eq, filter, map};
ghost use Rattle.std.specs.List.{list_any};
ghost use Rattle.mail_records.specs.Commits.{NumbersRise};
ghost use Rattle.mail_records.specs.Contents.{email_number};
ghost use Rattle.mail_records.specs.Tables.{IsTable};
ghost use Rattle.mail_counts.specs.Counts.{email_thread, has_keyword, is_unread};
ghost use Rattle.mail_counts.specs.DerivedEdits.{are_equal_counts, counts_over, own_counts};
ghost use Rattle.mail_counts.specs.Members.{mailbox_member, mailbox_members, member_group, tallied_counts};
ghost use Rattle.mail_counts.specs.Touched.{emails_of, is_one_of};

use crate::MailboxCounts;
use crate::following::{are_equal_counts, copy_counts};
use crate::members::{Member, Members};
use crate::touched::{is_one_of, put_in_order};
use jm_base::{NoMemory, Text};
use mail_records::{Email, Mailbox};
use std::alloc::Global;
use std::marker::Model;

// Returns whether a text is one of these.
fn has_text(texts: &[Text], text: &str) -> bool
    ensures { result ≡ list_any (λ own. bytes_eq own text.now) texts.now }
{
    for own in texts {
        if own.as_str() == text {
            return true;
        }
    }
    false
}

// Returns whether an email has a keyword.
fn has_keyword(email: &Email, keyword: &str) -> bool
    ensures { result ≡ has_keyword keyword.now email.now }
{
    has_text(email.keywords.as_slice(), keyword)
}

// Returns whether an email is unread: it has neither `$seen` nor `$draft`.
fn is_unread(email: &Email) -> bool
    ensures { result ≡ is_unread email.now }
{
    !has_keyword(email, "$seen") && !has_keyword(email, "$draft")
}

// Returns the unread ones of emails.
fn collect_unread<'a>(alloc: Global, emails: &[&'a Email]) -> Result<Vec<&'a Email>, NoMemory>
    ensures { IfOk result (λ v. map (λ r. r.now) v.items
        ≡ filter is_unread (map (λ r. r.now) emails.now)) }
{
    let mut unread = Vec::new(alloc);
    for email in emails {
        if is_unread(email) {
            unread.push(*email)?;
        }
    }
    Ok(unread)
}

// Returns those of emails that are of these threads.
fn of_threads<'a>(
    alloc: Global,
    emails: &[&'a Email],
    threads: &[u64],
) -> Result<Vec<&'a Email>, NoMemory>
    requires rise { NumbersRise threads.now }
    ensures { IfOk result (λ v. map (λ r. r.now) v.items
        ≡ emails_of threads.now (map (λ r. r.now) emails.now)) }
{
    let mut of_these = Vec::new(alloc);
    for email in emails {
        if is_one_of(threads, email.thread) {
            of_these.push(*email)?;
        }
    }
    Ok(of_these)
}

// Returns the threads of emails.
fn collect_threads(alloc: Global, emails: &[&Email]) -> Result<Vec<u64>, NoMemory>
    ensures { IfOk result (λ v. v.items ≡ map email_thread (map (λ r. r.now) emails.now)) }
{
    let mut threads = Vec::new(alloc);
    for email in emails {
        threads.push(email.thread)?;
    }
    Ok(threads)
}

// Adds a number to the groups of these mailboxes.
fn add_to_groups(members: &mut Vec<Member>, number: u64, mailboxes: &[u64]) -> Result<(), NoMemory>
    ensures { OnOk result (members.new.items
        ≡ members.old.items ++ map (mailbox_member number) mailboxes.now) }
{
    for mailbox in mailboxes {
        members.push(Member {
            group: *mailbox,
            received: 0,
            number,
        })?;
    }
    Ok(())
}

// Returns the emails in the groups of their mailboxes.
fn group_emails_by_mailbox(alloc: Global, emails: &[&Email]) -> Result<Vec<Member>, NoMemory>
    ensures { IfOk result (λ v. v.items
        ≡ mailbox_members email_number (map (λ r. r.now) emails.now)) }
{
    let mut members = Vec::new(alloc);
    for email in emails {
        add_to_groups(&mut members, email.number, email.mailboxes.as_slice())?;
    }
    Ok(members)
}

// Returns the threads of emails in the groups of the emails' mailboxes.
fn group_threads_by_mailbox(alloc: Global, emails: &[&Email]) -> Result<Vec<Member>, NoMemory>
    ensures { IfOk result (λ v. v.items
        ≡ mailbox_members email_thread (map (λ r. r.now) emails.now)) }
{
    let mut members = Vec::new(alloc);
    for email in emails {
        add_to_groups(&mut members, email.thread, email.mailboxes.as_slice())?;
    }
    Ok(members)
}

// Adds the groups of members.
fn add_groups(numbers: &mut Vec<u64>, members: &[Member]) -> Result<(), NoMemory>
    ensures { OnOk result (numbers.new.items
        ≡ numbers.old.items ++ map member_group members.now) }
{
    for member in members {
        numbers.push(member.group)?;
    }
    Ok(())
}

/// The counts of each mailbox over some emails (RFC 8621, section 2).
#[derive(Drop)]
pub struct Tally {
    total_emails: Members,
    unread_emails: Members,
    total_threads: Members,
    unread_threads: Members,
}

impl Model for Tally {
    ghost use Rattle.mail_counts.specs.Members.{Tallied};

    ghost Value = { Tallied };

    ghost view = { λ t. record {
      total_emails = t.total_emails;
      unread_emails = t.unread_emails;
      total_threads = t.total_threads;
      unread_threads = t.unread_threads;
    } };
}

impl Tally {
    /// Counts emails, which are in number order. Its cost is that of sorting them and their
    /// mailboxes.
    pub fn new(alloc: Global, emails: &[&Email]) -> Result<Tally, NoMemory>
        requires table { IsTable email_number (map (λ r. r.now) emails.now) }
        ensures { IfOk result (λ t. (m : ℕ) → tallied_counts t m
            ≡ counts_over (map (λ r. r.now) emails.now) m) }
    {
        let unread = collect_unread(alloc, emails)?;
        let mut threads = collect_threads(alloc, &unread)?;
        put_in_order(&mut threads);
        let of_unread = of_threads(alloc, emails, &threads)?;
        let total_emails = Members::new(group_emails_by_mailbox(alloc, emails)?);
        let unread_emails = Members::new(group_emails_by_mailbox(alloc, &unread)?);
        let total_threads = Members::new(group_threads_by_mailbox(alloc, emails)?);
        let unread_threads = Members::new(group_threads_by_mailbox(alloc, &of_unread)?);
        Ok(Tally {
            total_emails,
            unread_emails,
            total_threads,
            unread_threads,
        })
    }

    /// Returns the counts of a mailbox: none where no email is in it.
    pub fn counts(&self, mailbox: u64) -> MailboxCounts
        ensures { result ≡ tallied_counts self.now mailbox }
    {
        MailboxCounts {
            total_emails: self.total_emails.of_group(mailbox).len() as u64,
            unread_emails: self.unread_emails.of_group(mailbox).len() as u64,
            total_threads: self.total_threads.of_group(mailbox).len() as u64,
            unread_threads: self.unread_threads.of_group(mailbox).len() as u64,
        }
    }

    /// Returns whether a mailbox's own counts are these.
    pub fn has_counts(&self, mailbox: &Mailbox) -> bool
        ensures { result ≡ are_equal_counts (own_counts mailbox.now)
            (tallied_counts self.now mailbox.now.number) }
    {
        are_equal_counts(&copy_counts(mailbox), &self.counts(mailbox.number))
    }

    /// Adds the numbers of the mailboxes that emails are in.
    pub(crate) fn add_mailboxes(&self, numbers: &mut Vec<u64>) -> Result<(), NoMemory>
        ensures { OnOk result (numbers.new.items
            ≡ numbers.old.items ++ map member_group self.now.total_emails) }
    {
        add_groups(numbers, self.total_emails.as_slice())
    }
}
