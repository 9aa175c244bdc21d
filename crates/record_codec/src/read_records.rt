// Reads records and edits from the start of bytes.
ghost use Rattle.record_codec.specs.Reading.{Gives, items_at};
ghost use Rattle.record_codec.specs.LastFields.{email_end_at, end_of_email, end_of_mailbox, end_of_summary, mailbox_end_at, numbers_of_counts, summary_end_at};
ghost use Rattle.record_codec.specs.Readers.{any_at, counts_at, same, summary_at, mailbox_at, email_at, thread_at, put_mailbox_at, drop_mailbox_at, put_email_at, drop_email_at, put_thread_at, drop_thread_at, edit_at, edits_at};

use crate::faults::Misread;
use crate::read_fields::{
    read_date, read_number, read_optional_date, read_optional_number, read_tag, read_truth,
};
use crate::read_lists::{read_numbers, read_rising_numbers, read_rising_texts};
use crate::read_texts::{read_optional_text, read_text};
use jm_base::{Text, Texts, UtcDate};
use mail_records::{Edit, Edits, Email, Mailbox, Summary, Thread};
use std::alloc::Global;

// The fields of a summary after its author.
#[derive(Drop)]
struct SummaryEnd {
    to: Text,
    sent: Option<UtcDate>,
    attachment: bool,
}

fn read_summary_end(alloc: Global, bytes: &[u8]) -> Result<(SummaryEnd, &[u8]), Misread>
    ensures { Gives (λ x. (end_of_summary x.0, x.1.now)) result (summary_end_at bytes.now) }
{
    let (to, rest) = read_text(alloc, bytes)?;
    let (sent, rest) = read_optional_date(rest)?;
    let (attachment, rest) = read_truth(rest)?;
    let end = SummaryEnd {
        to,
        sent,
        attachment,
    };
    Ok((end, rest))
}

fn read_summary(alloc: Global, bytes: &[u8]) -> Result<(Summary, &[u8]), Misread>
    ensures { Gives (λ x. (x.0, x.1.now)) result (summary_at bytes.now) }
{
    let (links, rest) = read_rising_texts(alloc, bytes)?;
    let (subject, rest) = read_text(alloc, rest)?;
    let (from, rest) = read_text(alloc, rest)?;
    let (end, rest) = read_summary_end(alloc, rest)?;
    let summary = Summary {
        links,
        subject,
        from,
        to: end.to,
        sent: end.sent,
        attachment: end.attachment,
    };
    Ok((summary, rest))
}

// The four counts of a mailbox.
#[derive(Clone, Copy)]
struct Counts {
    total_emails: u64,
    unread_emails: u64,
    total_threads: u64,
    unread_threads: u64,
}

fn read_counts(bytes: &[u8]) -> Result<(Counts, &[u8]), Misread>
    ensures { Gives (λ x. (numbers_of_counts x.0, x.1.now)) result (counts_at bytes.now) }
{
    let (total_emails, rest) = read_number(bytes)?;
    let (unread_emails, rest) = read_number(rest)?;
    let (total_threads, rest) = read_number(rest)?;
    let (unread_threads, rest) = read_number(rest)?;
    let counts = Counts {
        total_emails,
        unread_emails,
        total_threads,
        unread_threads,
    };
    Ok((counts, rest))
}

// The fields of a mailbox after its parent.
#[derive(Drop)]
struct MailboxEnd {
    role: Option<Text>,
    sort_order: u64,
    subscribed: bool,
    counts: Counts,
}

fn read_mailbox_end(alloc: Global, bytes: &[u8]) -> Result<(MailboxEnd, &[u8]), Misread>
    ensures { Gives (λ x. (end_of_mailbox x.0, x.1.now)) result (mailbox_end_at bytes.now) }
{
    let (role, rest) = read_optional_text(alloc, bytes)?;
    let (sort_order, rest) = read_number(rest)?;
    let (subscribed, rest) = read_truth(rest)?;
    let (counts, rest) = read_counts(rest)?;
    let end = MailboxEnd {
        role,
        sort_order,
        subscribed,
        counts,
    };
    Ok((end, rest))
}

fn read_mailbox(alloc: Global, bytes: &[u8]) -> Result<(Mailbox, &[u8]), Misread>
    ensures { Gives (λ x. (x.0, x.1.now)) result (mailbox_at bytes.now) }
{
    let (number, rest) = read_number(bytes)?;
    let (name, rest) = read_text(alloc, rest)?;
    let (parent, rest) = read_optional_number(rest)?;
    let (end, rest) = read_mailbox_end(alloc, rest)?;
    let mailbox = Mailbox {
        number,
        name,
        parent,
        role: end.role,
        sort_order: end.sort_order,
        subscribed: end.subscribed,
        total_emails: end.counts.total_emails,
        unread_emails: end.counts.unread_emails,
        total_threads: end.counts.total_threads,
        unread_threads: end.counts.unread_threads,
    };
    Ok((mailbox, rest))
}

// The fields of an email after its mailboxes.
#[derive(Drop)]
struct EmailEnd {
    keywords: Texts,
    size: u64,
    received: UtcDate,
    summary: Summary,
}

fn read_email_end(alloc: Global, bytes: &[u8]) -> Result<(EmailEnd, &[u8]), Misread>
    ensures { Gives (λ x. (end_of_email x.0, x.1.now)) result (email_end_at bytes.now) }
{
    let (keywords, rest) = read_rising_texts(alloc, bytes)?;
    let (size, rest) = read_number(rest)?;
    let (received, rest) = read_date(rest)?;
    let (summary, rest) = read_summary(alloc, rest)?;
    let end = EmailEnd {
        keywords,
        size,
        received,
        summary,
    };
    Ok((end, rest))
}

fn read_email(alloc: Global, bytes: &[u8]) -> Result<(Email, &[u8]), Misread>
    ensures { Gives (λ x. (x.0, x.1.now)) result (email_at bytes.now) }
{
    let (number, rest) = read_number(bytes)?;
    let (thread, rest) = read_number(rest)?;
    let (blob, rest) = read_number(rest)?;
    let (mailboxes, rest) = read_rising_numbers(alloc, rest)?;
    let (end, rest) = read_email_end(alloc, rest)?;
    let email = Email {
        number,
        thread,
        blob,
        mailboxes,
        keywords: end.keywords,
        size: end.size,
        received: end.received,
        summary: end.summary,
    };
    Ok((email, rest))
}

fn read_thread(alloc: Global, bytes: &[u8]) -> Result<(Thread, &[u8]), Misread>
    ensures { Gives (λ x. (x.0, x.1.now)) result (thread_at bytes.now) }
{
    let (number, rest) = read_number(bytes)?;
    let (emails, rest) = read_numbers(alloc, rest)?;
    Ok((Thread { number, emails }, rest))
}

fn read_put_mailbox(alloc: Global, bytes: &[u8]) -> Result<(Edit, &[u8]), Misread>
    ensures { Gives (λ x. (x.0, x.1.now)) result (put_mailbox_at bytes.now) }
{
    let (item, rest) = read_mailbox(alloc, bytes)?;
    let (was, rest) = read_truth(rest)?;
    let (counts, rest) = read_truth(rest)?;
    Ok((Edit::PutMailbox { item, was, counts }, rest))
}

fn read_put_email(alloc: Global, bytes: &[u8]) -> Result<(Edit, &[u8]), Misread>
    ensures { Gives (λ x. (x.0, x.1.now)) result (put_email_at bytes.now) }
{
    let (item, rest) = read_email(alloc, bytes)?;
    let (was, rest) = read_truth(rest)?;
    Ok((Edit::PutEmail { item, was }, rest))
}

fn read_put_thread(alloc: Global, bytes: &[u8]) -> Result<(Edit, &[u8]), Misread>
    ensures { Gives (λ x. (x.0, x.1.now)) result (put_thread_at bytes.now) }
{
    let (item, rest) = read_thread(alloc, bytes)?;
    let (was, rest) = read_truth(rest)?;
    Ok((Edit::PutThread { item, was }, rest))
}

fn read_drop_email(bytes: &[u8]) -> Result<(Edit, &[u8]), Misread>
    ensures { Gives (λ x. (x.0, x.1.now)) result (drop_email_at bytes.now) }
{
    let (number, rest) = read_number(bytes)?;
    let (thread, rest) = read_number(rest)?;
    Ok((Edit::DropEmail { number, thread }, rest))
}

fn read_drop_mailbox(bytes: &[u8]) -> Result<(Edit, &[u8]), Misread>
    ensures { Gives (λ x. (x.0, x.1.now)) result (drop_mailbox_at bytes.now) }
{
    let (number, rest) = read_number(bytes)?;
    Ok((Edit::DropMailbox { number }, rest))
}

fn read_drop_thread(bytes: &[u8]) -> Result<(Edit, &[u8]), Misread>
    ensures { Gives (λ x. (x.0, x.1.now)) result (drop_thread_at bytes.now) }
{
    let (number, rest) = read_number(bytes)?;
    Ok((Edit::DropThread { number }, rest))
}

fn read_edit(alloc: Global, bytes: &[u8]) -> Result<(Edit, &[u8]), Misread>
    ensures { Gives (λ x. (x.0, x.1.now)) result (edit_at bytes.now) }
{
    let (tag, rest) = read_tag(6, bytes)?;
    match tag {
        1 => read_put_mailbox(alloc, rest),
        2 => read_drop_mailbox(rest),
        3 => read_put_email(alloc, rest),
        4 => read_drop_email(rest),
        5 => read_put_thread(alloc, rest),
        _ => read_drop_thread(rest),
    }
}

fn read_counted_edits(
    alloc: Global,
    count: u64,
    bytes: &[u8],
) -> Result<(Vec<Edit>, &[u8]), Misread>
    ensures { Gives (λ x. (x.0.items, x.1.now)) result
        (items_at (any_at edit_at) same tt count bytes.now) }
{
    let mut edits = Vec::new(alloc);
    let mut rest = bytes;
    for _ in 0..count {
        let (edit, after) = read_edit(alloc, rest)?;
        edits.push(edit)?;
        rest = after;
    }
    Ok((edits, rest))
}

/// Reads a list of edits from the start of the bytes; returns it and the bytes after it.
pub fn read_edits(alloc: Global, bytes: &[u8]) -> Result<(Edits, &[u8]), Misread>
    ensures { Gives (λ x. (x.0, x.1.now)) result (edits_at bytes.now) }
{
    let (count, rest) = read_number(bytes)?;
    let (edits, rest) = read_counted_edits(alloc, count, rest)?;
    Ok((Edits::from_vec(edits), rest))
}
