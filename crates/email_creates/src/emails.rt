// Makes the emails of creates, one after the other (RFC 8621, sections 4.7 and 4.8).
ghost use Rattle.std.specs.Prelude.{◌≡◌, ◌+◌, ◌<◌, ◌≤◌, ◌^◌, ◌++◌, IfOk, None, OnOk, ℕ, length};
ghost use Rattle.std.specs.Option.{option_or};
ghost use Rattle.blob_store.specs.declared.limits.TheConstants.{MAX_BLOB_BYTES_PER_ACCOUNT as most_bytes};
ghost use Rattle.mail_records.specs.Contents.{Content as TheContent};
ghost use Rattle.thread_assign.specs.Threads.{joined_thread};
ghost use Rattle.set_parts.specs.Creates.{blobs_brought};
ghost use Rattle.email_creates.specs.Emails.{Progress, after_delivered, after_made, after_rejected, email_of, next_after, next_blob, received_at, thread_for};
ghost use Rattle.email_creates.specs.Views.{CountsBlobs, Follows, HasNumbersFor, blob_of};

use crate::new_emails::add_new_email;
use crate::planner::{Planner, Setting};
use crate::properties::{NamedBlob, Sent};
use crate::response::build_record;
use blob_store::BlobList;
use jm_base::{Bytes, NoMemory, Numbers, Text, Texts, UtcDate};
use mail_records::{Content, Edit, Email, Summary};
use mail_summary::read_summary_and_receipt;
use set_parts::{CreateStep, SetError, enter_create};
use std::alloc::Global;
use thread_assign::thread_in;

// Returns when an email was received: the date that is sent, else that of the newest Received
// field, else the timestamp of the call.
fn find_received(sent: Option<UtcDate>, field: Option<UtcDate>, moment: u64) -> UtcDate
    requires { moment < 2 ^ 63 }
    ensures { result ≡ received_at moment field sent }
{
    let call = UtcDate {
        seconds: moment as i64,
    };
    match sent {
        Some(date) => date,
        None => field.unwrap_or(call),
    }
}

// Returns the thread that a new email with this summary joins, of the account's or of those that
// the call began.
fn find_thread(content: &Content, new_emails: &Content, summary: &Summary) -> Option<u64>
    ensures { result ≡ option_or (joined_thread content.now.content.emails summary.now)
        (joined_thread new_emails.now.content.emails summary.now) }
{
    match thread_in(content, summary) {
        Some(thread) => Some(thread),
        None => thread_in(new_emails, summary),
    }
}

fn count_thread(joined: Option<u64>, next: u64) -> u64
    requires { next + 1 < 2 ^ 64 }
    ensures { result ≡ next_after joined next }
{
    match joined {
        Some(_) => next,
        None => next + 1,
    }
}

// A new email, and the thread that it joins. None if it begins a thread.
struct NewEmail {
    item: Email,
    joined: Option<u64>,
}

fn build_email(
    alloc: Global,
    setting: &Setting,
    planner: &Planner,
    sent: Sent,
    blob: NamedBlob,
) -> Result<NewEmail, NoMemory>
    requires { setting.now.moment < 2 ^ 63 }
    ensures email { IfOk result
        (λ e. (s : Progress) → Follows setting.now.content.now.content planner.now s
        → e.item ≡ email_of s setting.now.moment sent (blob_of blob.entry)) }
    ensures joined { IfOk result
        (λ e. (s : Progress) → Follows setting.now.content.now.content planner.now s
        → e.joined ≡ joined_thread s.creating.content.emails e.item.summary) }
    ensures size { IfOk result (λ e. e.item.size < 2 ^ 63) }
{
    let Sent {
        keywords,
        mailboxes,
        received,
    } = sent;
    let message = read_summary_and_receipt(alloc, blob.bytes)?;
    let date = received.unwrap_or(None);
    let received = find_received(date, message.received, setting.moment);
    let summary = message.summary;
    let joined = find_thread(setting.content, &planner.new_emails, &summary);
    let item = Email {
        number: planner.next_email,
        thread: joined.unwrap_or(planner.next_thread),
        blob: blob.number,
        mailboxes: mailboxes.unwrap_or(Numbers::new(alloc)),
        keywords: keywords.unwrap_or(Texts::new(alloc)),
        size: blob.bytes.len() as u64,
        received,
        summary,
    };
    Ok(NewEmail { item, joined })
}

// Enters a new email under its creation id, with the blob that it brings, if it brings one.
fn enter_email<'a>(
    alloc: Global,
    planner: &mut Planner<'a>,
    creation: &'a Text,
    email: NewEmail,
    brought: Option<Bytes>,
) -> Result<(), NoMemory>
    requires numbers { HasNumbersFor 1 planner.old }
    requires size { email.item.size < 2 ^ 63 }
    ensures follows { OnOk result
        ((c : TheContent) (s : Progress) → Follows c planner.old s
        → email.item.number ≡ s.creating.content.next_email
        → email.item.thread ≡ thread_for s email.item.summary
        → email.joined ≡ joined_thread s.creating.content.emails email.item.summary
        → Follows c planner.new (after_made s creation.now email.item brought)) }
    ensures numbers { OnOk result
        ((n : ℕ) → HasNumbersFor (n + 1) planner.old → HasNumbersFor n planner.new) }
    ensures blobs { OnOk result
        (planner.new.creates.blobs ≡ planner.old.creates.blobs ++ blobs_brought brought) }
    ensures bytes { OnOk result (planner.new.blob_bytes ≡ planner.old.blob_bytes) }
{
    let NewEmail { item, joined } = email;
    add_new_email(alloc, &mut planner.new_emails, item.thread, &item.summary)?;
    let made = build_record(alloc, item, brought)?;
    enter_create(
        alloc,
        &mut planner.creates,
        creation,
        CreateStep::Done(made),
    )?;
    planner.next_email = planner.next_email + 1;
    planner.next_thread = count_thread(joined, planner.next_thread);
    Ok(())
}

/// Rejects a create, which changes nothing.
pub fn reject_email<'a>(
    alloc: Global,
    planner: &mut Planner<'a>,
    creation: &'a Text,
    error: SetError,
) -> Result<(), NoMemory>
    ensures follows { OnOk result
        ((c : TheContent) (s : Progress) → Follows c planner.old s
        → Follows c planner.new (after_rejected s creation.now error)) }
    ensures numbers { OnOk result
        ((n : ℕ) → HasNumbersFor (n + 1) planner.old → HasNumbersFor n planner.new) }
    ensures counted { OnOk result (CountsBlobs planner.old → CountsBlobs planner.new) }
{
    enter_create(
        alloc,
        &mut planner.creates,
        creation,
        CreateStep::Rejected(error),
    )?;
    Ok(())
}

/// Makes the email of a message that is this blob of the account, with these properties, which are
/// valid.
pub fn create_email<'a>(
    alloc: Global,
    setting: &Setting,
    planner: &mut Planner<'a>,
    creation: &'a Text,
    sent: Sent,
    message: NamedBlob,
) -> Result<(), NoMemory>
    requires numbers { HasNumbersFor 1 planner.old }
    requires moment { setting.now.moment < 2 ^ 63 }
    ensures follows { OnOk result
        ((s : Progress) → Follows setting.now.content.now.content planner.old s
        → Follows setting.now.content.now.content planner.new
        (after_made s creation.now
        (email_of s setting.now.moment sent (blob_of message.entry)) None)) }
    ensures numbers { OnOk result
        ((n : ℕ) → HasNumbersFor (n + 1) planner.old → HasNumbersFor n planner.new) }
{
    let email = build_email(alloc, setting, planner, sent, message)?;
    enter_email(alloc, planner, creation, email, None)
}

// Returns the blob that a message becomes: the next one after those of the account and those that
// the call brought.
fn number_message<'a>(blobs: &BlobList, brought: &[Bytes], bytes: &'a [u8]) -> NamedBlob<'a>
    ensures { blob_of result ≡ next_blob (blobs.now.blobs ++ brought.now) bytes.now }
{
    let count = blobs.all().len() as u64 + brought.len() as u64;
    NamedBlob {
        number: count + 1,
        bytes,
    }
}

// Builds the email of a message that becomes a blob.
fn build_delivered(
    alloc: Global,
    setting: &Setting,
    planner: &Planner,
    sent: Sent,
    bytes: &[u8],
) -> Result<NewEmail, NoMemory>
    requires { setting.now.moment < 2 ^ 63 }
    ensures email { IfOk result
        (λ e. (s : Progress) → Follows setting.now.content.now.content planner.now s
        → e.item ≡ email_of s setting.now.moment sent
        (next_blob (setting.now.blobs.now.blobs ++ s.creating.blobs) bytes.now)) }
    ensures joined { IfOk result
        (λ e. (s : Progress) → Follows setting.now.content.now.content planner.now s
        → e.joined ≡ joined_thread s.creating.content.emails e.item.summary) }
    ensures size { IfOk result (λ e. e.item.size < 2 ^ 63) }
{
    let message = number_message(setting.blobs, planner.creates.blobs.as_slice(), bytes);
    build_email(alloc, setting, planner, sent, message)
}

/// Makes the email of a message that becomes a blob of the account, for which there is room, with
/// these properties, which are valid. The message is moved.
pub fn deliver_email<'a>(
    alloc: Global,
    setting: &Setting,
    planner: &mut Planner<'a>,
    creation: &'a Text,
    sent: Sent,
    message: Bytes,
) -> Result<(), NoMemory>
    requires numbers { HasNumbersFor 1 planner.old }
    requires counted { CountsBlobs planner.old }
    requires moment { setting.now.moment < 2 ^ 63 }
    requires room { planner.old.blob_bytes + length message ≤ most_bytes }
    ensures follows { OnOk result
        ((s : Progress) → Follows setting.now.content.now.content planner.old s
        → Follows setting.now.content.now.content planner.new
        (after_delivered setting.now.blobs.now.blobs setting.now.moment s creation.now sent
        message)) }
    ensures numbers { OnOk result
        ((n : ℕ) → HasNumbersFor (n + 1) planner.old → HasNumbersFor n planner.new) }
    ensures counted { OnOk result (CountsBlobs planner.new) }
{
    let size = message.len() as u64;
    let email = build_delivered(alloc, setting, planner, sent, message.as_slice())?;
    enter_email(alloc, planner, creation, email, Some(message))?;
    planner.blob_bytes = planner.blob_bytes + size;
    Ok(())
}

/// Returns how many emails there are with those of the edits, each of which creates one.
pub fn count_emails(content: &Content, edits: &[Edit]) -> usize
    ensures { result ≡ length content.now.content.emails + length edits.now }
{
    content.emails().len() + edits.len()
}
