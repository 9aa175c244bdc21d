// What a commit in memory always is: its numbers and lengths are of 64 bits, its texts UTF-8 and
// its blobs bytes.
ghost use Rattle.std.specs.List.{AllByRecursion};
ghost use Rattle.std.specs.Option.{ForSome};
ghost use Rattle.std.specs.Str.{IsUtf8};
ghost use Rattle.mail_records.specs.Commits.{IsFormed};
ghost use Rattle.record_codec.specs.Widths.{FitsIn64Bits, LengthFitsIn64Bits, AreAll, IsWideSummary, IsWideMailbox, IsWideEmail, IsWideThread, IsWideEdit};
ghost use Rattle.record_codec.specs.Offsets.{AreBytes, HasTextsInSummary, HasTextsInMailbox, HasTextsInEmail, HasTextsInEdit, HasEncoding};

use jm_base::{Bytes, Text};
use mail_records::{Commit, Edit, Email, Mailbox, Summary, Thread};

fn confirm_number_fits(number: u64) -> u64
    ensures { FitsIn64Bits number }
{
    number
}

fn confirm_optional_number_fits(number: Option<u64>)
    ensures { ForSome number FitsIn64Bits }
{
    if let Some(number) = number {
        confirm_number_fits(number);
    }
}

fn confirm_text_fits(text: &Text) -> usize
    ensures wide { LengthFitsIn64Bits text.now }
    ensures utf8 { IsUtf8 text.now }
{
    text.as_bytes().len()
}

fn confirm_optional_text_fits(text: &Option<Text>)
    ensures wide { ForSome text.now LengthFitsIn64Bits }
    ensures utf8 { ForSome text.now IsUtf8 }
{
    if let Some(text) = text {
        confirm_text_fits(text);
    }
}

fn confirm_bytes_fit(bytes: &[u8]) -> usize
    ensures wide { LengthFitsIn64Bits bytes.now }
    ensures bytes { AreBytes bytes.now }
{
    bytes.len()
}

fn confirm_numbers_fit(numbers: &[u64]) -> usize
    ensures { AreAll FitsIn64Bits numbers.now }
{
    numbers.len()
}

fn confirm_texts_fit(texts: &[Text]) -> usize
    ensures wide { AreAll LengthFitsIn64Bits texts.now }
    ensures utf8 { AllByRecursion IsUtf8 texts.now }
{
    for text in texts {
        confirm_text_fits(text);
    }
    texts.len()
}

fn confirm_blobs_fit(blobs: &[Bytes]) -> usize
    ensures wide { AreAll LengthFitsIn64Bits blobs.now }
    ensures bytes { AllByRecursion AreBytes blobs.now }
{
    for blob in blobs {
        confirm_bytes_fit(blob.as_slice());
    }
    blobs.len()
}

fn confirm_summary_fits(s: &Summary)
    ensures wide { IsWideSummary s.now }
    ensures texts { HasTextsInSummary s.now }
{
    confirm_texts_fit(s.links.as_slice());
    confirm_text_fits(&s.subject);
    confirm_text_fits(&s.from);
    confirm_text_fits(&s.to);
}

fn confirm_mailbox_fits(m: &Mailbox)
    ensures wide { IsWideMailbox m.now }
    ensures texts { HasTextsInMailbox m.now }
{
    confirm_number_fits(m.number);
    confirm_text_fits(&m.name);
    confirm_optional_number_fits(m.parent);
    confirm_optional_text_fits(&m.role);
    confirm_number_fits(m.sort_order);
    confirm_number_fits(m.total_emails);
    confirm_number_fits(m.unread_emails);
    confirm_number_fits(m.total_threads);
    confirm_number_fits(m.unread_threads);
}

fn confirm_email_fits(e: &Email)
    ensures wide { IsWideEmail e.now }
    ensures texts { HasTextsInEmail e.now }
{
    confirm_number_fits(e.number);
    confirm_number_fits(e.thread);
    confirm_number_fits(e.blob);
    confirm_numbers_fit(e.mailboxes.as_slice());
    confirm_texts_fit(e.keywords.as_slice());
    confirm_number_fits(e.size);
    confirm_summary_fits(&e.summary);
}

fn confirm_thread_fits(t: &Thread)
    ensures { IsWideThread t.now }
{
    confirm_number_fits(t.number);
    confirm_numbers_fit(t.emails.as_slice());
}

fn confirm_edit_fits(edit: &Edit)
    ensures wide { IsWideEdit edit.now }
    ensures texts { HasTextsInEdit edit.now }
{
    match edit {
        Edit::PutMailbox { item, .. } => confirm_mailbox_fits(item),
        Edit::DropMailbox { number } => {
            confirm_number_fits(*number);
        }
        Edit::PutEmail { item, .. } => confirm_email_fits(item),
        Edit::DropEmail { number, thread } => {
            confirm_number_fits(*number);
            confirm_number_fits(*thread);
        }
        Edit::PutThread { item, .. } => confirm_thread_fits(item),
        Edit::DropThread { number } => {
            confirm_number_fits(*number);
        }
    }
}

fn confirm_edits_fit(edits: &[Edit]) -> usize
    ensures wide { AreAll IsWideEdit edits.now }
    ensures texts { AllByRecursion HasTextsInEdit edits.now }
{
    for edit in edits {
        confirm_edit_fits(edit);
    }
    edits.len()
}

/// A commit in memory that is formed has an encoding: its numbers and lengths are of 64 bits, its
/// strings UTF-8 and its blobs bytes, since no other can be made.
pub fn has_encoding(commit: &Commit)
    requires { IsFormed commit.now }
    ensures { HasEncoding commit.now }
{
    confirm_number_fits(commit.stamp.pass);
    confirm_number_fits(commit.stamp.serial);
    confirm_blobs_fit(commit.blobs.as_slice());
    confirm_edits_fit(commit.edits.as_slice());
}
