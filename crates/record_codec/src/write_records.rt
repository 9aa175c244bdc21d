// Writes records at the end of bytes.
ghost use Rattle.std.specs.Prelude.{◌≡◌, ◌++◌, OnOk};
ghost use Rattle.std.specs.Option.{ForSome};
ghost use Rattle.jm_base.specs.UtcDates.{IsUtcDate};
ghost use Rattle.mail_records.specs.Commits.{IsFormedEmail};
ghost use Rattle.record_codec.specs.Encoding.{summary, subscribed_and_counts, mailbox, message, email, thread};

use crate::write_fields::{
    write_blob, write_date, write_number, write_numbers, write_optional_date,
    write_optional_number, write_optional_text, write_texts, write_truth,
};
use jm_base::NoMemory;
use mail_records::{Email, Mailbox, Summary, Thread};

fn write_summary(out: &mut Vec<u8>, s: &Summary) -> Result<(), NoMemory>
    requires { ForSome s.now.sent IsUtcDate }
    ensures { OnOk result (out.new.items ≡ out.old.items ++ summary s.now) }
{
    write_texts(out, s.links.as_slice())?;
    write_blob(out, s.subject.as_bytes())?;
    write_blob(out, s.from.as_bytes())?;
    write_blob(out, s.to.as_bytes())?;
    write_optional_date(out, &s.sent)?;
    write_truth(out, s.attachment)
}

fn write_subscribed_and_counts(out: &mut Vec<u8>, m: &Mailbox) -> Result<(), NoMemory>
    ensures { OnOk result (out.new.items ≡ out.old.items ++ subscribed_and_counts m.now) }
{
    write_truth(out, m.subscribed)?;
    write_number(out, m.total_emails)?;
    write_number(out, m.unread_emails)?;
    write_number(out, m.total_threads)?;
    write_number(out, m.unread_threads)
}

/// Writes a mailbox at the end of the bytes: its fields in their order (RFC 8621, section 2).
pub fn write_mailbox(out: &mut Vec<u8>, m: &Mailbox) -> Result<(), NoMemory>
    ensures { OnOk result (out.new.items ≡ out.old.items ++ mailbox m.now) }
{
    write_number(out, m.number)?;
    write_blob(out, m.name.as_bytes())?;
    write_optional_number(out, m.parent)?;
    write_optional_text(out, &m.role)?;
    write_number(out, m.sort_order)?;
    write_subscribed_and_counts(out, m)
}

fn write_message(out: &mut Vec<u8>, e: &Email) -> Result<(), NoMemory>
    requires { IsFormedEmail e.now }
    ensures { OnOk result (out.new.items ≡ out.old.items ++ message e.now) }
{
    write_number(out, e.size)?;
    write_date(out, &e.received)?;
    write_summary(out, &e.summary)
}

/// Writes an email at the end of the bytes: its fields in their order (RFC 8621, section 4).
pub fn write_email(out: &mut Vec<u8>, e: &Email) -> Result<(), NoMemory>
    requires { IsFormedEmail e.now }
    ensures { OnOk result (out.new.items ≡ out.old.items ++ email e.now) }
{
    write_number(out, e.number)?;
    write_number(out, e.thread)?;
    write_number(out, e.blob)?;
    write_numbers(out, e.mailboxes.as_slice())?;
    write_texts(out, e.keywords.as_slice())?;
    write_message(out, e)
}

/// Writes a thread at the end of the bytes: its number, and the list of its emails (RFC 8621,
/// section 3).
pub fn write_thread(out: &mut Vec<u8>, t: &Thread) -> Result<(), NoMemory>
    ensures { OnOk result (out.new.items ≡ out.old.items ++ thread t.now) }
{
    write_number(out, t.number)?;
    write_numbers(out, t.emails.as_slice())
}
