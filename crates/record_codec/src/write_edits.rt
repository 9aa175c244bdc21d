// Writes edits at the end of bytes.
ghost use Rattle.std.specs.Prelude.{◌≡◌, ◌++◌, OnOk};
ghost use Rattle.std.specs.List.{AllByRecursion};
ghost use Rattle.mail_records.specs.Commits.{IsFormedEmail, IsFormedEdit};
ghost use Rattle.record_codec.specs.Encoding.{number, truth, mailbox, email, thread, edit, listed};

use crate::write_fields::{write_number, write_truth};
use crate::write_records::{write_email, write_mailbox, write_thread};
use jm_base::NoMemory;
use mail_records::{Edit, Email, Mailbox, Thread};

fn write_mailbox_edit(
    out: &mut Vec<u8>,
    item: &Mailbox,
    was: bool,
    counts: bool,
) -> Result<(), NoMemory>
    ensures { OnOk result (out.new.items ≡ out.old.items
        ++ (mailbox item.now ++ (truth was ++ truth counts))) }
{
    write_mailbox(out, item)?;
    write_truth(out, was)?;
    write_truth(out, counts)
}

fn write_email_edit(out: &mut Vec<u8>, item: &Email, was: bool) -> Result<(), NoMemory>
    requires { IsFormedEmail item.now }
    ensures { OnOk result (out.new.items ≡ out.old.items ++ (email item.now ++ truth was)) }
{
    write_email(out, item)?;
    write_truth(out, was)
}

fn write_thread_edit(out: &mut Vec<u8>, item: &Thread, was: bool) -> Result<(), NoMemory>
    ensures { OnOk result (out.new.items ≡ out.old.items ++ (thread item.now ++ truth was)) }
{
    write_thread(out, item)?;
    write_truth(out, was)
}

fn write_two(out: &mut Vec<u8>, first: u64, second: u64) -> Result<(), NoMemory>
    ensures { OnOk result (out.new.items ≡ out.old.items ++ (number first ++ number second)) }
{
    write_number(out, first)?;
    write_number(out, second)
}

fn write_edit(out: &mut Vec<u8>, change: &Edit) -> Result<(), NoMemory>
    requires { IsFormedEdit change.now }
    ensures { OnOk result (out.new.items ≡ out.old.items ++ edit change.now) }
{
    match change {
        Edit::PutMailbox { item, was, counts } => {
            out.push(1)?;
            write_mailbox_edit(out, item, *was, *counts)
        }
        Edit::DropMailbox { number } => {
            out.push(2)?;
            write_number(out, *number)
        }
        Edit::PutEmail { item, was } => {
            out.push(3)?;
            write_email_edit(out, item, *was)
        }
        Edit::DropEmail { number, thread } => {
            out.push(4)?;
            write_two(out, *number, *thread)
        }
        Edit::PutThread { item, was } => {
            out.push(5)?;
            write_thread_edit(out, item, *was)
        }
        Edit::DropThread { number } => {
            out.push(6)?;
            write_number(out, *number)
        }
    }
}

/// Writes a list of edits: its count, and each edit with its tag.
pub fn write_edits(out: &mut Vec<u8>, edits: &[Edit]) -> Result<(), NoMemory>
    requires { AllByRecursion IsFormedEdit edits.now }
    ensures { OnOk result (out.new.items ≡ out.old.items ++ listed edit edits.now) }
{
    write_number(out, edits.len() as u64)?;
    for change in edits {
        write_edit(out, change)?;
    }
    Ok(())
}
