// Edits, and the commits that they come in.

ghost use Rattle.std.specs.Prelude.{◌≡◌, IfOk};
ghost use Rattle.mail_records.specs.Edits.{email_puts};

use crate::{Email, Mailbox, Record, Thread};
use jm_base::{Blobs, Kind, NoMemory, Sequence};
use std::alloc::Global;

/// One change of one record. `was` says whether a record of this number was there before.
#[derive(Drop)]
pub enum Edit {
    /// The mailbox is now this one. `counts` says that it was there, and that only its four counts
    /// changed.
    PutMailbox {
        item: Mailbox,
        was: bool,
        counts: bool,
    },
    /// The mailbox is gone.
    DropMailbox {
        number: u64,
    },
    /// The email is now this one.
    PutEmail {
        item: Email,
        was: bool,
    },
    /// The email is gone, which was of this thread.
    DropEmail {
        number: u64,
        thread: u64,
    },
    /// The thread is now this one.
    PutThread {
        item: Thread,
        was: bool,
    },
    /// The thread is gone.
    DropThread {
        number: u64,
    },
}

impl Edit {
    ghost use Rattle.mail_records.specs.Edits.{kind_of, puts_of};

    /// Returns the kind of the record that the edit puts or drops.
    pub fn kind(&self) -> Kind
        ensures { result ≡ kind_of self.now }
    {
        match self {
            Edit::PutMailbox { .. } | Edit::DropMailbox { .. } => Kind::Mailbox,
            Edit::PutEmail { .. } | Edit::DropEmail { .. } => Kind::Email,
            Edit::PutThread { .. } | Edit::DropThread { .. } => Kind::Thread,
        }
    }

    // Returns how many emails the edit puts: one or none.
    fn count_puts(&self) -> usize
        ensures { result ≡ puts_of self.now }
    {
        match self {
            Edit::PutEmail { .. } => 1,
            Edit::PutMailbox { .. }
            | Edit::DropMailbox { .. }
            | Edit::DropEmail { .. }
            | Edit::PutThread { .. }
            | Edit::DropThread { .. } => 0,
        }
    }

    /// Returns a copy of the edit, in memory of its own.
    pub fn copy(&self, alloc: Global) -> Result<Edit, NoMemory>
        ensures { IfOk result (λ e. e ≡ self.now) }
    {
        match self {
            Edit::PutMailbox { item, was, counts } => Ok(Edit::PutMailbox {
                item: item.copy(alloc)?,
                was: *was,
                counts: *counts,
            }),
            Edit::DropMailbox { number } => Ok(Edit::DropMailbox { number: *number }),
            Edit::PutEmail { item, was } => Ok(Edit::PutEmail {
                item: item.copy(alloc)?,
                was: *was,
            }),
            Edit::DropEmail { number, thread } => Ok(Edit::DropEmail {
                number: *number,
                thread: *thread,
            }),
            Edit::PutThread { item, was } => Ok(Edit::PutThread {
                item: item.copy(alloc)?,
                was: *was,
            }),
            Edit::DropThread { number } => Ok(Edit::DropThread { number: *number }),
        }
    }
}

/// Returns how many of these edits put an email.
pub(crate) fn count_email_puts(edits: &[Edit]) -> usize
    ensures { result ≡ email_puts edits.now }
{
    let mut count = 0;
    for edit in edits {
        count += edit.count_puts();
    }
    count
}

/// A list of edits, in the order in which they are applied.
pub type Edits = Sequence<Edit>;

/// Who made an entry of a history: the number of the pass under which it was made, and its number
/// among those made under that pass, from 1.
#[derive(Clone, Copy, Debug, PartialEq, Eq)]
pub struct Stamp {
    pub pass: u64,
    pub serial: u64,
}

/// One change of an account: the blobs that it brings, its edits and its stamp.
#[derive(Drop)]
pub struct Commit {
    pub blobs: Blobs,
    pub edits: Edits,
    pub stamp: Stamp,
}

fn collect_edit_copies(alloc: Global, edits: &[Edit]) -> Result<Vec<Edit>, NoMemory>
    ensures { IfOk result (λ v. v.items ≡ edits.now) }
{
    let mut all = Vec::with_capacity(alloc, edits.len())?;
    for edit in edits {
        all.push(edit.copy(alloc)?)?;
    }
    Ok(all)
}

/// Returns a copy of the edits, in memory of its own.
pub fn copy_edits(alloc: Global, edits: &[Edit]) -> Result<Edits, NoMemory>
    ensures { IfOk result (λ e. e ≡ edits.now) }
{
    Ok(Edits::from_vec(collect_edit_copies(alloc, edits)?))
}
