// The entries of the orders and of the list of blobs that a content keeps next to its tables.
ghost use Rattle.std.specs.Prelude.{◌≡◌, IfOk};

use crate::table::Record;
use jm_base::NoMemory;
use std::alloc::Global;

/// A mailbox in the order of mailboxes by parent and name.
#[derive(Clone, Copy, Debug, PartialEq, Eq)]
pub struct Named {
    /// The number of the mailbox.
    pub mailbox: u64,
}

/// A mailbox in the order of mailboxes by role.
#[derive(Clone, Copy, Debug, PartialEq, Eq)]
pub struct Roled {
    /// The number of the mailbox.
    pub mailbox: u64,
}

/// An email in the order of emails by the time received.
#[derive(Clone, Copy, Debug, PartialEq, Eq)]
pub struct Dated {
    /// When the email was received, in Unix seconds.
    pub received: i64,
    /// The number of the email.
    pub email: u64,
}

/// An email in the order of emails by thread and the time received.
#[derive(Clone, Copy, Debug, PartialEq, Eq)]
pub struct Threaded {
    /// The number of the email's thread.
    pub thread: u64,
    /// When the email was received, in Unix seconds.
    pub received: i64,
    /// The number of the email.
    pub email: u64,
}

/// An email in the order of emails by mailbox and the time received. An email has one entry for
/// each of its mailboxes.
#[derive(Clone, Copy, Debug, PartialEq, Eq)]
pub struct Placed {
    /// The number of the mailbox.
    pub mailbox: u64,
    /// When the email was received, in Unix seconds.
    pub received: i64,
    /// The number of the email.
    pub email: u64,
}

/// An email in the order of emails by link. An email has one entry for each link of its summary.
#[derive(Clone, Copy, Debug, PartialEq, Eq)]
pub struct Linked {
    /// The number of the email.
    pub email: u64,
    /// The index of the link in the email's summary.
    pub place: u64,
}

/// An email in the list of blobs by email.
#[derive(Clone, Copy, Debug, PartialEq, Eq)]
pub struct EmailBlob {
    /// The number of the email.
    pub email: u64,
    /// The number of the blob that is its message.
    pub blob: u64,
}

impl Record for EmailBlob {
    ghost number = { λ b. b.email };

    fn number(&self) -> u64 {
        self.email
    }

    fn copy(&self, _alloc: Global) -> Result<EmailBlob, NoMemory> {
        Ok(*self)
    }
}
