// The records of an account (RFC 8621, sections 2, 3 and 4).

ghost use Rattle.std.specs.Prelude.{◌≡◌, IfOk};

use crate::copies::{copy_numbers, copy_optional, copy_texts};
use crate::table::Record;
use jm_base::{NoMemory, Numbers, Text, Texts, UtcDate};
use std::alloc::Global;

/// What is kept of an email's message in addition to the message itself, so that no query reads it
/// again.
#[derive(Drop)]
pub struct Summary {
    /// The message ids of the fields Message-ID, In-Reply-To and References, each once and in byte
    /// order. Emails that share one may be of one thread (RFC 8621, section 3).
    pub links: Texts,
    /// The subject without the prefixes of replies and forwards, by which threads are
    /// distinguished.
    pub subject: Text,
    /// The name, else the address, of the first author.
    pub from: Text,
    /// The name, else the address, of the first receiver.
    pub to: Text,
    /// The timestamp of the field Date, if it has one.
    pub sent: Option<UtcDate>,
    /// Whether the message has an attachment.
    pub attachment: bool,
}

/// A mailbox with its counts (RFC 8621, section 2).
#[derive(Drop)]
pub struct Mailbox {
    pub number: u64,
    pub name: Text,
    /// The number of the mailbox that this one is in.
    pub parent: Option<u64>,
    pub role: Option<Text>,
    pub sort_order: u64,
    pub subscribed: bool,
    pub total_emails: u64,
    pub unread_emails: u64,
    pub total_threads: u64,
    pub unread_threads: u64,
}

/// An email (RFC 8621, section 4).
#[derive(Drop)]
pub struct Email {
    pub number: u64,
    /// The number of its thread, which never changes.
    pub thread: u64,
    /// The number of the blob that is its message.
    pub blob: u64,
    /// The numbers of its mailboxes, rising.
    pub mailboxes: Numbers,
    /// Its keywords, in byte order.
    pub keywords: Texts,
    /// The bytes of its message.
    pub size: u64,
    /// When it was received.
    pub received: UtcDate,
    pub summary: Summary,
}

/// A thread (RFC 8621, section 3).
#[derive(Drop)]
pub struct Thread {
    pub number: u64,
    /// The numbers of its emails in the order of the timestamp received, then of number.
    pub emails: Numbers,
}

impl Summary {
    /// Returns a copy of the summary, in memory of its own.
    pub fn copy(&self, alloc: Global) -> Result<Summary, NoMemory>
        ensures { IfOk result (λ s. s ≡ self.now) }
    {
        let links = copy_texts(alloc, &self.links)?;
        let subject = self.subject.copy()?;
        let from = self.from.copy()?;
        let to = self.to.copy()?;
        Ok(Summary {
            links,
            subject,
            from,
            to,
            sent: self.sent,
            attachment: self.attachment,
        })
    }
}

impl Record for Mailbox {
    ghost number = { λ m. m.number };

    fn number(&self) -> u64 {
        self.number
    }

    fn copy(&self, _alloc: Global) -> Result<Mailbox, NoMemory> {
        let name = self.name.copy()?;
        let role = copy_optional(&self.role)?;
        Ok(Mailbox {
            number: self.number,
            name,
            parent: self.parent,
            role,
            sort_order: self.sort_order,
            subscribed: self.subscribed,
            total_emails: self.total_emails,
            unread_emails: self.unread_emails,
            total_threads: self.total_threads,
            unread_threads: self.unread_threads,
        })
    }
}

impl Record for Email {
    ghost number = { λ e. e.number };

    fn number(&self) -> u64 {
        self.number
    }

    fn copy(&self, alloc: Global) -> Result<Email, NoMemory> {
        let mailboxes = copy_numbers(alloc, &self.mailboxes)?;
        let keywords = copy_texts(alloc, &self.keywords)?;
        let summary = self.summary.copy(alloc)?;
        Ok(Email {
            number: self.number,
            thread: self.thread,
            blob: self.blob,
            mailboxes,
            keywords,
            size: self.size,
            received: self.received,
            summary,
        })
    }
}

impl Record for Thread {
    ghost number = { λ t. t.number };

    fn number(&self) -> u64 {
        self.number
    }

    fn copy(&self, alloc: Global) -> Result<Thread, NoMemory> {
        let emails = copy_numbers(alloc, &self.emails)?;
        Ok(Thread {
            number: self.number,
            emails,
        })
    }
}
