// The four counts of a mailbox (RFC 8621, section 2).

/// The four counts of a mailbox over some emails: how many of these are in the mailbox, how many of
/// them are unread, and how many threads have one of them there, all and unread ones.
#[derive(Clone, Copy, Debug, PartialEq, Eq)]
pub struct MailboxCounts {
    pub total_emails: u64,
    pub unread_emails: u64,
    pub total_threads: u64,
    pub unread_threads: u64,
}
