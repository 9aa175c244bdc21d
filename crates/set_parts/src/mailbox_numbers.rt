// The mailboxes that an object may name, by their numbers.
ghost use Rattle.std.specs.Prelude.{◌≡◌, ℕ, List, map};
ghost use Rattle.mail_counts.specs.Touched.{is_one_of};
ghost use Rattle.mail_records.specs.Contents.{mailbox_number};

use mail_records::Content;

/// Mailboxes that are asked for by their numbers: those of an account, or those that a client
/// keeps.
pub trait MailboxNumbers {
    ghost numbers: { Self → List ℕ };

    /// Returns whether there is a mailbox of this number.
    fn has(&self, number: u64) -> bool
        ensures { result ≡ is_one_of (numbers self.now) number };
}

impl MailboxNumbers for Content {
    ghost numbers = { λ c. map mailbox_number c.content.mailboxes };

    fn has(&self, number: u64) -> bool {
        self.mailbox(number).is_some()
    }
}
