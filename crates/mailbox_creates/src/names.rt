// The names of siblings and the roles that are in use: of the mailboxes that a set created, in sets
// of texts, and of all others, which the orders of the content find.
ghost use Rattle.std.specs.Prelude.{false, not, ℕ, ◌&&◌, ◌||◌, ◌≡◌};
ghost use Rattle.mail_records.specs.declared.entries.Named.{Named as TheNamed};
ghost use Rattle.mail_records.specs.declared.entries.Roled.{Roled as TheRoled};
ghost use Rattle.mailbox_creates.specs.Views.{is_new};
ghost use Rattle.std.specs.List.{list_any};

use mail_records::{Named, Roled};

/// Returns whether one of these mailboxes has a number that a set didn't give, which began with the
/// first number and has come to the next one.
pub fn has_other_sibling(siblings: &[Named], first: u64, next: u64) -> bool
    ensures { result ≡ list_any (λ (n : TheNamed). not (is_new first next n.mailbox)) siblings.now }
{
    for sibling in siblings {
        if sibling.mailbox < first || next <= sibling.mailbox {
            return true;
        }
    }
    false
}

/// Returns whether one of these mailboxes with a role has a number that a set didn't give, which
/// began with the first number and has come to the next one.
pub fn has_other_role(mailboxes: &[Roled], first: u64, next: u64) -> bool
    ensures { result ≡ list_any
        (λ (r : TheRoled). not (is_new first next r.mailbox)) mailboxes.now }
{
    for mailbox in mailboxes {
        if mailbox.mailbox < first || next <= mailbox.mailbox {
            return true;
        }
    }
    false
}
