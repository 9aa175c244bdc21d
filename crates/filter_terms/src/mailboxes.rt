// Whether a condition matches a mailbox (RFC 8621, section 2.3).
ghost use Rattle.std.specs.Prelude.{◌≡◌, ◌==◌, is_some, Some};
ghost use Rattle.method_args.specs.Arguments.{passes};
ghost use Rattle.filter_terms.specs.MailboxTerms.{has_role};
ghost use Rattle.filter_terms.specs.Compiled.{mailbox_matches};

use crate::conditions::MailboxCondition;
use crate::containment::contains;
use jm_base::Text;
use mail_records::Mailbox;

fn has_parent(number: u64, parent: Option<u64>) -> bool
    ensures { result ≡ passes (λ p. p == number) parent }
{
    match parent {
        Some(parent) => parent == number,
        None => false,
    }
}

fn is_role(wanted: &Text, role: &Option<Text>) -> bool
    ensures { result ≡ has_role (Some wanted.now) role.now }
{
    match role {
        Some(role) => role == wanted,
        None => false,
    }
}

fn has_role(wanted: &Option<Text>, role: &Option<Text>) -> bool
    ensures { result ≡ has_role wanted.now role.now }
{
    match wanted {
        Some(wanted) => is_role(wanted, role),
        None => role.is_none(),
    }
}

/// Returns whether a condition matches a mailbox.
pub(crate) fn match_mailbox_condition(condition: &MailboxCondition, mailbox: &Mailbox) -> bool
    ensures { result ≡ mailbox_matches mailbox.now condition.now }
{
    match condition {
        MailboxCondition::Never => false,
        MailboxCondition::HasParent(number) => has_parent(*number, mailbox.parent),
        MailboxCondition::HasNoParent => mailbox.parent.is_none(),
        MailboxCondition::Name(needle) => contains(mailbox.name.as_bytes(), needle.as_bytes()),
        MailboxCondition::Role(role) => has_role(role, &mailbox.role),
        MailboxCondition::HasAnyRole(flag) => *flag == mailbox.role.is_some(),
        MailboxCondition::IsSubscribed(flag) => *flag == mailbox.subscribed,
    }
}
