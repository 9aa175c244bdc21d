// The arguments of a Mailbox/set (RFC 8620, section 5.3; RFC 8621, section 2.5).
ghost use Rattle.std.specs.Prelude.{◌≡◌, MatchResult, None};
ghost use Rattle.mailbox_set.specs.Sets.{mailbox_set_forms, removes_emails};
ghost use Rattle.set_parts.specs.Outcomes.{ExplainsRejection, rejected};

use jm_json::Members;
use mail_counts::SetFault;
use method_args::{Argument, Presence, Shape, read_flag};
use set_parts::check_set;
use std::alloc::Global;

/// Returns Ok if a set of so many objects with these arguments is not rejected as a whole, in an
/// account with this state of the mailboxes.
pub fn check_arguments(
    alloc: Global,
    members: &Members,
    objects: usize,
    state: u64,
) -> Result<(), SetFault>
    ensures { MatchResult result
        (λ _. rejected mailbox_set_forms objects state members.now ≡ None)
        (λ e. ExplainsRejection e (rejected mailbox_set_forms objects state members.now)) }
{
    let own = [Argument {
        name: "onDestroyRemoveEmails",
        presence: Presence::Optional,
        shape: Shape::Flag,
    }];
    check_set(alloc, &own, members, objects, state)
}

/// Reads whether destroys remove the emails of the mailboxes (RFC 8621, section 2.5:
/// `onDestroyRemoveEmails`).
pub fn read_removes_emails(members: &Members) -> bool
    ensures { result ≡ removes_emails members.now }
{
    match read_flag(members, "onDestroyRemoveEmails") {
        Some(flag) => flag,
        None => false,
    }
}
