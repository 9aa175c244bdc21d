// The arguments of an Email/import (RFC 8621, section 4.8).
ghost use Rattle.std.specs.Prelude.{◌≡◌, MatchResult, None};
ghost use Rattle.set_parts.specs.Outcomes.{ExplainsRejection, rejected};
ghost use Rattle.mail_import.specs.Arguments.{forms};

use jm_json::Members;
use mail_counts::SetFault;
use method_args::{Argument, Presence, Shape};
use set_parts::check_call;
use std::alloc::Global;

/// Returns Ok if a call of so many imports with these arguments is not rejected as a whole, in an
/// account with this state of the emails; it fails as [`check_call`] does.
pub fn check_arguments(
    alloc: Global,
    members: &Members,
    imports: usize,
    state: u64,
) -> Result<(), SetFault>
    ensures { MatchResult result (λ _. rejected forms imports state members.now ≡ None)
        (λ e. ExplainsRejection e (rejected forms imports state members.now)) }
{
    check_call(
        alloc,
        &[
            Argument {
                name: "accountId",
                presence: Presence::Required,
                shape: Shape::String,
            },
            Argument {
                name: "emails",
                presence: Presence::Required,
                shape: Shape::Objects,
            },
            Argument {
                name: "ifInState",
                presence: Presence::Nullable,
                shape: Shape::String,
            },
        ],
        members,
        imports,
        state,
    )
}
