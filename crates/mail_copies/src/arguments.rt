// The arguments of an Email/copy (RFC 8620, section 5.4; RFC 8621, section 4.7).
ghost use Rattle.std.specs.Prelude.{◌≡◌, MatchResult, None, codes, option_map};
ghost use Rattle.method_args.specs.Arguments.{find_invalid};
ghost use Rattle.set_parts.specs.Outcomes.{ExplainsRejection, rejected};
ghost use Rattle.mail_copies.specs.Arguments.{forms, from_account_in, rejected_unless};

use jm_base::Text;
use jm_json::Members;
use mail_counts::SetFault;
use method_args::{Argument, Presence, Shape, find_invalid, read_text};
use set_parts::check_state;
use std::alloc::Global;

// Returns the name of the first argument in byte order that does not have its form.
fn find_invalid_argument(members: &Members) -> Option<&'static str>
    ensures { option_map (λ s. s.now) result ≡ find_invalid forms members.now }
{
    find_invalid(
        members,
        &[
            Argument {
                name: "accountId",
                presence: Presence::Required,
                shape: Shape::String,
            },
            Argument {
                name: "create",
                presence: Presence::Required,
                shape: Shape::Objects,
            },
            Argument {
                name: "destroyFromIfInState",
                presence: Presence::Nullable,
                shape: Shape::String,
            },
            Argument {
                name: "fromAccountId",
                presence: Presence::Required,
                shape: Shape::String,
            },
            Argument {
                name: "ifFromInState",
                presence: Presence::Nullable,
                shape: Shape::String,
            },
            Argument {
                name: "ifInState",
                presence: Presence::Nullable,
                shape: Shape::String,
            },
            Argument {
                name: "onSuccessDestroyOriginal",
                presence: Presence::Optional,
                shape: Shape::Flag,
            },
        ],
    )
}

// Returns Ok if a call of so many copies with these arguments is not rejected as a whole, where
// the argument of this name asks for a state.
fn check_unless(
    alloc: Global,
    members: &Members,
    copies: usize,
    state: u64,
    condition: &str,
) -> Result<(), SetFault>
    ensures { MatchResult result
        (λ _. rejected_unless condition.now copies state members.now ≡ None)
        (λ e. ExplainsRejection e (rejected_unless condition.now copies state members.now)) }
{
    match find_invalid_argument(members) {
        Some(name) => Err(SetFault::Invalid(Text::from_str(alloc, name)?)),
        None => check_state(alloc, copies, state, read_text(members, condition)),
    }
}

/// Returns Ok if a call of so many copies with these arguments is not rejected as a whole by the
/// account to which emails are copied, with this state of its emails. Fails with `Invalid` and the
/// name of the first argument that does not have its form, with `TooLarge` if there are more than
/// [`MAX_OBJECTS_PER_CALL`] copies, and with `StateMismatch` if `ifInState` is another state; the
/// first fault in this order is returned.
///
/// [`MAX_OBJECTS_PER_CALL`]: method_args::MAX_OBJECTS_PER_CALL
pub fn check_place(
    alloc: Global,
    members: &Members,
    copies: usize,
    state: u64,
) -> Result<(), SetFault>
    ensures { MatchResult result (λ _. rejected forms copies state members.now ≡ None)
        (λ e. ExplainsRejection e (rejected forms copies state members.now)) }
{
    check_unless(alloc, members, copies, state, "ifInState")
}

/// Returns Ok if a call of so many copies with these arguments is not rejected as a whole by the
/// account of the originals, with this state of its emails. Fails as [`check_place`] does, with
/// `ifFromInState` in place of `ifInState`.
pub fn check_fetch(
    alloc: Global,
    members: &Members,
    copies: usize,
    state: u64,
) -> Result<(), SetFault>
    ensures { MatchResult result
        (λ _. rejected_unless (codes "ifFromInState") copies state members.now ≡ None)
        (λ e. ExplainsRejection e
        (rejected_unless (codes "ifFromInState") copies state members.now)) }
{
    check_unless(alloc, members, copies, state, "ifFromInState")
}

/// Returns the id of the account from which emails are copied, or the empty string if none is
/// given.
pub fn read_from_account<'a>(members: &'a Members) -> &'a str
    ensures { result.now ≡ from_account_in members.now }
{
    match read_text(members, "fromAccountId") {
        Some(text) => text.as_str(),
        None => "",
    }
}
