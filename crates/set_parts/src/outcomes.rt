// Whether a call is rejected as a whole (RFC 8620, sections 3.6.2 and 5.3).
ghost use Rattle.std.specs.Prelude.{◌≡◌, ◌∷◌, ◌++◌, [], IfOk, MatchResult, None, map, option_map};
ghost use Rattle.method_args.specs.Arguments.{find_invalid, form_of};
ghost use Rattle.set_parts.specs.Arguments.{if_in_state, set_forms_with, update_form};
ghost use Rattle.set_parts.specs.Outcomes.{ExplainsRejection, is_other_state, rejected, rejected_by, rejected_for};

use crate::arguments::read_if_in_state;
use jm_base::{NoMemory, Text, state_text};
use jm_json::Members;
use mail_counts::SetFault;
use method_args::{Argument, MAX_OBJECTS_PER_CALL, Presence, Shape, find_invalid};
use std::alloc::Global;

/// Returns whether a client asks for another state than this one.
pub fn is_other_state(alloc: Global, state: u64, wanted: Option<&Text>) -> Result<bool, NoMemory>
    ensures { IfOk result (λ b. b ≡ is_other_state state (option_map (λ t. t.now) wanted.entry)) }
{
    match wanted {
        Some(text) => {
            let present = state_text(alloc, state)?;
            Ok(text.as_str() != present.as_str())
        }
        None => Ok(false),
    }
}

/// Returns Ok if a call of so many objects that asks for this state is not rejected in an account
/// with this state of the kind. Fails with `TooLarge` if there are more than
/// [`MAX_OBJECTS_PER_CALL`] objects, else with `StateMismatch` if the states differ.
pub fn check_state(
    alloc: Global,
    objects: usize,
    state: u64,
    wanted: Option<&Text>,
) -> Result<(), SetFault>
    ensures { MatchResult result
        (λ _. rejected_for objects state (option_map (λ t. t.now) wanted.entry) ≡ None)
        (λ e. ExplainsRejection e
        (rejected_for objects state (option_map (λ t. t.now) wanted.entry))) }
{
    if objects > MAX_OBJECTS_PER_CALL {
        return Err(SetFault::TooLarge);
    }
    if is_other_state(alloc, state, wanted)? {
        return Err(SetFault::StateMismatch);
    }
    Ok(())
}

// Returns Ok if a call whose first invalid argument is this is not rejected as a whole.
fn check_found(
    alloc: Global,
    invalid: Option<&str>,
    members: &Members,
    objects: usize,
    state: u64,
) -> Result<(), SetFault>
    ensures { MatchResult result
        (λ _. rejected_by (option_map (λ s. s.now) invalid.entry)
        (rejected_for objects state (if_in_state members.now)) ≡ None)
        (λ e. ExplainsRejection e (rejected_by (option_map (λ s. s.now) invalid.entry)
        (rejected_for objects state (if_in_state members.now)))) }
{
    match invalid {
        Some(name) => Err(SetFault::Invalid(Text::from_str(alloc, name)?)),
        None => check_state(alloc, objects, state, read_if_in_state(members)),
    }
}

/// Returns Ok if a call with these arguments, which names so many objects, is not rejected as a
/// whole in an account with this state of the kind. Fails with `Invalid` and the name of the first
/// argument that does not have its form, with `TooLarge` if there are more than
/// [`MAX_OBJECTS_PER_CALL`] objects, and with `StateMismatch` if `ifInState` is another state; the
/// first fault in this order is returned.
pub fn check_call(
    alloc: Global,
    arguments: &[Argument],
    members: &Members,
    objects: usize,
    state: u64,
) -> Result<(), SetFault>
    ensures { MatchResult result
        (λ _. rejected (map form_of arguments.now) objects state members.now ≡ None)
        (λ e. ExplainsRejection e
        (rejected (map form_of arguments.now) objects state members.now)) }
{
    let invalid = find_invalid(members, arguments);
    check_found(alloc, invalid, members, objects, state)
}

// Returns the name of the first argument of a set that does not have its form. `own` are the
// arguments that only sets of its kind have.
fn find_invalid_argument<'a>(members: &Members, own: &[Argument<'a>]) -> Option<&'a str>
    ensures { option_map (λ s. s.now) result
        ≡ find_invalid (set_forms_with (map form_of own.now)) members.now }
{
    let first = [
        Argument {
            name: "accountId",
            presence: Presence::Required,
            shape: Shape::String,
        },
        Argument {
            name: "create",
            presence: Presence::Nullable,
            shape: Shape::Objects,
        },
        Argument {
            name: "destroy",
            presence: Presence::Nullable,
            shape: Shape::Strings,
        },
        Argument {
            name: "ifInState",
            presence: Presence::Nullable,
            shape: Shape::String,
        },
    ];
    match find_invalid(members, &first) {
        Some(name) => Some(name),
        None => find_invalid_after(members, own),
    }
}

// Returns the name of the first argument of a set that does not have its form, of the arguments
// from `own` on.
fn find_invalid_after<'a>(members: &Members, own: &[Argument<'a>]) -> Option<&'a str>
    ensures { option_map (λ s. s.now) result
        ≡ find_invalid (map form_of own.now ++ update_form ∷ []) members.now }
{
    let last = [Argument {
        name: "update",
        presence: Presence::Nullable,
        shape: Shape::Object,
    }];
    match find_invalid(members, own) {
        Some(name) => Some(name),
        None => find_invalid(members, &last),
    }
}

/// Returns Ok if a set of so many objects is not rejected as a whole, in an account with this state
/// of its kind. It fails as [`check_call`] does. `own` are the arguments that only sets of this
/// kind have: their names are between `ifInState` and `update` in byte order.
pub fn check_set(
    alloc: Global,
    own: &[Argument],
    members: &Members,
    objects: usize,
    state: u64,
) -> Result<(), SetFault>
    ensures { MatchResult result
        (λ _. rejected (set_forms_with (map form_of own.now)) objects state members.now ≡ None)
        (λ e. ExplainsRejection e
        (rejected (set_forms_with (map form_of own.now)) objects state members.now)) }
{
    let invalid = find_invalid_argument(members, own);
    check_found(alloc, invalid, members, objects, state)
}
