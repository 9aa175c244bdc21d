// The arguments of a call of a /queryChanges method (RFC 8620, section 5.6; RFC 8621, sections 2.4
// and 4.5).
ghost use Rattle.std.specs.Prelude.{◌≡◌, option_map};
ghost use Rattle.method_args.specs.Arguments.{find_invalid};
ghost use Rattle.change_calls.specs.Responses.{string_in};
ghost use Rattle.query_engine.specs.Responses.{is_set};
ghost use Rattle.query_changes.specs.Responses.{email_forms, invalid_argument, mailbox_forms, max_in};

use jm_base::Kind;
use jm_json::Members;
use method_args::{
    Argument, Presence, Shape, check_unsigned, find_invalid, read_flag, read_integer, read_text,
};

// Returns the name of the first argument of Email/queryChanges in byte order that is missing or
// does not have its form; `filter` and `sort` are left out.
fn find_invalid_email_argument(members: &Members) -> Option<&'static str>
    ensures { option_map (λ s. s.now) result ≡ find_invalid email_forms members.now }
{
    find_invalid(
        members,
        &[
            Argument {
                name: "accountId",
                presence: Presence::Required,
                shape: Shape::String,
            },
            Argument {
                name: "calculateTotal",
                presence: Presence::Optional,
                shape: Shape::Flag,
            },
            Argument {
                name: "collapseThreads",
                presence: Presence::Optional,
                shape: Shape::Flag,
            },
            Argument {
                name: "maxChanges",
                presence: Presence::Nullable,
                shape: Shape::Count,
            },
            Argument {
                name: "sinceQueryState",
                presence: Presence::Required,
                shape: Shape::String,
            },
        ],
    )
}

fn find_invalid_mailbox_argument(members: &Members) -> Option<&'static str>
    ensures { option_map (λ s. s.now) result ≡ find_invalid mailbox_forms members.now }
{
    find_invalid(
        members,
        &[
            Argument {
                name: "accountId",
                presence: Presence::Required,
                shape: Shape::String,
            },
            Argument {
                name: "calculateTotal",
                presence: Presence::Optional,
                shape: Shape::Flag,
            },
            Argument {
                name: "maxChanges",
                presence: Presence::Nullable,
                shape: Shape::Count,
            },
            Argument {
                name: "sinceQueryState",
                presence: Presence::Required,
                shape: Shape::String,
            },
        ],
    )
}

/// Returns the name of the first argument that is missing or does not have its form.
pub(crate) fn find_invalid_argument(kind: Kind, members: &Members) -> Option<&'static str>
    ensures { option_map (λ s. s.now) result ≡ invalid_argument kind members.now }
{
    match kind {
        Kind::Mailbox => find_invalid_mailbox_argument(members),
        Kind::Email | Kind::Thread => find_invalid_email_argument(members),
    }
}

/// Returns the maximum that is asked for.
pub(crate) fn read_max_changes(members: &Members) -> Option<u64>
    ensures { result ≡ max_in members.now }
{
    match read_integer(members, "maxChanges") {
        Some(number) => check_unsigned(number),
        None => None,
    }
}

/// Returns whether the boolean of an argument is true.
pub(crate) fn is_set(members: &Members, name: &str) -> bool
    ensures { result ≡ is_set name.now members.now }
{
    match read_flag(members, name) {
        Some(flag) => flag,
        None => false,
    }
}

/// Lends the string of an argument, or an empty one.
pub(crate) fn read_string<'a>(members: &'a Members, name: &str) -> &'a str
    ensures { result.now ≡ string_in name.now members.now }
{
    match read_text(members, name) {
        Some(text) => text.as_str(),
        None => "",
    }
}
