// Whose request it is (RFC 6750, section 2.1).
ghost use Rattle.std.specs.Prelude.{◌≡◌, option_map};
ghost use Rattle.http_wire.specs.Fields.{pairs};
ghost use Rattle.jmap_http.specs.Authorization.{after_spaces, field_value, token_in, user_of, without_spaces};

use http_wire::{HttpField, KeepsBody};
use server_users::Users;

/// Finds the value of the first field of a name.
pub(crate) fn find_field<'a>(fields: &'a [HttpField], name: &[u8]) -> Option<&'a [u8]>
    ensures { option_map (λ b. b.now) result ≡ field_value name.now (pairs fields.now) }
{
    let mut rest = fields;
    'field: while let Some((field, more)) = rest.split_first() {
        if field.name.as_bytes().eq_ignore_ascii_case(name) {
            return Some(field.value.as_slice());
        }
        rest = more;
    }
    None
}

// Returns the bytes from the first that is no space.
fn skip_spaces(bytes: &[u8]) -> &[u8]
    ensures { result.now ≡ without_spaces bytes.now }
{
    let mut rest = bytes;
    'space: while let Some((byte, more)) = rest.split_first() {
        if *byte != b' ' {
            return rest;
        }
        rest = more;
    }
    rest
}

// Returns what follows one or more spaces.
fn find_after_spaces(bytes: &[u8]) -> Option<&[u8]>
    ensures { option_map (λ b. b.now) result ≡ after_spaces bytes.now }
{
    match bytes.split_first() {
        Some((byte, more)) => if *byte == b' ' {
            Some(skip_spaces(more))
        } else {
            None
        },
        None => None,
    }
}

// Returns the token after the word Bearer and spaces.
fn find_token(value: &[u8]) -> Option<&[u8]>
    ensures { option_map (λ b. b.now) result ≡ token_in value.now }
{
    if value.len() < 6 {
        return None;
    }
    let (word, rest) = value.split_at(6);
    if !word.eq_ignore_ascii_case(b"Bearer") {
        return None;
    }
    find_after_spaces(rest)
}

/// Returns the index of the user whose token a request has.
pub(crate) fn find_user(users: &Users, fields: &[HttpField]) -> Option<usize>
    ensures { result ≡ user_of users.now.users (pairs fields.now) }
{
    match find_field(fields, b"Authorization") {
        Some(value) => match find_token(value) {
            Some(token) => users.find_user(token),
            None => None,
        },
        None => None,
    }
}

/// Keeps the bodies of requests that have the token of a user, and no others.
#[derive(Clone, Copy)]
pub(crate) struct KnownUsers<'a> {
    pub users: &'a Users,
}

impl<'a> KeepsBody for KnownUsers<'a> {
    ghost use Rattle.jmap_http.specs.Authorization.{is_known};

    ghost is_kept = { λ k fields. is_known k.users.now.users fields };

    fn keeps_body(&self, fields: &[HttpField]) -> bool {
        match find_user(self.users, fields) {
            Some(_) => true,
            None => false,
        }
    }
}
