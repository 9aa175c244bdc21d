// The user of a token, found in a time that does not depend on where a token differs.
ghost use Rattle.std.specs.Prelude.{◌≡◌, bytes_eq, Some, None, if◌then◌else◌};
ghost use Rattle.std.specs.Option.{option_or};
ghost use Rattle.server_users.specs.Lookups.{user_with};

use crate::users::User;

// Returns whether two tokens are the same. All bytes are compared, wherever the first one differs.
fn are_same(kept: &[u8], given: &[u8]) -> bool
    ensures { result ≡ bytes_eq kept.now given.now }
{
    let mut same = true;
    let mut rest = kept;
    let mut others = given;
    'byte: while let Some((byte, more)) = rest.split_first() {
        let Some((other, left)) = others.split_first() else {
            return false;
        };
        same = same & (*byte == *other);
        rest = more;
        others = left;
    }
    same & others.is_empty()
}

// Returns the index that was found before, or else this one, if its token is the same.
fn choose_first(found: Option<usize>, index: usize, same: bool) -> Option<usize>
    ensures { result ≡ option_or found (if same then Some index else None) }
{
    match found {
        Some(earlier) => Some(earlier),
        None => { if same { Some(index) } else { None } }
    }
}

/// Returns the index of the user with a token. The tokens of all users are compared, whichever is
/// the same.
pub(crate) fn find_token(users: &[User], token: &[u8]) -> Option<usize>
    ensures { result ≡ user_with token.now users.now }
{
    let mut found = None;
    let mut rest = users;
    let mut index = 0;
    'user: while let Some((user, more)) = rest.split_first() {
        let same = are_same(user.token.as_bytes(), token);
        found = choose_first(found, index, same);
        index += 1;
        rest = more;
    }
    found
}
