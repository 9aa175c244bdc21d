// The least of the places that are not of the form.
ghost use Rattle.std.specs.Prelude.{◌≡◌, ◌++◌, IfOk};
ghost use Rattle.server_users.specs.BadPlaces.{account_pointer, bad_if, user_pointer};
ghost use Rattle.jm_json.specs.LeastPlaces.{least_from};

use jm_base::{NoMemory, Text};
use jm_json::choose_least;
use std::alloc::Global;

/// An account by the index of its user, and its index among those of the user.
#[derive(Clone, Copy)]
pub(crate) struct AccountPlace {
    pub user: usize,
    pub index: usize,
}

// Returns the JSON Pointer of a member of a user.
fn write_user_place(alloc: Global, user: usize, member: &str) -> Result<Text, NoMemory>
    ensures { IfOk result (λ t. t ≡ user_pointer user ++ member.now) }
{
    Ok(Text::from_string(format!(in alloc; "/users/{user}{member}")?))
}

// Returns the JSON Pointer of a member of an account.
fn write_account_place(alloc: Global, at: AccountPlace, member: &str) -> Result<Text, NoMemory>
    ensures { IfOk result (λ t. t ≡ account_pointer at.user at.index ++ member.now) }
{
    let AccountPlace { user, index } = at;
    Ok(Text::from_string(format!(in alloc; "/users/{user}/accounts/{index}{member}")?))
}

/// Takes a member of a user into account, if it is bad.
pub(crate) fn note_user_member(
    alloc: Global,
    least: Option<Text>,
    bad: bool,
    user: usize,
    member: &str,
) -> Result<Option<Text>, NoMemory>
    ensures { IfOk result
        (λ o. o ≡ least_from least (bad_if bad (user_pointer user ++ member.now))) }
{
    if !bad {
        return Ok(least);
    }
    Ok(choose_least(least, write_user_place(alloc, user, member)?))
}

/// Takes a member of an account into account, if it is bad.
pub(crate) fn note_account_member(
    alloc: Global,
    least: Option<Text>,
    bad: bool,
    at: AccountPlace,
    member: &str,
) -> Result<Option<Text>, NoMemory>
    ensures { IfOk result
        (λ o. o ≡ least_from least (bad_if bad (account_pointer at.user at.index ++ member.now))) }
{
    if !bad {
        return Ok(least);
    }
    Ok(choose_least(least, write_account_place(alloc, at, member)?))
}
