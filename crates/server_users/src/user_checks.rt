// The bad places of a configuration.
ghost use Rattle.std.specs.Prelude.{◌≡◌, None, Some, IfOk, [], map, option_map};
ghost use Rattle.std.specs.List.{list_all};
ghost use Rattle.jm_json.specs.Json.{tree_of};
ghost use Rattle.server_users.specs.Configuration.{account_ids};
ghost use Rattle.server_users.specs.BadPlaces.{bad_places, document_places, has_no_account, is_good_name, user_members, user_places, users_places};
ghost use Rattle.jm_json.specs.LeastPlaces.{least_from};

use crate::account_checks::check_accounts;
use crate::places::note_user_member;
use crate::seen_texts::SeenTexts;
use crate::values::{find_items, find_text, find_text_or_empty};
use jm_base::{NoMemory, Text};
use jm_json::Json;
use std::alloc::Global;

// Whether an earlier user has a user's name, and its token.
#[derive(Clone, Copy)]
struct Repeats {
    name: bool,
    token: bool,
}

// Returns whether a user has a good name, or a good token.
fn is_good_name(repeated: bool, name: Option<&str>) -> bool
    ensures { result ≡ is_good_name repeated (option_map (λ s. s.now) name.entry) }
{
    match name {
        Some(name) => !name.is_empty() && !repeated,
        None => false,
    }
}

// Takes the members of a user into account.
fn check_members(
    alloc: Global,
    ids: &[Text],
    index: usize,
    repeats: Repeats,
    user: &Json,
    least: Option<Text>,
) -> Result<Option<Text>, NoMemory>
    ensures { IfOk result (λ o. o ≡ least_from least
        (user_members ids.now index repeats.name repeats.token (tree_of user.now))) }
{
    let bad_name = !is_good_name(repeats.name, find_text(user, "name"));
    let bad_token = !is_good_name(repeats.token, find_text(user, "token"));
    let with_list = check_accounts(alloc, ids, index, user, least)?;
    let with_name = note_user_member(alloc, with_list, bad_name, index, "/name")?;
    note_user_member(alloc, with_name, bad_token, index, "/token")
}

// Takes a user into account.
fn check_user(
    alloc: Global,
    ids: &[Text],
    index: usize,
    repeats: Repeats,
    user: &Json,
    least: Option<Text>,
) -> Result<Option<Text>, NoMemory>
    ensures { IfOk result (λ o. o ≡ least_from least
        (user_places ids.now index repeats.name repeats.token (tree_of user.now))) }
{
    if user.as_object().is_none() {
        return note_user_member(alloc, least, true, index, "");
    }
    check_members(alloc, ids, index, repeats, user, least)
}

// Takes the users into account.
fn check_each(
    alloc: Global,
    ids: &[Text],
    users: &[Json],
    mut least: Option<Text>,
) -> Result<Option<Text>, NoMemory>
    ensures { IfOk result
        (λ o. o ≡ least_from least (users_places ids.now [] (map tree_of users.now))) }
{
    let mut names = SeenTexts::new(alloc);
    let mut tokens = SeenTexts::new(alloc);
    let mut rest = users;
    let mut index = 0;
    'user: while let Some((user, more)) = rest.split_first() {
        let name = names.add(find_text_or_empty(user, "name"))?;
        let token = tokens.add(find_text_or_empty(user, "token"))?;
        let repeats = Repeats { name, token };
        least = check_user(alloc, ids, index, repeats, user, least)?;
        index += 1;
        rest = more;
    }
    Ok(least)
}

// Returns whether the list of a user's accounts is there and empty.
fn has_no_account(user: &Json) -> bool
    ensures { result ≡ has_no_account (tree_of user.now) }
{
    match find_items(user, "accounts") {
        Some(accounts) => accounts.is_empty(),
        None => false,
    }
}

// Returns whether the list of each user's accounts is there and empty.
fn have_no_account(users: &[Json]) -> bool
    ensures { result ≡ list_all has_no_account (map tree_of users.now) }
{
    for user in users {
        if !has_no_account(user) {
            return false;
        }
    }
    true
}

// Returns the least bad place of a configuration whose users are these.
fn check_users(alloc: Global, ids: &[Text], users: &[Json]) -> Result<Option<Text>, NoMemory>
    ensures { IfOk result
        (λ o. o ≡ least_from None (document_places ids.now (Some (map tree_of users.now)))) }
{
    if !have_no_account(users) {
        return check_each(alloc, ids, users, None);
    }
    let place = Text::from_str(alloc, "/users")?;
    check_each(alloc, ids, users, Some(place))
}

/// Returns the least bad place of a configuration.
pub(crate) fn find_bad_place(
    alloc: Global,
    ids: &[Text],
    tree: &Json,
) -> Result<Option<Text>, NoMemory>
    requires { ids.now ≡ account_ids (tree_of tree.now) }
    ensures { IfOk result (λ o. o ≡ least_from None (bad_places (tree_of tree.now))) }
{
    if tree.as_object().is_none() {
        return Ok(Some(Text::from_str(alloc, "")?));
    }
    match find_items(tree, "users") {
        Some(users) => check_users(alloc, ids, users),
        None => Ok(Some(Text::from_str(alloc, "/users")?)),
    }
}
