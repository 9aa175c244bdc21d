// The bad places of the accounts of a user.
ghost use Rattle.std.specs.Prelude.{◌≡◌, ◌++◌, not, is_none, IfOk, [], map, option_map, codes};
ghost use Rattle.server_users.specs.Values.{flag_at, items_at, text_at};
ghost use Rattle.jm_json.specs.Json.{tree_of};
ghost use Rattle.server_users.specs.BadPlaces.{account_members, account_places, account_pointer, accounts_places, bad_if, is_good_id, list_places};
ghost use Rattle.jm_json.specs.LeastPlaces.{least_from};

use crate::account_ids::{is_account_id, is_among};
use crate::places::{AccountPlace, note_account_member, note_user_member};
use crate::seen_texts::SeenTexts;
use crate::values::{find_flag, find_items, find_text, find_text_or_empty};
use jm_base::{NoMemory, Text};
use jm_json::Json;
use std::alloc::Global;

// Returns whether an account of a user has a good identifier.
fn is_good_id(ids: &[Text], repeated: bool, id: Option<&str>) -> bool
    ensures { result ≡ is_good_id ids.now repeated (option_map (λ s. s.now) id.entry) }
{
    match id {
        Some(id) => is_account_id(id) && !repeated && is_among(ids, id),
        None => false,
    }
}

// Takes the identifier of an account into account.
fn check_id(
    alloc: Global,
    ids: &[Text],
    at: AccountPlace,
    repeated: bool,
    account: &Json,
    least: Option<Text>,
) -> Result<Option<Text>, NoMemory>
    ensures { IfOk result (λ o. o ≡ least_from least
        (bad_if (not (is_good_id ids.now repeated (text_at (codes "id") (tree_of account.now))))
        (account_pointer at.user at.index ++ codes "/id"))) }
{
    let id = find_text(account, "id");
    note_account_member(alloc, least, !is_good_id(ids, repeated, id), at, "/id")
}

// Takes the name of an account into account.
fn check_name(
    alloc: Global,
    at: AccountPlace,
    account: &Json,
    least: Option<Text>,
) -> Result<Option<Text>, NoMemory>
    ensures { IfOk result (λ o. o ≡ least_from least
        (bad_if (is_none (text_at (codes "name") (tree_of account.now)))
        (account_pointer at.user at.index ++ codes "/name"))) }
{
    let name = find_text(account, "name");
    note_account_member(alloc, least, name.is_none(), at, "/name")
}

// Takes the flag of an account into account.
fn check_flag(
    alloc: Global,
    at: AccountPlace,
    account: &Json,
    least: Option<Text>,
) -> Result<Option<Text>, NoMemory>
    ensures { IfOk result (λ o. o ≡ least_from least
        (bad_if (is_none (flag_at (codes "readOnly") (tree_of account.now)))
        (account_pointer at.user at.index ++ codes "/readOnly"))) }
{
    let flag = find_flag(account, "readOnly");
    note_account_member(alloc, least, flag.is_none(), at, "/readOnly")
}

// Takes the members of an account into account.
fn check_members(
    alloc: Global,
    ids: &[Text],
    at: AccountPlace,
    repeated: bool,
    account: &Json,
    least: Option<Text>,
) -> Result<Option<Text>, NoMemory>
    ensures { IfOk result (λ o. o ≡ least_from least
        (account_members ids.now at.user at.index repeated (tree_of account.now))) }
{
    let with_id = check_id(alloc, ids, at, repeated, account, least)?;
    let with_name = check_name(alloc, at, account, with_id)?;
    let all = check_flag(alloc, at, account, with_name)?;
    Ok(all)
}

// Takes an account into account.
fn check_account(
    alloc: Global,
    ids: &[Text],
    at: AccountPlace,
    repeated: bool,
    account: &Json,
    least: Option<Text>,
) -> Result<Option<Text>, NoMemory>
    ensures { IfOk result (λ o. o ≡ least_from least
        (account_places ids.now at.user at.index repeated (tree_of account.now))) }
{
    if account.as_object().is_none() {
        return note_account_member(alloc, least, true, at, "");
    }
    check_members(alloc, ids, at, repeated, account, least)
}

// Takes the accounts of a user into account.
fn check_each(
    alloc: Global,
    ids: &[Text],
    user: usize,
    accounts: &[Json],
    mut least: Option<Text>,
) -> Result<Option<Text>, NoMemory>
    ensures { IfOk result (λ o. o ≡ least_from least
        (accounts_places ids.now user [] (map tree_of accounts.now))) }
{
    let mut seen = SeenTexts::new(alloc);
    let mut rest = accounts;
    let mut index = 0;
    'account: while let Some((account, more)) = rest.split_first() {
        let repeated = seen.add(find_text_or_empty(account, "id"))?;
        let at = AccountPlace { user, index };
        least = check_account(alloc, ids, at, repeated, account, least)?;
        index += 1;
        rest = more;
    }
    Ok(least)
}

/// Takes the list of a user's accounts into account.
pub(crate) fn check_accounts(
    alloc: Global,
    ids: &[Text],
    user: usize,
    tree: &Json,
    least: Option<Text>,
) -> Result<Option<Text>, NoMemory>
    ensures { IfOk result (λ o. o ≡ least_from least
        (list_places ids.now user (items_at (codes "accounts") (tree_of tree.now)))) }
{
    match find_items(tree, "accounts") {
        Some(accounts) => check_each(alloc, ids, user, accounts, least),
        None => note_user_member(alloc, least, true, user, "/accounts"),
    }
}
