// The users of a configuration that has no bad place.
ghost use Rattle.std.specs.Prelude.{◌≡◌, IfOk, [], map};
ghost use Rattle.jm_json.specs.Json.{tree_of};
ghost use Rattle.server_users.specs.Configuration.{account_ids, account_in, configuration_in, user_in};
ghost use Rattle.server_users.specs.BadPlaces.{bad_places};

use crate::account_ids::find_number;
use crate::users::{User, UserAccount, Users};
use crate::values::{find_flag_or_false, find_items_or_none, find_text_or_empty};
use jm_base::{NoMemory, Sequence, Text, Texts};
use jm_json::Json;
use std::alloc::Global;

fn build_account(alloc: Global, ids: &[Text], tree: &Json) -> Result<UserAccount, NoMemory>
    ensures { IfOk result (λ a. a ≡ account_in ids.now (tree_of tree.now)) }
{
    let id = find_text_or_empty(tree, "id");
    Ok(UserAccount {
        number: find_number(ids, id),
        id: Text::from_str(alloc, id)?,
        name: Text::from_str(alloc, find_text_or_empty(tree, "name"))?,
        read_only: find_flag_or_false(tree, "readOnly"),
    })
}

fn build_accounts(
    alloc: Global,
    ids: &[Text],
    trees: &[Json],
) -> Result<Sequence<UserAccount>, NoMemory>
    ensures { IfOk result (λ s. s ≡ map (account_in ids.now) (map tree_of trees.now)) }
{
    let mut accounts = Sequence::new(alloc);
    for tree in trees {
        accounts.push(build_account(alloc, ids, tree)?)?;
    }
    Ok(accounts)
}

fn build_user(alloc: Global, ids: &[Text], tree: &Json) -> Result<User, NoMemory>
    ensures { IfOk result (λ u. u ≡ user_in ids.now (tree_of tree.now)) }
{
    Ok(User {
        name: Text::from_str(alloc, find_text_or_empty(tree, "name"))?,
        token: Text::from_str(alloc, find_text_or_empty(tree, "token"))?,
        accounts: build_accounts(alloc, ids, find_items_or_none(tree, "accounts"))?,
    })
}

fn build_each(alloc: Global, ids: &[Text], trees: &[Json]) -> Result<Sequence<User>, NoMemory>
    ensures { IfOk result (λ s. s ≡ map (user_in ids.now) (map tree_of trees.now)) }
{
    let mut users = Sequence::new(alloc);
    for tree in trees {
        users.push(build_user(alloc, ids, tree)?)?;
    }
    Ok(users)
}

/// Returns the users of a configuration whose accounts have these identifiers.
#[tactic(auto, using(crate::proofs::Numbered::numbered))]
pub(crate) fn build_users(alloc: Global, ids: Texts, tree: &Json) -> Result<Users, NoMemory>
    requires ids { ids ≡ account_ids (tree_of tree.now) }
    requires good { bad_places (tree_of tree.now) ≡ [] }
    ensures { IfOk result (λ u. u ≡ configuration_in (tree_of tree.now)) }
{
    let users = build_each(alloc, ids.as_slice(), find_items_or_none(tree, "users"))?;
    Ok(Users::new(users, ids))
}
