// The account that a call names, or the error by the accounts that it names.
ghost use Rattle.std.specs.Prelude.{◌≡◌, ◌<◌, IfErr, IfOk, Ok as TheOk, Err as TheErr, option_map, Option, ℕ};
ghost use Rattle.std.specs.List.{AllByRecursion};
ghost use Rattle.jm_json.specs.Json.{tree_of};
ghost use Rattle.jm_json.specs.Invocations.{call_of};
ghost use Rattle.server_users.specs.Configuration.{IsNumbered};
ghost use Rattle.read_replies.specs.Targets.{accounts_of, argument_in, from_named, is_change, is_copy, source_of, target_of, to_found, to_named};

use jm_json::{Invocation, Json};
use method_args::read_text;
use server_users::{UserAccount, Users, find_account};

/// Returns the accounts of the user with an index, or none if there is no such user.
pub(crate) fn find_accounts(users: &Users, user: u64) -> &[UserAccount]
    ensures accounts { result.now ≡ accounts_of users.now user }
    ensures numbered { AllByRecursion (IsNumbered users.now.account_ids) result.now }
{
    match users.as_slice().get(user as usize) {
        Some(user) => user.accounts.as_slice(),
        None => &[],
    }
}

// Returns the string of an argument of a call, if it is one.
fn read_argument<'a>(args: &'a Json, name: &str) -> Option<&'a str>
    ensures { option_map (λ t. t.now) result ≡ argument_in name.now (tree_of args.now) }
{
    match args.as_object() {
        Some(members) => match read_text(members, name) {
            Some(text) => Some(text.as_str()),
            None => None,
        },
        None => None,
    }
}

fn is_copy(name: &str) -> bool
    ensures { result ≡ is_copy name.now }
{
    name == "Email/copy" || name == "Blob/copy"
}

fn is_change(name: &str) -> bool
    ensures { result ≡ is_change name.now }
{
    is_copy(name) || name == "Mailbox/set" || name == "Email/set" || name == "Email/import"
}

// Returns the account to which a copy is made, or the type of its error, where this is the
// identifier of the account from which it is made.
fn check_from<'a>(
    accounts: &[UserAccount],
    to: &'a UserAccount,
    from: Option<&str>,
) -> Result<&'a UserAccount, &'static str>
    ensures ok { IfOk result (λ a. from_named accounts.now to.now (option_map
        (λ t. t.now) from.entry) ≡ TheOk a.now) }
    ensures err { IfErr result (λ k. from_named accounts.now to.now (option_map
        (λ t. t.now) from.entry) ≡ TheErr k.now) }
{
    match from {
        None => Err("invalidArguments"),
        Some(id) => match find_account(accounts, id.as_bytes()) {
            None => Err("fromAccountNotFound"),
            Some(from) => {
                if from.number == to.number {
                    return Err("invalidArguments");
                }
                Ok(to)
            }
        },
    }
}

// Returns the account on which a call is performed, or the type of its error, where this is the
// account that it names.
fn check_found<'a>(
    accounts: &[UserAccount],
    copies: bool,
    changes: bool,
    from: Option<&str>,
    to: Option<&'a UserAccount>,
) -> Result<&'a UserAccount, &'static str>
    ensures ok { IfOk result (λ a. to_found accounts.now copies changes (option_map
        (λ t. t.now) from.entry) (option_map (λ a. a.now) to.entry) ≡ TheOk a.now) }
    ensures err { IfErr result (λ k. to_found accounts.now copies changes (option_map
        (λ t. t.now) from.entry) (option_map (λ a. a.now) to.entry) ≡ TheErr k.now) }
{
    match to {
        None => Err("accountNotFound"),
        Some(to) => {
            if changes && to.read_only {
                return Err("accountReadOnly");
            }
            if copies {
                return check_from(accounts, to, from);
            }
            Ok(to)
        }
    }
}

// Returns the account on which a call is performed, or the type of its error, where this is the
// identifier that it names.
fn check_named<'a>(
    accounts: &'a [UserAccount],
    copies: bool,
    changes: bool,
    from: Option<&str>,
    to: Option<&str>,
) -> Result<&'a UserAccount, &'static str>
    ensures ok { IfOk result (λ a. to_named accounts.now copies changes (option_map
        (λ t. t.now) from.entry) (option_map (λ t. t.now) to.entry) ≡ TheOk a.now) }
    ensures err { IfErr result (λ k. to_named accounts.now copies changes (option_map
        (λ t. t.now) from.entry) (option_map (λ t. t.now) to.entry) ≡ TheErr k.now) }
{
    match to {
        None => Err("invalidArguments"),
        Some(id) => {
            if copies && from.is_none() {
                return Err("invalidArguments");
            }
            check_found(
                accounts,
                copies,
                changes,
                from,
                find_account(accounts, id.as_bytes()),
            )
        }
    }
}

/// Returns the account on which a call is performed, or the type of its error by the accounts that
/// it names (RFC 8620, sections 3.6.2 and 5.4).
pub(crate) fn find_target<'a>(
    accounts: &'a [UserAccount],
    call: &Invocation,
) -> Result<&'a UserAccount, &'static str>
    ensures ok { IfOk result (λ a. target_of accounts.now (call_of call.now) ≡ TheOk a.now) }
    ensures err { IfErr result (λ k. target_of accounts.now (call_of call.now) ≡ TheErr k.now) }
{
    let from = read_argument(&call.args, "fromAccountId");
    let to = read_argument(&call.args, "accountId");
    let name = call.name.as_str();
    check_named(accounts, is_copy(name), is_change(name), from, to)
}

/// Returns the account from which a copy is made, or None if the call is no copy.
pub(crate) fn find_source<'a>(
    accounts: &'a [UserAccount],
    call: &Invocation,
) -> Option<&'a UserAccount>
    ensures { option_map (λ a. a.now) result ≡ source_of accounts.now (call_of call.now) }
{
    if !is_copy(call.name.as_str()) {
        return None;
    }
    match read_argument(&call.args, "fromAccountId") {
        Some(id) => find_account(accounts, id.as_bytes()),
        None => None,
    }
}
