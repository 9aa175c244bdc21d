// The identifiers of a server's accounts.
ghost use Rattle.std.specs.Prelude.{◌≡◌, ◌&&◌, not, nat_lt, length, bytes_eq, IfOk, OnOk};
ghost use Rattle.std.specs.List.{list_all, position};
ghost use Rattle.jm_json.specs.Json.{tree_of};
ghost use Rattle.server_users.specs.Configuration.{account_ids, is_account_id, is_among, is_id_byte, number_of, with_mention, with_mentions};
ghost use Rattle.server_users.specs.declared.limits.TheConstants.{MAX_ACCOUNTS};

use crate::limits::{MAX_ACCOUNT_ID_BYTES, MAX_ACCOUNTS};
use crate::values::{find_items_or_none, find_text_or_empty};
use jm_base::{NoMemory, Text, Texts};
use jm_json::Json;
use std::alloc::Global;

// Returns whether a byte is one of an identifier.
fn is_id_byte(byte: u8) -> bool
    ensures { result ≡ is_id_byte byte }
{
    byte.is_ascii_alphanumeric() || byte == b'-' || byte == b'_'
}

// Returns whether each byte is one of an identifier.
fn are_id_bytes(bytes: &[u8]) -> bool
    ensures { result ≡ list_all is_id_byte bytes.now }
{
    bytes.iter().all(|byte| is_id_byte(*byte))
}

/// Returns whether a string is an identifier of an account: 1 to [`MAX_ACCOUNT_ID_BYTES`] letters,
/// digits, `-` and `_` (RFC 8620, section 1.2).
pub fn is_account_id(id: &str) -> bool
    ensures { result ≡ is_account_id id.now }
{
    let bytes = id.as_bytes();
    !bytes.is_empty() && bytes.len() <= MAX_ACCOUNT_ID_BYTES && are_id_bytes(bytes)
}

/// Returns whether an identifier is one of these.
pub(crate) fn is_among(ids: &[Text], id: &str) -> bool
    ensures { result ≡ is_among ids.now id.now }
{
    ids.iter().any(|other| other.as_bytes() == id.as_bytes())
}

// Returns the index of an identifier among these.
fn find_index(ids: &[Text], id: &str) -> Option<usize>
    ensures { result ≡ position (λ other. bytes_eq other id.now) ids.now }
{
    ids.iter()
        .position(|other| other.as_bytes() == id.as_bytes())
}

/// Returns the index of an identifier among these, or 0 if it is none of them.
pub(crate) fn find_number(ids: &[Text], id: &str) -> u64
    ensures { result ≡ number_of ids.now id.now }
{
    match find_index(ids, id) {
        Some(index) => index as u64,
        None => 0,
    }
}

// Returns whether a mention of an account is to be added to the identifiers.
fn is_to_add(ids: &[Text], id: &str) -> bool
    ensures { result ≡ (is_account_id id.now && not (is_among ids.now id.now)
        && nat_lt (length ids.now) MAX_ACCOUNTS) }
{
    is_account_id(id) && !is_among(ids, id) && ids.len() < MAX_ACCOUNTS
}

// Adds a mention of an account to the identifiers.
fn add_mention(alloc: Global, ids: &mut Texts, account: &Json) -> Result<(), NoMemory>
    ensures { OnOk result (ids.new ≡ with_mention ids.old (tree_of account.now)) }
{
    let id = find_text_or_empty(account, "id");
    if !is_to_add(ids.as_slice(), id) {
        return Ok(());
    }
    let copied = Text::from_str(alloc, id)?;
    ids.push(copied)
}

// Adds the mentions of a user's accounts to the identifiers.
fn add_mentions(alloc: Global, ids: &mut Texts, user: &Json) -> Result<(), NoMemory>
    ensures { OnOk result (ids.new ≡ with_mentions ids.old (tree_of user.now)) }
{
    let accounts = find_items_or_none(user, "accounts");
    for account in accounts {
        add_mention(alloc, ids, account)?;
    }
    Ok(())
}

/// Returns the identifiers of the accounts in the order of their first mention.
pub(crate) fn list_account_ids(alloc: Global, tree: &Json) -> Result<Texts, NoMemory>
    ensures { IfOk result (λ ids. ids ≡ account_ids (tree_of tree.now)) }
{
    let mut ids = Texts::new(alloc);
    let users = find_items_or_none(tree, "users");
    for user in users {
        add_mentions(alloc, &mut ids, user)?;
    }
    Ok(ids)
}
