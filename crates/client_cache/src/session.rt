// The Session, read (RFC 8620, section 2).
ghost use Rattle.std.specs.Prelude.{◌≡◌, IfOk, None, codes, map, option_and_then, option_map};
ghost use Rattle.std.specs.List.{list_all};
ghost use Rattle.jm_json.specs.Find.{as_object};
ghost use Rattle.jm_json.specs.Json.{member_of, tree_of};
ghost use Rattle.jm_json.specs.LeastPlaces.{least_from};
ghost use Rattle.method_args.specs.Places.{member_places, places_in};
ghost use Rattle.client_cache.specs.Sessions.{account_after, account_places, accounts_places, after_scheme, from_slash, is_visible, path_in, path_of_tree, path_of_url, primaries_places, primary_account, primary_places, session_member_places, session_places, text_places, url_places};

use jm_base::{NoMemory, Text};
use jm_json::{Json, Member, Members};
use method_args::{choose_member, choose_value, make_member_pointer, read_object, read_text};
use std::alloc::Global;

const MAIL_CAPABILITY: &str = "urn:ietf:params:jmap:mail";

// ---- the path of a URL

fn is_visible(byte: u8) -> bool
    ensures { result ≡ is_visible byte }
{
    33 <= byte && byte <= 126
}

fn are_visible(bytes: &[u8]) -> bool
    ensures { result ≡ list_all is_visible bytes.now }
{
    for byte in bytes {
        if !is_visible(*byte) {
            return false;
        }
    }
    true
}

fn find_after_scheme(url: &[u8]) -> Option<&[u8]>
    ensures { option_map (λ b. b.now) result ≡ after_scheme url.now }
{
    let mut rest = url;
    'part: while let Some((_, after)) = rest.split_first() {
        if rest.starts_with(b"://") {
            return Some(&rest[3..]);
        }
        rest = after;
    }
    None
}

fn find_slash(text: &[u8]) -> Option<&[u8]>
    ensures { option_map (λ b. b.now) result ≡ from_slash text.now }
{
    let mut rest = text;
    'part: while let Some((byte, after)) = rest.split_first() {
        if *byte == b'/' {
            return Some(rest);
        }
        rest = after;
    }
    None
}

fn find_path_after_scheme(url: &[u8]) -> Option<&[u8]>
    ensures { option_map (λ b. b.now) result ≡ option_and_then from_slash (after_scheme url.now) }
{
    match find_after_scheme(url) {
        Some(rest) => find_slash(rest),
        None => None,
    }
}

fn find_path_of_url(url: &[u8]) -> Option<&[u8]>
    ensures { option_map (λ b. b.now) result ≡ path_of_url url.now }
{
    match url.split_first() {
        Some((byte, _)) => {
            if *byte == b'/' {
                return Some(url);
            }
            find_path_after_scheme(url)
        }
        None => None,
    }
}

fn find_path(url: &[u8]) -> Option<&[u8]>
    ensures { option_map (λ b. b.now) result ≡ path_in url.now }
{
    if are_visible(url) {
        return find_path_of_url(url);
    }
    None
}

/// Lends the path of the URL that a value is, if it is one.
pub(crate) fn find_path_of(value: &Json) -> Option<&[u8]>
    ensures { option_map (λ b. b.now) result ≡ path_of_tree (tree_of value.now) }
{
    match value.as_text() {
        Some(text) => find_path(text.as_bytes()),
        None => None,
    }
}

// ---- the account

fn find_primary_account(session: &Members) -> Option<&Text>
    ensures { option_map (λ t. t.now) result ≡ primary_account session.now }
{
    match read_object(session, "primaryAccounts") {
        Some(accounts) => read_text(accounts, MAIL_CAPABILITY),
        None => None,
    }
}

/// Returns the account that is kept, or else the primary one of mail.
pub(crate) fn copy_account(
    account: &Option<Text>,
    session: &Members,
) -> Result<Option<Text>, NoMemory>
    ensures { IfOk result (λ a. a ≡ account_after account.now session.now) }
{
    match account {
        Some(account) => Ok(Some(account.copy()?)),
        None => match find_primary_account(session) {
            Some(account) => Ok(Some(account.copy()?)),
            None => Ok(None),
        },
    }
}

// ---- where it is not of its form

fn choose_url(
    alloc: Global,
    least: Option<Text>,
    pointer: &Text,
    session: &Members,
) -> Result<Option<Text>, NoMemory>
    ensures { IfOk result (λ o. o ≡ least_from least
        (member_places url_places pointer.now (codes "apiUrl") session.now)) }
{
    match session.get("apiUrl") {
        Some(url) => { choose_member(alloc, least, pointer, "apiUrl", find_path_of(url).is_some()) }
        None => choose_member(alloc, least, pointer, "apiUrl", false),
    }
}

fn choose_account(
    alloc: Global,
    least: Option<Text>,
    pointer: &Text,
    account: &Option<Text>,
    accounts: &Members,
) -> Result<Option<Text>, NoMemory>
    ensures { IfOk result
        (λ o. o ≡ least_from least (account_places account.now pointer.now accounts.now)) }
{
    match account {
        Some(id) => {
            let id = id.as_str();
            choose_member(alloc, least, pointer, id, accounts.get(id).is_some())
        }
        None => Ok(least),
    }
}

fn choose_in_accounts(
    alloc: Global,
    least: Option<Text>,
    pointer: &Text,
    account: &Option<Text>,
    value: &Json,
) -> Result<Option<Text>, NoMemory>
    ensures { IfOk result
        (λ o. o ≡ least_from least (accounts_places account.now pointer.now (tree_of value.now))) }
{
    match value.as_object() {
        Some(accounts) => choose_account(alloc, least, pointer, account, accounts),
        None => choose_value(least, pointer, false),
    }
}

fn choose_accounts(
    alloc: Global,
    least: Option<Text>,
    pointer: &Text,
    account: &Option<Text>,
    session: &Members,
) -> Result<Option<Text>, NoMemory>
    ensures { IfOk result (λ o. o ≡ least_from least
        (member_places (accounts_places account.now) pointer.now (codes "accounts")
        session.now)) }
{
    match session.get("accounts") {
        Some(value) => {
            let accounts = make_member_pointer(alloc, pointer, "accounts")?;
            choose_in_accounts(alloc, least, &accounts, account, value)
        }
        None => choose_member(alloc, least, pointer, "accounts", false),
    }
}

fn choose_in_texts(
    alloc: Global,
    least: Option<Text>,
    pointer: &Text,
    members: &[Member],
) -> Result<Option<Text>, NoMemory>
    ensures { IfOk result (λ o. o ≡ least_from least
        (text_places pointer.now (map member_of members.now))) }
{
    let mut least = least;
    for member in members {
        let is_text = member.value.as_text().is_some();
        least = choose_member(alloc, least, pointer, member.name.as_str(), is_text)?;
    }
    Ok(least)
}

fn choose_primary(
    alloc: Global,
    least: Option<Text>,
    pointer: &Text,
    account: &Option<Text>,
    primaries: &Members,
) -> Result<Option<Text>, NoMemory>
    ensures { IfOk result
        (λ o. o ≡ least_from least (primary_places account.now pointer.now primaries.now)) }
{
    match account {
        Some(_) => choose_in_texts(alloc, least, pointer, primaries.as_slice()),
        None => {
            let is_there = primaries.get(MAIL_CAPABILITY).is_some();
            let least = choose_member(alloc, least, pointer, MAIL_CAPABILITY, is_there)?;
            choose_in_texts(alloc, least, pointer, primaries.as_slice())
        }
    }
}

fn choose_in_primaries(
    alloc: Global,
    least: Option<Text>,
    pointer: &Text,
    account: &Option<Text>,
    value: &Json,
) -> Result<Option<Text>, NoMemory>
    ensures { IfOk result (λ o. o ≡ least_from least
        (primaries_places account.now pointer.now (tree_of value.now))) }
{
    match value.as_object() {
        Some(primaries) => choose_primary(alloc, least, pointer, account, primaries),
        None => choose_value(least, pointer, false),
    }
}

fn choose_primaries(
    alloc: Global,
    least: Option<Text>,
    pointer: &Text,
    account: &Option<Text>,
    session: &Members,
) -> Result<Option<Text>, NoMemory>
    ensures { IfOk result (λ o. o ≡ least_from least
        (member_places (primaries_places account.now) pointer.now (codes "primaryAccounts")
        session.now)) }
{
    match session.get("primaryAccounts") {
        Some(value) => {
            let primaries = make_member_pointer(alloc, pointer, "primaryAccounts")?;
            choose_in_primaries(alloc, least, &primaries, account, value)
        }
        None => choose_member(alloc, least, pointer, "primaryAccounts", false),
    }
}

fn choose_in_members(
    alloc: Global,
    pointer: &Text,
    account: &Option<Text>,
    session: &Members,
) -> Result<Option<Text>, NoMemory>
    ensures { IfOk result (λ o. o ≡ least_from None
        (session_member_places account.now pointer.now session.now)) }
{
    let least = choose_accounts(alloc, None, pointer, account, session)?;
    let least = choose_url(alloc, least, pointer, session)?;
    choose_primaries(alloc, least, pointer, account, session)
}

fn choose_in_session(
    alloc: Global,
    pointer: &Text,
    account: &Option<Text>,
    tree: &Json,
) -> Result<Option<Text>, NoMemory>
    ensures { IfOk result (λ o. o ≡ least_from None
        (places_in (session_member_places account.now pointer.now) pointer.now
        (as_object (tree_of tree.now)))) }
{
    match tree.as_object() {
        Some(session) => choose_in_members(alloc, pointer, account, session),
        None => choose_value(None, pointer, false),
    }
}

/// Returns the least of the places at which a tree is no Session with an account for a client that
/// keeps this one, or none.
pub(crate) fn find_bad_place_in_session(
    alloc: Global,
    account: &Option<Text>,
    tree: &Json,
) -> Result<Option<Text>, NoMemory>
    ensures { IfOk result
        (λ o. o ≡ least_from None (session_places account.now (tree_of tree.now))) }
{
    let root = Text::from_str(alloc, "")?;
    choose_in_session(alloc, &root, account, tree)
}
