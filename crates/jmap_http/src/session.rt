// The Session object (RFC 8620, section 2).
ghost use Rattle.std.specs.Prelude.{◌≡◌, ◌++◌, [], ◌∷◌, IfOk, codes};
ghost use Rattle.jm_json.specs.Tree.{text, list, object, trees_of, fields_of};
ghost use Rattle.method_batch.specs.Method.{mail_capability};
ghost use Rattle.jm_json.specs.Json.{tree_of};
ghost use Rattle.jmap_http.specs.Session.{account_members, account_tree, capabilities_tree, core_tree, mail_tree, primary_members, session_tree, sort_options, url, websocket_tree};

use jm_base::{
    MAX_MAILBOX_NAME_BYTES, MAX_MAILBOXES_PER_EMAIL, MAX_REQUEST_BYTES, MAX_SESSIONS,
    MAX_UPLOAD_BYTES, NoMemory, Text,
};
use jm_json::{Items, Json, Members};
use method_args::MAX_OBJECTS_PER_CALL;
use method_batch::MAX_CALLS_PER_REQUEST;
use server_users::{User, UserAccount};
use std::alloc::Global;

// Returns a string as a value.
fn show_text(alloc: Global, word: &str) -> Result<Json, NoMemory>
    ensures { IfOk result (λ t. tree_of t ≡ text word.now) }
{
    Ok(Json::Text(Text::from_str(alloc, word)?))
}

// Returns the list of one string.
fn show_collations(alloc: Global) -> Result<Json, NoMemory>
    ensures { IfOk result (λ t. tree_of t ≡ list (trees_of (text (codes "i;ascii-casemap") ∷ []))) }
{
    let mut items = Items::new(alloc);
    items.push(show_text(alloc, "i;ascii-casemap")?)?;
    Ok(Json::List(items))
}

// Returns what the core says of its limits.
fn show_core(alloc: Global) -> Result<Json, NoMemory>
    ensures { IfOk result (λ t. tree_of t ≡ core_tree) }
{
    let mut members = Members::new(alloc);
    members.set(alloc, "collationAlgorithms", show_collations(alloc)?)?;
    members.set(
        alloc,
        "maxCallsInRequest",
        Json::Int(MAX_CALLS_PER_REQUEST as i64),
    )?;
    members.set(
        alloc,
        "maxConcurrentRequests",
        Json::Int(MAX_SESSIONS as i64),
    )?;
    members.set(alloc, "maxConcurrentUpload", Json::Int(MAX_SESSIONS as i64))?;
    members.set(
        alloc,
        "maxObjectsInGet",
        Json::Int(MAX_OBJECTS_PER_CALL as i64),
    )?;
    members.set(
        alloc,
        "maxObjectsInSet",
        Json::Int(MAX_OBJECTS_PER_CALL as i64),
    )?;
    members.set(alloc, "maxSizeRequest", Json::Int(MAX_REQUEST_BYTES as i64))?;
    members.set(alloc, "maxSizeUpload", Json::Int(MAX_UPLOAD_BYTES as i64))?;
    Ok(Json::Object(members))
}

// Returns a URL at a host.
fn show_url(alloc: Global, scheme: &str, host: &str, path: &str) -> Result<Json, NoMemory>
    ensures { IfOk result (λ t. tree_of t ≡ text (scheme.now ++ (host.now ++ path.now))) }
{
    let address = format!(in alloc; "{scheme}{host}{path}")?;
    Ok(Json::Text(Text::from_string(address)))
}

// Returns what is said of WebSocket connections.
fn show_websocket(alloc: Global, host: &str) -> Result<Json, NoMemory>
    ensures { IfOk result (λ t. tree_of t ≡ websocket_tree host.now) }
{
    let mut members = Members::new(alloc);
    members.set(alloc, "supportsPush", Json::Bool(true))?;
    members.set(alloc, "url", show_url(alloc, "ws://", host, "/jmap/ws")?)?;
    Ok(Json::Object(members))
}

// Returns the capabilities of the server.
fn show_capabilities(alloc: Global, host: &str) -> Result<Json, NoMemory>
    ensures { IfOk result (λ t. tree_of t ≡ capabilities_tree host.now) }
{
    let mut members = Members::new(alloc);
    members.set(alloc, "urn:ietf:params:jmap:core", show_core(alloc)?)?;
    members.set(
        alloc,
        "urn:ietf:params:jmap:mail",
        Json::Object(Members::new(alloc)),
    )?;
    members.set(
        alloc,
        "urn:ietf:params:jmap:websocket",
        show_websocket(alloc, host)?,
    )?;
    Ok(Json::Object(members))
}

// Returns the properties by which emails can be sorted.
fn show_sort_options(alloc: Global) -> Result<Json, NoMemory>
    ensures { IfOk result (λ t. tree_of t ≡ list (trees_of sort_options)) }
{
    let mut items = Items::new(alloc);
    items.push(show_text(alloc, "receivedAt")?)?;
    items.push(show_text(alloc, "size")?)?;
    items.push(show_text(alloc, "from")?)?;
    items.push(show_text(alloc, "to")?)?;
    items.push(show_text(alloc, "subject")?)?;
    items.push(show_text(alloc, "sentAt")?)?;
    items.push(show_text(alloc, "hasKeyword")?)?;
    items.push(show_text(alloc, "allInThreadHaveKeyword")?)?;
    items.push(show_text(alloc, "someInThreadHaveKeyword")?)?;
    Ok(Json::List(items))
}

// Returns what an account says of its mail.
fn show_mail(alloc: Global, read_only: bool) -> Result<Json, NoMemory>
    ensures { IfOk result (λ t. tree_of t ≡ mail_tree read_only) }
{
    let mut members = Members::new(alloc);
    members.set(alloc, "emailQuerySortOptions", show_sort_options(alloc)?)?;
    members.set(alloc, "maxMailboxDepth", Json::Null)?;
    members.set(
        alloc,
        "maxMailboxesPerEmail",
        Json::Int(MAX_MAILBOXES_PER_EMAIL as i64),
    )?;
    members.set(
        alloc,
        "maxSizeAttachmentsPerEmail",
        Json::Int(MAX_UPLOAD_BYTES as i64),
    )?;
    members.set(
        alloc,
        "maxSizeMailboxName",
        Json::Int(MAX_MAILBOX_NAME_BYTES as i64),
    )?;
    members.set(alloc, "mayCreateTopLevelMailbox", Json::Bool(!read_only))?;
    Ok(Json::Object(members))
}

// Returns the capabilities of an account.
fn show_account_capabilities(alloc: Global, read_only: bool) -> Result<Json, NoMemory>
    ensures { IfOk result
        (λ t. tree_of t ≡ object (fields_of ((mail_capability, mail_tree read_only) ∷ []))) }
{
    let mut members = Members::new(alloc);
    members.set(
        alloc,
        "urn:ietf:params:jmap:mail",
        show_mail(alloc, read_only)?,
    )?;
    Ok(Json::Object(members))
}

// Returns an account of a user.
fn show_account(alloc: Global, account: &UserAccount) -> Result<Json, NoMemory>
    ensures { IfOk result (λ t. tree_of t ≡ account_tree account.now) }
{
    let mut members = Members::new(alloc);
    let capabilities = show_account_capabilities(alloc, account.read_only)?;
    members.set(alloc, "accountCapabilities", capabilities)?;
    members.set(alloc, "isPersonal", Json::Bool(true))?;
    members.set(alloc, "isReadOnly", Json::Bool(account.read_only))?;
    members.set(alloc, "name", Json::Text(account.name.copy()?))?;
    Ok(Json::Object(members))
}

// Returns the accounts by their identifiers.
fn show_accounts(alloc: Global, accounts: &[UserAccount]) -> Result<Members, NoMemory>
    ensures { IfOk result (λ ms. ms ≡ account_members accounts.now) }
{
    let mut members = Members::new(alloc);
    for account in accounts {
        members.put(account.id.copy()?, show_account(alloc, account)?)?;
    }
    Ok(members)
}

// Returns the primary account of mail, if there is an account.
fn show_primary(alloc: Global, accounts: &[UserAccount]) -> Result<Members, NoMemory>
    ensures { IfOk result (λ ms. ms ≡ primary_members accounts.now) }
{
    let mut members = Members::new(alloc);
    match accounts.split_first() {
        Some((account, _)) => {
            let id = Json::Text(account.id.copy()?);
            members.set(alloc, "urn:ietf:params:jmap:mail", id)?;
            Ok(members)
        }
        None => Ok(members),
    }
}

// Returns a URL of the API at a host.
fn show_http_url(alloc: Global, host: &str, path: &str) -> Result<Json, NoMemory>
    ensures { IfOk result (λ t. tree_of t ≡ url host.now path.now) }
{
    show_url(alloc, "http://", host, path)
}

/// Returns the Session of a user, for a request that names this host.
pub(crate) fn show_session(alloc: Global, user: &User, host: &str) -> Result<Json, NoMemory>
    ensures { IfOk result (λ t. tree_of t ≡ session_tree user.now host.now) }
{
    let accounts = user.accounts.as_slice();
    let mut members = Members::new(alloc);
    members.set(
        alloc,
        "accounts",
        Json::Object(show_accounts(alloc, accounts)?),
    )?;
    members.set(alloc, "apiUrl", show_http_url(alloc, host, "/jmap/api")?)?;
    members.set(alloc, "capabilities", show_capabilities(alloc, host)?)?;
    let download = "/jmap/download/{accountId}/{blobId}/{name}?accept={type}";
    members.set(alloc, "downloadUrl", show_http_url(alloc, host, download)?)?;
    let events = "/jmap/events?types={types}&closeafter={closeafter}&ping={ping}";
    members.set(alloc, "eventSourceUrl", show_http_url(alloc, host, events)?)?;
    members.set(
        alloc,
        "primaryAccounts",
        Json::Object(show_primary(alloc, accounts)?),
    )?;
    members.set(alloc, "state", show_text(alloc, "0")?)?;
    members.set(
        alloc,
        "uploadUrl",
        show_http_url(alloc, host, "/jmap/upload/{accountId}/")?,
    )?;
    members.set(alloc, "username", Json::Text(user.name.copy()?))?;
    Ok(Json::Object(members))
}
