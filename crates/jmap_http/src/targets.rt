// What a request's target names (RFC 8620, sections 2, 3.1, 6.1 and 6.2).
ghost use Rattle.std.specs.Prelude.{◌≡◌, codes, option_map};
ghost use Rattle.jmap_http.specs.Targets.{accept_by, blob_path, blob_resource, blob_with_name, resource_of, upload_if, upload_resource, upload_to};
ghost use Rattle.jmap_http.specs.Cuts.{strip_start};
ghost use Rattle.jmap_http.specs.Responses.{is_refused};
ghost use Rattle.jmap_http.specs.Views.{resource_as};

use crate::cuts::{cut_at, strip_end, strip_start};
use server_users::{UserAccount, find_account};

/// What a target names for a user.
#[derive(Clone, Copy)]
pub(crate) enum Resource<'a> {
    /// Nothing.
    Missing,
    /// The Session.
    Session,
    /// The API.
    Api,
    /// Uploads to an account.
    Upload(&'a UserAccount),
    /// A blob of an account, with what the client asks its media type to be.
    Blob {
        account: &'a UserAccount,
        blob: &'a [u8],
        accept: &'a [u8],
    },
}

// Returns uploads to an account, unless it is read-only.
fn find_account_upload(account: Option<&UserAccount>) -> Resource<'_>
    ensures { resource_as result ≡ upload_to (option_map (λ a. a.now) account.entry) }
{
    match account {
        Some(account) => {
            if account.read_only {
                return Resource::Missing;
            }
            Resource::Upload(account)
        }
        None => Resource::Missing,
    }
}

// Returns what `ACCOUNT/` names.
fn find_upload<'a>(accounts: &'a [UserAccount], rest: &[u8]) -> Resource<'a>
    ensures { resource_as result ≡ upload_resource accounts.now rest.now }
{
    match strip_end(b"/", rest) {
        Some(id) => find_account_upload(find_account(accounts, id)),
        None => Resource::Missing,
    }
}

// Returns what a client asks the media type to be.
fn find_accept(query: Option<&[u8]>) -> &[u8]
    ensures { result.now ≡ accept_by (option_map (λ b. b.now) query.entry) }
{
    match query {
        Some(query) => match strip_start(b"accept=", query) {
            Some(accept) => accept,
            None => &[],
        },
        None => &[],
    }
}

// Returns the blob of an account, if the name after it is one segment.
fn find_named_blob<'a>(
    account: Option<&'a UserAccount>,
    blob: &'a [u8],
    accept: &'a [u8],
    name: Option<&[u8]>,
) -> Resource<'a>
    ensures { resource_as result ≡ blob_with_name (option_map (λ a. a.now) account.entry)
        blob.now accept.now (option_map (λ b. b.now) name.entry) }
{
    let Some(name) = name else {
        return Resource::Missing;
    };
    if cut_at(b'/', name).after.is_some() {
        return Resource::Missing;
    }
    match account {
        Some(account) => Resource::Blob {
            account,
            blob,
            accept,
        },
        None => Resource::Missing,
    }
}

// Returns what `ACCOUNT/BLOB/NAME` names.
fn find_blob_at<'a>(accounts: &'a [UserAccount], accept: &'a [u8], path: &'a [u8]) -> Resource<'a>
    ensures { resource_as result ≡ blob_path accounts.now accept.now path.now }
{
    let cut = cut_at(b'/', path);
    let account = find_account(accounts, cut.before);
    match cut.after {
        Some(rest) => {
            let cut = cut_at(b'/', rest);
            find_named_blob(account, cut.before, accept, cut.after)
        }
        None => Resource::Missing,
    }
}

// Returns what `ACCOUNT/BLOB/NAME`, perhaps with a query, names.
fn find_blob<'a>(accounts: &'a [UserAccount], rest: &'a [u8]) -> Resource<'a>
    ensures { resource_as result ≡ blob_resource accounts.now rest.now }
{
    let cut = cut_at(b'?', rest);
    find_blob_at(accounts, find_accept(cut.after), cut.before)
}

// Returns what a target of uploads or downloads names.
fn find_in_account<'a>(accounts: &'a [UserAccount], target: &'a [u8]) -> Resource<'a>
    ensures { resource_as result ≡ upload_if accounts.now target.now
        (strip_start (codes "/jmap/upload/") target.now) }
{
    if let Some(rest) = strip_start(b"/jmap/upload/", target) {
        return find_upload(accounts, rest);
    }
    match strip_start(b"/jmap/download/", target) {
        Some(rest) => find_blob(accounts, rest),
        None => Resource::Missing,
    }
}

/// Returns what a target names for a user with these accounts.
pub(crate) fn find_resource<'a>(accounts: &'a [UserAccount], target: &'a [u8]) -> Resource<'a>
    ensures { resource_as result ≡ resource_of accounts.now target.now }
{
    if target == b"/.well-known/jmap".as_slice() {
        return Resource::Session;
    }
    if target == b"/jmap/api".as_slice() {
        return Resource::Api;
    }
    find_in_account(accounts, target)
}

/// Returns whether a resource is there, and a method is not the one by which it is asked for.
pub(crate) fn is_refused(resource: Resource<'_>, method: &str) -> bool
    ensures { result ≡ is_refused (resource_as resource.entry) method.now }
{
    match resource {
        Resource::Missing => false,
        Resource::Session => method != "GET",
        Resource::Api => method != "POST",
        Resource::Upload(_) => method != "POST",
        Resource::Blob { .. } => method != "GET",
    }
}
