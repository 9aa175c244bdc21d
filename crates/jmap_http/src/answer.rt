// The response to one request.
ghost use Rattle.std.specs.Prelude.{◌≡◌, ◌≤◌, ◌⊎◌, IfOk, OnErr, unwrap_or};
ghost use Rattle.std.specs.Str.Lossy.{utf8_lossy};
ghost use Rattle.jm_json.specs.Json.{tree_of};
ghost use Rattle.jmap_http.specs.Authorization.{field_value};
ghost use Rattle.jm_base.specs.declared.utc_dates.TheConstants.{LAST_TIMESTAMP};
ghost use Rattle.http_wire.specs.Fields.{pairs};
ghost use Rattle.jmap_http.specs.Steps.{steps_of};
ghost use Rattle.jmap_http.specs.Responses.{blob_response, session_response, stored_tree, upload_response, HasBegunApi, HasBegunBlob, HasBegunOf, HasBegunRequest, HasBegunResource, HasBegunUpload, IsApiResponse, IsBegun, IsBlobResponse, IsResponse, IsResourceResponse, IsResponseOf, IsUploadResponse};
ghost use Rattle.jmap_http.specs.Targets.{resource_of};
ghost use Rattle.jmap_http.specs.Views.{asked, resource_as};

use crate::authorization::{find_field, find_user};
use crate::media::write_media;
use crate::port::Stored;
use crate::response::{Response, write_api, write_blank, write_json, write_limit};
use crate::session::show_session;
use crate::targets::{Resource, find_resource, is_refused};
use crate::user_port::UserPort;
use blob_ids::{BlobId, write_blob_id};
use http_wire::{HttpField, HttpRequest};
use jm_base::{Bytes, NoMemory, Text};
use jm_json::{Json, Members};
use method_batch::perform_request;
use server_users::{User, UserAccount, Users};
use std::alloc::Global;

// The index of the user who asks, and the timestamp at which the request was complete.
#[derive(Clone, Copy)]
struct Origin {
    index: u64,
    time: u64,
}

// Returns the value of a field as a string, or another string if there is no such field.
fn write_field(
    alloc: Global,
    fields: &[HttpField],
    name: &[u8],
    other: &[u8],
) -> Result<Text, NoMemory>
    ensures { IfOk result
        (λ t. t ≡ utf8_lossy (unwrap_or (field_value name.now (pairs fields.now)) other.now)) }
{
    let value = match find_field(fields, name) {
        Some(value) => value,
        None => other,
    };
    Ok(Text::from_string(String::from_utf8_lossy(alloc, value)?))
}

// Answers a request for the Session.
fn answer_session(alloc: Global, user: &User, fields: &[HttpField]) -> Result<Response, NoMemory>
    ensures { IfOk result (λ r. r ≡ session_response user.now (pairs fields.now)) }
{
    let host = write_field(alloc, fields, b"Host", b"")?;
    let tree = show_session(alloc, user, host.as_str())?;
    write_json(alloc, 200, &tree)
}

// Returns the JSON view of a blob that holds an upload of so many bytes.
fn show_upload(
    alloc: Global,
    account: &UserAccount,
    media: Text,
    size: usize,
    blob: u64,
) -> Result<Json, NoMemory>
    ensures { IfOk result (λ t. tree_of t ≡ stored_tree account.now.id media size blob) }
{
    let Ok(count) = i64::try_from(size) else {
        return Err(NoMemory);
    };
    let mut members = Members::new(alloc);
    members.set(alloc, "accountId", Json::Text(account.id.copy()?))?;
    let id = write_blob_id(alloc, BlobId { blob, leaf: None })?;
    members.set(alloc, "blobId", Json::Text(id))?;
    members.set(alloc, "size", Json::Int(count))?;
    members.set(alloc, "type", Json::Text(media))?;
    Ok(Json::Object(members))
}

// Returns the response to an upload of so many bytes.
fn write_upload(
    alloc: Global,
    account: &UserAccount,
    media: Text,
    size: usize,
    stored: Stored,
) -> Result<Response, NoMemory>
    ensures { IfOk result (λ r. r ≡ upload_response account.now.id media size stored) }
{
    match stored {
        Stored::Kept(blob) => {
            let tree = show_upload(alloc, account, media, size, blob)?;
            write_json(alloc, 201, &tree)
        }
        Stored::Full => write_limit(alloc, "maxSizeBlobs"),
        Stored::Failed => write_blank(alloc, 500),
    }
}

// Returns the response to a download.
fn write_blob(alloc: Global, accept: &[u8], blob: Option<Bytes>) -> Result<Response, NoMemory>
    ensures { IfOk result (λ r. r ≡ blob_response accept.now blob) }
{
    match blob {
        Some(body) => Ok(Response {
            status: 200,
            media: write_media(alloc, accept)?,
            body,
        }),
        None => write_blank(alloc, 404),
    }
}

// Answers a request to the API, which the port performs for a user.
fn answer_api<P: UserPort>(
    alloc: Global,
    port: &mut P,
    origin: Origin,
    body: &[u8],
) -> Result<Response, NoMemory>
    requires { origin.time ≤ LAST_TIMESTAMP }
    ensures ok { IfOk result (λ r. IsBegun (steps_of P.answers P.stops P.steps) port.old
        origin.index origin.time (λ m. IsApiResponse (steps_of P.answers P.stops P.steps) m
        port.new body.now r)) }
    ensures err { OnErr result (IsBegun (steps_of P.answers P.stops P.steps) port.old origin.index
        origin.time (λ m. HasBegunApi (steps_of P.answers P.stops P.steps) m port.new body.now)) }
{
    port.begin(origin.index, origin.time);
    match perform_request(alloc, port, body) {
        Ok(answered) => write_api(alloc, answered),
        Err(refused) => Err(refused),
    }
}

// Answers an upload to an account.
fn answer_upload<P: UserPort>(
    alloc: Global,
    port: &mut P,
    origin: Origin,
    account: &UserAccount,
    fields: &[HttpField],
    body: Bytes,
) -> Result<Response, NoMemory>
    requires { origin.time ≤ LAST_TIMESTAMP }
    ensures ok { IfOk result (λ r. IsBegun (steps_of P.answers P.stops P.steps) port.old
        origin.index origin.time (λ m. IsUploadResponse (steps_of P.answers P.stops P.steps) m
        port.new account.now (pairs fields.now) body r)) }
    ensures err { OnErr result ((port.new ≡ port.old) ⊎ IsBegun (steps_of P.answers P.stops
        P.steps) port.old origin.index origin.time (λ m. HasBegunUpload (steps_of P.answers P.stops
        P.steps) m port.new account.now body)) }
{
    let size = body.len();
    let media = write_field(alloc, fields, b"Content-Type", b"application/octet-stream")?;
    port.begin(origin.index, origin.time);
    match port.upload(alloc, account.number, body) {
        Ok(stored) => write_upload(alloc, account, media, size, stored),
        Err(refused) => Err(refused),
    }
}

// Answers a download of a blob of an account.
fn answer_download<P: UserPort>(
    alloc: Global,
    port: &mut P,
    origin: Origin,
    account: &UserAccount,
    blob: &[u8],
    accept: &[u8],
) -> Result<Response, NoMemory>
    requires { origin.time ≤ LAST_TIMESTAMP }
    ensures ok { IfOk result (λ r. IsBegun (steps_of P.answers P.stops P.steps) port.old
        origin.index origin.time (λ m. IsBlobResponse (steps_of P.answers P.stops P.steps) m
        port.new account.now blob.now accept.now r)) }
    ensures err { OnErr result (IsBegun (steps_of P.answers P.stops P.steps) port.old origin.index
        origin.time (λ m. HasBegunBlob (steps_of P.answers P.stops P.steps) m port.new account.now
        blob.now)) }
{
    port.begin(origin.index, origin.time);
    match port.read_blob(alloc, account.number, blob) {
        Ok(found) => write_blob(alloc, accept, found),
        Err(refused) => Err(refused),
    }
}

// Answers a request for a resource.
fn answer_resource<P: UserPort>(
    alloc: Global,
    port: &mut P,
    user: &User,
    origin: Origin,
    resource: Resource<'_>,
    fields: &[HttpField],
    body: Bytes,
) -> Result<Response, NoMemory>
    requires { origin.time ≤ LAST_TIMESTAMP }
    ensures ok { IfOk result (λ r. IsResourceResponse (steps_of P.answers P.stops P.steps) port.old
        port.new origin.index origin.time user.now (pairs fields.now) body (resource_as
        resource.entry) r) }
    ensures err { OnErr result (HasBegunResource (steps_of P.answers P.stops P.steps) port.old
        port.new origin.index origin.time body (resource_as resource.entry)) }
{
    match resource {
        Resource::Missing => write_blank(alloc, 404),
        Resource::Session => answer_session(alloc, user, fields),
        Resource::Api => answer_api(alloc, port, origin, body.as_slice()),
        Resource::Upload(account) => answer_upload(alloc, port, origin, account, fields, body),
        Resource::Blob {
            account,
            blob,
            accept,
        } => answer_download(alloc, port, origin, account, blob, accept),
    }
}

// Answers a request of a user.
fn answer_user<P: UserPort>(
    alloc: Global,
    port: &mut P,
    user: &User,
    origin: Origin,
    request: HttpRequest,
) -> Result<Response, NoMemory>
    requires { origin.time ≤ LAST_TIMESTAMP }
    ensures ok { IfOk result (λ r. IsResponseOf (steps_of P.answers P.stops P.steps) port.old
        port.new origin.index origin.time user.now (asked request) (resource_of user.now.accounts
        request.target) r) }
    ensures err { OnErr result (HasBegunOf (steps_of P.answers P.stops P.steps) port.old port.new
        origin.index origin.time (asked request) (resource_of user.now.accounts request.target)) }
{
    let HttpRequest {
        method,
        target,
        fields,
        body,
        ..
    } = request;
    let resource = find_resource(user.accounts.as_slice(), target.as_slice());
    if is_refused(resource, method.as_str()) {
        return write_blank(alloc, 405);
    }
    match answer_resource(alloc, port, user, origin, resource, fields.as_slice(), body) {
        Ok(response) => Ok(response),
        Err(refused) => Err(refused),
    }
}

/// Answers a complete request, for which the clock showed this timestamp, over a port that answers
/// for the users. The body is read where it is.
///
/// Fails with `NoMemory` if an allocation fails; then the port was not asked, or what it was asked
/// for was begun.
pub fn respond<P: UserPort>(
    alloc: Global,
    users: &Users,
    port: &mut P,
    request: HttpRequest,
    time: u64,
) -> Result<Response, NoMemory>
    requires { time ≤ LAST_TIMESTAMP }
    ensures ok { IfOk result (λ r. IsResponse (steps_of P.answers P.stops P.steps) users.now.users
        port.old port.new time (asked request) r) }
    ensures err { OnErr result (HasBegunRequest (steps_of P.answers P.stops P.steps)
        users.now.users port.old port.new time (asked request)) }
{
    let Some(index) = find_user(users, request.fields.as_slice()) else {
        return write_blank(alloc, 401);
    };
    let user = &users.as_slice()[index];
    let origin = Origin {
        index: index as u64,
        time,
    };
    answer_user(alloc, port, user, origin, request)
}
