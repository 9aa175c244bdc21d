// Uploads, each a line that begins with `+` (RFC 8620, section 6.1).
ghost use Rattle.std.specs.Prelude.{◌≡◌, ◌≤◌, ℕ, List, Some, IfOk, OnErr};
ghost use Rattle.jm_base.specs.declared.limits.TheConstants.{MAX_UPLOAD_BYTES};
ghost use Rattle.jm_json.specs.Json.{tree_of};
ghost use Rattle.method_batch.specs.Outcome.{problem_tree};
ghost use Rattle.method_batch.specs.declared.outcome.Problem.TheVariants as problem;
ghost use Rattle.batch_lines.specs.Uploads.{HasBegunBytes, HasBegunUpload, IsAnswerToBytes, IsUploadAnswer, base64_bytes, failure_tree, upload_tree};
ghost use Rattle.batch_lines.specs.declared.upload.Uploaded.{Uploaded as TheUploaded};

use crate::limits::MAX_UPLOAD_CHARACTERS;
use base64::DecodeAllocError;
use base64::engine::general_purpose::STANDARD;
use blob_ids::{BlobId, write_blob_id};
use jm_base::{Bytes, MAX_UPLOAD_BYTES, NoMemory, Text};
use jm_json::{Json, Members};
use method_batch::{Outcome, Port, Problem, show_limit};
use std::alloc::Global;

/// What an account answers to an upload.
#[derive(Drop)]
pub enum Uploaded {
    /// The blob with this number, of the account with this identifier, holds the bytes.
    Kept { account: Text, blob: u64 },
    /// There is no room for one more blob of that size.
    Full,
    /// The blob could not be kept.
    Failed,
}

/// What answers the requests of lines, and their uploads. The meaning of an upload is two relations
/// between states, as that of a call is.
pub trait UploadPort: Port {
    /// In the first state an upload of these bytes may be answered by this, which leaves the second
    /// state.
    ghost uploads: { Self → List ℕ → TheUploaded → Self → Type 0 };

    /// In the first state an upload of these bytes may end out of memory, which leaves the second
    /// state.
    ghost halts: { Self → List ℕ → Self → Type 0 };

    /// Uploads bytes. If that ends out of memory, the port is in a state in which `halts` allows an
    /// upload to leave it.
    fn upload(&mut self, alloc: Global, bytes: Bytes) -> Result<Uploaded, NoMemory>
        ensures answer { IfOk result (λ u. uploads self.old bytes u self.new) }
        ensures halted { OnErr result (halts self.old bytes self.new) };

    /// An upload that ends out of memory may leave the state as it was.
    ghost rests: { (s : Self) (bytes : List ℕ) → halts s bytes s };
}

// Returns the blob that holds an upload of so many bytes.
fn show_blob(alloc: Global, size: u64, account: Text, blob: u64) -> Result<Json, NoMemory>
    requires { size ≤ MAX_UPLOAD_BYTES }
    ensures { IfOk result (λ t. tree_of t ≡ upload_tree size (TheUploaded.Kept account blob)) }
{
    let mut members = Members::new(alloc);
    members.set(alloc, "accountId", Json::Text(account))?;
    let id = write_blob_id(alloc, BlobId { blob, leaf: None })?;
    members.set(alloc, "blobId", Json::Text(id))?;
    members.set(alloc, "size", Json::Int(size as i64))?;
    let kind = Text::from_str(alloc, "application/octet-stream")?;
    members.set(alloc, "type", Json::Text(kind))?;
    Ok(Json::Object(members))
}

// Returns the problem of an upload that could not be kept (RFC 7807).
fn show_failure(alloc: Global) -> Result<Json, NoMemory>
    ensures { IfOk result (λ t. tree_of t ≡ failure_tree) }
{
    let mut members = Members::new(alloc);
    members.set(alloc, "status", Json::Int(500))?;
    let kind = Text::from_str(alloc, "about:blank")?;
    members.set(alloc, "type", Json::Text(kind))?;
    Ok(Json::Object(members))
}

// Returns the JSON view of the answer to an upload of so many bytes.
fn show_upload(alloc: Global, size: u64, uploaded: Uploaded) -> Result<Json, NoMemory>
    requires { size ≤ MAX_UPLOAD_BYTES }
    ensures { IfOk result (λ t. tree_of t ≡ upload_tree size uploaded) }
{
    match uploaded {
        Uploaded::Kept { account, blob } => show_blob(alloc, size, account, blob),
        Uploaded::Full => show_limit(alloc, "maxSizeBlobs"),
        Uploaded::Failed => show_failure(alloc),
    }
}

// Returns the bytes whose base64 a string is, or None if it is that of no bytes.
fn read_base64(alloc: Global, string: &[u8]) -> Result<Option<Bytes>, NoMemory>
    ensures { IfOk result (λ o. o ≡ base64_bytes string.now) }
{
    match STANDARD.decode(alloc, string) {
        Ok(items) => Ok(Some(Bytes::from_vec(items))),
        Err(DecodeAllocError::DecodeError(_)) => Ok(None),
        Err(DecodeAllocError::OutOfMemory) => Err(NoMemory),
    }
}

// Uploads bytes, unless they are too many.
fn upload_bytes<P: UploadPort>(alloc: Global, port: &mut P, bytes: Bytes) -> Result<Json, NoMemory>
    ensures ok { IfOk result (λ t. IsAnswerToBytes
        P.uploads port.old port.new (Some bytes) (tree_of t)) }
    ensures err { OnErr result (HasBegunBytes P.uploads P.halts port.old port.new (Some bytes)) }
{
    let size = bytes.len() as u64;
    if size > MAX_UPLOAD_BYTES as u64 {
        return show_limit(alloc, "maxSizeUpload");
    }
    match port.upload(alloc, bytes) {
        Ok(uploaded) => show_upload(alloc, size, uploaded),
        Err(refused) => Err(refused),
    }
}

// Returns the problem of a line that is no request.
fn show_no_request(alloc: Global) -> Result<Json, NoMemory>
    ensures { IfOk result (λ t. tree_of t ≡ problem_tree problem.NotRequest) }
{
    match Outcome::reject(alloc, Problem::NotRequest) {
        Ok(outcome) => Ok(outcome.tree),
        Err(refused) => Err(refused),
    }
}

fn answer_bytes<P: UploadPort>(
    alloc: Global,
    port: &mut P,
    bytes: Option<Bytes>,
) -> Result<Json, NoMemory>
    ensures ok { IfOk result (λ t. IsAnswerToBytes P.uploads port.old port.new bytes (tree_of t)) }
    ensures err { OnErr result (HasBegunBytes P.uploads P.halts port.old port.new bytes) }
{
    match bytes {
        Some(bytes) => upload_bytes(alloc, port, bytes),
        None => show_no_request(alloc),
    }
}

/// Answers the string that follows the `+` of a line. If memory runs out, its bytes were uploaded
/// or not.
pub(crate) fn answer_upload<P: UploadPort>(
    alloc: Global,
    port: &mut P,
    string: &[u8],
) -> Result<Json, NoMemory>
    ensures ok { IfOk result (λ t. IsUploadAnswer
        P.uploads port.old port.new string.now (tree_of t)) }
    ensures err { OnErr result (HasBegunUpload P.uploads P.halts port.old port.new string.now) }
{
    if string.len() as u64 > MAX_UPLOAD_CHARACTERS {
        return show_limit(alloc, "maxSizeUpload");
    }
    match read_base64(alloc, string) {
        Ok(bytes) => answer_bytes(alloc, port, bytes),
        Err(refused) => Err(refused),
    }
}
