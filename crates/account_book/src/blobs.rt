// The blobs of an account, in the order in which its commits brought them.
ghost use Rattle.std.specs.Prelude.{◌≡◌, ◌↔◌, ◌≤◌, ◌++◌, IfOk, IsTrue, length};
ghost use Rattle.blob_store.specs.Blobs.{AreBlobsFew};

use blob_store::{BlobFault, BlobList};
use jm_base::{Blobs, NoMemory};
use std::collections::VecDeque;

#[tactic(auto, using(crate::proofs::Few::few_with_one))]
/// Puts blobs at the end, for which room is reserved, and with which all are within the limits.
pub(crate) fn push_all_ready(blobs: &mut BlobList, more: Blobs)
    requires room { length more ≤ blobs.old.spare }
    requires few { AreBlobsFew (blobs.old.blobs ++ more) }
    ensures items { blobs.new.blobs ≡ blobs.old.blobs ++ more }
{
    let mut rest = VecDeque::from_vec(more.into_vec());
    while let Some(blob) = rest.pop_front() {
        blobs.push_ready(blob);
    }
}

/// Puts blobs at the end, and returns whether all are within the limits with them. If not, some of
/// them may be missing at the end.
pub(crate) fn push_all(blobs: &mut BlobList, more: Blobs) -> Result<bool, NoMemory>
    requires few { AreBlobsFew blobs.old.blobs }
    ensures few { IfOk result (λ b. IsTrue b ↔ AreBlobsFew (blobs.old.blobs ++ more)) }
    ensures items { IfOk result (λ b. IsTrue b → blobs.new.blobs ≡ blobs.old.blobs ++ more) }
{
    let mut rest = VecDeque::from_vec(more.into_vec());
    while let Some(blob) = rest.pop_front() {
        match blobs.push(blob) {
            Ok(_) => {}
            Err(BlobFault::BlobsFull) => return Ok(false),
            Err(BlobFault::NoMemory | BlobFault::NoSuchBlob) => return Err(NoMemory),
        }
    }
    Ok(true)
}
