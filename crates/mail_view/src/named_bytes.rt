// The bytes that blob ids name (RFC 8620, section 6; RFC 8621, section 4.1.4: blobId).
ghost use Rattle.std.specs.Prelude.{◌≡◌, IfOk, option_map};
ghost use Rattle.mail_summary.specs.Leaves.{part_bytes_of};
ghost use Rattle.mail_view.specs.NamedBytes.{bytes_named, bytes_of_id, bytes_or_leaf, named_of};

use blob_ids::{BlobId, read_blob_id};
use blob_store::BlobList;
use jm_base::{Bytes, NoMemory};
use mail_summary::part_bytes;
use std::alloc::Global;

/// The bytes that a blob id names.
#[derive(Drop)]
pub enum NamedBytes<'a> {
    /// Those of a blob, which its account lends.
    Blob(&'a [u8]),
    /// The decoded body of a leaf of a message.
    Leaf(Bytes),
}

impl<'a> NamedBytes<'a> {
    /// Lends the bytes.
    pub fn as_slice(&self) -> &[u8]
        ensures { result.now ≡ named_of self.now }
    {
        match self {
            NamedBytes::Blob(bytes) => bytes,
            NamedBytes::Leaf(bytes) => bytes.as_slice(),
        }
    }

    /// Returns the bytes, those of a blob as a copy.
    pub fn into_bytes(self, alloc: Global) -> Result<Bytes, NoMemory>
        ensures { IfOk result (λ b. b ≡ named_of self.entry) }
    {
        match self {
            NamedBytes::Blob(bytes) => Bytes::from_slice(alloc, bytes),
            NamedBytes::Leaf(bytes) => Ok(bytes),
        }
    }
}

// Returns the decoded body of a leaf of the message that a blob holds.
fn find_leaf<'a>(alloc: Global, bytes: &[u8], leaf: u64) -> Result<Option<NamedBytes<'a>>, NoMemory>
    ensures { IfOk result (λ o. option_map named_of o ≡ part_bytes_of bytes.now leaf) }
{
    match part_bytes(alloc, bytes, leaf)? {
        Some(body) => Ok(Some(NamedBytes::Leaf(body))),
        None => Ok(None),
    }
}

// Returns the bytes of a blob, or of a leaf of the message that it holds.
fn find_in_blob<'a>(
    alloc: Global,
    bytes: &'a [u8],
    leaf: Option<u64>,
) -> Result<Option<NamedBytes<'a>>, NoMemory>
    ensures { IfOk result (λ o. option_map named_of o ≡ bytes_or_leaf bytes.now leaf) }
{
    match leaf {
        Some(leaf) => find_leaf(alloc, bytes, leaf),
        None => Ok(Some(NamedBytes::Blob(bytes))),
    }
}

// Returns the bytes that an identifier names.
fn find_by_id<'a>(
    alloc: Global,
    blobs: &'a BlobList,
    id: BlobId,
) -> Result<Option<NamedBytes<'a>>, NoMemory>
    ensures { IfOk result (λ o. option_map named_of o ≡ bytes_of_id blobs.now.blobs id) }
{
    match blobs.get(id.blob) {
        Ok(bytes) => find_in_blob(alloc, bytes, id.leaf),
        Err(_) => Ok(None),
    }
}

/// Returns the bytes that a string names among the blobs of an account: those of a blob, or the
/// decoded body of a leaf of the message that a blob holds (RFC 8620, section 6.2; RFC 8621,
/// section 4.1.4: blobId). None if it names neither. A whole blob is lent and not copied.
pub fn find_named_bytes<'a>(
    alloc: Global,
    blobs: &'a BlobList,
    id: &str,
) -> Result<Option<NamedBytes<'a>>, NoMemory>
    ensures { IfOk result (λ o. option_map named_of o ≡ bytes_named blobs.now.blobs id.now) }
{
    match read_blob_id(id.as_bytes()) {
        Some(id) => find_by_id(alloc, blobs, id),
        None => Ok(None),
    }
}

/// Returns the bytes that a string names as [`find_named_bytes`] does, those of a blob as a copy.
pub fn read_named_bytes(
    alloc: Global,
    blobs: &BlobList,
    id: &str,
) -> Result<Option<Bytes>, NoMemory>
    ensures { IfOk result (λ b. b ≡ bytes_named blobs.now.blobs id.now) }
{
    match find_named_bytes(alloc, blobs, id)? {
        Some(bytes) => Ok(Some(bytes.into_bytes(alloc)?)),
        None => Ok(None),
    }
}
