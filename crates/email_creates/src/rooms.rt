// Room for one more blob (RFC 8620, section 5.3: overQuota).
ghost use Rattle.std.specs.Prelude.{◌≡◌, ◌≤◌, ◌<◌, ◌^◌, ◌++◌};
ghost use Rattle.blob_store.specs.Blobs.{byte_count, has_room};
ghost use Rattle.blob_store.specs.declared.limits.TheConstants.{MAX_BLOB_BYTES_PER_ACCOUNT as most_bytes};
ghost use Rattle.email_creates.specs.Views.{CountsBlobs};

use crate::planner::{Planner, Setting};
use blob_store::{BlobList, MAX_BLOBS_PER_ACCOUNT};
use jm_base::Bytes;

/// Returns whether one more blob of this size, in bytes, is within the limits of an account that
/// has these blobs, and then these others, which have this many bytes together.
pub fn has_room(blobs: &BlobList, brought: &[Bytes], bytes: u64, size: u64) -> bool
    requires counted { bytes ≡ byte_count brought.now }
    requires few { bytes ≤ most_bytes }
    requires size { size < 2 ^ 63 }
    ensures { result ≡ has_room size (blobs.now.blobs ++ brought.now) }
{
    let count = blobs.all().len() as u64 + brought.len() as u64;
    count < MAX_BLOBS_PER_ACCOUNT && !blobs.is_full_for(bytes + size)
}

/// Returns whether one more blob of this size, in bytes, is within the limits of the account, after
/// the blobs that the call has brought up to here.
pub fn has_room_for(setting: &Setting, planner: &Planner, size: u64) -> bool
    requires counted { CountsBlobs planner.now }
    requires size { size < 2 ^ 63 }
    ensures { result
        ≡ has_room size (setting.now.blobs.now.blobs ++ planner.now.creates.blobs) }
{
    has_room(
        setting.blobs,
        planner.creates.blobs.as_slice(),
        planner.blob_bytes,
        size,
    )
}
