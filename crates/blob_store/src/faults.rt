// Why a call on a list of blobs fails.
use jm_base::NoMemory;

/// Why a call on a list of blobs fails.
#[derive(Clone, Copy, Debug, PartialEq, Eq)]
pub enum BlobFault {
    /// No blob has the number.
    NoSuchBlob,
    /// With the blob the account would pass a limit on its blobs.
    BlobsFull,
    /// Memory ran out.
    NoMemory,
}

impl From<NoMemory> for BlobFault {
    ghost use Rattle.std.specs.Prelude.{◌≡◌};
    ghost use Rattle.blob_store.specs.declared.faults.BlobFault.TheVariants as blob_fault;

    ghost from_gives = { λ _ e. e ≡ blob_fault.NoMemory };

    fn from(_refused: NoMemory) -> BlobFault {
        BlobFault::NoMemory
    }
}
