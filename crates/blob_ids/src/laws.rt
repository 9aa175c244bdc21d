// What holds of the identifiers of blobs.
ghost use Rattle.std.specs.Prelude.{◌≡◌, Some};
ghost use Rattle.blob_ids.specs.BlobIds.{IsBlobId, blob_id_in, blob_id_text};
ghost use Rattle.blob_ids.specs.declared.ids.BlobId.{BlobId as TheId};

/// What is written of an identifier is read as that identifier.
pub fn ids_are_read_back()
    ensures { (id : TheId) → IsBlobId id → blob_id_in (blob_id_text id) ≡ Some id }
{}
