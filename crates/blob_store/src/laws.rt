// What holds of the limits on blobs.
ghost use Rattle.std.specs.Prelude.{◌↔◌, ℕ, List, ◌++◌, ◌∷◌, [], length};
ghost use Rattle.blob_store.specs.Blobs.{AreBlobsFew, HasRoomFor};

/// There is room for a blob if and only if the blobs with that blob are within the limits, and then
/// they are so without it.
pub fn room_is_one_more_within_limits()
    ensures room { (blobs : List (List ℕ)) (blob : List ℕ) → HasRoomFor (length blob) blobs
        ↔ AreBlobsFew (blobs ++ blob ∷ []) }
    ensures fewer { (blobs : List (List ℕ)) (blob : List ℕ) → AreBlobsFew (blobs ++ blob ∷ [])
        → AreBlobsFew blobs }
{}
