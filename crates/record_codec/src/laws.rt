// Laws of the encodings of commits.
ghost use Rattle.std.specs.Prelude.{◌≡◌, ◌≤◌, ◌+◌, ◌*◌, ◌⊎◌, ◌++◌, ℕ, List, Result, Ok, Err, length};
ghost use Rattle.mail_records.specs.Commits.{IsFormed};
ghost use Rattle.mail_records.specs.declared.edits.Commit.{Commit};
ghost use Rattle.mail_records.specs.declared.edits.Edit.{Edit};
ghost use Rattle.record_codec.specs.declared.faults.CodecFault.{CodecFault};
ghost use Rattle.record_codec.specs.declared.faults.CodecFault.TheVariants.{NoMemory};
ghost use Rattle.record_codec.specs.Offsets.{IsRead, IsEncodingOf};
ghost use Rattle.record_codec.specs.Sizes.{edit_bytes};
ghost use Rattle.record_codec.specs.Encoding.{blob, listed, encoding};
ghost use Rattle.record_codec.specs.Widths.{IsWide};

/// No encoding is a prefix of another, and different commits have different encodings: where
/// encodings followed by bytes are equal, so are the commits and the bytes that follow. Commits in
/// memory are as it asks ([`has_encoding`](crate::has_encoding)).
pub fn is_prefix_free()
    ensures { (a b : Commit) (x y : List ℕ) → IsWide a × IsFormed a → IsWide b × IsFormed b
        → encoding a ++ x ≡ encoding b ++ y → (a ≡ b) × (x ≡ y) }
{}

/// Bytes are the encoding of one commit at most, and a commit has one encoding at most.
pub fn is_encoded_once()
    ensures commit { (bytes : List ℕ) (a b : Commit) → IsEncodingOf bytes a → IsEncodingOf bytes b
        → a ≡ b }
    ensures bytes { (one other : List ℕ) (c : Commit) → IsEncodingOf one c → IsEncodingOf other c
        → one ≡ other }
{}

/// What is encoded is decoded as it was: of bytes that are the encoding of a commit,
/// [`decode`](crate::decode) returns this commit, or fails because an allocation failed.
pub fn read_back()
    ensures { (bytes : List ℕ) (c : Commit) (answer : Result Commit CodecFault)
        → IsEncodingOf bytes c → IsRead bytes answer → (answer ≡ Ok c) ⊎ (answer ≡ Err NoMemory) }
{}

/// The bytes of edits, as [`count_edit_bytes`](crate::count_edit_bytes) counts them, add up over
/// lists, are at least 9 an edit, and are the part of a commit's encoding that its edits take,
/// after their count.
pub fn edits_take_their_bytes()
    ensures adds { (es more : List Edit) → edit_bytes (es ++ more) ≡ edit_bytes es
        + edit_bytes more }
    ensures least { (es : List Edit) → 9 * length es ≤ edit_bytes es }
    ensures part { (c : Commit) → length (encoding c) ≡ 25 + length (listed blob c.blobs)
        + edit_bytes c.edits }
{}
