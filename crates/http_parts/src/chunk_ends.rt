// What ends a chunk, and what ends a body in chunks.
ghost use Rattle.std.specs.Prelude.{◌≡◌, List, ℕ};
ghost use Rattle.http_parts.specs.declared.limits.TheConstants.{MAX_TRAILER_BYTES};
ghost use Rattle.http_parts.specs.Chunks.{chunk_end, trailer};
ghost use Rattle.http_parts.specs.declared.chunk_ends.EndFound.TheVariants as end_found;
ghost use Rattle.http_parts.specs.ChunkParts.{end_as, trailer_as, IsEndWithin};

use crate::heads::find_end;
use crate::limits::MAX_TRAILER_BYTES;

/// What is at the beginning of some bytes: no valid end, an incomplete one, or one that ends after
/// so many bytes.
#[derive(Clone, Copy, Debug, PartialEq, Eq)]
pub(crate) enum EndFound {
    Invalid,
    Unfinished,
    Ended(usize),
}

// Returns the line end after the bytes of a chunk.
pub(crate) fn find_chunk_end(bytes: &[u8]) -> EndFound
    ensures value { end_as bytes.now result ≡ chunk_end bytes.now }
    ensures within { IsEndWithin 2 bytes.now result }
    ensures two { (n : ℕ) → result ≡ end_found.Ended n → n ≡ 2 }
{
    match bytes {
        [] => EndFound::Unfinished,
        [b'\r'] => EndFound::Unfinished,
        [b'\r', b'\n', ..] => EndFound::Ended(2),
        _ => EndFound::Invalid,
    }
}

// Returns the end of the lines after the last chunk.
pub(crate) fn find_trailer(bytes: &[u8]) -> EndFound
    ensures value { (body : List ℕ) → trailer_as body bytes.now result ≡ trailer body bytes.now }
    ensures within { IsEndWithin MAX_TRAILER_BYTES bytes.now result }
{
    match find_end(bytes) {
        Some(size) => {
            if size.bytes > MAX_TRAILER_BYTES {
                return EndFound::Invalid;
            }
            EndFound::Ended(size.bytes)
        }
        None => {
            if bytes.len() >= MAX_TRAILER_BYTES {
                return EndFound::Invalid;
            }
            EndFound::Unfinished
        }
    }
}
