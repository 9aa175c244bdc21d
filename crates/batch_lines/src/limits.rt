// The limits of an input, and the sizes of buffers.
use jm_base::{MAX_REQUEST_BYTES, MAX_UPLOAD_BYTES};

/// The most bytes that an input of lines may have: 1 GiB.
pub const MAX_INPUT_BYTES: u64 = 1_073_741_824;

/// The characters of the base64 of an upload of the most bytes: four for each three bytes that are
/// begun.
pub const MAX_UPLOAD_CHARACTERS: u64 = (MAX_UPLOAD_BYTES as u64 + 2) / 3 * 4;

/// The most bytes of an unfinished request that are held: one more than a request may have, so the
/// answer to a longer line is settled.
pub(crate) const MAX_HELD_REQUEST_BYTES: usize = MAX_REQUEST_BYTES + 1;

/// The most bytes of an unfinished upload that are held: the `+`, and one character more than an
/// upload may have.
pub(crate) const MAX_HELD_UPLOAD_BYTES: usize = MAX_UPLOAD_CHARACTERS as usize + 2;

/// Replies are written as soon as this many bytes of them wait.
pub(crate) const REPLY_BUFFER_BYTES: usize = 65_536;
