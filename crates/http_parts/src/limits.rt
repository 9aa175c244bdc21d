// The limits of a message.

/// The most bytes of a head, empty lines before it included. A longer one is answered with status
/// 431.
pub const MAX_HEAD_BYTES: usize = 16_384;

/// The most fields of a head, and the most lines between its first line and the empty line. A head
/// of more is answered with status 431.
pub const MAX_HEAD_FIELDS: usize = 64;

/// The most bytes of a chunk line, its LF included. A longer one is answered with status 400.
pub const MAX_CHUNK_LINE_BYTES: usize = 1024;

/// The most digits of a chunk's size.
pub const MAX_CHUNK_DIGITS: usize = 16;

/// The most bytes after the last chunk, the empty line included. More are answered with status 400.
pub const MAX_TRAILER_BYTES: usize = 16_384;

/// The limit of a body, in bytes, is below this number, so that the bytes of a body and of its
/// chunk lines can be counted.
pub const BODY_BYTES_LIMIT: usize = 4_294_967_296;

/// The bytes of a chunk that were seen, its lines included, are fewer than this number, and so are
/// those of the last chunk with the lines after it.
pub const CHUNK_BYTES_LIMIT: usize = 1_099_511_627_776;

/// The bytes of a body that were seen, its chunk lines included, are fewer than this number, and so
/// are those of a head: the count of both is in range.
pub const SEEN_BYTES_LIMIT: usize = 1_125_899_906_842_624;

/// The buffer that a body is read into has fewer bytes than this number. Counts of bytes that are
/// added are below it too, so that no sum overflows.
pub const BUFFER_BYTES_LIMIT: usize = 1_152_921_504_606_846_976;
