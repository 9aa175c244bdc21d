// The limits of a cache.

/// The most lists that a cache may have.
pub const MAX_LISTS: usize = 16;

/// How deep the filter or the sort of a list may nest.
pub const MAX_TERM_DEPTH: usize = 100;

/// The most bytes that the text of the filter or the sort of a list may have.
pub const MAX_TERM_BYTES: usize = 1_000_000;

/// The most records that one page of changes names (RFC 8620, section 5.2).
pub const MAX_CHANGES: usize = 500;

/// The most records that one get asks for (RFC 8620, section 5.1).
pub const MAX_IDS: usize = 500;

/// The most results that one query asks for (RFC 8620, section 5.5).
pub const MAX_RESULTS: usize = 1_000;

/// The most replies that a round takes.
pub const MAX_REPLIES: u64 = 100_000;

/// The number of the reply with which a round ends that showed another state than it should.
pub const MAX_MOVED_REPLIES: u64 = 8;
