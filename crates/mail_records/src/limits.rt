// The limits of an email's record.

/// How many links, which are message ids, the summary of an email may have.
pub const MAX_LINKS_PER_EMAIL: u64 = 100;
