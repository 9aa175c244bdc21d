// The limits of a mailbox's and an email's properties, and of an account's emails.

/// What each sort order of a mailbox is below (RFC 8621, section 2).
pub const SORT_ORDER_LIMIT: u64 = 1 << 31;

/// How many characters a keyword may have (RFC 8621, section 4.1.1).
pub const MAX_KEYWORD_CHARACTERS: usize = 255;

/// How many keywords an email may have.
pub const MAX_KEYWORDS_PER_EMAIL: usize = 128;

/// How many emails an account may have.
pub const MAX_EMAILS_PER_ACCOUNT: usize = 100_000;
