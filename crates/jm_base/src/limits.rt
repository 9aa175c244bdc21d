// The limits that several layers share.
use crate::identifiers::NUMBER_LIMIT;

/// The most bytes that a request may have (`maxSizeRequest` of RFC 8620, section 2).
pub const MAX_REQUEST_BYTES: usize = 10_000_000;

/// The most bytes that an upload may have (`maxSizeUpload` of RFC 8620, section 2).
pub const MAX_UPLOAD_BYTES: usize = 50_000_000;

/// The most sessions of a server at once (RFC 8620, section 2: `maxConcurrentRequests` and
/// `maxConcurrentUpload`).
pub const MAX_SESSIONS: u64 = 64;

/// How many mailboxes an email may be in (`maxMailboxesPerEmail` of RFC 8621, section 1.3.1).
pub const MAX_MAILBOXES_PER_EMAIL: u64 = 64;

/// How many bytes the name of a mailbox may have (`maxSizeMailboxName` of RFC 8621, section 1.3.1).
pub const MAX_MAILBOX_NAME_BYTES: usize = 255;

/// The greatest number that JSON has here (RFC 8620, section 1.3).
pub const MAX_JSON_INTEGER: u64 = NUMBER_LIMIT - 1;

/// How many bytes are read at once.
pub const READ_BUFFER_BYTES: usize = 65_536;
