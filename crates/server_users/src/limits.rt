// The limits of a configuration.

/// The most accounts of a server.
pub const MAX_ACCOUNTS: usize = 8;

/// The most bytes of an account's identifier (RFC 8620, section 1.2).
pub const MAX_ACCOUNT_ID_BYTES: usize = 255;
