// The limits of an account.

/// How many bytes the encoded edits of an account may take: 64 MiB. A call whose edits would pass
/// it is answered with `serverUnavailable`.
pub const MAX_EDIT_BYTES: u64 = 67_108_864;
