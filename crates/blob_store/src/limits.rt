// How much an account keeps as blobs.

/// How many bytes the blobs of an account have together at most: 128 MiB.
pub const MAX_BLOB_BYTES_PER_ACCOUNT: u64 = 134_217_728;

/// How many blobs an account has at most.
pub const MAX_BLOBS_PER_ACCOUNT: u64 = 1_000_000;
