// How many passes a lock has.

/// How many names the root of a lock gives at most.
pub const MAX_NAMES: u64 = 1 << 53;
