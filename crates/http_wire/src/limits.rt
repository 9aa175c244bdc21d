// The limits of what a client reads.

/// The most bytes of the body of a response. A longer one is refused.
pub const MAX_RESPONSE_BYTES: usize = 134_217_728;
