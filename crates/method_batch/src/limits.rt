// The limits of a request.

/// The most calls that a request may have (`maxCallsInRequest` of RFC 8620, section 2).
pub const MAX_CALLS_PER_REQUEST: usize = 16;
