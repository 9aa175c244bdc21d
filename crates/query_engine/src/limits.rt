// Limits of queries.

/// The greatest number of ids in the response to a query (RFC 8620, section 5.5: the server may
/// enforce a maximum `limit`).
pub const MAX_IDS_PER_QUERY: u64 = 1000;
