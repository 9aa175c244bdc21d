// The limits of connections.

/// The most requests of a connection. The response to the last one says that the connection ends.
pub const MAX_REQUESTS_PER_CONNECTION: u64 = 1000;
