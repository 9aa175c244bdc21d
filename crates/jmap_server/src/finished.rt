// A line that was served.
use account_hall::Trail;
use jmap_http::Served;

/// A line, how serving it ended, and the points of the session that served it, in order. The first
/// `http_points` of them are of requests over HTTP.
#[derive(Drop)]
pub struct Finished<L: Drop> {
    pub line: L,
    pub served: Served,
    pub http_points: u64,
    pub trail: Trail,
}
