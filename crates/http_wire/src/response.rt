// A response.
use jm_base::Bytes;

/// A response, as a client reads it.
#[derive(Drop)]
pub struct HttpResponse {
    /// The status (RFC 9110, section 15).
    pub status: u16,
    pub body: Bytes,

    /// The connection ends with this response (RFC 9112, section 9.3).
    pub last: bool,
}
