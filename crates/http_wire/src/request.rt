// A request.
use jm_base::{Bytes, Sequence, Text};

/// A field of a head: its name, and its value without the white space around it.
#[derive(Drop)]
pub struct HttpField {
    pub name: Text,
    pub value: Bytes,
}

/// The fields of a head, in order.
pub type HttpFields = Sequence<HttpField>;

/// A request.
#[derive(Drop)]
pub struct HttpRequest {
    pub method: Text,
    pub target: Bytes,
    pub fields: HttpFields,
    pub body: Bytes,

    /// The minor version of HTTP/1.
    pub minor: u8,

    /// The connection ends after the response.
    pub last: bool,
}
