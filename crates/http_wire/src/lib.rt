//! Requests and responses of HTTP/1.1 as bytes (RFC 9112), over any link and however its bytes come
//! in pieces.
//!
//! A server reads a request by [`read_request`], and writes a response by [`write_response`]. A
//! client writes a request by [`write_request`], and reads a response by [`read_response`]. What a
//! request is is in `specs/Requests.antt`, and what a response is in `specs/ReadResponses.antt`,
//! with the fields of a head in `specs/Fields.antt`, and what they say of the body in
//! `specs/Framings.antt`.
#![tactic(auto)]

mod connection;
mod ended_bodies;
mod fields;
mod framed_head;
mod framed_response;
mod head_parser;
mod keeping;
mod laws;
mod lengths;
mod limits;
mod read_responses;
mod request;
mod requests;
mod response;
mod response_parser;
mod responses;
mod write_requests;

pub use connection::{lists_name, lists_word};
pub use fields::{find_next, has_field};
pub use head_parser::{ParsedHead, parse_head};
pub use keeping::{KeepAll, KeepsBody};
pub use laws::keep_messages;
pub use lengths::{BodyLength, find_length, plan_body};
pub use limits::MAX_RESPONSE_BYTES;
pub use read_responses::read_response;
pub use request::{HttpField, HttpFields, HttpRequest};
pub use requests::read_request;
pub use response::HttpResponse;
pub use responses::{write_response, write_response_head};
pub use write_requests::write_request;
