//! The message of a draft (RFC 8621, section 4.6; RFC 5322, RFC 2045 to 2047, RFC 2183).
//!
//! [`draft_bytes`] writes it: the header fields of the draft, and its parts with the blobs that
//! they hold.
#![tactic(auto)]

mod boundaries;
mod fields;
mod laws;
mod leaves;
mod message;
mod moments;
mod parts;

pub use laws::{fields_are_read_back, parts_are_read_back};
pub use message::draft_bytes;
