//! Messages as a careful writer writes them (RFC 5322, RFC 2045 to 2047, RFC 2183): transfer
//! encodings, encoded-words, values of header fields and heads of parts.
//!
//! Each function adds its text at the end of bytes, and takes memory for these alone. The texts are
//! those that the crates of the readers define and read back.
#![tactic(auto)]

mod base64;
mod dates;
mod heads;
mod quoted;
#[cfg(test)]
mod tests;
mod values;
mod words;

pub use base64::push_base64;
pub use dates::{DateTime, push_date_value};
pub use heads::{PartHead, push_head};
pub use quoted::push_quoted_printable;
pub use values::{push_angled, push_lead, push_name, push_text_value};
