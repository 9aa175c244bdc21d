//! Transfer encodings: the bytes that the body of a message part encodes (RFC 2045, section 6).
//!
//! [`decode`] rejects no input. What a strict decoder would call an error is read as
//! `specs/Quoted.antt` and `specs/Base64.antt` say.
#![tactic(auto)]

mod base64;
mod coding;
mod laws;
mod quoted;
mod size;

pub use coding::{Coding, decode};
pub use laws::{base64_is_read_back, quoted_printable_is_read_back};
pub use quoted::unescape;
pub use size::count_decoded;
