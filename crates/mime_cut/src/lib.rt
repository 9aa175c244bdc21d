//! The cut of a multipart's body at its delimiter lines (RFC 2046, section 5.1.1).
//!
//! [`find_delimiter`] finds one delimiter line at a time, so that a caller stops when it has enough
//! parts. No call copies bytes.
#![tactic(auto)]

mod delimiter;
mod laws;
mod line_kind;

pub use delimiter::{Delimiter, find_delimiter};
pub use laws::{pieces_are_in_the_message, pieces_are_read_back};
pub use line_kind::LineKind;
