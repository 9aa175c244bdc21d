//! What the texts of mail share: comments and white space (RFC 5322, section 3.2.2), trimming, and
//! names that are compared without case.
//!
//! [`skip_gap`] skips white space and comments; [`advance_state`] says, byte by byte, which bytes
//! are in comments. No call allocates.
#![tactic(auto)]

mod comment;
mod gap;
mod text;

pub use comment::{State, advance_state};
pub use gap::{WhiteSpace, skip_gap};
pub use text::{is_same_name, trim};
