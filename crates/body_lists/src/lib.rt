//! Which leaves of a message are its text, its HTML and its attachments (RFC 8621, section 4.1.4).
#![tactic(auto)]

mod enclosing_list;
mod laws;
mod walk;

pub use enclosing_list::{is_html, is_plain};
pub use laws::lists_of_examples;
pub use walk::{BodyLists, lists};
