//! The head of a message part: its type, its disposition, its transfer encoding and its names (RFC
//! 2045, RFC 2183).
//!
//! [`part_head`] reads a part's header into a [`Part`], which has no parts within it yet.
#![tactic(auto)]

mod characters;
mod content;
mod gap;
mod head;
mod kind;
mod labels;
mod laws;
mod params;
mod part;
mod values;

pub use head::part_head;
pub use laws::{bare_values_read_back, heads_are_read_back, quotes_read_back, types_read_back};
pub use part::{Part, Parts};
