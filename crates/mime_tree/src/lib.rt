//! The parts of a message as a tree (RFC 2046, section 5.1).
#![tactic(auto)]

mod laws;
mod part;
mod walk;

pub use laws::{
    first_parts_are_kept, leaves_are_numbered_in_order, numbered_boundaries_keep_parts_apart,
    parts_are_read_back,
};
pub use walk::parts;
