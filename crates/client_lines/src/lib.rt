//! What the commands of a client print of its cache: how many records and lists it has, and the
//! emails of a list with their subjects.
//!
//! The lines are written piece by piece to a sink, never all at once. What they are is in
//! `specs/Lines.antt`.
#![tactic(auto)]

mod counts;
mod fault;
mod limits;
mod list;
mod pieces;
mod subjects;

pub use counts::write_counts;
pub use fault::PrintFault;
pub use list::{find_list, write_list};
