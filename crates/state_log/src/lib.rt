//! The log of an account: what each edit since its floor names, and so the state of each kind of
//! record at each position (RFC 8620, sections 5.1, 5.2 and 5.6).
//!
//! A position counts edits. The first edit after the floor has the position floor + 1.
#![tactic(auto)]

mod kind_positions;
mod laws;
mod log;
mod notes;
mod touched;

pub use laws::{logs_follow_histories, logs_tell_histories, positions_name_numbers};
pub use log::{Log, note_all_ready};
pub use notes::Note;
