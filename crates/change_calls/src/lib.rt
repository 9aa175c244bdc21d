//! What a call of Mailbox/changes, Email/changes or Thread/changes is answered (RFC 8620, section
//! 5.2; RFC 8621, sections 2.2, 3.2 and 4.3).
//!
//! A page of changes goes from a state to the position at which the page ends. What it says is a
//! definition over the history of the account, in `specs/Changes.antt`, and so is the response to
//! a call, in `specs/Responses.antt`.
#![tactic(auto)]

mod laws;
mod page;
mod pages;
mod response;
mod touched_records;

pub use laws::{
    pages_are_exact, pages_are_of_one_history, pages_bring_up_to_date, pages_outlast_a_floor,
};
pub use page::{ChangeFault, ChangePage};
pub use pages::{changes, find_state};
pub use response::answer_changes;
