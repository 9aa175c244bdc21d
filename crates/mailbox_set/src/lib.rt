//! The plan of a Mailbox/set: its response and its edits (RFC 8620, section 5.3; RFC 8621, section
//! 2.5).
#![tactic(auto)]

mod arguments;
mod destroys;
mod plan;

pub use plan::plan_mailbox_set;
