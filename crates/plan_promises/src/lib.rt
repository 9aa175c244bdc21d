//! What the plans of sets, imports and copies promise of their edits, so that each leaves a valid
//! account (RFC 8620, section 5.3;
//! RFC 8621, section 4).
//!
//! The promises are in `specs/Planned.antt`, and what an email's message is in
//! `specs/Messages.antt`. A planner proves its own
//! part of them; what follows from them for every plan is proved here, once.
#![tactic(auto)]

mod laws;

pub use laws::{
    blobs_that_are_added_keep_messages, edits_of_mailboxes_are_planned, planned_edits_keep_threads,
    planned_edits_leave_messages,
};
