//! The plan of an Email/set: its response and its edits (RFC 8620, section 5.3; RFC 8621, section
//! 4.6).
//!
//! What an update makes of one email is in `specs/Patches.antt`: it depends on the mailboxes and
//! keywords of that email, on the mailboxes that are there, on what the request has created and on
//! the patch. The updates and destroys of a set are in `specs/Emails.antt`, and the response in
//! `specs/Plans.antt`.
#![tactic(auto)]

mod filing;
mod filings;
mod laws;
mod patches;
mod paths;
mod plan;
mod planner;
mod steps;

pub use filing::{Filing, Refiled};
pub use filings::read_filing;
pub use laws::{show_that_written_filings_are_read, show_what_is_said_of_one_update};
pub use patches::{build_filing_tree, refile};
pub use plan::{plan_email_set, plan_steps, plan_steps_after};
pub use planner::{Planner, enter_edits, start_planner};
pub use steps::{Setting, Steps, perform_steps};
