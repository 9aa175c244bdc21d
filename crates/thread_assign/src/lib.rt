//! The thread that a new email joins (RFC 8621, section 3, which leaves the rule to the server).
//!
//! A new email joins the thread of the least numbered email that names a message id in common with
//! it and has the same subject, without the prefixes of replies and forwards. Without such an email
//! it begins a thread of its own. [`thread_of`] looks through a list of emails;
//! [`thread_in`] looks up the links of the new email in a content, and answers the same.
#![tactic(auto)]

mod by_links;
mod candidates;
mod laws;
mod rule;

pub use by_links::thread_in;
pub use laws::least_related_email_decides;
pub use rule::thread_of;
