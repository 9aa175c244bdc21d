//! The updates of a Mailbox/set: what a patch makes of a mailbox, which rules it breaks, and the
//! mailboxes as updates and destroys change them (RFC 8620, section 5.3; RFC 8621, section 2.5).
#![tactic(auto)]

mod current;
mod patches;
mod rules;
mod setting;
mod updates;

pub use current::{Current, find_present, is_untouched};
pub use setting::{Setting, collect_all_created, find_meant};
pub use updates::perform_updates;
