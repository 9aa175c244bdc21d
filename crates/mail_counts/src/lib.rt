//! What an account's records must be to be tidy, the counts of mailboxes, the JSON view of a
//! mailbox, and the plans of sets.
//!
//! When a content is tidy is in `specs/Tidy.antt`, and a mailbox's counts in
//! `specs/Counts.antt`. A call that sets records answers a [`SetPlan`] or a [`SetFault`].
#![tactic(auto)]

mod following;
mod form;
mod laws;
mod limits;
mod mailbox_counts;
mod members;
mod overlay;
mod plan;
mod state;
mod tally;
mod thread_lists;
mod touched;
mod view;

pub use following::derived;
pub use form::{is_name, is_role, is_sort_order};
pub use laws::{derived_edits_make_tidy, state_after_edits_is_that_of_the_grown_history};
pub use limits::{
    MAX_EMAILS_PER_ACCOUNT, MAX_KEYWORD_CHARACTERS, MAX_KEYWORDS_PER_EMAIL, SORT_ORDER_LIMIT,
};
pub use mailbox_counts::MailboxCounts;
pub use plan::{SetFault, SetPlan};
pub use state::find_state_after;
pub use tally::Tally;
pub use thread_lists::ThreadLists;
pub use touched::put_in_order;
pub use view::{build_mailbox_view, build_rights};
