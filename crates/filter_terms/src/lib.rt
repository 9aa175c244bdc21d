//! Filters of Mailbox/query and Email/query: which JSON trees are filters, and which records they
//! match (RFC 8620, section 5.5; RFC 8621, sections 2.3 and 4.4.1).
//!
//! [`read_filter`] reads a [`Filter`] once, with its dates, numbers, keywords and texts.
//! [`matches`] says whether the filter matches a record of a content. What a message contains is
//! asked of a [`Texts2`], which opens it once, after the conditions that look at no text.
#![tactic(auto)]

mod compile;
mod compiled;
mod conditions;
mod containment;
mod emails;
mod faults;
mod filter;
mod invalid;
mod laws;
mod mailboxes;
mod message_conditions;
mod required_text;
mod terms;
mod texts;
mod thread_scope;
mod unsupported;
mod values;
mod without_texts;

pub use containment::contains;
pub use emails::{has_all_in_thread, has_keyword, has_some_in_thread};
pub use faults::TermFault;
pub use filter::{
    Filter, find_required_text, is_wide, matches, matches_email, matches_mailbox, read_filter,
};
pub use laws::{
    filters_see_only_their_record, filters_see_only_their_texts, operators_join_their_conditions,
};
pub use required_text::RequiredText;
pub use texts::{OpenedMessage, Place, Texts2};
