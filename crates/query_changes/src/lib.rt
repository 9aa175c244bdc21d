//! Mailbox/queryChanges and Email/queryChanges: how the result list of a query changed since a
//! state, and the response to a call (RFC 8620, section 5.6; RFC 8621, sections 2.4 and 4.5).
//!
//! [`query_changes`] returns a [`Delta`]: the records that may have changed their place in the
//! list, and where those of them that are shown are in the present list. A list of the query at the
//! state that is spliced by it is the present list, whatever the query
//! ([`changes_bring_lists_up_to_date`]). [`answer_query_changes`] returns the response to a call.
#![tactic(auto)]

mod arguments;
mod changes;
mod delta;
mod laws;
mod response;
mod touched;

pub use changes::query_changes;
pub use delta::{Added, Delta, DeltaFault};
pub use laws::{
    changes_bring_lists_up_to_date, changes_see_only_their_texts, lists_are_those_of_states,
    lists_see_only_their_texts, untouched_records_stay,
};
pub use response::answer_query_changes;
