//! Mailbox/query and Email/query: the result list of a query, and the response to a call (RFC 8620,
//! section 5.5; RFC 8621, sections 2.3 and 4.4).
//!
//! [`read_query`] reads a [`Query`], [`run_query`] returns its result list over a content,
//! [`window`] the part of a list that a [`Frame`] names, and [`answer_query`] the response to a
//! call. What a message contains is asked of a `Texts2`.
#![tactic(auto)]

mod arguments;
mod by_number;
mod by_time;
mod faults;
mod frame;
mod laws;
mod limits;
mod narrowed;
mod page;
mod query;
mod response;
mod rows;
mod run;
mod sorted_in_mailbox;
mod walks;
mod windows;

pub use faults::QueryFault;
pub use frame::{Frame, Shown, WindowFault};
pub use laws::{
    collapsing_keeps_the_first_of_a_thread, queries_have_one_result, queries_see_only_their_records,
};
pub use limits::MAX_IDS_PER_QUERY;
pub use query::{Query, read_query, read_query_in};
pub use response::{answer_query, make_count};
pub use run::{run_query, run_query_upto};
pub use windows::window;
