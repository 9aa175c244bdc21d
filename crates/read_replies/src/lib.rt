//! What a client that reads an account is replied (RFC 8620, sections 3.4, 5.1, 5.2, 5.5 and 5.6):
//! the replies to the calls of /get, /changes, /query and /queryChanges, as definitions of the
//! account's history, of a point of it, of the user's accounts and of the request.
//!
//! A server's contracts and a client's speak by these definitions of the same replies.
#![tactic(auto)]

mod laws;

pub use laws::{
    calls_that_read_change_nothing, calls_that_read_have_replies_at_points,
    replies_are_to_the_call_of_their_request, replies_outlast_later_entries,
};
