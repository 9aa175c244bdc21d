//! The JSON view of a message, and the answers to gets of an account (RFC 8620, section 5.1;
//! RFC 8621, sections 2, 4.1, 4.2 and 4.9).
//!
//! The view of a message is defined in `specs/View.antt`, that of a mailbox in
//! `specs/Mailboxes.antt`, and the answer of a get in `specs/Gets.antt`. [`find_named_bytes`]
//! returns the bytes that a blob id names.
#![tactic(auto)]

mod headers;
mod laws;
mod message;
mod message_view;
mod metadata;
mod named_bytes;
mod part;
mod part_list;
mod sizes;
mod structure;
mod values;

pub use laws::{
    client_gets_are_answered_with_views, views_are_those_of_states, views_have_their_form,
    views_have_their_members, views_stay_as_blobs_are_added,
};
pub use message_view::view;
pub use metadata::{write_date, write_keyword_set};
pub use named_bytes::{NamedBytes, find_named_bytes, read_named_bytes};
