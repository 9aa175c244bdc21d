//! Texts, byte lists, lists and identifiers that every layer speaks of.
//!
//! Contracts see a [`Text`] and a [`Bytes`] as a list of bytes, and a [`Sequence`] as the list of
//! its items.
#![tactic(auto)]

mod bytes;
mod id_texts;
mod identifiers;
mod laws;
mod limits;
mod memory;
mod numbers;
mod sequence;
mod splices;
mod text;
mod utc_dates;
mod utc_seconds;

pub use bytes::Bytes;
pub use id_texts::{id_text, read_decimal, read_id, read_state, state_text};
pub use identifiers::{AddedItem, FormFault, Id, Kind, NUMBER_LIMIT, SpliceFault, UtcDate};
pub use laws::{
    show_that_a_change_brings_up_to_date, show_that_a_list_becomes_the_other,
    show_that_dates_read_back, show_that_nothing_changes_nothing, show_that_texts_tell_ids,
    show_that_texts_tell_states, show_that_the_test_tells_dates,
};
pub use limits::{
    MAX_JSON_INTEGER, MAX_MAILBOX_NAME_BYTES, MAX_MAILBOXES_PER_EMAIL, MAX_REQUEST_BYTES,
    MAX_SESSIONS, MAX_UPLOAD_BYTES, READ_BUFFER_BYTES,
};
pub use memory::NoMemory;
pub use numbers::put_in_order;
pub use sequence::{Blobs, Numbers, Rows, Sequence, Texts};
pub use splices::splice;
pub use text::Text;
pub use utc_dates::{FIRST_TIMESTAMP, LAST_TIMESTAMP, LAST_YEAR, read_utc, utc_text};
pub use utc_seconds::read_utc_seconds;
