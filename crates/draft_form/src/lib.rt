//! The create of an email whose message is written by the server, a draft: its form, and what it
//! says (RFC 8621, section 4.6).
//!
//! [`read_draft`] reads the members of a create into a [`Draft`]: header fields, and the parts of
//! the message as steps in walk order. Where the email is filed is looked at by its planner.
#![tactic(auto)]

mod bodies;
mod draft;
mod headers;
mod members;
mod names;
mod parts;
mod read;
mod sent_at;
mod structures;
mod texts;

pub use bodies::{MAX_DEPTH, MAX_PARTS};
pub use draft::{Content, Draft, DraftField, DraftFields, DraftRows, FieldValue, Row, ValueForm};
pub use names::MAX_FIELD_NAME_BYTES;
pub use read::{DraftFault, MAX_DRAFT_MEMBERS, read_draft};
pub use sent_at::{FIRST_YEAR, OFFSET_LIMIT_MINUTES, read_date_time};
pub use texts::MAX_LABEL_BYTES;
