//! What the messages of an account contain, for the filters of queries (RFC 8621, section 4.4.1).
//!
//! A [`BlobTexts`] opens the messages that `filter_terms` asks about, each as a [`BlobMessage`],
//! which decodes each field and each body at most once. `specs/Texts.antt` says what the texts of a
//! message are: the Text forms of its header fields, and the decoded texts of its text parts.
#![tactic(auto)]

mod blob_message;
mod blob_texts;
mod bodies;
mod header_field;
mod header_scan;
mod headers;
mod laws;
mod plain_value;

pub use blob_message::BlobMessage;
pub use blob_texts::BlobTexts;
pub use laws::texts_stay_as_blobs_are_added;
