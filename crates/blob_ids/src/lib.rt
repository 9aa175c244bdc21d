//! The identifiers of blobs, and of the leaves of the messages that blobs hold (RFC 8620, section
//! 6; RFC 8621, section 4.1.4).
#![tactic(auto)]

mod ids;
mod laws;

pub use ids::{BlobId, read_blob_id, write_blob_id};
pub use laws::ids_are_read_back;
