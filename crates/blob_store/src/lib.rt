//! The blobs of one account: the bytes that clients upload and that emails are made of (RFC 8620,
//! section 6).
//!
//! A [`BlobList`] keeps blobs in the order in which they came. Each has a number, counted from 1,
//! under which it is found. A blob is never changed or removed. Contracts see the list of blobs,
//! each as a list of bytes, and for how many more there is room.
//!
//! Next to the blobs the list keeps the authors' texts, by which the messages of an author are
//! found without a look into each ([`BlobList::authors`]). They may lag behind the blobs.
#![tactic(auto)]

mod authors;
mod faults;
mod laws;
mod limits;
mod list;

pub use faults::BlobFault;
pub use laws::room_is_one_more_within_limits;
pub use limits::{MAX_BLOB_BYTES_PER_ACCOUNT, MAX_BLOBS_PER_ACCOUNT};
pub use list::BlobList;
