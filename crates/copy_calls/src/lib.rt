//! What copies between accounts need besides the plan of `mail_copies` (RFC 8620, sections 5.4 and
//! 6.3; RFC 8621, section 4.7).
//!
//! [`fetch_originals`] returns what an Email/copy fetches from the account of the originals, and
//! [`build_originals_call`] builds the Email/set that destroys them. [`fetch_blobs`] and
//! [`plan_blob_copy`] are the two sides of a Blob/copy.
#![tactic(auto)]

mod blob_fetch;
mod blob_place;
mod fetch;
mod laws;
mod originals;

pub use blob_fetch::{fetch_blobs, fetch_blobs_from};
pub use blob_place::{BlobPlan, place_blobs, plan_blob_copy};
pub use fetch::{fetch_originals, fetch_originals_from};
pub use laws::{
    copies_keep_what_is_not_sent, dates_that_are_fetched_are_the_originals,
    keywords_that_are_fetched_are_the_originals, originals_that_are_fetched_are_delivered,
};
pub use originals::{build_originals_call, build_originals_set};
