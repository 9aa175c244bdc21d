//! The plan of the account to which an Email/copy copies emails: its response, its edits and its
//! blobs (RFC 8620, section 5.4; RFC 8621, section 4.7).
//!
//! [`plan_place`] makes emails of what the account of the originals gave, which is read by
//! [`collect_deliveries`].
#![tactic(auto)]

mod arguments;
mod carried;
mod copy;
mod place;
mod properties;

pub use arguments::{check_fetch, read_from_account};
pub use carried::{Delivery, collect_deliveries, pick_delivery};
pub use place::{place_emails, plan_place};
