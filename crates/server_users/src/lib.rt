//! The configuration of a server: its users, and the accounts of each user (RFC 8620, section 2).
//!
//! [`read_users`] reads a configuration. Its form is in `specs/Configuration.antt`, and what is bad
//! in a tree that is not of the form in `specs/BadPlaces.antt`.
#![tactic(auto)]

mod account_checks;
mod account_ids;
mod build;
mod fault;
mod limits;
mod lookups;
mod places;
mod read;
mod seen_texts;
mod tokens;
mod user_checks;
mod users;
mod values;

pub use account_ids::is_account_id;
pub use fault::ConfigFault;
pub use limits::{MAX_ACCOUNT_ID_BYTES, MAX_ACCOUNTS};
pub use lookups::find_account;
pub use read::read_users;
pub use users::{User, UserAccount, Users};
