//! Creates of emails, one after the other, as imports and copies have them in common: the email of
//! a message, the thread that it joins, the room for it and for its blob, why a create is rejected,
//! and the plan with its response (RFC 8620, sections 5.3 and 5.4; RFC 8621, sections 4.7 and 4.8).
//!
//! A method starts with [`start_planner`]. For each create it finds the error, by [`find_error`] or
//! with tests of its own between [`find_form_error`] and [`find_room_error`], and calls
//! [`reject_email`], or else [`create_email`] for a message that is a blob of the account, or
//! [`deliver_email`] for one that becomes a blob. [`finish_plan`] makes the plan.
#![tactic(auto)]

mod emails;
mod errors;
mod new_emails;
mod plan;
mod planner;
mod properties;
mod response;
mod rooms;

pub use emails::{count_emails, create_email, deliver_email, reject_email};
pub use errors::{find_error, find_form_error, find_room_error, push_invalid, push_name};
pub use plan::finish_plan;
pub use planner::{Planner, Setting, start_planner};
pub use properties::{NamedBlob, Sent, read_date, read_received, read_sent};
pub use response::Accounts;
pub use rooms::{has_room, has_room_for};
