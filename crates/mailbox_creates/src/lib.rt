//! The creates of a Mailbox/set: which properties are invalid, the mailboxes that are created, and
//! what is reported of them (RFC 8620, section 5.3; RFC 8621, section 2.5).
#![tactic(auto)]

mod checks;
mod create;
mod names;
mod planner;
mod properties;
mod response;
mod rounds;

pub use checks::{Faults, find_invalid_members};
pub use create::copy_role;
pub use planner::{Planner, start_planner};
pub use properties::{
    NewValues, SentProperties, choose_values, read_name, read_role, read_sort_order,
    read_subscribed,
};
pub use response::{collect_names, is_settable};
pub use rounds::do_creates;
