//! Orders of Mailbox/query and Email/query: which JSON trees are lists of comparators, and which of
//! two records is before the other (RFC 8620, section 5.5; RFC 8621, sections 2.3 and 4.4.2).
//!
//! [`read_order`] reads an [`Order`] once. [`before`] compares two records of a content by it; ties
//! are broken by number, ascending, so no two records are equal.
#![tactic(auto)]

mod comparators;
mod compare;
mod forms;
mod laws;
mod order;
mod properties;

pub use comparators::is_ascending;
pub use laws::{orders_are_strict, orders_see_only_their_records};
pub use order::{
    Order, before, compare_emails, compare_mailboxes, compare_numbers, is_by_number, is_wide,
    read_order,
};
