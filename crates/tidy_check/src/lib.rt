//! Whether the records of a content are tidy: what is asked of an account's records by themselves.
//!
//! When a content is tidy is in `Rattle.mail_counts.specs.Tidy`. It is decided by the orders that a
//! content keeps, at the cost of sorting its records.
#![tactic(auto)]

mod content;
mod emails;
mod keywords;
mod mailboxes;
mod numbers;
mod rising;
mod roots;
mod threads;

pub use content::is_tidy;
