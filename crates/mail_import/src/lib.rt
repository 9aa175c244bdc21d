//! The plan of an Email/import: its response and its edits (RFC 8621, section 4.8).
#![tactic(auto)]

mod arguments;
mod import;
mod plan;
mod properties;

pub use plan::{import_emails, plan_import};
