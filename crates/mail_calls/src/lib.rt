//! The rules of a mail account: what each method plans over its history (RFC 8621), and when the
//! account is valid.
#![tactic(auto)]

mod blobs;
mod copies;
mod laws;
mod methods;
mod plans;
mod rules;
mod validity;

pub use laws::{
    calls_that_read_are_answered_by_their_definitions, planned_edits_keep_accounts_valid,
    plans_say_which_puts_change_only_counts, summaries_can_be_kept,
};
pub use methods::{CopyMethod, Method};
pub use rules::MailRules;
