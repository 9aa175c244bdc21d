//! The account: its history of commits and refusals, with the content and the log that the history
//! makes, and the book that opens it over its keeper and performs its calls by rules.
//!
//! Contracts see an [`Account`] as its history (`Rattle.mail_records.specs.Histories`). What
//! opening makes of a keeper's rows is in `specs/Opening.antt`, what a crash may leave in
//! `specs/Keeping.antt`, and under which passes a book that is shared has its entries in
//! `specs/Passes.antt`.
#![tactic(auto)]

mod account;
mod asks;
mod blobs;
mod book;
mod commits;
mod entry;
mod faults;
mod growing;
mod laws;
mod limits;
mod loading;
mod passes;
mod plans;
mod rules;
mod start;

pub use account::Account;
pub use asks::{Ask, Call, Carried};
pub use book::Book;
pub use entry::Entry;
pub use faults::{Reason, StartFault};
pub use laws::{
    clean_keepers_are_ready, crashes_leave_one_asked_commit, events_keep_accounts_valid,
    history_outlasts_floor, kept_accounts_open_again, replies_keep_accounts_valid, reply_lasts,
};
pub use limits::MAX_EDIT_BYTES;
pub use plans::{Done, Out, Plan, Point};
pub use rules::Rules;
