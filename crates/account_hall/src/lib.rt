//! A hall: several accounts, each with a lock, and the sessions that share them.
//!
//! A session has a pass for each account and a trail, the points of its calls. It may be used by
//! one thread while other threads use other sessions. Contracts say of each call that its answer
//! is the defined reply at a point of the account's history not before what the session had seen,
//! and of each session that its entries are exactly those of its points
//! (`specs/Sessions.antt`).
#![tactic(auto)]

mod build;
mod calls;
mod copies;
mod copying;
mod front;
mod hall;
mod held_accounts;
mod laws;
mod named_account;
mod passes;
mod taking;

pub use build::build_hall;
pub use copies::{CopyCall, Originals};
pub use front::{AdmitFault, Front};
pub use hall::Hall;
pub use laws::{
    answers_stand_in_closed_accounts, calls_let_sessions_grow,
    closed_accounts_have_entries_of_sessions, lone_sessions_leave_no_gap,
};
pub use named_account::Named;
pub use passes::{Passes, Trail};
