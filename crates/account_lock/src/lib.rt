//! A lock around the value of one account. Whoever shares the account takes turns, and each turn
//! sees all that earlier turns added.
//!
//! It is a ticket lock: one word counts the tickets that were drawn, another shows the ticket that
//! is served, a third over which turn a thread parked last, and the value is in a slot that only
//! the holder of the served ticket touches. Each thread has a [`Pass`], under whose name its
//! entries are in the value's history. The contracts say what the holder of a pass may know of that
//! history: it never gets shorter, and the entries under the pass's own name, and under the names
//! of passes that were joined with it, are exactly those that were given under them.
#![tactic(auto)]

mod account_view;
mod limits;
mod lock;
mod pass_turn;
mod rule;
mod steps;
#[cfg(test)]
mod tests;
mod view;

pub use account_view::AccountView;
pub use limits::MAX_NAMES;
pub use lock::{AccountLock, Pass};
pub use rule::Turns;
pub use view::PassView;
