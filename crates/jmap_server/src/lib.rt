//! A JMAP server over a world: its configuration is read, its accounts are opened, and connections
//! are served, each in a thread of its own.
//!
//! [`serve`] takes all that it needs from a [`World`], and gives everything back. What each
//! connection was served is in `specs/Lines.antt`, and what a whole run did in
//! `specs/Serving.antt`.
#![tactic(auto)]

mod accounts;
mod ends;
mod fault;
mod finished;
mod lines;
mod rules_source;
mod served_line;
mod server;
mod worker;
mod world;

pub use fault::ServeFault;
pub use finished::Finished;
pub use rules_source::RulesSource;
pub use server::serve;
pub use world::World;
