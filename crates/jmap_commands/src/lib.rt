//! The commands of the program `jmap`: what each reads, writes and does to the outside, and the
//! exit status.
//!
//! [`run`] does what the arguments of a command line say. What a run reads and writes is in
//! `specs/Run.antt`, and why it ends so in `specs/Endings.antt`. What a run does to the two worlds
//! is in `specs/Uses.antt`, of `serve` in `specs/Serving.antt`, of `sync` and `show` in
//! `specs/Syncing.antt`.
#![tactic(auto)]

mod addresses;
mod arguments;
mod ending;
mod laws;
mod memory_book;
mod message_line;
mod one_session;
mod one_user;
mod read;
mod run_command;
mod serving;
mod syncing;
mod worlds;

pub use ending::{Ending, Status};
pub use laws::{answers_keep_accounts_valid, replies_are_one};
pub use run_command::run;
pub use worlds::Worlds;
