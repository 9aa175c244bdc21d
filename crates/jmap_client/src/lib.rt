//! The commands of a client over a world: the cache of a file is brought up to date and said how
//! large it is, or one of its lists is shown.
//!
//! [`sync_file`] and [`show_file`] take all that they need from a [`ClientWorld`], and give
//! everything back before they print. What they do is in `specs/Syncing.antt` and
//! `specs/Showing.antt`.
#![tactic(auto)]

mod fault;
mod reasons;
mod showing;
mod syncing;
mod world;

pub use fault::ClientFault;
pub use showing::show_file;
pub use syncing::sync_file;
pub use world::ClientWorld;
