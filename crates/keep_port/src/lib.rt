//! What keeps the commits of an account: the port to it, and a keeper in memory.
//!
//! The content of a keeper is a base or none, and rows, each of which is one encoded commit. A call
//! of a [`Keeper`] returns `EdgeFault::Failed` only if its own count of faults rose in that call.
//! An error leaves the content as it was. Contracts see the content as far as a keeper knows it,
//! and what a crash may leave of it.
#![tactic(auto)]

mod keeper;
mod kept;
mod laws;
mod memory;

pub use keeper::Keeper;
pub use kept::Kept;
pub use laws::{append_adds_a_row, load_is_content, replace_is_content};
pub use memory::MemoryKeeper;
