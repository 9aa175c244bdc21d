//! The world of a server on a host: files, SQLite databases, TCP on the loopback address, and the
//! system's clock; and that of a client: requests by HTTP over TCP, and files.
//!
//! [`HostWorld`] is a `World` of jmap_server and a `ClientWorld` of jmap_client. Its keepers are
//! [`CountedKeeper`]s, which say how often their `load` has failed.
#![tactic(auto)]

mod accepting;
mod client_world;
mod counted_keeper;
mod databases;
mod host_world;
mod telling;

pub use accepting::MAX_ACCEPT_TRIES;
pub use counted_keeper::CountedKeeper;
pub use databases::{HostFiles, MAX_NAMING_ID_BYTES, MakesKeepers};
pub use host_world::HostWorld;
