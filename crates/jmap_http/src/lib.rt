//! Requests of a connection, answered over any port (RFC 8620; RFC 9112).
#![tactic(auto)]

mod answer;
mod authorization;
mod connection;
mod cuts;
mod limits;
mod media;
mod port;
mod refusals;
mod response;
mod served;
mod session;
mod targets;
mod user_port;

pub use answer::respond;
pub use connection::serve_requests;
pub use limits::MAX_REQUESTS_PER_CONNECTION;
pub use port::{AccountStates, Stored};
pub use response::Response;
pub use served::Served;
pub use user_port::UserPort;
