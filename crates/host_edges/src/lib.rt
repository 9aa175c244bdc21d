//! What a program on a host reads from and writes to: readers and writers of std as sources and
//! sinks, TCP connections as links, WebSocket connections over TCP, requests by HTTP over TCP,
//! files as shelves, and the system's clock.
//!
//! Each counts its faults, as jm_edge asks. What a file, a terminal or a connection holds, and what
//! the clock shows, is not exposed to contracts.
#![tactic(auto)]

mod closing;
mod file_shelf;
mod host_clock;
mod link_listener;
mod patience;
mod streams;
mod tcp;
mod tcp_exchange;
mod tcp_socket;

pub use closing::{MAX_CLOSING_SECONDS, MAX_DROPPED_BYTES, MAX_QUIET_SECONDS};
pub use file_shelf::{FileShelf, MAX_LOCK_TRIES};
pub use host_clock::HostClock;
pub use link_listener::LinkListener;
pub use patience::{BYTES_PER_SECOND, MAX_WAIT_SECONDS};
pub use streams::{Reading, Writing};
pub use tcp::{Carried, TcpLink};
pub use tcp_exchange::TcpExchange;
pub use tcp_socket::TcpSocket;
