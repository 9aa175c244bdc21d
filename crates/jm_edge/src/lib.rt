//! What a program reads from and writes to: sources, sinks, links, sockets, exchanges and shelves
//! that count their faults, clocks and gates; and each of them in memory.
//!
//! A call fails with [`Failed`] only if the count of faults rose in that call. Content is exposed
//! to contracts where it can be: that of memory is; that of a file, a socket or a terminal is not,
//! and then the clauses on content say nothing. What is in memory fails at the calls of a list.
#![tactic(auto)]

mod answer;
mod arrival;
mod calls;
mod clock;
mod exchange;
mod fault;
mod gate;
mod link;
mod memory;
mod memory_clock;
mod memory_exchange;
mod memory_link;
mod memory_shelf;
mod memory_socket;
mod message_link;
mod shelf;
mod sink;
mod source;

pub use answer::{Answer, Asked};
pub use arrival::{Arrival, Sent};
pub use calls::Calls;
pub use clock::Clock;
pub use exchange::Exchange;
pub use fault::{EdgeFault, Failed};
pub use gate::{CountingGate, Gate, NoGate};
pub use link::{Link, put_to_link};
pub use memory::{MemorySink, MemorySource};
pub use memory_clock::MemoryClock;
pub use memory_exchange::MemoryExchange;
pub use memory_link::MemoryLink;
pub use memory_shelf::MemoryShelf;
pub use memory_socket::{MemorySocket, Script};
pub use message_link::MessageLink;
pub use shelf::Shelf;
pub use sink::{Sink, put_all};
pub use source::Source;
