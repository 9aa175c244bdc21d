//! The parts of HTTP/1.1 messages (RFC 9112): where heads end, and bodies, read from any link and
//! however its bytes come in pieces.
//!
//! [`read_head`] reads up to the end of a head, and [`read_body`] reads a body. The end of a head
//! is in `specs/Heads.antt`, and bodies are in `specs/Bodies.antt` and `specs/Chunks.antt`.
#![tactic(auto)]

mod bodies;
mod body_fault;
mod chunk_ends;
mod chunk_lines;
mod chunks;
mod dropped_bodies;
mod dropped_chunks;
mod fault;
mod heads;
mod laws;
mod limits;
mod parts;
mod pieces;
mod sized_bodies;
mod unread;

pub use bodies::{BodyPlan, drop_body, read_body};
pub use body_fault::BodyFault;
pub use chunk_lines::read_digit;
pub use fault::WireFault;
pub use heads::HeadSpan;
pub use laws::{keep_heads, show_examples_of_messages};
pub use limits::{
    BODY_BYTES_LIMIT, BUFFER_BYTES_LIMIT, CHUNK_BYTES_LIMIT, MAX_CHUNK_DIGITS,
    MAX_CHUNK_LINE_BYTES, MAX_HEAD_BYTES, MAX_HEAD_FIELDS, MAX_TRAILER_BYTES, SEEN_BYTES_LIMIT,
};
pub use pieces::read_head;
pub use unread::Unread;
