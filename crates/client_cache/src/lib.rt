//! What a client keeps of an account of mail: its mailboxes, threads and emails as objects, and
//! lists of emails, each with its state (RFC 8620, sections 5.1 and 5.5; RFC 8621).
//!
//! [`read_cache`] reads a cache from the text of its file, and [`cache_bytes`] writes it. The form
//! of the file is in `specs/Caches.antt` and `specs/CacheForms.antt`.
//!
//! A round brings a cache up to date: [`begin`] begins it, [`next_request`] and [`path`] say what
//! is asked next, and [`take_reply`] takes the reply.
#![tactic(auto)]

mod cache;
mod cache_places;
mod changes;
mod creation;
mod fault;
mod gets;
mod ids;
mod kind_steps;
mod kinds;
mod limits;
mod list_places;
mod list_steps;
mod lists;
mod loads;
mod looking;
mod numbers;
mod reading;
mod record_places;
mod replies;
mod reply_arguments;
mod reply_fault;
mod reply_places;
mod requests;
mod responses;
mod rounds;
mod session;
mod writing;

pub use cache::Cache;
pub use creation::new_cache;
pub use fault::CacheFault;
pub use limits::{
    MAX_CHANGES, MAX_IDS, MAX_LISTS, MAX_MOVED_REPLIES, MAX_REPLIES, MAX_RESULTS, MAX_TERM_BYTES,
    MAX_TERM_DEPTH,
};
pub use lists::CachedList;
pub use reading::read_cache;
pub use replies::take_reply;
pub use reply_fault::{MovedStates, ReplyFault};
pub use requests::next_request;
pub use rounds::{Round, begin, path};
pub use writing::cache_bytes;
