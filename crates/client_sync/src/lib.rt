//! Brings a client's cache of an account of mail up to date (RFC 8620, section 5; RFC 8621).
//!
//! [`sync`] loads the cache from a shelf, makes one round of requests over an exchange, and saves
//! the cache; [`load_cache`] is the first step alone. What a round asks and takes is in
//! `client_cache`.
#![tactic(auto)]

mod caches;
mod fault;
mod round;

pub use caches::{load_cache, sync};
pub use fault::SyncFault;
