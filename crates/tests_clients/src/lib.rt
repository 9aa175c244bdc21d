//! Tests of a client: what it takes of a server's replies, its rounds over an exchange and a shelf
//! in memory, what it prints of its cache, and its commands over a world in memory.
#![tactic(auto)]

#[cfg(test)]
mod client_cache_tests;
#[cfg(test)]
mod client_lines_tests;
#[cfg(test)]
mod client_sync_tests;
#[cfg(test)]
mod memory_world;
#[cfg(test)]
mod world_tests;
