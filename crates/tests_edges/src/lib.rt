//! Tests of the libraries at the edges: links, adapters, keepers, how requests end early, and what a
//! client writes and reads.
#![tactic(auto)]

#[cfg(test)]
mod host_edges_tests;
#[cfg(test)]
mod host_exchange_tests;
#[cfg(test)]
mod host_files_tests;
#[cfg(test)]
mod http_client_tests;
#[cfg(test)]
mod http_wire_tests;
#[cfg(test)]
mod jm_edge_tests;
#[cfg(test)]
mod keep_port_tests;
