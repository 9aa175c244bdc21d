//! Tests of the libraries that hold records, where no command shows what they do.
#![tactic(auto)]

#[cfg(test)]
mod blob_authors_tests;
#[cfg(test)]
mod state_log_tests;
