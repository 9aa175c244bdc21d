//! Tests of the libraries of queries and changes that no command reaches: what a query asks of a
//! message and of the texts that are kept, and states below an account's floor.
#![tactic(auto)]

#[cfg(test)]
mod change_calls_tests;
#[cfg(test)]
mod filter_terms_tests;
#[cfg(test)]
mod message_texts_tests;
