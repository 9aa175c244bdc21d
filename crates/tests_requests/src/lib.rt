//! Tests of what JSON has that no method shows.
#![tactic(auto)]

#[cfg(test)]
mod jm_json_tests;
