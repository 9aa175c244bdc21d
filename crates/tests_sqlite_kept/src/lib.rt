//! Tests of accounts of mail over SQLite files.
#![tactic(auto)]

#[cfg(test)]
mod mail_calls_file_tests;
