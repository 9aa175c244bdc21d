//! Tests of accounts of mail over keepers in memory that fail, and where memory runs out.
#![tactic(auto)]

#[cfg(test)]
mod asking;
#[cfg(test)]
mod mail_calls_author_tests;
#[cfg(test)]
mod mail_calls_kept_tests;
#[cfg(test)]
mod mail_calls_load_tests;
#[cfg(test)]
mod mail_calls_memory_tests;
#[cfg(test)]
mod mail_calls_refusal_tests;
