//! Tests of drafts, which no command writes yet.
#![tactic(auto)]

#[cfg(test)]
mod draft_tests;
