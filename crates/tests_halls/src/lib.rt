//! Tests of sessions that share a hall of accounts.
#![tactic(auto)]

#[cfg(test)]
mod account_hall_copy_tests;
#[cfg(test)]
mod account_hall_held_tests;
#[cfg(test)]
mod account_hall_history_tests;
#[cfg(test)]
mod account_hall_memory_tests;
#[cfg(test)]
mod account_hall_room_tests;
#[cfg(test)]
mod adding;
#[cfg(test)]
mod copying;
#[cfg(test)]
mod holding;
#[cfg(test)]
mod opening;
