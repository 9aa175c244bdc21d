//! Tests of the commands of the program that no file of rows reaches: when replies are put, inputs of
//! many megabytes, the points of a session, connections side by side, and the commands of a client.
#![tactic(auto)]

#[cfg(test)]
mod jmap_commands_client_tests;
#[cfg(test)]
mod jmap_commands_copy_tests;
#[cfg(test)]
mod jmap_commands_limit_tests;
#[cfg(test)]
mod jmap_commands_put_tests;
#[cfg(test)]
mod jmap_commands_side_by_side_tests;
#[cfg(test)]
mod jmap_commands_upload_tests;
#[cfg(test)]
mod memory_client;
#[cfg(test)]
mod memory_world;
#[cfg(test)]
mod no_client;
#[cfg(test)]
mod no_world;
#[cfg(test)]
mod running;
#[cfg(test)]
mod waiting_gate;
#[cfg(test)]
mod waiting_world;
#[cfg(test)]
mod watched_link;
