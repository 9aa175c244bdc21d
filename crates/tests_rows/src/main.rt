//! The program `tests_rows`: runs the rows of the files in its folder through the commands of
//! `jmap`, and prints each row whose outcome is not the wanted one. docs/ROWS.md has the format of
//! the files.
//!
//! Standard output has a line for each file with the number of its rows that were run and are as
//! wanted, and a line with their sum. The exit status is 1 only if memory ran out or the output
//! failed.
#![tactic(auto)]

mod check;
mod compare;
mod escapes;
mod expand;
mod fails;
mod fault;
mod files;
mod kept_rows;
mod lines;
mod messages;
mod no_client;
mod options;
mod report;
mod requests;
mod rows;
mod running;
mod script;
mod world;

use crate::files::run_all;
use std::process::ExitCode;

fn main(rt: HostRuntime) -> ExitCode {
    match run_all(&rt, &rt) {
        Ok(()) => ExitCode::from(0),
        Err(_) => ExitCode::from(1),
    }
}
