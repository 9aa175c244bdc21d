//! The program `measure_open`: how long it takes to open the account that a file keeps, next to its
//! rows decoded and its messages summarized alone, and how long to flag an email. The benchmarks
//! run it: `fill FILE N` fills the account by N calls and opens it, `open FILE` opens it.
//!
//! Times go to the error output, counts to standard output. The exit status is 2 if the arguments
//! are invalid, and 1 if the clock, the memory, the file or the output failed.
#![tactic(auto)]

mod asks;
mod fill;
mod open;
mod runs;
mod task;
mod timing;

use crate::runs::{fill_file, open_file};
use crate::task::{Task, USAGE};
use std::process::ExitCode;
use std::{env, io};

fn main(rt: HostRuntime) -> ExitCode {
    match read_arguments(&rt) {
        Ok(arguments) => run(&rt, arguments.as_slice()),
        Err(_) => ExitCode::from(1),
    }
}

fn run(rt: &HostRuntime, arguments: &[String]) -> ExitCode {
    match Task::from_arguments(arguments) {
        Some(Task::Fill { file, calls }) => status_of(fill_file(rt, file, calls)),
        Some(Task::Open { file }) => status_of(open_file(rt, file)),
        None => {
            let _ = eprintln!(rt; "{}", USAGE);
            ExitCode::from(2)
        }
    }
}

fn status_of(measured: io::Result<()>) -> ExitCode {
    match measured {
        Ok(()) => ExitCode::from(0),
        Err(_) => ExitCode::from(1),
    }
}

// Returns the arguments after the program's name.
fn read_arguments(rt: &(impl env::Env + AllocGlobal)) -> io::Result<Vec<String>> {
    let mut arguments = Vec::new(rt.alloc());
    for argument in env::args(rt)?.skip(1) {
        arguments.push(argument)?;
    }
    Ok(arguments)
}
