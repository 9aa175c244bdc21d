//! The program `measure`: how long calls of the library take, next to a plain way to do the same
//! work. The benchmarks run it.
//!
//! Times go to the error output. Counts, which do not depend on the schedule, go to standard
//! output. The exit status is 2 if the arguments are invalid, and 1 if the clock, the memory, a
//! file or the output failed.
#![tactic(auto)]

mod append;
mod keep;
mod lock;
mod task;
mod timing;
mod view;

use crate::append::measure_append;
use crate::keep::measure_keep;
use crate::lock::measure_lock;
use crate::task::{Task, USAGE};
use crate::view::measure_view;
use std::process::ExitCode;
use std::{env, io};

fn main(rt: HostRuntime) -> ExitCode {
    let arguments = match read_arguments(&rt) {
        Ok(arguments) => arguments,
        Err(error) => {
            if error.kind() == io::ErrorKind::OutOfMemory {
                return ExitCode::from(1);
            }
            Vec::new(rt.alloc())
        }
    };
    match Task::from_arguments(arguments.as_slice()) {
        Some(Task::Lock { rounds }) => status_of(measure_lock(&rt, rt.alloc(), rounds)),
        Some(Task::Append { file }) => status_of(measure_append(&rt, file)),
        Some(Task::Keep { file }) => status_of(measure_keep(&rt, file)),
        Some(Task::View { folder }) => status_of(measure_view(&rt, folder)),
        None => {
            let _ = eprintln!(rt; "{}", USAGE);
            ExitCode::from(2)
        }
    }
}

fn status_of(measured: io::Result<()>) -> ExitCode {
    match measured {
        Ok(()) => ExitCode::from(0),
        Err(_) => ExitCode::from(1),
    }
}

// Returns the arguments after the program's name.
fn read_arguments(rt: &(impl env::Env + AllocGlobal)) -> io::Result<Vec<String>> {
    let mut arguments = Vec::new(rt.alloc());
    for argument in env::args(rt)?.skip(1) {
        arguments.push(argument)?;
    }
    Ok(arguments)
}
