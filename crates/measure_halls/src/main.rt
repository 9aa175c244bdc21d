//! The program `measure_halls`: how long calls on the accounts of a hall take, by one thread and by
//! several at once, next to the same calls on a book alone. The benchmarks run it as
//! `measure_halls N`, N calls a thread.
//!
//! Counts go to standard output, and times with them to the error output. The exit status is 2 if
//! the arguments are invalid, and 1 if the clock, the memory or the output failed, or a call was
//! answered otherwise than with its mailbox.
#![tactic(auto)]

mod accounts;
mod asks;
mod calls;
mod halls;
mod timing;

use crate::halls::measure_halls;
use std::process::ExitCode;
use std::{env, io};

const USAGE: &str = "usage: measure_halls N";

fn main(rt: HostRuntime) -> ExitCode {
    match read_count(&rt) {
        Ok(Some(count)) => status_of(measure_halls(&rt, rt.alloc(), count)),
        Ok(None) => {
            let _ = eprintln!(rt; "{}", USAGE);
            ExitCode::from(2)
        }
        Err(_) => ExitCode::from(1),
    }
}

fn status_of(measured: io::Result<()>) -> ExitCode {
    match measured {
        Ok(()) => ExitCode::from(0),
        Err(_) => ExitCode::from(1),
    }
}

fn parse_count(arguments: &[String]) -> Option<u64> {
    match arguments {
        [count] => match count.as_str().parse::<u64>() {
            Ok(count) => Some(count),
            Err(_) => None,
        },
        _ => None,
    }
}

// Returns the number of calls that the one argument says; none if the arguments are others.
fn read_count(rt: &(impl env::Env + AllocGlobal)) -> io::Result<Option<u64>> {
    let mut arguments = Vec::new(rt.alloc());
    for argument in env::args(rt)?.skip(1) {
        arguments.push(argument)?;
    }
    Ok(parse_count(arguments.as_slice()))
}
