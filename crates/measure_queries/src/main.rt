//! The program `measure_queries`: how long queries over generated emails take, and the changes
//! after many edits. The benchmarks run it as `measure_queries N`, N emails.
//!
//! Times go to the error output, replies to standard output. The exit status is 2 if the arguments
//! are invalid, and 1 if the clock, the memory or the output failed.
#![tactic(auto)]

mod query;
mod store;
mod timing;

use crate::query::measure_query;
use std::process::ExitCode;
use std::{env, io};

const USAGE: &str = "usage: measure_queries N";

fn main(rt: HostRuntime) -> ExitCode {
    match read_count(&rt) {
        Ok(Some(count)) => status_of(measure_query(&rt, count)),
        Ok(None) => {
            let _ = eprintln!(rt; "{}", USAGE);
            ExitCode::from(2)
        }
        Err(_) => ExitCode::from(1),
    }
}

fn status_of(measured: io::Result<()>) -> ExitCode {
    match measured {
        Ok(()) => ExitCode::from(0),
        Err(_) => ExitCode::from(1),
    }
}

fn parse_count(arguments: &[String]) -> Option<u64> {
    match arguments {
        [count] => match count.as_str().parse::<u64>() {
            Ok(count) => Some(count),
            Err(_) => None,
        },
        _ => None,
    }
}

// Returns the number of emails that the one argument says; none if the arguments are others.
fn read_count(rt: &(impl env::Env + AllocGlobal)) -> io::Result<Option<u64>> {
    let mut arguments = Vec::new(rt.alloc());
    for argument in env::args(rt)?.skip(1) {
        arguments.push(argument)?;
    }
    Ok(parse_count(arguments.as_slice()))
}
