// How long work takes, and the error if memory runs out.

use std::io;
use std::time::{Clock, Instant};

/// How often each thing is measured. The median counts.
pub(crate) const RUNS: usize = 5;

/// Returns the median of the times.
pub(crate) fn median(mut nanos: [u64; RUNS]) -> u64 {
    nanos.sort_unstable();
    nanos[RUNS / 2]
}

/// Returns the nanoseconds since the instant.
pub(crate) fn nanos_since<R: Clock>(rt: &R, start: Instant) -> io::Result<u64> {
    let elapsed = start.elapsed(rt)?;
    Ok(u64::try_from(elapsed.as_nanos()).unwrap_or(u64::MAX))
}

/// Returns the error that says that memory ran out.
pub(crate) fn no_memory() -> io::Error {
    io::Error::from(io::ErrorKind::OutOfMemory)
}
