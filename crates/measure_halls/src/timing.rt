// How long work takes, and the errors of what is measured.

use std::io;
use std::time::{Clock, Instant};

/// Returns the nanoseconds since the instant.
pub(crate) fn nanos_since<T: Clock>(rt: &T, start: Instant) -> io::Result<u64> {
    let elapsed = start.elapsed(rt)?;
    Ok(u64::try_from(elapsed.as_nanos()).unwrap_or(u64::MAX))
}

/// Returns the error that says that memory ran out.
pub(crate) fn no_memory() -> io::Error {
    io::Error::from(io::ErrorKind::OutOfMemory)
}

/// Returns the error that says that what a file keeps is not the account that is to be measured.
pub(crate) fn invalid() -> io::Error {
    io::Error::from(io::ErrorKind::InvalidData)
}
