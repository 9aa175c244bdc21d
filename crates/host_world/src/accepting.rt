// Connections are accepted. One that ended before it was accepted is left out.
use host_edges::{LinkListener, TcpLink};
use jm_edge::Failed;
use std::io::{ErrorKind, Write};
use std::time::Duration;
use std::{io, thread};

/// How often accepting a connection is tried, until one is accepted. If each of so many tries
/// fails, accepting has failed.
pub const MAX_ACCEPT_TRIES: u64 = 1_000;

// For how many milliseconds accepting waits after a fault that may last, as that no file descriptor
// is left.
const PAUSE_MILLISECONDS: u64 = 100;

// Returns whether a connection ended before it was accepted, or a signal came: the next one can be
// accepted at once.
fn is_of_connection(error: &io::Error) -> bool {
    matches!(
        error.kind(),
        ErrorKind::ConnectionAborted | ErrorKind::ConnectionReset | ErrorKind::Interrupted
    )
}

// Says at which address no connection is accepted, and why. It is no fault if that fails.
fn say_why(rt: &HostRuntime, listener: &LinkListener, error: &io::Error) {
    let mut err = rt.stderr();
    let _ = match listener.local_addr() {
        Ok(address) => writeln!(err, "cannot accept a connection on {address}: {error}"),
        Err(_) => writeln!(err, "cannot accept a connection: {error}"),
    };
}

// Tries once to accept a connection. Of a fault that is not the connection's it says why, if it is
// the first one, and waits a little.
fn try_accept(rt: &HostRuntime, listener: &LinkListener, said: &mut bool) -> Option<TcpLink> {
    match listener.accept(rt) {
        Ok(link) => link,
        Err(error) => {
            if !is_of_connection(&error) {
                if !*said {
                    say_why(rt, listener, &error);
                }
                *said = true;
                thread::sleep(rt, Duration::from_millis(PAUSE_MILLISECONDS));
            }
            None
        }
    }
}

/// Waits for a connection, and leaves out those that ended before they were accepted. Fails if
/// there is no listener, or after [`MAX_ACCEPT_TRIES`] tries that failed.
pub(crate) fn accept_link(
    rt: &HostRuntime,
    listener: &Option<LinkListener>,
) -> Result<TcpLink, Failed> {
    let Some(listener) = listener else {
        return Err(Failed);
    };
    let mut said = false;
    for _ in 0..MAX_ACCEPT_TRIES {
        if let Some(link) = try_accept(rt, listener, &mut said) {
            return Ok(link);
        }
    }
    Err(Failed)
}
