// A listener whose connections are links. Linux hands the options of a listener on to its
// connections, so that they are set once, and not for each connection.
use crate::tcp::{TcpLink, set_options};
use std::io::{self, ErrorKind};
use std::net::{SocketAddr, TcpListener, TcpStream};
use std::os::fd::OwnedFd;

/// A listener on TCP whose connections are links.
#[derive(Drop)]
pub struct LinkListener {
    listener: TcpListener,
}

impl LinkListener {
    /// Returns the listener after setting the options of a [`TcpLink`] for the connections that
    /// come from now on. Fails if an option can't be set.
    pub fn new(listener: TcpListener) -> io::Result<LinkListener> {
        let handle = TcpStream::from(OwnedFd::from(listener));
        set_options(&handle)?;
        Ok(LinkListener {
            listener: TcpListener::from(OwnedFd::from(handle)),
        })
    }

    /// Waits for the next connection, however long, and returns it. Returns none if it ended before
    /// its options were set, or the clock can't be read. Fails if accepting fails.
    pub fn accept(&self, rt: &HostRuntime) -> io::Result<Option<TcpLink>> {
        for _ in 0..u64::MAX {
            match self.listener.accept() {
                Ok((stream, _)) => return Ok(link_of(rt, stream)),
                Err(error) => {
                    if !is_of_time(&error) {
                        return Err(error);
                    }
                }
            }
        }
        Ok(None)
    }

    /// Returns the address that is listened on. Fails if the system doesn't tell it.
    pub fn local_addr(&self) -> io::Result<SocketAddr> {
        self.listener.local_addr()
    }
}

// Returns whether nobody came in the time that a read of a connection waits: accepting waits for no
// longer either.
fn is_of_time(error: &io::Error) -> bool {
    error.kind() == ErrorKind::WouldBlock
}

fn link_of(rt: &HostRuntime, stream: TcpStream) -> Option<TcpLink> {
    match TcpLink::new(rt, stream) {
        Ok(link) => Some(link),
        Err(_) => None,
    }
}
