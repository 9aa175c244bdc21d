// A WebSocket connection over TCP, as a server. Its content is not exposed to contracts.
ghost use Rattle.std.specs.Prelude.{◌≡◌};
ghost use Rattle.jm_edge.specs.Causes.{IsCounted};

use jm_base::Bytes;
use jm_edge::{Arrival, EdgeFault, MessageLink};
use std::alloc::Global;
use std::io::ErrorKind;
use std::net::TcpStream;
use std::time::Duration;
use tungstenite::{CloseCode, CloseFrame, Error, Message, NoMask, Role, Utf8Bytes, WebSocket};

/// How long a look at a TCP socket waits for bytes, in milliseconds.
const LOOK_MILLISECONDS: u64 = 1000;

/// A WebSocket connection over TCP, with its faults counted. A look that finds no complete message
/// within a second is quiet. Text that is not UTF-8 is not sent, which counts as a fault.
#[derive(Drop)]
pub struct TcpSocket {
    socket: WebSocket<TcpStream, NoMask>,
    read_faults: u64,
    send_faults: u64,
}

impl TcpSocket {
    // Returns the server's side of a connection after its handshake, with the bytes that were read
    // past the request.
    pub(crate) fn new(alloc: Global, stream: TcpStream, early: Bytes) -> TcpSocket
        ensures reads { result.read_faults ≡ 0 }
        ensures sends { result.send_faults ≡ 0 }
    {
        let early = early.into_vec();
        TcpSocket {
            socket: WebSocket::from_partially_read(
                alloc,
                stream,
                NoMask,
                early,
                Role::Server,
                None,
            ),
            read_faults: 0,
            send_faults: 0,
        }
    }

    fn handle_read_error(&mut self, error: Error) -> Result<Arrival, EdgeFault>
        ensures cause { IsCounted self.old.read_faults self.new.read_faults result }
        ensures send_faults { self.new.send_faults ≡ self.old.send_faults }
    {
        match error {
            Error::ConnectionClosed => Ok(Arrival::Closed),
            Error::AlreadyClosed => Ok(Arrival::Closed),
            Error::OutOfMemory => Err(EdgeFault::NoMemory),
            error => {
                if is_quiet(&error) {
                    return Ok(Arrival::Quiet);
                }
                self.read_faults = self.read_faults.saturating_add(1);
                Err(EdgeFault::Failed)
            }
        }
    }

    fn handle_send_result(&mut self, sent: Result<(), Error>) -> Result<(), EdgeFault>
        ensures cause { IsCounted self.old.send_faults self.new.send_faults result }
        ensures read_faults { self.new.read_faults ≡ self.old.read_faults }
    {
        match sent {
            Ok(()) => Ok(()),
            Err(Error::OutOfMemory) => Err(EdgeFault::NoMemory),
            Err(_) => {
                self.send_faults = self.send_faults.saturating_add(1);
                Err(EdgeFault::Failed)
            }
        }
    }
}

// Returns whether the stream had no more bytes within the time of a look, or a signal ended it.
fn is_quiet(error: &Error) -> bool {
    match error {
        Error::Io(cause) => matches!(cause.kind(), ErrorKind::WouldBlock | ErrorKind::Interrupted),
        _ => false,
    }
}

// Returns the next message that is no ping or pong. The bytes of a binary message are dropped.
fn look(alloc: Global, socket: &mut WebSocket<TcpStream, NoMask>) -> Result<Arrival, Error> {
    for _ in 0..u64::MAX {
        match socket.read()? {
            Message::Text(text) => return copy_text(alloc, text.as_str()),
            Message::Binary(_) => return Ok(Arrival::Binary),
            Message::Close(_) => return Ok(Arrival::Closed),
            _ => {}
        }
    }
    Ok(Arrival::Quiet)
}

fn copy_text(alloc: Global, text: &str) -> Result<Arrival, Error> {
    match Bytes::from_slice(alloc, text.as_bytes()) {
        Ok(bytes) => Ok(Arrival::Text(bytes)),
        Err(_) => Err(Error::OutOfMemory),
    }
}

fn send_text(
    alloc: Global,
    socket: &mut WebSocket<TcpStream, NoMask>,
    text: &[u8],
) -> Result<(), Error> {
    let Ok(text) = std::str::from_utf8(text) else {
        return Err(Error::Utf8);
    };
    match Message::text(alloc, text) {
        Ok(message) => socket.send(message),
        Err(_) => Err(Error::OutOfMemory),
    }
}

impl MessageLink for TcpSocket {
    ghost use Rattle.std.specs.Prelude.{None};

    ghost coming = { λ _. None };

    ghost sent = { λ _. None };

    ghost origin = { λ _. None };

    ghost read_faults = { λ s. s.read_faults };

    ghost send_faults = { λ s. s.send_faults };

    fn next(&mut self, alloc: Global) -> Result<Arrival, EdgeFault> {
        let time = Duration::from_millis(LOOK_MILLISECONDS);
        if let Err(cause) = self.socket.get_ref().set_read_timeout(Some(time)) {
            return self.handle_read_error(Error::Io(cause));
        }
        match look(alloc, &mut self.socket) {
            Ok(arrival) => Ok(arrival),
            Err(error) => self.handle_read_error(error),
        }
    }

    fn send(&mut self, alloc: Global, text: &[u8]) -> Result<(), EdgeFault> {
        let sent = send_text(alloc, &mut self.socket, text);
        self.handle_send_result(sent)
    }

    fn close(&mut self, _alloc: Global, code: u16) -> Result<(), EdgeFault> {
        let frame = CloseFrame {
            code: CloseCode::from(code),
            reason: Utf8Bytes::from_static(""),
        };
        let sent = self.socket.close(Some(frame));
        self.handle_send_result(sent)
    }
}
