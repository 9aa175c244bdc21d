// Requests of a client to a server, as HTTP/1.1 over TCP. What is asked and answered is not exposed
// to contracts.
ghost use Rattle.std.specs.Prelude.{◌≡◌, IfOk};

use crate::{MAX_WAIT_SECONDS, TcpLink};
use http_parts::{Unread, WireFault};
use http_wire::{HttpResponse, read_response, write_request};
use jm_base::{NoMemory, Text};
use jm_edge::{Answer, EdgeFault, Exchange, Link};
use std::alloc::Global;
use std::fmt;
use std::fmt::{Display, Formatter};
use std::io::{self, ErrorKind, Write};
use std::net::{TcpStream, ToSocketAddrs};
use std::time::{Duration, Instant};

// How many bytes are read at once.
const READ_AT_ONCE: usize = 16_384;

// Why a request was not answered.
#[derive(Drop)]
enum AskFault {
    // No connection was opened.
    Unreached(io::Error),
    // The time was over in which the request had to be taken and answered.
    TooSlow,
    Wire(WireFault),
}

impl From<io::Error> for AskFault {
    fn from(error: io::Error) -> AskFault {
        AskFault::Unreached(error)
    }
}

impl Display for AskFault {
    fn fmt<W: fmt::Write>(&self, f: &mut Formatter<W>) -> fmt::Result {
        match self {
            AskFault::Unreached(error) => Display::fmt(error, f),
            AskFault::TooSlow => f.write_str("no response in time"),
            AskFault::Wire(fault) => fmt_wire_fault(fault, f),
        }
    }
}

// Writes what was wrong with the connection, or with the response.
fn fmt_wire_fault<W: fmt::Write>(fault: &WireFault, f: &mut Formatter<W>) -> fmt::Result {
    match fault {
        WireFault::End => f.write_str("the connection ended before a response"),
        WireFault::CutOff(count) => {
            write!(f, "the connection ended after {count} bytes of a response")
        }
        WireFault::ReadFault => f.write_str("the connection failed before a response was whole"),
        WireFault::WriteFault => f.write_str("the connection failed before a request was taken"),
        WireFault::BadHead => f.write_str("an invalid response"),
        WireFault::HeadTooLong => f.write_str("a response with a head that is too long"),
        WireFault::BodyTooLong(limit) => {
            write!(f, "a response with a body of more than {limit} bytes")
        }
        WireFault::NoMemory => f.write_str("no memory"),
    }
}

// Returns whether memory ran out.
fn is_memory(fault: &AskFault) -> bool {
    match fault {
        AskFault::Unreached(error) => error.kind() == ErrorKind::OutOfMemory,
        AskFault::TooSlow => false,
        AskFault::Wire(fault) => *fault == WireFault::NoMemory,
    }
}

// Whom the requests go to, and who asks.
#[derive(Drop)]
struct Server {
    host: Text,
    port: u16,
    // The host and the port, with a colon between.
    address: Text,
    token: Text,
}

// Returns a host without the square brackets around an IPv6 address.
fn strip_brackets(host: &str) -> &str {
    match host.strip_prefix('[') {
        Some(rest) => match rest.strip_suffix(']') {
            Some(inner) => inner,
            None => host,
        },
        None => host,
    }
}

// Returns the time that is left to open a connection. It is 0 if the time is over.
fn find_time_left(rt: &HostRuntime, begin: Instant) -> io::Result<Duration> {
    let limit = Duration::from_secs(MAX_WAIT_SECONDS);
    Ok(limit.saturating_sub(begin.elapsed(rt)?))
}

impl Server {
    // Opens a connection to the first address of the host that takes one, within the time for all
    // of them.
    fn connect(&self, rt: &HostRuntime) -> io::Result<TcpStream> {
        let begin = Instant::now(rt)?;
        let mut last = io::Error::from(ErrorKind::TimedOut);
        let host = strip_brackets(self.host.as_str());
        for address in (host, self.port).to_socket_addrs(rt)? {
            let time = find_time_left(rt, begin)?;
            if time.is_zero() {
                return Err(last);
            }
            match TcpStream::connect_timeout(rt, &address, time) {
                Ok(stream) => return Ok(stream),
                Err(error) => last = error,
            }
        }
        Err(last)
    }
}

// A connection to a server, and what was read past the last response.
#[derive(Drop)]
struct Line {
    link: TcpLink,
    early: Unread,
}

impl Line {
    // Opens a connection.
    fn open(rt: &HostRuntime, alloc: Global, server: &Server) -> Result<Line, AskFault> {
        let stream = server.connect(rt)?;
        match TcpLink::new(rt, stream) {
            Ok(link) => Ok(Line {
                link,
                early: Unread::new(alloc),
            }),
            Err(_) => Err(AskFault::Wire(WireFault::ReadFault)),
        }
    }

    // Makes a request, and reads the response.
    fn ask(
        &mut self,
        alloc: Global,
        server: &Server,
        path: &[u8],
        body: Option<&[u8]>,
    ) -> Result<HttpResponse, WireFault> {
        if self.link.begin_wait().is_err() {
            return Err(WireFault::WriteFault);
        }
        let (host, token) = (server.address.as_bytes(), server.token.as_bytes());
        write_request(alloc, &mut self.link, host, token, path, body)?;
        let mut room = [0u8; READ_AT_ONCE];
        read_response(alloc, &mut self.link, &mut room, &mut self.early)
    }

    // Closes the connection, and returns why a request was not answered.
    fn end_by(self, fault: WireFault) -> AskFault {
        let mut link = self.link;
        if fault == WireFault::ReadFault || fault == WireFault::WriteFault {
            link.finish();
            if link.carried().too_slow {
                return AskFault::TooSlow;
            }
        }
        AskFault::Wire(fault)
    }
}

/// Requests of a client to a server by HTTP/1.1 over TCP, with its faults counted. Of each fault it
/// says the reason on the standard error output.
///
/// It opens a connection when something is asked and it has none, and keeps it while the responses
/// leave it open. After a fault it closes the connection, so that what was left of a response is
/// never taken for the next one, and asks nothing again.
///
/// A connection is opened within [`MAX_WAIT_SECONDS`](crate::MAX_WAIT_SECONDS), once the host's
/// name was looked up. From its beginning on a request has so many seconds until its response is
/// there, and a second more for each [`BYTES_PER_SECOND`](crate::BYTES_PER_SECOND) that came or
/// were taken.
#[derive(Drop)]
pub struct TcpExchange {
    rt: HostRuntime,
    server: Server,
    line: Option<Line>,
    faults: u64,
}

impl TcpExchange {
    /// Returns the exchange with the server of this host and port, as the user with this token (RFC
    /// 6750). The host is a name or an address; one of IPv6 may be in square brackets. Neither the
    /// host nor the token may have a line end. It has not failed yet, and opens nothing. Fails if
    /// memory runs out.
    pub fn new(
        rt: &HostRuntime,
        alloc: Global,
        host: &str,
        port: u16,
        token: &str,
    ) -> Result<TcpExchange, NoMemory>
        ensures { IfOk result (λ x. x.faults ≡ 0) }
    {
        let server = Server {
            host: Text::from_str(alloc, host)?,
            port,
            address: Text::from_string(format!(in alloc; "{host}:{port}")?),
            token: Text::from_str(alloc, token)?,
        };
        Ok(TcpExchange {
            rt: *rt,
            server,
            line: None,
            faults: 0,
        })
    }

    /// Returns how often asking has failed.
    pub fn count_faults(&self) -> u64
        ensures { result ≡ self.now.faults }
    {
        self.faults
    }
}

// Returns the connection that is open, or a new one.
fn take_or_open(
    rt: &HostRuntime,
    alloc: Global,
    server: &Server,
    line: &mut Option<Line>,
) -> Result<Line, AskFault> {
    match line.take() {
        Some(line) => Ok(line),
        None => Line::open(rt, alloc, server),
    }
}

// Makes a request over the connection that is open, or over a new one. The connection stays open
// if the response leaves it so and nothing came after it: no request was made for that (RFC 9112,
// section 9.2).
fn ask_server(
    rt: &HostRuntime,
    alloc: Global,
    server: &Server,
    kept: &mut Option<Line>,
    path: &[u8],
    body: Option<&[u8]>,
) -> Result<Answer, AskFault> {
    let mut line = take_or_open(rt, alloc, server, kept)?;
    match line.ask(alloc, server, path, body) {
        Ok(response) => {
            if !response.last && line.early.as_slice().is_empty() {
                *kept = Some(line);
            }
            Ok(Answer {
                status: response.status,
                body: response.body,
            })
        }
        Err(fault) => Err(line.end_by(fault)),
    }
}

// Says why a server did not answer. It is no fault if that fails.
fn say_why(rt: &HostRuntime, server: &Server, fault: &AskFault) {
    let address = server.address.as_str();
    let _ = writeln!(rt.stderr(), "cannot reach {address}: {fault}");
}

impl Exchange for TcpExchange {
    ghost use Rattle.std.specs.Prelude.{None};

    ghost told = { λ _. None };

    ghost faults = { λ x. x.faults };

    fn ask(
        &mut self,
        alloc: Global,
        path: &[u8],
        body: Option<&[u8]>,
    ) -> Result<Answer, EdgeFault> {
        match ask_server(&self.rt, alloc, &self.server, &mut self.line, path, body) {
            Ok(answer) => Ok(answer),
            Err(fault) => {
                if is_memory(&fault) {
                    return Err(EdgeFault::NoMemory);
                }
                say_why(&self.rt, &self.server, &fault);
                self.faults = self.faults.saturating_add(1);
                Err(EdgeFault::Failed)
            }
        }
    }
}
