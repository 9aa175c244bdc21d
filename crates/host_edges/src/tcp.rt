// A TCP connection as a link. Its content is not exposed to contracts.
ghost use Rattle.std.specs.Prelude.{◌≡◌, ◌<◌, IfOk, length};
ghost use Rattle.std.specs.Io.{ReadsAtMost, WritesAtMost};

use crate::TcpSocket;
use crate::closing::close_in_stages;
use crate::patience::{MAX_WAIT_SECONDS, Patience, is_final, is_rejection};
use jm_base::{Bytes, NoMemory};
use jm_edge::{Failed, Link};
use std::alloc::Global;
use std::io::{self, ErrorKind, Read, Write};
use std::net::TcpStream;
use std::time::{Duration, Instant};

/// What a connection carried up to now, and for how long.
#[derive(Clone, Copy)]
pub struct Carried {
    /// How many final responses were begun.
    pub responses: u64,
    /// How many bytes came.
    pub bytes_in: u64,
    /// How many bytes were written.
    pub bytes_out: u64,
    /// For how many seconds the connection was open, or has been.
    pub seconds: u64,
    /// Whether the time was over in which it had to bring a request or to take a response.
    pub too_slow: bool,
}

impl Carried {
    const NOTHING: Carried = Carried {
        responses: 0,
        bytes_in: 0,
        bytes_out: 0,
        seconds: 0,
        too_slow: false,
    };
}

// A stream, what it is waited for, and the times in seconds that are set for it.
#[derive(Drop)]
struct Waited {
    rt: HostRuntime,
    stream: TcpStream,
    patience: Patience,
    read_seconds: u64,
    write_seconds: u64,
    begin: Instant,
    carried: Carried,
    // Whether the last response was one to a request that was rejected.
    rejected: bool,
    // Whether only a part of the last piece was taken, so that the next one goes on with it.
    partly_sent: bool,
    // Whether the other side has ended what it sends, and all of it was read.
    ended: bool,
}

/// A TCP connection, with its faults counted. A write that takes nothing of a piece that is not
/// empty has failed.
///
/// The connection has [`MAX_WAIT_SECONDS`](crate::MAX_WAIT_SECONDS) to bring a whole request,
/// counted from its start or from its last response to a known user, and so many anew to take that,
/// and a second more for each [`BYTES_PER_SECOND`](crate::BYTES_PER_SECOND) that came or were
/// taken. Past that time a read or a write fails.
#[derive(Drop)]
pub struct TcpLink {
    // None once it is finished.
    waited: Option<Waited>,
    carried: Carried,
    read_faults: u64,
    put_faults: u64,
}

// Returns whether the call that gave this error is tried again: a signal came, or the time that was
// set for it is over.
fn is_passing(error: &io::Error) -> bool {
    matches!(error.kind(), ErrorKind::Interrupted | ErrorKind::WouldBlock)
}

/// Sets the options of a connection, or of a listener for its connections: what is written is sent
/// at once, and a call waits for at most `MAX_WAIT_SECONDS`. What has the last of them has all.
pub(crate) fn set_options(stream: &TcpStream) -> io::Result<()> {
    let time = Some(Duration::from_secs(MAX_WAIT_SECONDS));
    stream.set_nodelay(true)?;
    stream.set_read_timeout(time)?;
    stream.set_write_timeout(time)
}

// Returns whether a connection has its options from its listener.
fn has_options(stream: &TcpStream) -> io::Result<bool> {
    match stream.write_timeout()? {
        Some(time) => Ok(time == Duration::from_secs(MAX_WAIT_SECONDS)),
        None => Ok(false),
    }
}

impl Waited {
    // Returns the stream after its options were set, unless it has them.
    fn new(rt: &HostRuntime, stream: TcpStream) -> io::Result<Waited> {
        if !has_options(&stream)? {
            set_options(&stream)?;
        }
        let begin = Instant::now(rt)?;
        Ok(Waited {
            rt: *rt,
            stream,
            patience: Patience::begin(begin),
            read_seconds: MAX_WAIT_SECONDS,
            write_seconds: MAX_WAIT_SECONDS,
            begin,
            carried: Carried::NOTHING,
            rejected: false,
            partly_sent: false,
            ended: false,
        })
    }

    // Returns for how many seconds the next call may wait. Fails if the time is over.
    fn count_seconds_left(&mut self, now: Instant) -> Result<u64, Failed> {
        let seconds = self.patience.seconds_left(now);
        if seconds == 0 {
            self.carried.too_slow = true;
            return Err(Failed);
        }
        Ok(seconds)
    }

    // Sets for how long the next read waits. Fails if the time is over.
    fn limit_read(&mut self) -> Result<(), Failed> {
        let now = read_clock(&self.rt)?;
        self.patience.expect_request(now);
        let seconds = self.count_seconds_left(now)?;
        if seconds != self.read_seconds {
            self.read_seconds = seconds;
            return fail_by(
                self.stream
                    .set_read_timeout(Some(Duration::from_secs(seconds))),
            );
        }
        Ok(())
    }

    // Sets for how long the next write waits from now on. Fails if the time is over.
    fn limit_write(&mut self, now: Instant) -> Result<(), Failed> {
        let seconds = self.count_seconds_left(now)?;
        if seconds != self.write_seconds {
            self.write_seconds = seconds;
            return fail_by(
                self.stream
                    .set_write_timeout(Some(Duration::from_secs(seconds))),
            );
        }
        Ok(())
    }

    // Begins to write a piece, which may begin a response. The rest of a piece begins none,
    // whatever its bytes are.
    fn begin_piece(&mut self, now: Instant, piece: &[u8]) {
        if !self.partly_sent && is_final(piece) {
            self.carried.responses = self.carried.responses.saturating_add(1);
            self.rejected = is_rejection(piece);
            self.patience.expect_taking(now, piece);
        }
    }

    // Counts bytes that came.
    fn add_in(&mut self, count: usize) {
        self.patience.add(count);
        self.carried.bytes_in = self.carried.bytes_in.saturating_add(count as u64);
    }

    // Counts bytes that were taken.
    fn add_out(&mut self, count: usize) {
        self.patience.add(count);
        self.carried.bytes_out = self.carried.bytes_out.saturating_add(count as u64);
    }

    // Reads the next bytes within the time that is left.
    fn receive(&mut self, room: &mut [u8]) -> Result<usize, Failed>
        ensures { ReadsAtMost result room.new }
    {
        for _ in 0..u64::MAX {
            self.limit_read()?;
            match self.stream.read(room) {
                Ok(count) => {
                    self.ended = count == 0 && !room.is_empty();
                    self.add_in(count);
                    return Ok(count);
                }
                Err(error) => {
                    if !is_passing(&error) {
                        return Err(Failed);
                    }
                }
            }
        }
        Err(Failed)
    }

    // Writes a prefix of the piece within the time that is left. To take nothing of a piece that is
    // not empty is a failure.
    fn send(&mut self, piece: &[u8]) -> Result<usize, Failed>
        ensures bound { WritesAtMost result piece.now }
        ensures some { IfOk result (λ n. 0 < length piece.now → 0 < n) }
    {
        let mut now = read_clock(&self.rt)?;
        self.begin_piece(now, piece);
        for _ in 0..u64::MAX {
            self.limit_write(now)?;
            match self.stream.write(piece) {
                Ok(count) => {
                    if count == 0 && !piece.is_empty() {
                        return Err(Failed);
                    }
                    self.add_out(count);
                    self.partly_sent = count < piece.len();
                    return Ok(count);
                }
                Err(error) => {
                    if !is_passing(&error) {
                        return Err(Failed);
                    }
                }
            }
            now = read_clock(&self.rt)?;
        }
        Err(Failed)
    }

    // Begins the wait anew.
    fn begin_wait(&mut self) -> Result<(), Failed> {
        self.patience = Patience::begin(read_clock(&self.rt)?);
        Ok(())
    }

    // Returns what the connection carried up to now.
    fn count_carried(&self) -> Carried {
        let seconds = match self.begin.elapsed(&self.rt) {
            Ok(time) => time.as_secs(),
            Err(_) => 0,
        };
        Carried {
            seconds,
            ..self.carried
        }
    }
}

fn read_clock(rt: &HostRuntime) -> Result<Instant, Failed> {
    match Instant::now(rt) {
        Ok(now) => Ok(now),
        Err(_) => Err(Failed),
    }
}

fn fail_by(done: io::Result<()>) -> Result<(), Failed> {
    match done {
        Ok(()) => Ok(()),
        Err(_) => Err(Failed),
    }
}

// Reads from a stream, unless it is closed.
fn receive_from(waited: &mut Option<Waited>, room: &mut [u8]) -> Result<usize, Failed>
    ensures { ReadsAtMost result room.new }
{
    match waited {
        Some(waited) => waited.receive(room),
        None => Err(Failed),
    }
}

// Writes to a stream, unless it is closed.
fn send_to(waited: &mut Option<Waited>, piece: &[u8]) -> Result<usize, Failed>
    ensures bound { WritesAtMost result piece.now }
    ensures some { IfOk result (λ n. 0 < length piece.now → 0 < n) }
{
    match waited {
        Some(waited) => waited.send(piece),
        None => Err(Failed),
    }
}

impl TcpLink {
    /// Returns the connection as a link that has not failed yet, after setting TCP_NODELAY and the
    /// times that a call waits: what is written is sent at once. If a write waits for at most
    /// [`MAX_WAIT_SECONDS`](crate::MAX_WAIT_SECONDS) already, its options are those that a
    /// [`LinkListener`](crate::LinkListener) hands on. Fails if an option can't be read or set, or
    /// the clock can't be read.
    pub fn new(rt: &HostRuntime, stream: TcpStream) -> Result<TcpLink, Failed>
        ensures reads { IfOk result (λ l. l.read_faults ≡ 0) }
        ensures writes { IfOk result (λ l. l.put_faults ≡ 0) }
    {
        match Waited::new(rt, stream) {
            Ok(waited) => Ok(TcpLink {
                waited: Some(waited),
                carried: Carried::NOTHING,
                read_faults: 0,
                put_faults: 0,
            }),
            Err(_) => Err(Failed),
        }
    }

    /// Begins the wait anew: for a client that makes a request, and waits until it is answered.
    /// Fails if the connection is finished, or the clock can't be read.
    pub(crate) fn begin_wait(&mut self) -> Result<(), Failed>
        ensures reads { self.new.read_faults ≡ self.old.read_faults }
        ensures writes { self.new.put_faults ≡ self.old.put_faults }
    {
        match &mut self.waited {
            Some(waited) => waited.begin_wait(),
            None => Err(Failed),
        }
    }

    /// Returns what the connection carried, once it is finished.
    pub fn carried(&self) -> Carried {
        self.carried
    }
}

impl Link for TcpLink {
    ghost use Rattle.std.specs.Prelude.{None};

    type Socket = TcpSocket;

    ghost left = { λ _. None };

    ghost held = { λ _. None };

    ghost read_faults = { λ l. l.read_faults };

    ghost put_faults = { λ l. l.put_faults };

    fn read(&mut self, room: &mut [u8]) -> Result<usize, Failed> {
        match receive_from(&mut self.waited, room) {
            Ok(count) => Ok(count),
            Err(_) => {
                self.read_faults = self.read_faults.saturating_add(1);
                Err(Failed)
            }
        }
    }

    fn put(&mut self, piece: &[u8]) -> Result<usize, Failed> {
        match send_to(&mut self.waited, piece) {
            Ok(count) => Ok(count),
            Err(_) => {
                self.put_faults = self.put_faults.saturating_add(1);
                Err(Failed)
            }
        }
    }

    /// Ends the connection. If its last request was rejected, what still comes is read and dropped,
    /// within limits, so that the response arrives, and then it is closed. It is closed at once
    /// after a fault, and where the other side has ended and all that it sent was read.
    fn finish(&mut self) {
        let Some(waited) = self.waited.take() else {
            return;
        };
        self.carried = waited.count_carried();
        if self.read_faults == 0 && self.put_faults == 0 && !waited.ended {
            close_in_stages(&waited.rt, waited.stream, waited.rejected);
        }
    }

    fn upgrade(self, alloc: Global, early: Bytes) -> Result<TcpSocket, NoMemory> {
        match self.waited {
            Some(waited) => Ok(TcpSocket::new(alloc, waited.stream, early)),
            None => Err(NoMemory),
        }
    }
}
