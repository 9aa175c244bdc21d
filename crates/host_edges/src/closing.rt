// A connection is closed in stages (RFC 9112, section 9.6), so that what was written last arrives:
// bytes that come once it is closed would make the system drop what the other side did not read.
use std::io::{ErrorKind, Read};
use std::net::{Shutdown, TcpStream};
use std::time::{Duration, Instant};

/// How many bytes are read and dropped before a connection is closed.
pub const MAX_DROPPED_BYTES: u64 = 67_108_864;

/// For how many seconds bytes are read and dropped before a connection is closed.
pub const MAX_CLOSING_SECONDS: u64 = 10;

/// For how many seconds without bytes a connection that is being closed stays open.
pub const MAX_QUIET_SECONDS: u64 = 2;

// How many bytes are dropped at once.
const DROPPED_AT_ONCE: usize = 16_384;

/// Closes the connection, which also says that nothing more is written: at once, if its last
/// request was answered and nothing came since. Else that is said first, and what still comes is
/// read and dropped, within the limits.
pub(crate) fn close_in_stages(rt: &HostRuntime, stream: TcpStream, rejected: bool) {
    if !rejected && !has_bytes(&stream) {
        return;
    }
    if stream.shutdown(Shutdown::Write).is_err() {
        return;
    }
    if let Ok(begin) = Instant::now(rt) {
        drop_what_comes(rt, stream, begin);
    }
}

// Returns whether bytes are there to be read now. If none are, a read waits for none any more.
fn has_bytes(stream: &TcpStream) -> bool {
    if stream.set_nonblocking(true).is_err() {
        return false;
    }
    let mut room = [0u8; 1];
    match stream.peek(&mut room) {
        Ok(count) => count > 0 && stream.set_nonblocking(false).is_ok(),
        Err(_) => false,
    }
}

// Reads and drops what comes, until the other side ends it too, or a limit is reached. It is called
// for few connections, and its room is a part of the stack that no other one should touch.
#[inline(never)]
fn drop_what_comes(rt: &HostRuntime, stream: TcpStream, begin: Instant) {
    let mut stream = stream;
    let mut room = [0u8; DROPPED_AT_ONCE];
    let mut dropped = 0u64;
    for _ in 0..MAX_DROPPED_BYTES {
        let seconds = count_seconds_left(rt, begin);
        match drop_piece(&mut stream, &mut room, seconds) {
            Some(count) => dropped = dropped.saturating_add(count),
            None => return,
        }
        if dropped >= MAX_DROPPED_BYTES {
            return;
        }
    }
}

// Returns for how many seconds the next bytes are waited for. It is 0 if the time is over.
fn count_seconds_left(rt: &HostRuntime, begin: Instant) -> u64 {
    match begin.elapsed(rt) {
        Ok(time) => MAX_CLOSING_SECONDS
            .saturating_sub(time.as_secs())
            .min(MAX_QUIET_SECONDS),
        Err(_) => 0,
    }
}

// Reads and drops the next bytes, and returns how many they count as: at least one. Returns none
// if there are no more within so many seconds.
fn drop_piece(stream: &mut TcpStream, room: &mut [u8], seconds: u64) -> Option<u64> {
    if seconds == 0
        || stream
            .set_read_timeout(Some(Duration::from_secs(seconds)))
            .is_err()
    {
        return None;
    }
    match stream.read(room) {
        Ok(0) => None,
        Ok(count) => Some(count as u64),
        Err(error) => {
            if error.kind() == ErrorKind::Interrupted {
                Some(1)
            } else {
                None
            }
        }
    }
}
