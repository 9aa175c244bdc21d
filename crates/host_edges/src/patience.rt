// How long a connection is waited for.
ghost use Rattle.std.specs.Prelude.{◌≡◌, ◌+◌, ◌-◌, ◌^◌, ◌/◌, true, false, min};
ghost use Rattle.std.specs.Time.{instant_nanos};
ghost use Rattle.host_edges.specs.Waiting.{is_final, is_rejection, is_renewal, seconds_left};

use std::time::Instant;

/// How many seconds a connection has to bring a whole request, and anew to take its response.
pub const MAX_WAIT_SECONDS: u64 = 60;

/// For how many bytes, that came or were taken, a connection has a second more.
pub const BYTES_PER_SECOND: u64 = 65_536;

/// Returns whether these bytes begin a final response (RFC 9110, section 15).
pub(crate) fn is_final(piece: &[u8]) -> bool
    ensures { result ≡ is_final piece.now }
{
    piece.starts_with(b"HTTP/1.1 ") && !piece.starts_with(b"HTTP/1.1 1")
}

/// Returns whether these bytes begin a response to a request that is rejected: one with a status
/// from 400 on.
pub(crate) fn is_rejection(piece: &[u8]) -> bool
    ensures { result ≡ is_rejection piece.now }
{
    piece.starts_with(b"HTTP/1.1 4") || piece.starts_with(b"HTTP/1.1 5")
}

// Returns whether these bytes begin a final response to a user that is known: one that is no 401.
fn is_renewal(piece: &[u8]) -> bool
    ensures { result ≡ is_renewal piece.now }
{
    is_final(piece) && !piece.starts_with(b"HTTP/1.1 401")
}

// Returns how many seconds are left, at most `MAX_WAIT_SECONDS`, after so many bytes and so many
// seconds. It is 0 if the wait is over.
fn count_seconds_left(bytes: u64, waited: u64) -> u64
    ensures { result ≡ seconds_left bytes waited }
{
    let allowed = MAX_WAIT_SECONDS + bytes / BYTES_PER_SECOND;
    allowed.saturating_sub(waited).min(MAX_WAIT_SECONDS)
}

/// What a connection is waited for: since when, and how many bytes came or were taken since then.
#[derive(Clone, Copy)]
pub(crate) struct Patience {
    since: Instant,
    bytes: u64,
    // A response to a known user was written, and no request was waited for since.
    answered: bool,
}

impl Patience {
    /// Returns the wait that begins now, for a request.
    pub(crate) fn begin(now: Instant) -> Patience
        ensures { (result.since ≡ now) × (result.bytes ≡ 0) × (result.answered ≡ false) }
    {
        Patience {
            since: now,
            bytes: 0,
            answered: false,
        }
    }

    /// Begins the wait for a request, if the last one was one of a known user and was answered.
    pub(crate) fn expect_request(&mut self, now: Instant)
        ensures anew { self.old.answered ≡ true → (self.new.since ≡ now) × (self.new.bytes ≡ 0)
            × (self.new.answered ≡ false) }
        ensures same { self.old.answered ≡ false → self.new ≡ self.old }
    {
        if self.answered {
            *self = Patience::begin(now);
        }
    }

    /// Begins the wait until a response is taken, if these bytes begin one to a known user.
    pub(crate) fn expect_taking(&mut self, now: Instant, piece: &[u8])
        ensures anew { is_renewal piece.now ≡ true → (self.new.since ≡ now)
            × (self.new.bytes ≡ 0) × (self.new.answered ≡ true) }
        ensures same { is_renewal piece.now ≡ false → self.new ≡ self.old }
    {
        if is_renewal(piece) {
            *self = Patience {
                since: now,
                bytes: 0,
                answered: true,
            };
        }
    }

    /// Counts bytes that came or were taken.
    pub(crate) fn add(&mut self, count: usize)
        ensures { (self.new.bytes ≡ min (self.old.bytes + count) (2 ^ 64 - 1))
            × (self.new.since ≡ self.old.since) × (self.new.answered ≡ self.old.answered) }
    {
        self.bytes = self.bytes.saturating_add(count as u64);
    }

    /// Returns how many seconds are left, at most `MAX_WAIT_SECONDS`. It is 0 if the wait is over.
    pub(crate) fn seconds_left(&self, now: Instant) -> u64
        ensures { result ≡ seconds_left self.now.bytes
            ((instant_nanos now - instant_nanos self.now.since) / 10 ^ 9) }
    {
        count_seconds_left(self.bytes, now.duration_since(self.since).as_secs())
    }
}
