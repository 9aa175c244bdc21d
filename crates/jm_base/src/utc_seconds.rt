// The Unix seconds of the date that a string is, as a definition that computes.
ghost use Rattle.std.specs.Prelude.{◌≡◌};
ghost use Rattle.jm_base.specs.UtcSeconds.{utc_seconds};

use crate::utc_dates::read_utc;

/// Returns the Unix seconds of the date that a string is, or `None` if it is no date in UTC of the
/// years 0001 to 9999 (UTCDate of RFC 8620, section 1.4). A fraction of a second is dropped.
pub fn read_utc_seconds(text: &[u8]) -> Option<i64>
    ensures { result ≡ utc_seconds text.now }
{
    match read_utc(text) {
        Ok(date) => Some(date.seconds),
        Err(_) => None,
    }
}
