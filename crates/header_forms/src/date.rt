// The Date form (RFC 5322, sections 3.3 and 4.3; RFC 8621, section 4.1.2.6).
ghost use Rattle.std.specs.Prelude.{◌≡◌, ◌+◌, ◌*◌, ◌*ℤ◌, pos, IfOk, IfSome};
ghost use Rattle.jiff.specs.Words.{IsWithin};
ghost use Rattle.jiff_core.specs.Calendar.{days_from_civil};
ghost use Rattle.jm_base.specs.UtcDates.{IsUtcDate};
ghost use Rattle.header_forms.specs.Dates;
ghost use Rattle.header_forms.specs.Dates.{IsReal, date_text, unix_seconds, utc_of};

use crate::date_reader::read_date_time;
use crate::date_text::write_date_time;
use crate::date_time::{TimeOfDay, ZoneOffset, ZonedDateTime};
use jiff::civil::date;
use jm_base::{FIRST_TIMESTAMP, LAST_TIMESTAMP, NoMemory, Text, UtcDate};
use std::alloc::Global;

/// Returns the date of a value on one line, with its offset, as RFC 3339 writes it:
/// `YYYY-MM-DDTHH:MM:SS`, and `Z` or `+hh:mm`. None if the value is no valid date.
pub fn read_date_text(alloc: Global, text: &[u8]) -> Result<Option<Text>, NoMemory>
    ensures { IfOk result (λ d. d ≡ date_text text.now) }
{
    match read_date_time(text) {
        Some(date_time) => Ok(Some(write_date_time(alloc, &date_time)?)),
        None => Ok(None),
    }
}

/// Returns the seconds from the beginning of 1970 to the beginning of the day.
fn count_day_seconds(date_time: &ZonedDateTime) -> i64
    requires { IsReal date_time.now }
    ensures value { result
        ≡ days_from_civil (pos date_time.now.year) date_time.now.month date_time.now.day
        *ℤ pos 86400 }
    ensures bound { IsWithin 400000000000 result }
{
    let day = date(
        date_time.year as i16,
        date_time.month as i8,
        date_time.day as i8,
    );
    i64::from(day.to_plain().to_unix_epoch_day()) * 86400
}

/// Returns the seconds from the beginning of the day.
fn count_clock_seconds(time: TimeOfDay) -> i64
    ensures value { result ≡ pos (time.hour * 3600 + time.minute * 60 + time.second) }
    ensures bound { IsWithin 4294967295 result }
{
    i64::from(u32::from(time.hour) * 3600 + u32::from(time.minute) * 60 + u32::from(time.second))
}

/// Returns how many seconds a zone's clock is ahead of UTC.
fn count_offset_seconds(offset: ZoneOffset) -> i64
    ensures value { result ≡ Dates.offset_seconds offset }
    ensures bound { IsWithin 4294967295 result }
{
    let seconds = i64::from(u32::from(offset.minutes) * 60);
    if offset.behind { -seconds } else { seconds }
}

/// Returns the Unix seconds of a date-time.
fn count_unix_seconds(date_time: &ZonedDateTime) -> i64
    requires { IsReal date_time.now }
    ensures { result ≡ unix_seconds date_time.now }
{
    count_day_seconds(date_time) + count_clock_seconds(date_time.time)
        - count_offset_seconds(date_time.offset)
}

/// Returns the timestamp, if it is in the years 0001 to 9999 (RFC 3339).
fn check_timestamp(seconds: i64) -> Option<UtcDate>
    ensures value { result ≡ Dates.if_in_range seconds }
    ensures kept { IfSome result IsUtcDate }
{
    if FIRST_TIMESTAMP <= seconds && seconds <= LAST_TIMESTAMP as i64 {
        Some(UtcDate { seconds })
    } else {
        None
    }
}

/// Returns the timestamp of a value on one line. None if the value is no valid date, or its
/// timestamp isn't in the years 0001 to 9999 (RFC 8620, section 1.4).
pub fn find_timestamp(text: &[u8]) -> Option<UtcDate>
    ensures value { result ≡ utc_of text.now }
    ensures kept { IfSome result IsUtcDate }
{
    let date_time = read_date_time(text)?;
    check_timestamp(count_unix_seconds(&date_time))
}
