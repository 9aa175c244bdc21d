// The texts of dates in UTC (RFC 8620, section 1.4; RFC 3339, section 5.6).
ghost use Rattle.std.specs.Prelude.{◌≡◌, ◌<◌, ◌≤◌, ◌+◌, ◌*◌, ◌%◌, ◌/◌, ◌++◌, pos, negsuc, ◌≤ℤ◌, IfOk, IfErr, IfSome, OnErr, MatchOption, length, codes, string_bytes};
ghost use Rattle.jiff_core.specs.Calendar.{days_from_civil};
ghost use Rattle.jm_base.specs.UtcDates.{IsUtcDate, IsDay, IsTime, IsDateTime, IsUtcText, two_digits, two_at, date_time_in, date_time_seconds, date_time_on, date_time_text, is_digit, is_laid_out, is_z, ends_in_digits, is_end, utc_text, year_of, month_of, day_of};
ghost use Rattle.jm_base.specs.declared.identifiers.UtcDate.{UtcDate as TheDate};
ghost use Rattle.jm_base.specs.declared.utc_dates.TheConstants.{FIRST_TIMESTAMP, LAST_TIMESTAMP};

use crate::{FormFault, NoMemory, Text, UtcDate};
use jiff_core::civil::Date;
use std::alloc::Global;

/// The last year of a date (RFC 3339, section 5.6: the year has four digits).
pub const LAST_YEAR: u64 = 9_999;

/// The first second of the year 0001, counted from the beginning of 1970 in UTC. No date is earlier
/// (RFC 3339: the year has four digits).
pub const FIRST_TIMESTAMP: i64 = -62_135_596_800;

/// The last second of the year 9999, counted from the beginning of 1970 in UTC. No date is later.
pub const LAST_TIMESTAMP: u64 = 253_402_300_799;

/// The seconds of a day.
const DAY_SECONDS: i64 = 86_400;

/// The beginning of the text of a date, with a `0` for each digit.
const LAYOUT: &str = "0000-00-00T00:00:00";

// Returns `YYYY-MM-DD`.
fn write_year_month_day(alloc: Global, year: u64, month: u64, day: u64) -> Result<String, NoMemory>
    ensures { IfOk result (λ t. string_bytes t ≡ two_digits (year / 100) ++ two_digits year ++ codes "-" ++ two_digits month ++ codes "-" ++ two_digits day) }
{
    Ok(format!(in alloc;
        "{}{}{}{}-{}{}-{}{}",
        year / 100 / 10 % 10,
        year / 100 % 10,
        year / 10 % 10,
        year % 10,
        month / 10 % 10,
        month % 10,
        day / 10 % 10,
        day % 10
    )?)
}

// Returns `HH:MM:SS`.
fn write_partial_time(
    alloc: Global,
    hour: u64,
    minute: u64,
    second: u64,
) -> Result<String, NoMemory>
    ensures { IfOk result (λ t. string_bytes t ≡ two_digits hour ++ codes ":" ++ two_digits minute ++ codes ":" ++ two_digits second) }
{
    Ok(format!(in alloc;
        "{}{}:{}{}:{}{}",
        hour / 10 % 10,
        hour % 10,
        minute / 10 % 10,
        minute % 10,
        second / 10 % 10,
        second % 10
    )?)
}

// Returns `YYYY-MM-DD` of a day, which is counted from the beginning of 1970.
fn write_full_date(alloc: Global, day: i64) -> Result<String, NoMemory>
    requires from { negsuc 719_161 ≤ℤ day }
    requires to { day ≤ℤ pos 2_932_896 }
    ensures { IfOk result (λ t. string_bytes t ≡ two_digits (year_of day / 100) ++ two_digits (year_of day) ++ codes "-" ++ two_digits (month_of day) ++ codes "-" ++ two_digits (day_of day)) }
{
    match Date::from_unix_epoch_day(day) {
        Ok(shown) => write_year_month_day(
            alloc,
            shown.year.unsigned_abs() as u64,
            shown.month as u64,
            shown.day as u64,
        ),
        Err(_) => unreachable!(),
    }
}

// Returns `YYYY-MM-DDTHH:MM:SSZ` of a day, which is counted from the beginning of 1970, and of so
// many seconds of it.
fn write_date_time(alloc: Global, day: i64, seconds: u64) -> Result<Text, NoMemory>
    requires from { negsuc 719_161 ≤ℤ day }
    requires to { day ≤ℤ pos 2_932_896 }
    ensures { IfOk result (λ t. t ≡ date_time_text (date_time_on day seconds)) }
{
    let date = write_full_date(alloc, day)?;
    let time = write_partial_time(alloc, seconds / 3600, seconds / 60 % 60, seconds % 60)?;
    Ok(Text::from_string(format!(in alloc; "{date}T{time}Z")?))
}

/// Returns the text of a date of the years 0001 to 9999, `YYYY-MM-DDTHH:MM:SSZ`.
pub fn utc_text(alloc: Global, date: &UtcDate) -> Result<Text, NoMemory>
    requires { IsUtcDate date.now }
    ensures { IfOk result (λ text. text ≡ utc_text date.now) }
{
    let seconds = date.seconds.rem_euclid(DAY_SECONDS).unsigned_abs();
    write_date_time(alloc, date.seconds.div_euclid(DAY_SECONDS), seconds)
}

// Returns whether a byte is a digit.
fn is_digit(byte: u8) -> bool
    ensures { result ≡ is_digit byte }
{
    byte >= b'0' && byte <= b'9'
}

// Returns whether bytes are a digit wherever the layout has a `0`, and elsewhere what the layout
// has.
fn is_laid_out(layout: &[u8], text: &[u8]) -> bool
    ensures { result ≡ is_laid_out layout.now text.now }
{
    let Some((wanted, layout)) = layout.split_first() else {
        return text.is_empty();
    };
    let Some((byte, text)) = text.split_first() else {
        return false;
    };
    let fits = if *wanted == b'0' {
        is_digit(*byte)
    } else {
        *byte == *wanted
    };
    fits && is_laid_out(layout, text)
}

// Returns whether bytes are `Z`.
fn is_z(text: &[u8]) -> bool
    ensures { result ≡ is_z text.now }
{
    text == "Z".as_bytes()
}

// Returns whether bytes are digits, at least one, and `Z`.
fn ends_in_digits(text: &[u8]) -> bool
    ensures { result ≡ ends_in_digits text.now }
{
    let mut rest = text;
    while let Some((byte, after)) = rest.split_first() {
        if !is_digit(*byte) {
            return false;
        }
        if is_z(after) {
            return true;
        }
        rest = after;
    }
    false
}

// Returns whether bytes are `Z`, perhaps after a point and digits.
fn is_end(text: &[u8]) -> bool
    ensures { result ≡ is_end text.now }
{
    if is_z(text) {
        return true;
    }
    match text.split_first() {
        Some((byte, rest)) => *byte == b'.' && ends_in_digits(rest),
        None => false,
    }
}

// Returns the number of the two digits at a byte offset.
fn read_two_digits(offset: usize, text: &[u8]) -> u64
    requires { offset + 1 < length text.now }
    ensures value { result ≡ two_at offset text.now }
    ensures bound { result ≤ 2277 }
{
    text[offset].saturating_sub(b'0') as u64 * 10 + text[offset + 1].saturating_sub(b'0') as u64
}

// Returns the number of a day since the beginning of 1970, if the calendar has it.
fn find_day(year: u64, month: u64, day: u64) -> Option<i64>
    ensures { MatchOption result (¬ IsDay year month day)
        (λ n. IsDay year month day × (n ≡ days_from_civil (pos year) month day)) }
{
    if year == 0 || year > LAST_YEAR || month > 12 || day > 31 {
        return None;
    }
    match Date::new(year as i16, month as i8, day as i8) {
        Ok(date) => Some(date.to_unix_epoch_day() as i64),
        Err(_) => None,
    }
}

// Returns the seconds of a day that have gone by at a time of it.
fn find_second(hour: u64, minute: u64, second: u64) -> Option<i64>
    ensures bound { IfSome result (λ n. (pos 0 ≤ℤ n) × (n ≤ℤ pos 86_399)) }
    ensures value { MatchOption result (¬ IsTime hour minute second)
        (λ n. IsTime hour minute second × (n ≡ pos (hour * 3600 + minute * 60 + second))) }
{
    if hour > 23 || minute > 59 || second > 59 {
        return None;
    }
    Some((hour * 3600 + minute * 60 + second) as i64)
}

// Returns the seconds since the beginning of 1970 of what a string names, if there is such a day
// and time.
fn find_seconds(text: &[u8]) -> Option<i64>
    requires { 19 ≤ length text.now }
    ensures bound { IfSome result (λ n. (FIRST_TIMESTAMP ≤ℤ n) × (n ≤ℤ pos LAST_TIMESTAMP)) }
    ensures value { MatchOption result (¬ IsDateTime (date_time_in text.now))
        (λ n. IsDateTime (date_time_in text.now)
        × (n ≡ date_time_seconds (date_time_in text.now))) }
{
    let year = read_two_digits(0, text) * 100 + read_two_digits(2, text);
    let Some(day) = find_day(year, read_two_digits(5, text), read_two_digits(8, text)) else {
        return None;
    };
    let Some(second) = find_second(
        read_two_digits(11, text),
        read_two_digits(14, text),
        read_two_digits(17, text),
    ) else {
        return None;
    };
    Some(day * DAY_SECONDS + second)
}

/// Returns the date of a text: `YYYY-MM-DDTHH:MM:SS`, perhaps a fraction of a second, which is
/// dropped, and `Z`, of the years 0001 to 9999. Fails with `NotADate` if the text is any other.
pub fn read_utc(text: &[u8]) -> Result<UtcDate, FormFault>
    ensures range { IfOk result IsUtcDate }
    ensures ok { IfOk result (λ date. IsUtcText text.now date) }
    ensures err { OnErr result ((date : TheDate) → ¬ (IsUtcText text.now date)) }
    ensures fault { IfErr result (λ e. e ≡ FormFault.NotADate) }
{
    if text.len() < LAYOUT.len() {
        return Err(FormFault::NotADate);
    }
    let (front, back) = text.split_at(19);
    if !is_laid_out(LAYOUT.as_bytes(), front) || !is_end(back) {
        return Err(FormFault::NotADate);
    }
    match find_seconds(text) {
        Some(seconds) => Ok(UtcDate { seconds }),
        None => Err(FormFault::NotADate),
    }
}

#[cfg(test)]
mod tests {
    use super::*;
    use std::test::Fail;

    #[derive(Drop)]
    struct Row {
        seconds: i64,
        text: &'static str,
    }

    // computed by Python's `datetime`
    const ROWS: [Row; 7] = [
        Row {
            seconds: -62_135_596_800,
            text: "0001-01-01T00:00:00Z",
        },
        Row {
            seconds: -1,
            text: "1969-12-31T23:59:59Z",
        },
        Row {
            seconds: 0,
            text: "1970-01-01T00:00:00Z",
        },
        Row {
            seconds: 951_827_696,
            text: "2000-02-29T12:34:56Z",
        },
        Row {
            seconds: 1_057_049_557,
            text: "2003-07-01T08:52:37Z",
        },
        Row {
            seconds: 4_107_542_399,
            text: "2100-02-28T23:59:59Z",
        },
        Row {
            seconds: 253_402_300_799,
            text: "9999-12-31T23:59:59Z",
        },
    ];

    #[test]
    fn a_date_has_its_text(rt: HostRuntime) -> Result<(), Fail> {
        for row in ROWS {
            let date = read_utc(row.text.as_bytes())?;
            assert!(rt; date.seconds == row.seconds, "{}", row.text);
            assert!(rt;
                utc_text(rt.alloc(), &date)?.as_str() == row.text,
                "{}",
                row.text
            );
        }
        Ok(())
    }

    #[test]
    fn a_fraction_counts_for_nothing(rt: HostRuntime) -> Result<(), Fail> {
        let date = read_utc("1970-01-01T00:00:09.99950Z".as_bytes())?;
        assert!(rt; date.seconds == 9);
        Ok(())
    }

    #[test]
    fn other_texts_are_no_dates(rt: HostRuntime) -> Result<(), Fail> {
        for text in [
            "",
            "1970-01-01",
            "1970-01-01T00:00:00",
            "1970-01-01T00:00:00z",
            "1970-01-01t00:00:00Z",
            "1970-01-01 00:00:00Z",
            "1970-01-01T00:00:00+00:00",
            "1970-01-01T00:00:00.Z",
            "1970-01-01T00:00:00.5",
            "1970-01-01T00:00:00.5xZ",
            "1970-01-01T00:00:00ZZ",
            "1970-01-01T00:00:60Z",
            "1970-01-01T00:60:00Z",
            "1970-01-01T24:00:00Z",
            "1970-00-01T00:00:00Z",
            "1970-13-01T00:00:00Z",
            "1970-01-00T00:00:00Z",
            "1970-04-31T00:00:00Z",
            "1900-02-29T00:00:00Z",
            "0000-01-01T00:00:00Z",
            "+970-01-01T00:00:00Z",
            "10000-01-01T00:00:00Z",
        ] {
            assert!(rt;
                read_utc(text.as_bytes()) == Err(FormFault::NotADate),
                "{text}"
            );
        }
        Ok(())
    }
}
