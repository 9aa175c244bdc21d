// The date-times that sentAt may be: as the Date form shows them (RFC 8621, section 4.1.2.6).
ghost use Rattle.std.specs.Prelude.{◌≡◌, ◌≤◌, ◌<◌, ◌+◌, ◌-◌, ◌*◌, ◌/◌, ◌++◌, ◌∷◌, [], OnOk, IfOk, slice_index, nat_le, ◌&&◌, ◌==◌, pos};
ghost use Rattle.jiff.specs.Words.{days_in_month};
ghost use Rattle.jm_base.specs.UtcDates.{two_at};
ghost use Rattle.header_forms.specs.Dates.{date_time_text, offset_text, two_digits};
ghost use Rattle.mime_writer.specs.DateTimes.{zoned};
ghost use Rattle.draft_form.specs.Dates;

use jiff::civil::Date;
use jm_base::NoMemory;
use mime_writer::DateTime;
use std::alloc::Global;

/// The first year of a date that a draft may have (RFC 5322, section 3.3: a year is from 1900 on).
pub const FIRST_YEAR: u32 = 1900;

/// No zone's clock is so many minutes ahead of UTC or behind it: the offset has two digits for the
/// hours.
pub const OFFSET_LIMIT_MINUTES: u32 = 6000;

// Returns the number of the digit at a byte offset, if one is there.
fn find_digit(text: &[u8], offset: usize) -> u32
    ensures value { result ≡ slice_index text.now offset - 48 }
    ensures small { result < 256 }
{
    match text.get(offset) {
        Some(byte) => byte.saturating_sub(48) as u32,
        None => 0,
    }
}

// Returns the number of the two digits at a byte offset.
fn find_two(text: &[u8], offset: usize) -> u32
    requires { offset < 1000 }
    ensures value { result ≡ two_at offset text.now }
    ensures small { result < 3000 }
{
    find_digit(text, offset) * 10 + find_digit(text, offset + 1)
}

fn is_behind(text: &[u8]) -> bool
    ensures { result ≡ (slice_index text.now 19 == 45) }
{
    match text.get(19) {
        Some(byte) => *byte == b'-',
        None => false,
    }
}

/// Returns what the digits of a date-time name.
pub fn read_date_time(text: &[u8]) -> DateTime
    ensures { result ≡ Dates.date_time_at text.now }
{
    DateTime {
        year: find_two(text, 0) * 100 + find_two(text, 2),
        month: find_two(text, 5),
        day: find_two(text, 8),
        hour: find_two(text, 11),
        minute: find_two(text, 14),
        second: find_two(text, 17),
        behind: is_behind(text),
        offset: find_two(text, 20) * 60 + find_two(text, 23),
    }
}

// Returns whether the month of the year has the day.
fn has_day(year: u32, month: u32, day: u32) -> bool
    requires year { year ≤ 9999 }
    requires from_month { 1 ≤ month }
    requires to_month { month ≤ 12 }
    requires day { day < 100 }
    ensures { result ≡ (nat_le 1 day && nat_le day (days_in_month (pos year) month)) }
{
    Date::new(year as i16, month as i8, day as i8).is_ok()
}

fn is_day(date: &DateTime) -> bool
    ensures { result ≡ Dates.is_day date.now }
{
    if date.year < FIRST_YEAR || 9999 < date.year {
        return false;
    }
    if date.month < 1 || 12 < date.month || 31 < date.day {
        return false;
    }
    has_day(date.year, date.month, date.day)
}

fn is_time(date: &DateTime) -> bool
    ensures { result ≡ Dates.is_time date.now }
{
    date.hour < 24 && date.minute < 60 && date.second < 60 && date.offset < OFFSET_LIMIT_MINUTES
}

// Adds the last two digits of a number.
fn push_two(out: &mut Vec<u8>, number: u32) -> Result<(), NoMemory>
    ensures { OnOk result (out.new.items ≡ out.old.items ++ two_digits number) }
{
    out.push(b'0' + (number / 10 % 10) as u8)?;
    out.push(b'0' + (number % 10) as u8)?;
    Ok(())
}

// Adds a sign and the last two digits of a number.
fn push_signed(out: &mut Vec<u8>, sign: u8, number: u32) -> Result<(), NoMemory>
    ensures { OnOk result (out.new.items ≡ out.old.items ++ sign ∷ two_digits number) }
{
    out.push(sign)?;
    push_two(out, number)
}

// Adds YYYY-MM-DD.
fn push_day(out: &mut Vec<u8>, date: &DateTime) -> Result<(), NoMemory>
    ensures { OnOk result (out.new.items ≡ out.old.items
        ++ two_digits (date.now.year / 100) ++ two_digits date.now.year ++ 45
        ∷ two_digits date.now.month ++ 45 ∷ two_digits date.now.day) }
{
    push_two(out, date.year / 100)?;
    push_two(out, date.year)?;
    push_signed(out, b'-', date.month)?;
    push_signed(out, b'-', date.day)
}

// Adds THH:MM:SS.
fn push_time(out: &mut Vec<u8>, date: &DateTime) -> Result<(), NoMemory>
    ensures { OnOk result (out.new.items ≡ out.old.items ++ 84
        ∷ two_digits date.now.hour ++ 58 ∷ two_digits date.now.minute ++ 58
        ∷ two_digits date.now.second) }
{
    push_signed(out, b'T', date.hour)?;
    push_signed(out, b':', date.minute)?;
    push_signed(out, b':', date.second)
}

// Adds Z, or the sign, the hours and the minutes.
fn push_offset(out: &mut Vec<u8>, date: &DateTime) -> Result<(), NoMemory>
    ensures { OnOk result (out.new.items ≡ out.old.items ++ offset_text (zoned date.now).offset) }
{
    if date.offset == 0 {
        out.push(b'Z')?;
        return Ok(());
    }
    push_signed(out, if date.behind { b'-' } else { b'+' }, date.offset / 60)?;
    push_signed(out, b':', date.offset % 60)
}

// Returns the Date form of a date-time.
fn write_date_time(alloc: Global, date: &DateTime) -> Result<Vec<u8>, NoMemory>
    ensures { IfOk result (λ t. t.items ≡ date_time_text (zoned date.now)) }
{
    let mut out = Vec::with_capacity(alloc, 25)?;
    push_day(&mut out, date)?;
    push_time(&mut out, date)?;
    push_offset(&mut out, date)?;
    Ok(out)
}

/// Returns whether a text is the Date form of a date-time of the years 1900 to 9999.
pub fn is_sent_at(alloc: Global, text: &[u8]) -> Result<bool, NoMemory>
    ensures { IfOk result (λ b. b ≡ Dates.is_sent_at text.now) }
{
    let date = read_date_time(text);
    if !is_day(&date) || !is_time(&date) {
        return Ok(false);
    }
    let written = write_date_time(alloc, &date)?;
    Ok(written.as_slice() == text)
}
