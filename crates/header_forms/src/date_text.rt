// The text of a date-time (RFC 3339, section 5.6).
ghost use Rattle.std.specs.Prelude.{◌≡◌, ◌+◌, ◌/◌, ◌%◌, ◌<◌, ◌∷◌, [], ◌++◌, IfOk, OnOk, string_bytes, if◌then◌else◌};
ghost use Rattle.header_forms.specs.Dates;
ghost use Rattle.header_forms.specs.Dates.{two_digits, offset_text};

use crate::date_time::{TimeOfDay, ZoneOffset, ZonedDateTime};
use jm_base::{NoMemory, Text};
use std::alloc::Global;

/// Returns the last digit of a number.
fn find_last_digit(n: u16) -> char
    ensures value { result ≡ 48 + n % 10 }
    ensures ascii { result < 128 }
{
    (b'0' + (n % 10) as u8) as char
}

/// Adds the last two digits of a number.
fn push_two(text: &mut String, n: u16) -> Result<(), NoMemory>
    ensures { OnOk result (string_bytes text.new ≡ string_bytes text.old ++ two_digits n) }
{
    text.push(find_last_digit(n / 10))?;
    text.push(find_last_digit(n))?;
    Ok(())
}

/// Adds a sign and the last two digits of a number.
fn push_signed(text: &mut String, sign: char, n: u16) -> Result<(), NoMemory>
    requires { sign < 128 }
    ensures { OnOk result (string_bytes text.new ≡ string_bytes text.old ++ sign ∷ two_digits n) }
{
    text.push(sign)?;
    push_two(text, n)
}

/// Adds YYYY-MM-DD.
fn push_day(text: &mut String, date_time: &ZonedDateTime) -> Result<(), NoMemory>
    ensures { OnOk result (string_bytes text.new ≡ string_bytes text.old
        ++ two_digits (date_time.now.year / 100) ++ two_digits date_time.now.year ++ 45
        ∷ two_digits date_time.now.month ++ 45 ∷ two_digits date_time.now.day) }
{
    push_two(text, date_time.year / 100)?;
    push_two(text, date_time.year)?;
    push_signed(text, '-', date_time.month)?;
    push_signed(text, '-', date_time.day)
}

/// Adds THH:MM:SS.
fn push_time(text: &mut String, time: TimeOfDay) -> Result<(), NoMemory>
    ensures { OnOk result (string_bytes text.new ≡ string_bytes text.old ++ 84
        ∷ two_digits time.hour ++ 58 ∷ two_digits time.minute ++ 58 ∷ two_digits time.second) }
{
    push_signed(text, 'T', time.hour)?;
    push_signed(text, ':', time.minute)?;
    push_signed(text, ':', time.second)
}

fn choose_offset_sign(offset: ZoneOffset) -> char
    ensures value { result ≡ (if offset.behind then 45 else 43) }
    ensures ascii { result < 128 }
{
    if offset.behind { '-' } else { '+' }
}

/// Adds Z, or the sign, the hours and the minutes.
fn push_offset(text: &mut String, offset: ZoneOffset) -> Result<(), NoMemory>
    ensures { OnOk result (string_bytes text.new ≡ string_bytes text.old ++ offset_text offset) }
{
    if offset.minutes == 0 {
        text.push('Z')?;
        return Ok(());
    }
    push_signed(text, choose_offset_sign(offset), offset.minutes / 60)?;
    push_signed(text, ':', offset.minutes % 60)
}

/// Returns YYYY-MM-DDTHH:MM:SS and the offset.
pub fn write_date_time(alloc: Global, date_time: &ZonedDateTime) -> Result<Text, NoMemory>
    ensures { IfOk result (λ t. t ≡ Dates.date_time_text date_time.now) }
{
    let mut text = String::with_capacity(alloc, 25)?;
    push_day(&mut text, date_time)?;
    push_time(&mut text, date_time.time)?;
    push_offset(&mut text, date_time.offset)?;
    Ok(Text::from_string(text))
}
