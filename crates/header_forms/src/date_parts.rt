// The words of a date-time (RFC 5322, sections 3.3 and 4.3).
ghost use Rattle.std.specs.Prelude.{◌≡◌, ◌<◌, ◌≤◌, ◌∷◌, [], map, length, IfSome, None, Some, true, bytes_eq, if◌then◌else◌};
ghost use Rattle.std.specs.Char.{to_ascii_lowercase, is_ascii_digit, is_ascii_alphabetic};
ghost use Rattle.std.specs.List.{list_all};
ghost use Rattle.std.specs.Str.{str_to_ascii_lowercase};
ghost use Rattle.header_forms.specs.Dates;
ghost use Rattle.header_forms.specs.Dates.{number_in, value_from, name_number, weekdays, months, year_in, time_in, zone_named, zone_in};

use crate::date_time::{TimeOfDay, ZoneOffset};

/// Returns the number of at most four digits; none if a byte is no digit.
fn read_digits(word: &[u8]) -> Option<u16>
    requires { length word.now ≤ 4 }
    ensures value { result ≡ (if list_all is_ascii_digit word.now then Some (value_from 0 word.now)
        else None) }
    ensures bound { IfSome result (λ n. n < 10000) }
    ensures short { IfSome result (λ n. length word.now ≤ 3 → n < 1000) }
    ensures shorter { IfSome result (λ n. length word.now ≤ 2 → n < 100) }
{
    let mut value: u16 = 0;
    for byte in word {
        if !byte.is_ascii_digit() {
            return None;
        }
        value = value * 10 + u16::from(*byte - b'0');
    }
    Some(value)
}

/// Reads a number of `least` to `most` digits.
pub fn read_number(least: usize, most: usize, word: &[u8]) -> Option<u16>
    requires { most ≤ 4 }
    ensures value { result ≡ number_in least most word.now }
    ensures bound { IfSome result (λ n. n < 10000) }
    ensures short { IfSome result (λ n. length word.now ≤ 3 → n < 1000) }
    ensures shorter { IfSome result (λ n. length word.now ≤ 2 → n < 100) }
    ensures within { IfSome result (λ n. length word.now ≤ most) }
{
    if word.len() < least || most < word.len() {
        return None;
    }
    read_digits(word)
}

/// Returns whether a word is a name, in either case. `name` is in lower case.
fn is_name(word: &[u8], name: &[u8]) -> bool
    requires { map to_ascii_lowercase name.now ≡ name.now }
    ensures { result ≡ bytes_eq (str_to_ascii_lowercase word.now) name.now }
{
    word.eq_ignore_ascii_case(name)
}

/// Reads a weekday (day-name): 1 is Monday.
pub fn read_weekday(word: &[u8]) -> Option<u16>
    ensures { result ≡ name_number weekdays 1 word.now }
{
    if is_name(word, b"mon") {
        Some(1)
    } else if is_name(word, b"tue") {
        Some(2)
    } else if is_name(word, b"wed") {
        Some(3)
    } else if is_name(word, b"thu") {
        Some(4)
    } else if is_name(word, b"fri") {
        Some(5)
    } else if is_name(word, b"sat") {
        Some(6)
    } else if is_name(word, b"sun") {
        Some(7)
    } else {
        None
    }
}

/// Reads a month (month-name): 1 is January.
pub fn read_month(word: &[u8]) -> Option<u16>
    ensures value { result ≡ name_number months 1 word.now }
    ensures from { IfSome result (λ n. 1 ≤ n) }
    ensures to { IfSome result (λ n. n ≤ 12) }
{
    if is_name(word, b"jan") {
        Some(1)
    } else if is_name(word, b"feb") {
        Some(2)
    } else if is_name(word, b"mar") {
        Some(3)
    } else if is_name(word, b"apr") {
        Some(4)
    } else if is_name(word, b"may") {
        Some(5)
    } else if is_name(word, b"jun") {
        Some(6)
    } else if is_name(word, b"jul") {
        Some(7)
    } else if is_name(word, b"aug") {
        Some(8)
    } else if is_name(word, b"sep") {
        Some(9)
    } else if is_name(word, b"oct") {
        Some(10)
    } else if is_name(word, b"nov") {
        Some(11)
    } else if is_name(word, b"dec") {
        Some(12)
    } else {
        None
    }
}

/// Returns the year of a number of `size` digits (obs-year; RFC 5322, section 4.3).
fn compute_full_year(size: usize, n: u16) -> u16
    requires most { n < 10000 }
    requires short { size ≤ 3 → n < 1000 }
    requires size { size ≤ 4 }
    ensures value { result ≡ Dates.full_year size n }
    ensures bound { result < 10000 }
{
    if size == 4 {
        n
    } else if size == 2 && n < 50 {
        n + 2000
    } else {
        n + 1900
    }
}

/// Reads a year of two, three or four digits.
pub fn read_year(word: &[u8]) -> Option<u16>
    ensures value { result ≡ year_in word.now }
    ensures bound { IfSome result (λ n. n < 10000) }
{
    let n = read_number(2, 4, word)?;
    Some(compute_full_year(word.len(), n))
}

/// Returns a valid time of day. Second 60, which may be in any minute, is read as second 59.
fn check_time(hour: u16, minute: u16, second: u16) -> Option<TimeOfDay>
    ensures { result ≡ Dates.if_time hour minute second }
{
    if hour < 24 && minute < 60 && second <= 60 {
        Some(TimeOfDay {
            hour,
            minute,
            second: second.min(59),
        })
    } else {
        None
    }
}

/// Reads the time of the words of an hour, a minute and a second.
#[tactic(auto, unfolding(crate::specs::Dates::time_by))]
fn time_by(hour: &[u8], minute: &[u8], second: &[u8]) -> Option<TimeOfDay>
    ensures { result ≡ Dates.time_by hour.now minute.now second.now }
{
    let hour = read_number(2, 2, hour)?;
    let minute = read_number(2, 2, minute)?;
    let second = read_number(2, 2, second)?;
    check_time(hour, minute, second)
}

/// Reads the time of a word `hh:mm` or `hh:mm:ss`.
pub fn read_time(word: &[u8]) -> Option<TimeOfDay>
    ensures { result ≡ time_in word.now }
{
    match word {
        [_, _, colon, _, _] => {
            if *colon == b':' {
                time_by(&word[..2], &word[3..], b"00")
            } else {
                None
            }
        }
        [_, _, first, _, _, second, _, _] => {
            if *first == b':' && *second == b':' {
                time_by(&word[..2], &word[3..5], &word[6..])
            } else {
                None
            }
        }
        _ => None,
    }
}

fn build_hours_offset(behind: bool, n: u16) -> ZoneOffset
    requires { n < 24 }
    ensures { result ≡ Dates.hours behind n }
{
    ZoneOffset {
        behind,
        minutes: n * 60,
    }
}

/// Returns the offset of a zone's name, in either case (obs-zone; RFC 5322, section 4.3). A name
/// that isn't known has that of UTC.
fn find_zone_offset(name: &[u8]) -> ZoneOffset
    ensures { result ≡ zone_named (str_to_ascii_lowercase name.now) }
{
    if is_name(name, b"edt") {
        build_hours_offset(true, 4)
    } else if is_name(name, b"est") || is_name(name, b"cdt") {
        build_hours_offset(true, 5)
    } else if is_name(name, b"cst") || is_name(name, b"mdt") {
        build_hours_offset(true, 6)
    } else if is_name(name, b"mst") || is_name(name, b"pdt") {
        build_hours_offset(true, 7)
    } else if is_name(name, b"pst") {
        build_hours_offset(true, 8)
    } else {
        build_hours_offset(false, 0)
    }
}

/// Returns the offset of a number hhmm, if there is one.
fn build_offset(behind: bool, digits: Option<u16>) -> Option<ZoneOffset>
    requires { IfSome digits (λ n. n < 10000) }
    ensures { result ≡ Dates.offset_by behind digits }
{
    let n = digits?;
    if n % 100 < 60 {
        Some(ZoneOffset {
            behind,
            minutes: (n / 100) * 60 + n % 100,
        })
    } else {
        None
    }
}

fn is_letters(word: &[u8]) -> bool
    ensures { result ≡ list_all is_ascii_alphabetic word.now }
{
    word.iter().all(|byte| byte.is_ascii_alphabetic())
}

/// Reads the offset of a zone: `+hhmm`, `-hhmm`, or a name (obs-zone; RFC 5322, section 4.3).
pub fn read_zone(word: &[u8]) -> Option<ZoneOffset>
    ensures { result ≡ zone_in word.now }
{
    match word {
        [] => None,
        [sign, digits @ ..] => {
            if *sign == b'+' {
                build_offset(false, read_number(4, 4, digits))
            } else if *sign == b'-' {
                build_offset(true, read_number(4, 4, digits))
            } else if is_letters(word) {
                Some(find_zone_offset(word))
            } else {
                None
            }
        }
    }
}
