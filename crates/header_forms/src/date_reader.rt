// A date-time, read word by word (RFC 5322, section 3.3).
ghost use Rattle.std.specs.Prelude.{◌≡◌, ◌<◌, ◌≤◌, ◌∷◌, IfSome, pos, ◌&&◌, nat_le};
ghost use Rattle.jiff.specs.Words.{days_in_month};
ghost use Rattle.jm_base.specs.declared.utc_dates.TheConstants.{LAST_YEAR};
ghost use Rattle.header_forms.specs.Dates;
ghost use Rattle.header_forms.specs.Dates.{IsReal, date_time_of_words, date_time_in};
ghost use Rattle.header_forms.specs.DateWords.{date_time_from};

use crate::date_parts::{read_month, read_number, read_time, read_weekday, read_year, read_zone};
use crate::date_time::ZonedDateTime;
use crate::date_words::{is_done, read_word};
use jiff::civil::Date;

/// Returns whether the month of the year has the day.
fn has_day(year: u16, month: u16, day: u16) -> bool
    requires year { year ≤ LAST_YEAR }
    requires from_month { 1 ≤ month }
    requires to_month { month ≤ 12 }
    requires day { day < 100 }
    ensures { result ≡ (nat_le 1 day && nat_le day (days_in_month (pos year) month)) }
{
    Date::new(year as i16, month as i8, day as i8).is_ok()
}

/// Returns the date-time, if the calendar has its day.
fn check_day(date_time: ZonedDateTime) -> Option<ZonedDateTime>
    requires year { date_time.year ≤ LAST_YEAR }
    requires from_month { 1 ≤ date_time.month }
    requires to_month { date_time.month ≤ 12 }
    requires day { date_time.day < 100 }
    ensures value { result ≡ Dates.if_day date_time }
    ensures real { IfSome result IsReal }
{
    if has_day(date_time.year, date_time.month, date_time.day) {
        Some(date_time)
    } else {
        None
    }
}

/// Reads the date-time of five words.
#[tactic(auto, unfolding(crate::specs::Dates::date_time_by))]
fn read_date_time_words(
    day_word: &[u8],
    month_word: &[u8],
    year_word: &[u8],
    time_word: &[u8],
    zone_word: &[u8],
) -> Option<ZonedDateTime>
    ensures value { result ≡ Dates.date_time_by day_word.now month_word.now year_word.now
        time_word.now zone_word.now }
    ensures real { IfSome result IsReal }
{
    let day = read_number(1, 2, day_word)?;
    let month = read_month(month_word)?;
    let year = read_year(year_word)?;
    let time = read_time(time_word)?;
    let offset = read_zone(zone_word)?;
    check_day(ZonedDateTime {
        year,
        month,
        day,
        time,
        offset,
    })
}

/// Reads the date-time of these two words and the words of the text.
fn read_after_month(day_word: &[u8], month_word: &[u8], text: &[u8]) -> Option<ZonedDateTime>
    ensures value { result ≡ date_time_from (λ later.
        date_time_of_words (day_word.now ∷ month_word.now ∷ later)) text.now }
    ensures real { IfSome result IsReal }
{
    let year = read_word(text)?;
    let time = read_word(year.rest)?;
    let zone = read_word(time.rest)?;
    if !is_done(zone.rest) {
        return None;
    }
    read_date_time_words(day_word, month_word, year.word, time.word, zone.word)
}

/// Reads the date-time of the words of the text, which have no weekday.
fn read_after_comma(text: &[u8]) -> Option<ZonedDateTime>
    ensures value { result ≡ date_time_from date_time_of_words text.now }
    ensures real { IfSome result IsReal }
{
    let day = read_word(text)?;
    let month = read_word(day.rest)?;
    read_after_month(day.word, month.word, month.rest)
}

fn is_comma(word: &[u8]) -> bool
    ensures { result ≡ Dates.is_comma word.now }
{
    word == b",".as_slice()
}

/// Reads the date-time of a value on one line; none if it isn't valid.
pub fn read_date_time(text: &[u8]) -> Option<ZonedDateTime>
    ensures value { result ≡ date_time_in text.now }
    ensures real { IfSome result IsReal }
{
    let first = read_word(text)?;
    let second = read_word(first.rest)?;
    if !is_comma(second.word) {
        return read_after_month(first.word, second.word, second.rest);
    }
    let _day = read_weekday(first.word)?;
    read_after_comma(second.rest)
}
