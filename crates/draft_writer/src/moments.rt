// What a draft has by default: its date and its identifier (RFC 5322, sections 3.6.1 and 3.6.4).
ghost use Rattle.std.specs.Prelude.{◌≡◌, ◌≤◌, ◌++◌, ◌∷◌, [], pos, IfOk};
ghost use Rattle.jm_base.specs.UtcDates.{IsUtcDate, utc_text};
ghost use Rattle.draft_form.specs.Dates.{date_time_at};
ghost use Rattle.draft_writer.specs.Fields;

use draft_form::read_date_time;
use jm_base::{
    LAST_TIMESTAMP, NoMemory, Text, Texts, UtcDate, show_that_dates_read_back, utc_text,
};
use mime_writer::DateTime;
use std::alloc::Global;

// Returns the date-time in UTC of a date of the years 0001 to 9999.
fn read_utc_date(alloc: Global, date: &UtcDate) -> Result<DateTime, NoMemory>
    requires { IsUtcDate date.now }
    ensures date { IfOk result (λ d. d ≡ date_time_at (utc_text date.now)) }
    ensures month { IfOk result (λ d. (1 ≤ d.month) × (d.month ≤ 12)) }
{
    show_that_dates_read_back();
    let text = utc_text(alloc, date)?;
    Ok(read_date_time(text.as_bytes()))
}

/// Returns the date-time in UTC of a timestamp in Unix seconds; after the year 9999 its last
/// second.
pub fn read_moment(alloc: Global, moment: u64) -> Result<DateTime, NoMemory>
    ensures date { IfOk result (λ d. d ≡ Fields.moment_date moment) }
    ensures month { IfOk result (λ d. (1 ≤ d.month) × (d.month ≤ 12)) }
{
    let date = UtcDate {
        seconds: moment.min(LAST_TIMESTAMP) as i64,
    };
    read_utc_date(alloc, &date)
}

/// Returns the identifier of the email of this number that is made at this timestamp.
pub fn write_own_id(alloc: Global, number: u64, moment: u64) -> Result<Text, NoMemory>
    ensures { IfOk result (λ t. t ≡ Fields.own_id number moment) }
{
    Ok(Text::from_string(format!(in alloc; "e{number}.{moment}@jmap.invalid")?))
}

/// Returns the email's own identifier, as the one identifier of a list.
pub fn build_own_ids(alloc: Global, number: u64, moment: u64) -> Result<Texts, NoMemory>
    ensures { IfOk result (λ ids. ids ≡ Fields.own_id number moment ∷ []) }
{
    let mut ids = Texts::new(alloc);
    ids.push(write_own_id(alloc, number, moment)?)?;
    Ok(ids)
}
