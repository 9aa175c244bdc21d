// Values of date fields (RFC 5322, section 3.3).
ghost use Rattle.std.specs.Prelude.{◌≡◌, ◌≤◌, ◌<◌, ◌++◌, ◌∷◌, ◌-◌, ◌/◌, ◌%◌, [], slice_index_or, OnOk};
ghost use Rattle.header_forms.specs.Dates.{two_digits};
ghost use Rattle.header_forms.specs.WrittenForms.{date_value, month_names, zone_text};
ghost use Rattle.mime_writer.specs.DateTimes.{zoned};

use jm_base::NoMemory;

/// The names of the months, of three letters each.
const MONTHS: &str = "JanFebMarAprMayJunJulAugSepOctNovDec";

/// A day and a time of day, as the clock of a zone shows them.
#[derive(Clone, Copy)]
pub struct DateTime {
    pub year: u32,
    /// The month, from 1 to 12.
    pub month: u32,
    pub day: u32,
    pub hour: u32,
    pub minute: u32,
    pub second: u32,
    /// Whether the zone's clock is behind UTC.
    pub behind: bool,
    /// How many minutes the zone's clock is ahead of UTC, or behind UTC.
    pub offset: u32,
}

/// Adds the last two digits of a number.
fn push_two_digits(out: &mut Vec<u8>, number: u32) -> Result<(), NoMemory>
    ensures { OnOk result (out.new.items ≡ out.old.items ++ two_digits number) }
{
    out.push(b'0' + (number / 10 % 10) as u8)?;
    out.push(b'0' + (number % 10) as u8)?;
    Ok(())
}

/// Returns the name of a month.
fn find_month_name(month: u32) -> &'static [u8]
    requires { (1 ≤ month) × (month ≤ 12) }
    ensures { result.now ≡ slice_index_or month_names (month - 1) [] }
{
    let end = month as usize * 3;
    &MONTHS.as_bytes()[end - 3..end]
}

/// Adds hh:mm:ss.
fn push_time(out: &mut Vec<u8>, date: &DateTime) -> Result<(), NoMemory>
    ensures { OnOk result (out.new.items ≡ out.old.items ++ (two_digits date.now.hour ++ 58
        ∷ (two_digits date.now.minute ++ 58 ∷ two_digits date.now.second))) }
{
    push_two_digits(out, date.hour)?;
    out.push(b':')?;
    push_two_digits(out, date.minute)?;
    out.push(b':')?;
    push_two_digits(out, date.second)
}

/// Adds the sign, the hours and the minutes of a zone's offset.
fn push_zone(out: &mut Vec<u8>, behind: bool, minutes: u32) -> Result<(), NoMemory>
    ensures { OnOk result (out.new.items ≡ out.old.items ++ zone_text behind minutes) }
{
    out.push(if behind { b'-' } else { b'+' })?;
    push_two_digits(out, minutes / 60)?;
    push_two_digits(out, minutes % 60)
}

/// Adds a space, the day, a space and the name of the month.
fn push_day(out: &mut Vec<u8>, day: u32, month: u32) -> Result<(), NoMemory>
    requires { (1 ≤ month) × (month ≤ 12) }
    ensures { OnOk result (out.new.items ≡ out.old.items
        ++ (32 ∷ (two_digits day ++ 32 ∷ slice_index_or month_names (month - 1) []))) }
{
    out.push(b' ')?;
    push_two_digits(out, day)?;
    out.push(b' ')?;
    out.extend_from_slice(find_month_name(month))?;
    Ok(())
}

/// Adds the four digits of a year.
fn push_year(out: &mut Vec<u8>, year: u32) -> Result<(), NoMemory>
    ensures { OnOk result (out.new.items ≡ out.old.items
        ++ (two_digits (year / 100) ++ two_digits year)) }
{
    push_two_digits(out, year / 100)?;
    push_two_digits(out, year)
}

/// Adds the value of a date-time: `DD Mon YYYY hh:mm:ss +hhmm`. Fails only if memory runs out.
pub fn push_date_value(out: &mut Vec<u8>, date: &DateTime) -> Result<(), NoMemory>
    requires { (1 ≤ date.now.month) × (date.now.month ≤ 12) }
    ensures { OnOk result (out.new.items ≡ out.old.items ++ date_value (zoned date.now)) }
{
    push_day(out, date.day, date.month)?;
    out.push(b' ')?;
    push_year(out, date.year)?;
    out.push(b' ')?;
    push_time(out, date)?;
    out.push(b' ')?;
    push_zone(out, date.behind, date.offset)
}
