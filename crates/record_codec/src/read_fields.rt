// Reads numbers, truth values and other fields of a known width from the start of bytes.
ghost use Rattle.std.specs.Prelude.{◌≡◌, false, ◌≤◌};
ghost use Rattle.std.specs.Int.{to_be_bytes};
ghost use Rattle.record_codec.specs.NextBytes.{left_in_word};
ghost use Rattle.record_codec.specs.Reading.{Gives};
ghost use Rattle.record_codec.specs.Readers.{number_at, number_between, truth_at, date_at, optional_at, tag_at};

use crate::faults::Misread;
use crate::write_fields::{LAST_SECOND, SECONDS_BEFORE_1970};
use jm_base::UtcDate;

/// Reads a number from the start of the bytes; returns it and the bytes after it.
pub fn read_number(bytes: &[u8]) -> Result<(u64, &[u8]), Misread>
    ensures { Gives (λ x. (x.0, x.1.now)) result (number_at bytes.now) }
{
    if bytes.len() < 8 {
        return Err(Misread::Stuck(0));
    }
    let (front, rest) = bytes.split_at(8);
    let number = u64::from_be_bytes([
        front[0], front[1], front[2], front[3], front[4], front[5], front[6], front[7],
    ]);
    Ok((number, rest))
}

fn count_left_in_word(above: bool, below: bool, lows: &[u8], highs: &[u8], bytes: &[u8]) -> usize
    ensures { result ≡ left_in_word above below lows.now highs.now bytes.now }
{
    let [low, lows @ ..] = lows else {
        return bytes.len();
    };
    let [high, highs @ ..] = highs else {
        return bytes.len();
    };
    let [byte, rest @ ..] = bytes else {
        return 0;
    };
    if (!above && *byte < *low) || (!below && *high < *byte) {
        return bytes.len();
    }
    count_left_in_word(
        above || *low < *byte,
        below || *byte < *high,
        lows,
        highs,
        rest,
    )
}

/// Reads a number from `low` to `high` from the start of the bytes; returns it and the bytes after
/// it.
pub fn read_number_between(low: u64, high: u64, bytes: &[u8]) -> Result<(u64, &[u8]), Misread>
    ensures { Gives (λ x. (x.0, x.1.now)) result (number_between low high bytes.now) }
{
    if bytes.len() >= 8 {
        let (front, rest) = bytes.split_at(8);
        let number = u64::from_be_bytes([
            front[0], front[1], front[2], front[3], front[4], front[5], front[6], front[7],
        ]);
        if low <= number && number <= high {
            return Ok((number, rest));
        }
    }
    let lows = low.to_be_bytes();
    let highs = high.to_be_bytes();
    Err(Misread::Stuck(count_left_in_word(false, false, &lows, &highs, bytes)))
}

/// Reads a truth value from the start of the bytes; returns it and the bytes after it.
pub fn read_truth(bytes: &[u8]) -> Result<(bool, &[u8]), Misread>
    ensures { Gives (λ x. (x.0, x.1.now)) result (truth_at bytes.now) }
{
    match bytes {
        [] => Err(Misread::Stuck(0)),
        [0, rest @ ..] => Ok((false, rest)),
        [1, rest @ ..] => Ok((true, rest)),
        [_, ..] => Err(Misread::Stuck(bytes.len())),
    }
}

/// Reads a date from the start of the bytes; returns it and the bytes after it.
pub fn read_date(bytes: &[u8]) -> Result<(UtcDate, &[u8]), Misread>
    ensures { Gives (λ x. (x.0, x.1.now)) result (date_at bytes.now) }
{
    let (number, rest) = read_number_between(0, LAST_SECOND, bytes)?;
    let seconds = number as i64 - SECONDS_BEFORE_1970 as i64;
    Ok((UtcDate { seconds }, rest))
}

/// Reads a number or none from the start of the bytes; returns it and the bytes after it.
pub fn read_optional_number(bytes: &[u8]) -> Result<(Option<u64>, &[u8]), Misread>
    ensures { Gives (λ x. (x.0, x.1.now)) result (optional_at number_at bytes.now) }
{
    match bytes {
        [] => Err(Misread::Stuck(0)),
        [0, rest @ ..] => Ok((None, rest)),
        [1, rest @ ..] => {
            let (number, rest) = read_number(rest)?;
            Ok((Some(number), rest))
        }
        [_, ..] => Err(Misread::Stuck(bytes.len())),
    }
}

/// Reads a date or none from the start of the bytes; returns it and the bytes after it.
pub fn read_optional_date(bytes: &[u8]) -> Result<(Option<UtcDate>, &[u8]), Misread>
    ensures { Gives (λ x. (x.0, x.1.now)) result (optional_at date_at bytes.now) }
{
    match bytes {
        [] => Err(Misread::Stuck(0)),
        [0, rest @ ..] => Ok((None, rest)),
        [1, rest @ ..] => {
            let (date, rest) = read_date(rest)?;
            Ok((Some(date), rest))
        }
        [_, ..] => Err(Misread::Stuck(bytes.len())),
    }
}

/// Reads a byte from 1 to `last` from the start of the bytes; returns it and the bytes after it.
pub fn read_tag(last: u8, bytes: &[u8]) -> Result<(u8, &[u8]), Misread>
    ensures { Gives (λ x. (x.0, x.1.now)) result (tag_at last bytes.now) }
{
    let [tag, rest @ ..] = bytes else {
        return Err(Misread::Stuck(0));
    };
    if *tag == 0 || last < *tag {
        return Err(Misread::Stuck(bytes.len()));
    }
    Ok((*tag, rest))
}
