// Writes the plain fields of records at the end of bytes.
ghost use Rattle.std.specs.Prelude.{◌≡◌, ◌++◌, OnOk};
ghost use Rattle.std.specs.Option.{ForSome};
ghost use Rattle.jm_base.specs.UtcDates.{IsUtcDate};
ghost use Rattle.record_codec.specs.Encoding.{number, blob, listed, truth, optional, date};

use jm_base::{Bytes, FIRST_TIMESTAMP, LAST_TIMESTAMP, NoMemory, Text, UtcDate};

/// The seconds from the beginning of the year 1 to that of 1970.
pub const SECONDS_BEFORE_1970: u64 = (-FIRST_TIMESTAMP) as u64;

/// The last second of the year 9999, counted from the beginning of the year 1.
pub const LAST_SECOND: u64 = LAST_TIMESTAMP + SECONDS_BEFORE_1970;

#[tactic(auto, unfolding(crate::specs::Encoding::number))]
/// Writes a number at the end of the bytes: 8 of them, the big end first.
pub fn write_number(out: &mut Vec<u8>, value: u64) -> Result<(), NoMemory>
    ensures { OnOk result (out.new.items ≡ out.old.items ++ number value) }
{
    out.extend_from_slice(&value.to_be_bytes())?;
    Ok(())
}

/// Writes a text or a blob at the end of the bytes: its length, and its bytes.
pub fn write_blob(out: &mut Vec<u8>, bytes: &[u8]) -> Result<(), NoMemory>
    ensures { OnOk result (out.new.items ≡ out.old.items ++ blob bytes.now) }
{
    write_number(out, bytes.len() as u64)?;
    out.extend_from_slice(bytes)?;
    Ok(())
}

/// Writes a truth value at the end of the bytes: the byte 0 or 1.
pub fn write_truth(out: &mut Vec<u8>, value: bool) -> Result<(), NoMemory>
    ensures { OnOk result (out.new.items ≡ out.old.items ++ truth value) }
{
    if value {
        out.push(1)?;
    } else {
        out.push(0)?;
    }
    Ok(())
}

/// Writes a date at the end of the bytes: its seconds from the beginning of the year 1, as a
/// number.
pub fn write_date(out: &mut Vec<u8>, value: &UtcDate) -> Result<(), NoMemory>
    requires { IsUtcDate value.now }
    ensures { OnOk result (out.new.items ≡ out.old.items ++ date value.now) }
{
    let seconds = value.seconds + SECONDS_BEFORE_1970 as i64;
    write_number(out, seconds as u64)
}

/// Writes a number or none at the end of the bytes: the byte 0, or 1 and the number.
pub fn write_optional_number(out: &mut Vec<u8>, value: Option<u64>) -> Result<(), NoMemory>
    ensures { OnOk result (out.new.items ≡ out.old.items ++ optional number value) }
{
    match value {
        None => {
            out.push(0)?;
            Ok(())
        }
        Some(value) => {
            out.push(1)?;
            write_number(out, value)
        }
    }
}

/// Writes a text or none at the end of the bytes: the byte 0, or 1 and the text.
pub fn write_optional_text(out: &mut Vec<u8>, value: &Option<Text>) -> Result<(), NoMemory>
    ensures { OnOk result (out.new.items ≡ out.old.items ++ optional blob value.now) }
{
    match value {
        None => {
            out.push(0)?;
            Ok(())
        }
        Some(text) => {
            out.push(1)?;
            write_blob(out, text.as_bytes())
        }
    }
}

/// Writes a date or none at the end of the bytes: the byte 0, or 1 and the date.
pub fn write_optional_date(out: &mut Vec<u8>, value: &Option<UtcDate>) -> Result<(), NoMemory>
    requires { ForSome value.now IsUtcDate }
    ensures { OnOk result (out.new.items ≡ out.old.items ++ optional date value.now) }
{
    match value {
        None => {
            out.push(0)?;
            Ok(())
        }
        Some(date) => {
            out.push(1)?;
            write_date(out, date)
        }
    }
}

/// Writes a list of numbers at the end of the bytes: its count, and each number.
pub fn write_numbers(out: &mut Vec<u8>, numbers: &[u64]) -> Result<(), NoMemory>
    ensures { OnOk result (out.new.items ≡ out.old.items ++ listed number numbers.now) }
{
    write_number(out, numbers.len() as u64)?;
    for value in numbers {
        write_number(out, *value)?;
    }
    Ok(())
}

/// Writes a list of texts at the end of the bytes: its count, and each text.
pub fn write_texts(out: &mut Vec<u8>, texts: &[Text]) -> Result<(), NoMemory>
    ensures { OnOk result (out.new.items ≡ out.old.items ++ listed blob texts.now) }
{
    write_number(out, texts.len() as u64)?;
    for text in texts {
        write_blob(out, text.as_bytes())?;
    }
    Ok(())
}

/// Writes a list of blobs at the end of the bytes: its count, and each blob.
pub fn write_blobs(out: &mut Vec<u8>, blobs: &[Bytes]) -> Result<(), NoMemory>
    ensures { OnOk result (out.new.items ≡ out.old.items ++ listed blob blobs.now) }
{
    write_number(out, blobs.len() as u64)?;
    for bytes in blobs {
        write_blob(out, bytes.as_slice())?;
    }
    Ok(())
}
