// When a message was received.
ghost use Rattle.std.specs.Prelude.{◌≡◌, All, Some, None, IfOk, find, option_map, if◌then◌else◌};
ghost use Rattle.jm_base.specs.UtcDates.{IsUtcDate};
ghost use Rattle.std.specs.Option.{ForSome};
ghost use Rattle.mime_lines.specs.FieldOffsets.{IsWithin, is_named, value_in};
ghost use Rattle.mime_lines.specs.Fields.{fields_of};
ghost use Rattle.mail_summary.specs.Received;
ghost use Rattle.mail_summary.specs.Received.{timestamp_after, received};
ghost use Rattle.mail_summary.specs.Views.{bytes_in};

use header_forms::{find_timestamp, unfold_value};
use jm_base::{NoMemory, UtcDate};
use mail_text::{State, advance_state};
use mime_lines::{Field, FieldSpans, fields};
use std::alloc::Global;

/// Returns the value of the first field that has this name.
fn find_first_value<'a>(bytes: &'a [u8], fields: &[Field], name: &[u8]) -> Option<&'a [u8]>
    requires { All (IsWithin bytes.now) fields.now }
    ensures { option_map bytes_in result ≡ option_map (value_in bytes.now)
        (find (is_named bytes.now name.now) fields.now) }
{
    for field in fields {
        if field.is_named(bytes, name) {
            return Some(field.value(bytes));
        }
    }
    None
}

fn is_mark(state: State, byte: u8) -> bool
    ensures { result ≡ Received.is_mark state byte }
{
    match state {
        State::Outside => byte == b';',
        State::Inside(_) | State::Escaped(_) => false,
    }
}

/// Returns what follows the last semicolon up to here.
fn choose_latest<'a>(
    last: Option<&'a [u8]>,
    state: State,
    byte: u8,
    after: &'a [u8],
) -> Option<&'a [u8]>
    ensures { option_map bytes_in result ≡ (if Received.is_mark state byte then Some after.now
        else option_map bytes_in last.entry) }
{
    if is_mark(state, byte) {
        Some(after)
    } else {
        last
    }
}

/// Returns what follows the last semicolon outside comments.
fn find_after_last_semicolon(text: &[u8]) -> Option<&[u8]>
    ensures { option_map bytes_in result ≡ Received.after_last State.Outside text.now }
{
    let mut state = State::Outside;
    let mut last = None;
    let mut rest = text;
    while let Some((byte, after)) = rest.split_first() {
        last = choose_latest(last, state, *byte, after);
        state = advance_state(state, *byte as u32);
        rest = after;
    }
    last
}

/// Reads the timestamp after the last semicolon outside comments.
fn read_timestamp(alloc: Global, value: &[u8]) -> Result<Option<UtcDate>, NoMemory>
    ensures value { IfOk result (λ d. d ≡ timestamp_after value.now) }
    ensures kept { IfOk result (λ d. ForSome d IsUtcDate) }
{
    let line = unfold_value(alloc, value)?;
    match find_after_last_semicolon(line.as_bytes()) {
        Some(text) => Ok(find_timestamp(text)),
        None => Ok(None),
    }
}

/// Reads the timestamp at which a message whose header has these fields was received.
pub(crate) fn read_received(
    alloc: Global,
    bytes: &[u8],
    fields: &FieldSpans,
) -> Result<Option<UtcDate>, NoMemory>
    requires within { All (IsWithin bytes.now) fields.now }
    requires fields { fields.now ≡ fields_of bytes.now }
    ensures value { IfOk result (λ d. d ≡ received bytes.now) }
    ensures kept { IfOk result (λ d. ForSome d IsUtcDate) }
{
    match find_first_value(bytes, fields.as_slice(), b"Received") {
        Some(value) => read_timestamp(alloc, value),
        None => Ok(None),
    }
}

/// Reads the timestamp at which a message was received: that of the date after the last semicolon
/// outside comments in its first Received field (RFC 5322, section 3.6.7). None if the field, the
/// semicolon or a valid date isn't there, or the timestamp isn't in the years 0001 to 9999.
pub fn received_of(alloc: Global, bytes: &[u8]) -> Result<Option<UtcDate>, NoMemory>
    ensures value { IfOk result (λ d. d ≡ received bytes.now) }
    ensures kept { IfOk result (λ d. ForSome d IsUtcDate) }
{
    let head = fields(alloc, bytes)?;
    read_received(alloc, bytes, &head.fields)
}
