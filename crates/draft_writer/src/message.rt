// The message of a draft (RFC 5322, section 3.6; RFC 2046, section 5.1.1).
ghost use Rattle.std.specs.Prelude.{◌≡◌, ◌≤◌, ◌++◌, ◌∷◌, [], List, ℕ, OnOk, IfOk, length};
ghost use Rattle.std.specs.List.{flat_map};
ghost use Rattle.jm_json.specs.Tree.{Tree};
ghost use Rattle.mime_lines.specs.Written.{field_line};
ghost use Rattle.draft_form.specs.Drafts.{draft_in};
ghost use Rattle.draft_writer.specs.Fields;
ghost use Rattle.draft_writer.specs.Fields.{message_fields};
ghost use Rattle.draft_writer.specs.Outcomes.{IsEnding, IsWriting};
ghost use Rattle.draft_writer.specs.Marks.{IsNumberFor, opens_first};
ghost use Rattle.draft_writer.specs.Steps.{rows_text};

use crate::boundaries::find_boundary_number;
use crate::fields::{push_date, push_fields, push_message_id, push_version};
use crate::moments::{build_own_ids, read_moment};
use crate::parts::{MAX_STEPS, Progress, push_row};
use draft_form::{Draft, DraftFault, Row};
use jm_base::{Bytes, MAX_UPLOAD_BYTES, NoMemory};
use mime_writer::DateTime;
use std::alloc::Global;
use std::collections::VecDeque;

// Adds Date. A draft that was read has a month that the calendar has.
fn push_given_date(out: &mut Vec<u8>, date: &DateTime) -> Result<(), NoMemory>
    ensures { OnOk result (out.new.items ≡ out.old.items
        ++ field_line (Fields.date_field date.now)) }
{
    if date.month < 1 || 12 < date.month {
        return Err(NoMemory);
    }
    push_date(out, date)
}

// Adds Date: the date that is given, or that of the call.
fn push_date_or(
    alloc: Global,
    out: &mut Vec<u8>,
    draft: &Draft,
    moment: u64,
) -> Result<(), NoMemory>
    ensures { OnOk result (out.new.items ≡ out.old.items ++ field_line
        (Fields.date_field (Fields.date_or moment draft.now.date))) }
{
    match &draft.date {
        Some(date) => push_given_date(out, date),
        None => push_date(out, &read_moment(alloc, moment)?),
    }
}

// Adds Message-ID: the identifiers that are given, or the email's own.
fn push_ids_or(
    alloc: Global,
    out: &mut Vec<u8>,
    draft: &Draft,
    number: u64,
    moment: u64,
) -> Result<(), NoMemory>
    ensures { OnOk result (out.new.items ≡ out.old.items ++ field_line
        (Fields.field_of (Fields.id_field (Fields.ids_or number moment draft.now.message_id)))) }
{
    match &draft.message_id {
        Some(ids) => push_message_id(out, ids.as_slice()),
        None => push_message_id(out, build_own_ids(alloc, number, moment)?.as_slice()),
    }
}

// Adds the header fields before those of the message's part.
fn push_header(
    alloc: Global,
    out: &mut Vec<u8>,
    draft: &Draft,
    number: u64,
    moment: u64,
) -> Result<(), NoMemory>
    ensures { OnOk result (out.new.items ≡ out.old.items
        ++ flat_map field_line (message_fields draft.now number moment)) }
{
    push_fields(alloc, out, draft.first.as_slice())?;
    push_date_or(alloc, out, draft, moment)?;
    push_ids_or(alloc, out, draft, number, moment)?;
    push_fields(alloc, out, draft.later.as_slice())?;
    push_version(out)?;
    Ok(())
}

// Returns whether a step begins a multipart.
fn is_opening(row: &Row) -> bool
    ensures { result ≡ opens_first (row.now ∷ []) }
{
    match row {
        Row::Opens(_) => true,
        Row::Holds(_, _) => false,
        Row::Closes => false,
    }
}

// Returns whether the first step begins a multipart.
fn opens_first(rows: &[Row]) -> bool
    ensures { result ≡ opens_first rows.now }
{
    match rows.split_first() {
        Some((row, _)) => is_opening(row),
        None => false,
    }
}

// Returns the number of the boundaries, if there are multiparts.
fn find_number(alloc: Global, rows: &[Row], blobs: &[Bytes]) -> Result<u64, NoMemory>
    ensures { IfOk result (λ n. IsNumberFor n blobs.now rows.now) }
{
    if !opens_first(rows) {
        return Ok(1);
    }
    find_boundary_number(alloc, rows, blobs)
}

// Adds the text of the parts, and returns the whole message.
fn write_rows(
    alloc: Global,
    header: Vec<u8>,
    number: u64,
    rows: &[Row],
    blobs: &[Bytes],
) -> Result<Bytes, DraftFault>
    requires { length rows.now ≤ MAX_STEPS }
    ensures { IsEnding result (header.items ++ rows_text number 1 [] blobs.now rows.now) }
{
    let mut out = header;
    let mut progress = Progress {
        next: 1,
        opened: VecDeque::new(alloc),
        blobs,
    };
    let mut rest = rows;
    while let Some((row, more)) = rest.split_first() {
        push_row(alloc, &mut out, &mut progress, number, row, more)?;
        if out.len() > MAX_UPLOAD_BYTES {
            return Err(DraftFault::TooLarge);
        }
        rest = more;
    }
    if out.len() > MAX_UPLOAD_BYTES {
        return Err(DraftFault::TooLarge);
    }
    Ok(Bytes::from_vec(out))
}

/// Writes the message of a draft as the email of this number, at this timestamp in Unix seconds.
/// `blobs` are the blobs of [`Draft::blob_ids`], as many and in their order (RFC 8621, section
/// 4.6). What is written is read back, by the laws [`crate::parts_are_read_back`] and
/// [`crate::fields_are_read_back`].
///
/// # Errors
///
/// `TooLarge` if the message has more than [`MAX_UPLOAD_BYTES`] bytes. `NoMemory` if memory runs
/// out, which may be before its size is known; also if the draft has more than [`MAX_STEPS`] steps,
/// if its parts use all numbers of boundaries, or if the month of its date is none of the calendar.
/// Never `Invalid`.
pub fn draft_bytes(
    alloc: Global,
    draft: &Draft,
    blobs: &[Bytes],
    number: u64,
    moment: u64,
) -> Result<Bytes, DraftFault>
    requires { length blobs.now ≡ length draft.now.parts.blob_ids }
    ensures { (ms : List (List ℕ × Tree)) → draft.now ≡ draft_in ms
        → IsWriting result ms blobs.now number moment }
{
    let rows = draft.parts.rows.as_slice();
    if rows.len() > MAX_STEPS {
        return Err(DraftFault::NoMemory);
    }
    let boundary = find_number(alloc, rows, blobs)?;
    let mut header = Vec::new(alloc);
    push_header(alloc, &mut header, draft, number, moment)?;
    write_rows(alloc, header, boundary, rows, blobs)
}
