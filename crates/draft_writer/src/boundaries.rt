// The number of the boundaries of a message: no line of a part that is no multipart begins with two
// dashes and the start of the boundaries (RFC 2046, section 5.1.1).
ghost use Rattle.std.specs.Prelude.{◌≡◌, ◌++◌, is_some, IfOk, MatchOption, Some, None};
ghost use Rattle.mime_cut.specs.DelimiterLines.{after_prefix, dashes};
ghost use Rattle.mime_tree.specs.Boundaries.{boundary_start};
ghost use Rattle.draft_writer.specs.Marks;
ghost use Rattle.draft_writer.specs.Steps.{leaf_text};

use crate::leaves::{find_later_blobs, push_leaf};
use draft_form::{Content, Row};
use jm_base::{Bytes, NoMemory, Text};
use mime_lines::split_line;
use mime_writer::PartHead;
use std::alloc::Global;

/// The greatest number that boundaries may have; a draft whose parts use all numbers up to it is
/// answered as if memory ran out.
pub const MAX_BOUNDARY_NUMBER: u64 = 64;

// Returns what no line may begin with: two dashes and the start of the boundaries of a number.
fn write_mark(alloc: Global, number: u64) -> Result<Text, NoMemory>
    ensures { IfOk result (λ t. t ≡ dashes ++ boundary_start number) }
{
    Ok(Text::from_string(format!(in alloc; "--jm{number}.")?))
}

// Returns the bytes after a mark; none if the line doesn't begin with it.
fn strip<'a>(mark: &[u8], line: &'a [u8]) -> Option<&'a [u8]>
    ensures { MatchOption result (after_prefix mark.now line.now ≡ None)
        (λ x. after_prefix mark.now line.now ≡ Some x.now) }
{
    line.strip_prefix(mark)
}

// Returns whether a line begins with a mark.
fn begins_with(mark: &[u8], line: &[u8]) -> bool
    ensures { result ≡ is_some (after_prefix mark.now line.now) }
{
    match strip(mark, line) {
        Some(_) => true,
        None => false,
    }
}

// Returns whether a line of a text begins with a mark.
fn has_line(mark: &[u8], text: &[u8]) -> bool
    ensures { result ≡ Marks.has_line mark.now text.now }
{
    let mut rest = text;
    while !rest.is_empty() {
        let (line, more) = split_line(rest);
        if begins_with(mark, line) {
            return true;
        }
        rest = more;
    }
    false
}

// Returns whether a line of a part that is no multipart begins with a mark.
fn has_leaf_line(
    alloc: Global,
    mark: &[u8],
    head: &PartHead,
    content: &Content,
    blobs: &[Bytes],
) -> Result<bool, NoMemory>
    ensures { IfOk result (λ b. b
        ≡ Marks.has_mark mark.now (leaf_text blobs.now head.now content.now)) }
{
    let mut text = Vec::new(alloc);
    push_leaf(alloc, &mut text, head, content, blobs)?;
    text.extend_from_slice("\r\n".as_bytes())?;
    Ok(has_line(mark, text.as_slice()))
}

// Returns whether the text of a step, if it is a part that is no multipart, has such a line.
fn has_row_line(alloc: Global, mark: &[u8], row: &Row, blobs: &[Bytes]) -> Result<bool, NoMemory>
    ensures { IfOk result (λ b. b ≡ Marks.row_has_mark mark.now blobs.now row.now) }
{
    match row {
        Row::Holds(head, content) => has_leaf_line(alloc, mark, head, content, blobs),
        Row::Opens(_) => Ok(false),
        Row::Closes => Ok(false),
    }
}

// Returns the blobs of the parts after a step.
fn find_blobs_past<'a>(row: &Row, blobs: &'a [Bytes]) -> &'a [Bytes]
    ensures { result.now ≡ Marks.blobs_past blobs.now row.now }
{
    match row {
        Row::Holds(_, content) => find_later_blobs(content, blobs),
        Row::Opens(_) => blobs,
        Row::Closes => blobs,
    }
}

// Returns whether a line of a part that is no multipart begins with a mark.
fn have_line(alloc: Global, mark: &[u8], rows: &[Row], blobs: &[Bytes]) -> Result<bool, NoMemory>
    ensures { IfOk result (λ b. b ≡ Marks.rows_have_mark mark.now blobs.now rows.now) }
{
    let mut rest = rows;
    let mut left = blobs;
    while let Some((row, more)) = rest.split_first() {
        if has_row_line(alloc, mark, row, left)? {
            return Ok(true);
        }
        left = find_blobs_past(row, left);
        rest = more;
    }
    Ok(false)
}

// Returns whether a line of a part that is no multipart begins with two dashes and the start of the
// boundaries of a number.
fn is_used(alloc: Global, number: u64, rows: &[Row], blobs: &[Bytes]) -> Result<bool, NoMemory>
    ensures { IfOk result (λ b. b ≡ Marks.is_used number blobs.now rows.now) }
{
    let mark = write_mark(alloc, number)?;
    have_line(alloc, mark.as_bytes(), rows, blobs)
}

/// Returns the least number from 1 such that no line of a part that is no multipart begins with two
/// dashes and the start of the boundaries of this number.
pub fn find_boundary_number(alloc: Global, rows: &[Row], blobs: &[Bytes]) -> Result<u64, NoMemory>
    ensures { IfOk result (λ n. Marks.IsBoundaryFree n blobs.now rows.now) }
{
    let mut number: u64 = 1;
    while number <= MAX_BOUNDARY_NUMBER {
        if !is_used(alloc, number, rows, blobs)? {
            return Ok(number);
        }
        number += 1;
    }
    Err(NoMemory)
}
