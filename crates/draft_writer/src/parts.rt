// The parts of a draft's message, step by step in walk order (RFC 2046, section 5.1.1).
ghost use Rattle.std.specs.Prelude.{◌≡◌, ◌≤◌, ◌<◌, ◌^◌, ◌+◌, ◌++◌, ◌∷◌, [], OnOk, IfOk, Some, None, length};
ghost use Rattle.mime_tree.specs.Boundaries.{boundary_text};
ghost use Rattle.mime_cut.specs.DelimiterLines.{dashes};
ghost use Rattle.draft_writer.specs.Steps;
ghost use Rattle.draft_writer.specs.Parts;

use crate::leaves::{find_later_blobs, is_raw, push_leaf};
use draft_form::{Content, Row};
use jm_base::{Bytes, NoMemory, Text};
use mime_codec::Coding;
use mime_writer::{PartHead, push_head};
use std::alloc::Global;
use std::collections::VecDeque;

/// How many steps a draft has at most: one for each part, and one for the end of each multipart.
pub const MAX_STEPS: usize = 2000;

/// How far the parts of a message are written.
#[derive(Drop)]
pub struct Progress<'a> {
    /// The number of the next multipart.
    pub next: u64,
    /// The numbers of the multiparts that are open, the innermost first.
    pub opened: VecDeque<u64>,
    /// The blobs of the parts that are left.
    pub blobs: &'a [Bytes],
}

/// Returns whether a message is in what is left of a multipart, with so many multiparts open within
/// it.
fn holds_raw(depth: usize, rows: &[Row]) -> bool
    requires { depth + length rows.now < 2 ^ 32 }
    ensures { result ≡ Steps.holds_raw depth rows.now }
{
    let Some((row, more)) = rows.split_first() else {
        return false;
    };
    match row {
        Row::Holds(head, content) => is_raw(head, content) || holds_raw(depth, more),
        Row::Opens(_) => holds_raw(depth + 1, more),
        Row::Closes => depth != 0 && holds_raw(depth - 1, more),
    }
}

// Adds the boundary of a multipart.
fn push_boundary(alloc: Global, out: &mut Vec<u8>, number: u64, k: u64) -> Result<(), NoMemory>
    ensures { OnOk result (out.new.items ≡ out.old.items ++ boundary_text number k) }
{
    let boundary = write_boundary(alloc, number, k)?;
    out.extend_from_slice(boundary.as_bytes())?;
    Ok(())
}

// Returns the boundary of a multipart.
fn write_boundary(alloc: Global, number: u64, k: u64) -> Result<Text, NoMemory>
    ensures { IfOk result (λ t. t ≡ boundary_text number k) }
{
    Ok(Text::from_string(format!(in alloc; "jm{number}.{k}")?))
}

// Adds the delimiter line of the innermost open multipart, if one is open.
fn push_lead(
    alloc: Global,
    out: &mut Vec<u8>,
    number: u64,
    opened: &VecDeque<u64>,
) -> Result<(), NoMemory>
    ensures { OnOk result (out.new.items ≡ out.old.items ++ Steps.lead number opened.now.items) }
{
    let Some(k) = opened.front() else {
        return Ok(());
    };
    out.extend_from_slice("--".as_bytes())?;
    push_boundary(alloc, out, number, *k)?;
    out.extend_from_slice("\r\n".as_bytes())?;
    Ok(())
}

// Adds a line end, if a multipart is open.
fn push_trail(out: &mut Vec<u8>, opened: &VecDeque<u64>) -> Result<(), NoMemory>
    ensures { OnOk result (out.new.items ≡ out.old.items ++ Steps.trail opened.now.items) }
{
    let Some(_) = opened.front() else {
        return Ok(());
    };
    out.extend_from_slice("\r\n".as_bytes())?;
    Ok(())
}

// Returns the transfer encoding of a multipart.
fn find_coding(raw: bool) -> Option<Coding>
    ensures { result ≡ Parts.coding_within raw }
{
    if raw { Some(Coding::Plain) } else { None }
}

// Adds the head of a multipart.
fn push_opening(
    alloc: Global,
    out: &mut Vec<u8>,
    number: u64,
    k: u64,
    head: &PartHead,
    more: &[Row],
) -> Result<(), NoMemory>
    requires { length more.now ≤ MAX_STEPS }
    ensures { OnOk result (out.new.items ≡ out.old.items
        ++ Steps.opening number k head.now more.now) }
{
    let boundary = write_boundary(alloc, number, k)?;
    let coding = find_coding(holds_raw(0, more));
    push_head(alloc, out, head, Some(&boundary), coding)?;
    out.extend_from_slice("\r\n".as_bytes())?;
    Ok(())
}

// Adds the close-delimiter of the innermost open multipart, which ends.
fn push_closing(
    alloc: Global,
    out: &mut Vec<u8>,
    number: u64,
    opened: &mut VecDeque<u64>,
) -> Result<(), NoMemory>
    ensures text { OnOk result (out.new.items ≡ out.old.items
        ++ Steps.closing number opened.old.items) }
    ensures opened { OnOk result (opened.new.items ≡ Steps.outer opened.old.items) }
{
    let Some(k) = opened.pop_front() else {
        return Ok(());
    };
    out.extend_from_slice("--".as_bytes())?;
    push_boundary(alloc, out, number, k)?;
    out.extend_from_slice("--".as_bytes())?;
    Ok(())
}

// A part that is no multipart.
fn push_holds<'a>(
    alloc: Global,
    out: &mut Vec<u8>,
    progress: &mut Progress<'a>,
    number: u64,
    head: &PartHead,
    content: &Content,
) -> Result<(), NoMemory>
    ensures text { OnOk result (out.new.items ≡ out.old.items
        ++ (Steps.lead number progress.old.opened.items
        ++ (Steps.leaf_text progress.old.blobs.now head.now content.now
        ++ Steps.trail progress.old.opened.items))) }
    ensures next { OnOk result (progress.new.next ≡ progress.old.next) }
    ensures opened { OnOk result (progress.new.opened.items ≡ progress.old.opened.items) }
    ensures blobs { OnOk result (progress.new.blobs.now
        ≡ Parts.blobs_after progress.old.blobs.now content.now) }
{
    push_lead(alloc, out, number, &progress.opened)?;
    push_leaf(alloc, out, head, content, progress.blobs)?;
    push_trail(out, &progress.opened)?;
    progress.blobs = find_later_blobs(content, progress.blobs);
    Ok(())
}

// A multipart begins.
fn push_opens<'a>(
    alloc: Global,
    out: &mut Vec<u8>,
    progress: &mut Progress<'a>,
    number: u64,
    head: &PartHead,
    more: &[Row],
) -> Result<(), NoMemory>
    requires few { length more.now ≤ MAX_STEPS }
    requires room { progress.old.next < 2 ^ 32 }
    ensures text { OnOk result (out.new.items ≡ out.old.items
        ++ (Steps.lead number progress.old.opened.items
        ++ Steps.opening number progress.old.next head.now more.now)) }
    ensures next { OnOk result (progress.new.next ≡ 1 + progress.old.next) }
    ensures opened { OnOk result (progress.new.opened.items
        ≡ progress.old.next ∷ progress.old.opened.items) }
    ensures blobs { OnOk result (progress.new.blobs.now ≡ progress.old.blobs.now) }
{
    push_lead(alloc, out, number, &progress.opened)?;
    push_opening(alloc, out, number, progress.next, head, more)?;
    progress.opened.push_front(progress.next)?;
    progress.next += 1;
    Ok(())
}

// A multipart ends.
fn push_closes<'a>(
    alloc: Global,
    out: &mut Vec<u8>,
    progress: &mut Progress<'a>,
    number: u64,
) -> Result<(), NoMemory>
    ensures text { OnOk result (out.new.items ≡ out.old.items
        ++ (Steps.closing number progress.old.opened.items
        ++ Steps.trail (Steps.outer progress.old.opened.items))) }
    ensures next { OnOk result (progress.new.next ≡ progress.old.next) }
    ensures opened { OnOk result (progress.new.opened.items
        ≡ Steps.outer progress.old.opened.items) }
    ensures blobs { OnOk result (progress.new.blobs.now ≡ progress.old.blobs.now) }
{
    push_closing(alloc, out, number, &mut progress.opened)?;
    push_trail(out, &progress.opened)?;
    Ok(())
}

/// Adds the text of a step, which these steps follow.
pub fn push_row<'a>(
    alloc: Global,
    out: &mut Vec<u8>,
    progress: &mut Progress<'a>,
    number: u64,
    row: &Row,
    more: &[Row],
) -> Result<(), NoMemory>
    requires few { length more.now ≤ MAX_STEPS }
    requires room { progress.old.next < 2 ^ 32 }
    ensures text { OnOk result (out.new.items ++ Steps.rows_text number progress.new.next
        progress.new.opened.items progress.new.blobs.now more.now ≡ out.old.items
        ++ Steps.rows_text number progress.old.next progress.old.opened.items
        progress.old.blobs.now (row.now ∷ more.now)) }
    ensures next { OnOk result (progress.new.next ≤ 1 + progress.old.next) }
{
    match row {
        Row::Holds(head, content) => {
            push_holds(alloc, out, progress, number, head, content)?;
            Ok(())
        }
        Row::Opens(head) => {
            push_opens(alloc, out, progress, number, head, more)?;
            Ok(())
        }
        Row::Closes => {
            push_closes(alloc, out, progress, number)?;
            Ok(())
        }
    }
}
