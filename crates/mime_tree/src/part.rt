// One part by its head, where this many more levels of multiparts may be entered.
ghost use Rattle.std.specs.Prelude.{◌≡◌, ◌≤◌, length, slice_range, IfOk};
ghost use Rattle.mime_cut.specs.Cut.{piece};
ghost use Rattle.mime_type.specs.PartTrees.{none};
ghost use Rattle.mime_type.specs.PartViews.{node_of};
ghost use Rattle.mime_tree.specs.Tree.{closed, node_at};

use jm_base::{NoMemory, Text};
use mime_type::{Part, part_head};
use std::alloc::Global;

/// Makes a part a leaf: a multipart becomes application/octet-stream.
fn close(alloc: Global, part: Part) -> Result<Part, NoMemory>
    ensures node { IfOk result (λ p. node_of p ≡ closed (node_of part)) }
    ensures parts { IfOk result (λ p. p.parts ≡ part.parts) }
{
    if part.boundary.is_none() {
        return Ok(part);
    }
    let mut part = part;
    part.media = Text::from_str(alloc, "application/octet-stream")?;
    part.boundary = None;
    Ok(part)
}

/// Reads the head of the part between these byte offsets. If no more levels may be entered, the
/// part is a leaf.
pub fn read_part(
    alloc: Global,
    message: &[u8],
    start: u64,
    end: u64,
    levels: u64,
    digest: bool,
) -> Result<Part, NoMemory>
    requires ordered { start ≤ end }
    requires inside { end ≤ length message.now }
    ensures node { IfOk result (λ p. node_of p
        ≡ node_at levels digest (piece start (slice_range message.now start end))) }
    ensures parts { IfOk result (λ p. p.parts ≡ none) }
{
    let part = part_head(alloc, message, start, end, digest)?;
    if levels == 0 {
        return close(alloc, part);
    }
    Ok(part)
}

/// Returns whether parts within it without a Content-Type are messages (RFC 2046, section 5.1.5).
pub fn is_digest(part: &Part) -> bool
    ensures { result ≡ Rattle.mime_tree.specs.Tree.is_digest (node_of part.now) }
{
    part.media.as_bytes() == b"multipart/digest".as_slice()
}
