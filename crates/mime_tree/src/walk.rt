// Builds the parts of a message.
ghost use Rattle.std.specs.Prelude.{◌≡◌, ◌≤◌, ◌<◌, ◌+◌, ◌-◌, length, slice_range, IfOk, OnOk};
ghost use Rattle.mime_cut.specs.Cut.{piece};
ghost use Rattle.mime_type.specs.PartTrees.{none};
ghost use Rattle.mime_type.specs.PartViews.{node_of, part_before};
ghost use Rattle.mime_tree.specs.Tree.{part_tree, within, is_digest as digest_of};
ghost use Rattle.mime_tree.specs.PartLimit.{parts_of};
ghost use Rattle.mime_tree.specs.Places.{AllPlaced};
ghost use Rattle.mime_tree.specs.Budget.{taken};

use crate::part::{is_digest, read_part};
use jm_base::NoMemory;
use mime_cut::{LineKind, find_delimiter};
use mime_type::{Part, Parts};
use std::alloc::Global;

/// The most levels of multiparts that are entered.
const MAX_MULTIPART_LEVELS: u64 = 32;

/// The most parts of a message that are kept, the message itself included.
const MAX_PARTS: u64 = 1000;

/// How many more parts are kept, and the number of the next leaf.
#[derive(Drop)]
struct Budget {
    left: u64,
    number: u64,
}

/// Reads the part between these byte offsets with those within it, as far as the budget goes.
#[cycle(walk)]
fn read_part_tree(
    alloc: Global,
    budget: &mut Budget,
    message: &[u8],
    start: u64,
    end: u64,
    levels: u64,
    digest: bool,
) -> Result<Part, NoMemory>
    requires ordered { start ≤ end }
    requires inside { end ≤ length message.now }
    requires some { 0 < budget.old.left }
    requires room { budget.old.number + budget.old.left ≤ MAX_PARTS + 1 }
    ensures taken { IfOk result (λ p. taken (part_tree levels digest
        (piece start (slice_range message.now start end)) none) budget.old.left budget.old.number
        ≡ record {
          parts = part_before p none;
          left = budget.new.left;
          number = budget.new.number;
        }) }
    ensures placed { IfOk result (λ p. AllPlaced (length message.now) (part_before p none)) }
    ensures room { OnOk result (budget.new.number + budget.new.left ≤ MAX_PARTS + 1) }
{
    let mut part = read_part(alloc, message, start, end, levels, digest)?;
    budget.left -= 1;
    if part.boundary.is_none() {
        part.number = Some(budget.number);
        budget.number += 1;
        return Ok(part);
    }
    let parts = read_parts_within(alloc, budget, message, &part, levels)?;
    part.parts = parts;
    Ok(part)
}

/// Reads the parts of a multipart's body, as far as the budget goes. The next delimiter line is
/// looked for only when one more part is kept.
#[cycle(walk)]
fn read_parts_within(
    alloc: Global,
    budget: &mut Budget,
    message: &[u8],
    part: &Part,
    levels: u64,
) -> Result<Parts, NoMemory>
    requires entered { 0 < levels }
    requires ordered { part.now.body ≤ part.now.end }
    requires inside { part.now.end ≤ length message.now }
    requires room { budget.old.number + budget.old.left ≤ MAX_PARTS + 1 }
    ensures taken { IfOk result (λ ps. taken (within
        (part_tree (levels - 1) (digest_of (node_of part.now))) part.now.boundary part.now.body
        (slice_range message.now part.now.body part.now.end)) budget.old.left budget.old.number
        ≡ record { parts = ps; left = budget.new.left; number = budget.new.number }) }
    ensures placed { IfOk result (λ ps. AllPlaced (length message.now) ps) }
    ensures room { OnOk result (budget.new.number + budget.new.left ≤ MAX_PARTS + 1) }
{
    let mut items = Vec::new(alloc);
    let Some(boundary) = &part.boundary else {
        return Ok(Parts::from_vec(items));
    };
    let boundary = boundary.as_bytes();
    let digest = is_digest(part);
    let mut found = find_delimiter(boundary, &message[part.body as usize..part.end as usize]);
    let mut offset = part.body as usize + found.size;
    while let LineKind::DelimiterLine = found.kind {
        if budget.left == 0 {
            return Ok(Parts::from_vec(items));
        }
        let next = find_delimiter(boundary, found.rest);
        let end = offset + next.before;
        let inner = read_part_tree(
            alloc,
            budget,
            message,
            offset as u64,
            end as u64,
            levels - 1,
            digest,
        )?;
        items.push(inner)?;
        offset += next.size;
        found = next;
    }
    Ok(Parts::from_vec(items))
}

/// Reads the parts of a message as a tree, in time linear in its bytes (RFC 2046, section 5.1).
/// Multiparts are entered to a depth of `MAX_MULTIPART_LEVELS`, and one below is a leaf of type
/// application/octet-stream. Of the parts in walk order, a part before those within it, those after
/// the first `MAX_PARTS` are left out. Leaves are numbered from 1 in that order. It fails only if
/// memory runs out.
pub fn parts(alloc: Global, bytes: &[u8]) -> Result<Part, NoMemory>
    ensures tree { IfOk result (λ p. part_before p none ≡ parts_of bytes.now) }
    // Each part's body can be read at its byte offsets.
    ensures places { IfOk result (λ p. AllPlaced (length bytes.now) (part_before p none)) }
{
    let mut budget = Budget {
        left: MAX_PARTS,
        number: 1,
    };
    read_part_tree(
        alloc,
        &mut budget,
        bytes,
        0,
        bytes.len() as u64,
        MAX_MULTIPART_LEVELS,
        false,
    )
}
