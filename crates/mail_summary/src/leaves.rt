// The leaves of a message by their numbers.
ghost use Rattle.std.specs.Prelude.{◌≡◌, ◌≤◌, length, option_map, IfOk};
ghost use Rattle.std.specs.List.{list_any};
ghost use Rattle.mime_type.specs.PartTrees.{none};
ghost use Rattle.mime_type.specs.PartViews.{node_of, part_before, joined};
ghost use Rattle.mime_tree.specs.PartLimit.{walked};
ghost use Rattle.mime_tree.specs.Places.{IsPlaced};
ghost use Rattle.mail_summary.specs.Leaves;
ghost use Rattle.mail_summary.specs.Leaves.{body_bytes, leaf_numbered, part_bytes_of, has_attachment_in, shows_attachment};
ghost use Rattle.mail_summary.specs.Views.{node_in};

use body_lists::lists;
use jm_base::{Bytes, NoMemory};
use mime_codec::decode;
use mime_tree::parts;
use mime_type::Part;
use std::alloc::Global;

fn has_number(part: &Part, number: u64) -> bool
    ensures { result ≡ Leaves.has_number number (node_of part.now) }
{
    match part.number {
        Some(n) => n == number,
        None => false,
    }
}

/// Returns the leaf with this number (partId), of a part and those within it.
#[cycle(find_leaf)]
pub fn find_leaf(part: &Part, number: u64) -> Option<&Part>
    ensures { option_map node_in result ≡ leaf_numbered number (part_before part.now none) }
{
    if has_number(part, number) {
        return Some(part);
    }
    find_leaf_within(part.parts.as_slice(), number)
}

#[cycle(find_leaf)]
fn find_leaf_within(parts: &[Part], number: u64) -> Option<&Part>
    ensures { option_map node_in result ≡ leaf_numbered number (joined parts.now none) }
{
    for part in parts {
        if let Some(found) = find_leaf(part, number) {
            return Some(found);
        }
    }
    None
}

/// Returns the bytes that a part's body encodes.
pub fn read_body(alloc: Global, bytes: &[u8], part: &Part) -> Result<Bytes, NoMemory>
    requires { IsPlaced (length bytes.now) (node_of part.now) }
    ensures { IfOk result (λ b. b ≡ body_bytes bytes.now (node_of part.now)) }
{
    decode(
        alloc,
        part.coding,
        &bytes[part.body as usize..part.end as usize],
    )
}

/// Returns the bytes that the leaf with this number encodes (RFC 8621, section 4.1.4: blobId); none
/// if no leaf has it.
pub fn part_bytes(alloc: Global, bytes: &[u8], number: u64) -> Result<Option<Bytes>, NoMemory>
    ensures { IfOk result (λ b. b ≡ part_bytes_of bytes.now number) }
{
    let root = parts(alloc, bytes)?;
    match find_leaf(&root, number) {
        Some(found) => Ok(Some(read_body(alloc, bytes, found)?)),
        None => Ok(None),
    }
}

fn is_inline(part: &Part) -> bool
    ensures { result ≡ Leaves.is_inline part.now.disposition }
{
    match &part.disposition {
        Some(disposition) => disposition.as_bytes() == b"inline".as_slice(),
        None => false,
    }
}

fn is_among(numbers: &[u64], number: Option<u64>) -> bool
    ensures { result ≡ Leaves.is_among numbers.now number }
{
    match number {
        Some(n) => numbers.contains(&n),
        None => false,
    }
}

/// Returns whether a part is one of these attachments and isn't inline.
fn is_shown_attachment(attachments: &[u64], part: &Part) -> bool
    ensures { result ≡ shows_attachment attachments.now (node_of part.now) }
{
    !is_inline(part) && is_among(attachments, part.number)
}

#[cycle(attached)]
fn has_shown_attachment(attachments: &[u64], part: &Part) -> bool
    ensures { result
        ≡ list_any (shows_attachment attachments.now) (walked (part_before part.now none)) }
{
    is_shown_attachment(attachments, part)
        || has_shown_attachment_within(attachments, part.parts.as_slice())
}

#[cycle(attached)]
fn has_shown_attachment_within(attachments: &[u64], parts: &[Part]) -> bool
    ensures { result
        ≡ list_any (shows_attachment attachments.now) (walked (joined parts.now none)) }
{
    for part in parts {
        if has_shown_attachment(attachments, part) {
            return true;
        }
    }
    false
}

/// Returns whether a message has an attachment that isn't inline (RFC 8621, section 4.1.4:
/// hasAttachment).
pub fn has_attachment(alloc: Global, root: &Part) -> Result<bool, NoMemory>
    ensures { IfOk result (λ b. b ≡ has_attachment_in (part_before root.now none)) }
{
    let found = lists(alloc, root)?;
    Ok(has_shown_attachment(found.attachments.as_slice(), root))
}
