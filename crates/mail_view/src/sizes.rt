// The sizes of the bodies of a message, each found once where several lists show them.
ghost use Rattle.std.specs.Prelude.{◌≡◌, ◌≤◌, All, IfOk, IfSome, IsTrue, length};
ghost use Rattle.mime_type.specs.PartViews.{node_of};
ghost use Rattle.mime_tree.specs.Places.{IsPlaced};
ghost use Rattle.mail_summary.specs.Leaves.{body_bytes};
ghost use Rattle.mail_view.specs.Sizes.{IsSizeOf};
ghost use Rattle.mail_view.specs.Views.{ArePlaced, nodes_of};

use get_args::{NamedPartProperty, NamedProperty, PartProperty, Property, Wanted};
use jm_base::NoMemory;
use mime_codec::{Coding, count_decoded};
use mime_type::Part;
use std::alloc::Global;

/// How many bytes the body between two byte offsets encodes.
#[derive(Clone, Copy)]
pub(crate) struct BodySize {
    pub coding: Coding,
    pub body: u64,
    pub end: u64,
    pub size: u64,
}

// Returns the size of a part's body.
fn build_body_size(bytes: &[u8], part: &Part) -> BodySize
    requires { IsPlaced (length bytes.now) (node_of part.now) }
    ensures { IsSizeOf bytes.now result }
{
    let body = &bytes[part.body as usize..part.end as usize];
    BodySize {
        coding: part.coding,
        body: part.body,
        end: part.end,
        size: count_decoded(part.coding, body),
    }
}

// Returns the sizes of the leaves among some parts, in order.
fn list_sizes(alloc: Global, bytes: &[u8], parts: &[&Part]) -> Result<Vec<BodySize>, NoMemory>
    requires { ArePlaced (length bytes.now) (nodes_of parts.now) }
    ensures { IfOk result (λ sizes. All (IsSizeOf bytes.now) sizes.items) }
{
    let mut sizes = Vec::new(alloc);
    for part in parts {
        if part.number.is_none() {
            continue;
        }
        sizes.push(build_body_size(bytes, part))?;
    }
    Ok(sizes)
}

fn shows_structure(properties: &[NamedProperty]) -> bool {
    for asked in properties {
        if let Property::BodyStructure = asked.property {
            return true;
        }
    }
    false
}

fn shows_size(properties: &[NamedPartProperty]) -> bool {
    for asked in properties {
        if let PartProperty::Size = asked.property {
            return true;
        }
    }
    false
}

/// Returns the sizes of the leaves of a message if all of them are shown, and none if perhaps only
/// some are.
pub(crate) fn collect_shown_sizes(
    alloc: Global,
    bytes: &[u8],
    parts: &[&Part],
    wanted: &Wanted,
) -> Result<Vec<BodySize>, NoMemory>
    requires { ArePlaced (length bytes.now) (nodes_of parts.now) }
    ensures { IfOk result (λ sizes. All (IsSizeOf bytes.now) sizes.items) }
{
    if shows_structure(wanted.properties.as_slice()) && shows_size(wanted.parts.as_slice()) {
        return list_sizes(alloc, bytes, parts);
    }
    Ok(Vec::new(alloc))
}

fn is_same(a: Coding, b: Coding) -> bool
    ensures { IsTrue result → a ≡ b }
{
    match a {
        Coding::Plain => matches!(b, Coding::Plain),
        Coding::Quoted => matches!(b, Coding::Quoted),
        Coding::Base64 => matches!(b, Coding::Base64),
        Coding::Unknown => matches!(b, Coding::Unknown),
    }
}

// Returns the size if it is that of this part's body.
fn find_known_size(_bytes: &[u8], known: &BodySize, part: &Part) -> Option<u64>
    requires { IsSizeOf _bytes.now known.now }
    ensures value { IfSome result (λ n. n ≡ length (body_bytes _bytes.now (node_of part.now))) }
    ensures within { IfSome result (λ n. n ≤ length _bytes.now) }
{
    if known.body == part.body && known.end == part.end && is_same(known.coding, part.coding) {
        return Some(known.size);
    }
    None
}

/// Returns the size of a leaf's body, if it is known: that of the leaf with number 1 is the first.
pub(crate) fn find_size(bytes: &[u8], sizes: &[BodySize], part: &Part) -> Option<u64>
    requires { All (IsSizeOf bytes.now) sizes.now }
    ensures value { IfSome result (λ n. n ≡ length (body_bytes bytes.now (node_of part.now))) }
    ensures within { IfSome result (λ n. n ≤ length bytes.now) }
{
    let number = part.number?;
    if number == 0 || number > sizes.len() as u64 {
        return None;
    }
    find_known_size(bytes, &sizes[(number - 1) as usize], part)
}
