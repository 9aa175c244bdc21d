// The parts of a message in walk order, and views of some of them (RFC 8621, section 4.1.4).
ghost use Rattle.std.specs.Prelude.{◌≡◌, ◌++◌, All, IfOk, OnOk, length, option_map};
ghost use Rattle.mime_tree.specs.PartLimit.{walked};
ghost use Rattle.mime_type.specs.PartTrees.{none};
ghost use Rattle.mime_type.specs.PartViews.{joined, node_of, part_before};
ghost use Rattle.mail_summary.specs.Leaves.{is_number};
ghost use Rattle.mail_view.specs.Parts.{leaves_among, part_numbered};
ghost use Rattle.mail_view.specs.Sizes.{IsSizeOf};
ghost use Rattle.mail_view.specs.Views.{ArePlaced, nodes_of};

use crate::part::{Showing, write_leaf};
use jm_base::NoMemory;
use jm_json::Items;
use mime_type::Part;
use std::alloc::Global;

// Adds a part and those within it. Multiparts nest at most `MAX_MULTIPART_LEVELS` deep.
#[cycle(walk)]
fn add_part<'a>(walk: &mut Vec<&'a Part>, part: &'a Part) -> Result<(), NoMemory>
    ensures { OnOk result (nodes_of walk.new.items
        ≡ nodes_of walk.old.items ++ walked (part_before part.now none)) }
{
    walk.push(part)?;
    add_parts(walk, part.parts.as_slice())
}

#[cycle(walk)]
fn add_parts<'a>(walk: &mut Vec<&'a Part>, parts: &'a [Part]) -> Result<(), NoMemory>
    ensures { OnOk result (nodes_of walk.new.items
        ≡ nodes_of walk.old.items ++ walked (joined parts.now none)) }
{
    for part in parts {
        add_part(walk, part)?;
    }
    Ok(())
}

/// Returns the parts of a tree in walk order: a part before those within it.
pub(crate) fn list_parts<'a>(alloc: Global, root: &'a Part) -> Result<Vec<&'a Part>, NoMemory>
    ensures { IfOk result (λ ps. nodes_of ps.items ≡ walked (part_before root.now none)) }
{
    let mut walk = Vec::new(alloc);
    add_part(&mut walk, root)?;
    Ok(walk)
}

fn is_number(number: u64, own: Option<u64>) -> bool
    ensures { result ≡ is_number number own }
{
    match own {
        Some(own) => own == number,
        None => false,
    }
}

/// Returns the part of a number, or `None` if no leaf has it.
pub(crate) fn find_part<'a>(parts: &[&'a Part], number: u64) -> Option<&'a Part>
    ensures { option_map (λ p. node_of p.now) result ≡ part_numbered (nodes_of parts.now) number }
{
    for part in parts {
        if is_number(number, part.number) {
            return Some(part);
        }
    }
    None
}

/// Returns the views of the leaves of these numbers among the parts of a message.
pub(crate) fn write_leaves(
    alloc: Global,
    showing: &Showing<'_>,
    parts: &[&Part],
    numbers: &[u64],
) -> Result<Items, NoMemory>
    requires placed { ArePlaced (length showing.now.bytes.now) (nodes_of parts.now) }
    requires sizes { All (IsSizeOf showing.now.bytes.now) showing.now.sizes.now }
    ensures { IfOk result (λ ts. ts
        ≡ leaves_among showing.now.bytes.now showing.now.blob.now showing.now.asked.now
        (nodes_of parts.now) numbers.now) }
{
    let mut items = Items::new(alloc);
    for number in numbers {
        let Some(part) = find_part(parts, *number) else {
            continue;
        };
        items.push(write_leaf(alloc, showing, part)?)?;
    }
    Ok(items)
}
