// bodyStructure: the parts of a message as a tree (RFC 8621, section 4.1.4).
ghost use Rattle.std.specs.Prelude.{◌≡◌, ◌∷◌, [], All, IfOk, length};
ghost use Rattle.jm_json.specs.Json.{tree_of as json_of};
ghost use Rattle.mime_tree.specs.Places.{AllPlaced};
ghost use Rattle.mime_type.specs.PartTrees.{none};
ghost use Rattle.mime_type.specs.PartViews.{joined, node_of, part_before};
ghost use Rattle.mail_view.specs.Parts;
ghost use Rattle.mail_view.specs.Sizes.{IsSizeOf};

use crate::part::{Showing, write_part_members};
use jm_base::NoMemory;
use jm_json::{Items, Json, Members};
use mime_type::Part;
use std::alloc::Global;

// Returns the members of a part, of a multipart with the parts within it.
fn add_sub_parts(
    alloc: Global,
    part: &Part,
    inner: Items,
    members: Members,
) -> Result<Members, NoMemory>
    ensures { IfOk result (λ ms. ms ≡ Parts.with_parts (node_of part.now) inner members) }
{
    let mut members = members;
    if part.boundary.is_none() {
        return Ok(members);
    }
    members.set(alloc, "subParts", Json::List(inner))?;
    Ok(members)
}

/// Returns the view of a part with those within it. Multiparts nest at most `MAX_MULTIPART_LEVELS`
/// deep.
#[cycle(structure)]
pub(crate) fn write_structure(
    alloc: Global,
    showing: &Showing<'_>,
    part: &Part,
) -> Result<Json, NoMemory>
    requires placed { AllPlaced (length showing.now.bytes.now) (part_before part.now none) }
    requires sizes { All (IsSizeOf showing.now.bytes.now) showing.now.sizes.now }
    ensures { IfOk result (λ t.
        Parts.structures showing.now.bytes.now showing.now.blob.now showing.now.asked.now
        (part_before part.now none) ≡ json_of t ∷ []) }
{
    let inner = write_structures(alloc, showing, part.parts.as_slice())?;
    let members = write_part_members(alloc, showing, part)?;
    Ok(Json::Object(add_sub_parts(alloc, part, inner, members)?))
}

#[cycle(structure)]
fn write_structures(alloc: Global, showing: &Showing<'_>, parts: &[Part]) -> Result<Items, NoMemory>
    requires placed { AllPlaced (length showing.now.bytes.now) (joined parts.now none) }
    requires sizes { All (IsSizeOf showing.now.bytes.now) showing.now.sizes.now }
    ensures { IfOk result (λ ts. ts
        ≡ Parts.structures showing.now.bytes.now showing.now.blob.now showing.now.asked.now
        (joined parts.now none)) }
{
    let mut items = Items::with_room(alloc, parts.len())?;
    for part in parts {
        items.push(write_structure(alloc, showing, part)?)?;
    }
    Ok(items)
}
