// bodyValues: the decoded text of body parts (RFC 8621, sections 4.1.4 and 4.2).
ghost use Rattle.std.specs.Prelude.{◌≡◌, [], IfOk, OnOk, length};
ghost use Rattle.jm_json.specs.Json.{tree_of as json_of};
ghost use Rattle.mime_tree.specs.PartLimit.{parts_of};
ghost use Rattle.mime_tree.specs.Places.{IsPlaced};
ghost use Rattle.mime_type.specs.PartViews.{node_of};
ghost use Rattle.body_lists.specs.Views.{lists_of};
ghost use Rattle.mail_summary.specs.Leaves;
ghost use Rattle.mail_summary.specs.Texts;
ghost use Rattle.mail_view.specs.Objects.{put_all};
ghost use Rattle.mail_view.specs.Messages.{IsRead};
ghost use Rattle.mail_view.specs.Views.{ArePlaced, nodes_of};
ghost use Rattle.mail_view.specs.Values.{entries, entry, is_asked, value_tree, values_tree};

use crate::message::Message;
use body_lists::BodyLists;
use get_args::Wanted;
use jm_base::{NoMemory, Text};
use jm_json::{Json, Members};
use mail_summary::read_body_value;
use mime_type::Part;
use std::alloc::Global;

// Returns whether a number is one of these.
fn is_among(numbers: &[u64], number: u64) -> bool
    ensures { result ≡ Leaves.is_among numbers.now (Some number) }
{
    for other in numbers {
        if *other == number {
            return true;
        }
    }
    false
}

fn is_listed(numbers: &[u64], number: Option<u64>) -> bool
    ensures { result ≡ Leaves.is_among numbers.now number }
{
    match number {
        Some(number) => is_among(numbers, number),
        None => false,
    }
}

// Returns whether the text of a part is asked for.
fn is_value_wanted(wanted: &Wanted, lists: &BodyLists, part: &Part) -> bool
    ensures { result ≡ is_asked wanted.now (lists_of lists.now) (node_of part.now) }
{
    part.media.as_bytes().starts_with(b"text/")
        && (wanted.all_values
            || (wanted.text_values && is_listed(lists.text.as_slice(), part.number))
            || (wanted.html_values && is_listed(lists.html.as_slice(), part.number)))
}

// Returns the text of a part.
fn write_value(alloc: Global, bytes: &[u8], most: u64, part: &Part) -> Result<Json, NoMemory>
    requires { IsPlaced (length bytes.now) (node_of part.now) }
    ensures { IfOk result (λ t.
        json_of t ≡ value_tree (Texts.body_value bytes.now most (node_of part.now))) }
{
    let body = read_body_value(alloc, bytes, part, most)?;
    let mut value = Members::with_room(alloc, 3)?;
    value.set(alloc, "isEncodingProblem", Json::Bool(body.problem))?;
    value.set(alloc, "isTruncated", Json::Bool(body.truncated))?;
    value.set(alloc, "value", Json::Text(body.text))?;
    Ok(Json::Object(value))
}

// Puts the text of a part, if it is asked for.
fn put_value(
    alloc: Global,
    bytes: &[u8],
    wanted: &Wanted,
    lists: &BodyLists,
    part: &Part,
    values: &mut Members,
) -> Result<(), NoMemory>
    requires { IsPlaced (length bytes.now) (node_of part.now) }
    ensures { OnOk result (values.new
        ≡ put_all (entry bytes.now wanted.now (lists_of lists.now) (node_of part.now)) values.old) }
{
    if !is_value_wanted(wanted, lists, part) {
        return Ok(());
    }
    let Some(number) = part.number else {
        return Ok(());
    };
    let name = Text::from_string(format!(in alloc; "{number}")?);
    values.put(name, write_value(alloc, bytes, wanted.most_bytes, part)?)
}

// Returns the texts of some parts.
fn write_part_values(
    alloc: Global,
    bytes: &[u8],
    wanted: &Wanted,
    lists: &BodyLists,
    parts: &[&Part],
) -> Result<Members, NoMemory>
    requires { ArePlaced (length bytes.now) (nodes_of parts.now) }
    ensures { IfOk result (λ ms. ms
        ≡ put_all (entries bytes.now wanted.now (lists_of lists.now) (nodes_of parts.now)) []) }
{
    let mut values = Members::new(alloc);
    for part in parts {
        put_value(alloc, bytes, wanted, lists, part, &mut values)?;
    }
    Ok(values)
}

/// Returns the texts that are asked for, each under its partId.
pub(crate) fn write_body_values(
    alloc: Global,
    message: &Message<'_>,
    wanted: &Wanted,
) -> Result<Json, NoMemory>
    requires { IsRead message.now }
    ensures { IfOk result (λ t. json_of t
        ≡ values_tree message.now.showing.bytes.now wanted.now
        (parts_of message.now.showing.bytes.now)) }
{
    let bytes = message.showing.bytes;
    let values = write_part_values(alloc, bytes, wanted, message.lists, message.parts)?;
    Ok(Json::Object(values))
}
