// A message once it is read, and the views of its parts (RFC 8621, section 4.1.4).
ghost use Rattle.std.specs.Prelude.{◌≡◌, IfOk};
ghost use Rattle.jm_json.specs.Json.{tree_of as json_of};
ghost use Rattle.jm_json.specs.Tree.{boolean, text as text_tree};
ghost use Rattle.mime_tree.specs.PartLimit.{parts_of};
ghost use Rattle.mail_summary.specs.Leaves.{has_attachment_in};
ghost use Rattle.mail_summary.specs.Texts;
ghost use Rattle.mail_view.specs.Messages.{IsRead, message_leaves, message_lists, message_structure};

use crate::part::Showing;
use crate::part_list::write_leaves;
use crate::structure::write_structure;
use body_lists::BodyLists;
use jm_base::{NoMemory, Numbers};
use jm_json::Json;
use mail_summary::{build_preview, has_attachment};
use mime_lines::FieldSpans;
use mime_type::Part;
use std::alloc::Global;

/// A message that was read once: its header fields, its parts as a tree and in walk order, and the
/// three lists of its leaves.
#[derive(Clone, Copy)]
pub(crate) struct Message<'a> {
    pub showing: Showing<'a>,
    pub fields: &'a FieldSpans,
    pub root: &'a Part,
    pub parts: &'a [&'a Part],
    pub lists: &'a BodyLists,
}

// Returns the leaves of these numbers.
fn write_leaf_list(
    alloc: Global,
    message: &Message<'_>,
    numbers: &Numbers,
) -> Result<Json, NoMemory>
    requires { IsRead message.now }
    ensures { IfOk result (λ t. json_of t ≡ message_leaves message.now numbers.now) }
{
    let items = write_leaves(alloc, &message.showing, message.parts, numbers.as_slice())?;
    Ok(Json::List(items))
}

/// Returns textBody: the parts to show as plain text.
pub(crate) fn write_text_body(alloc: Global, message: &Message<'_>) -> Result<Json, NoMemory>
    requires { IsRead message.now }
    ensures { IfOk result (λ t.
        json_of t ≡ message_leaves message.now (message_lists message.now).text) }
{
    write_leaf_list(alloc, message, &message.lists.text)
}

/// Returns htmlBody: the parts to show as HTML.
pub(crate) fn write_html_body(alloc: Global, message: &Message<'_>) -> Result<Json, NoMemory>
    requires { IsRead message.now }
    ensures { IfOk result (λ t.
        json_of t ≡ message_leaves message.now (message_lists message.now).html) }
{
    write_leaf_list(alloc, message, &message.lists.html)
}

/// Returns attachments: the parts that are in neither, and media that only one of the two shows.
pub(crate) fn write_attachments(alloc: Global, message: &Message<'_>) -> Result<Json, NoMemory>
    requires { IsRead message.now }
    ensures { IfOk result (λ t.
        json_of t ≡ message_leaves message.now (message_lists message.now).attachments) }
{
    write_leaf_list(alloc, message, &message.lists.attachments)
}

/// Returns bodyStructure: the parts as a tree.
pub(crate) fn write_body_structure(alloc: Global, message: &Message<'_>) -> Result<Json, NoMemory>
    requires { IsRead message.now }
    ensures { IfOk result (λ t. json_of t ≡ message_structure message.now) }
{
    write_structure(alloc, &message.showing, message.root)
}

/// Returns hasAttachment: whether an attachment is not to be shown inline.
pub(crate) fn write_has_attachment(alloc: Global, message: &Message<'_>) -> Result<Json, NoMemory>
    requires { IsRead message.now }
    ensures { IfOk result (λ t.
        json_of t ≡ boolean (has_attachment_in (parts_of message.now.showing.bytes.now))) }
{
    Ok(Json::Bool(has_attachment(alloc, message.root)?))
}

/// Returns preview: the first characters of the text body.
pub(crate) fn write_preview(alloc: Global, message: &Message<'_>) -> Result<Json, NoMemory>
    requires { IsRead message.now }
    ensures { IfOk result (λ t.
        json_of t ≡ text_tree (Texts.preview message.now.showing.bytes.now)) }
{
    let numbers = message.lists.text.as_slice();
    let words = build_preview(alloc, message.showing.bytes, message.root, numbers)?;
    Ok(Json::Text(words))
}
