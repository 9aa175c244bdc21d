// What `read` shows of a message, as a line of JSON.
ghost use Rattle.std.specs.Prelude.{◌≡◌, IfOk};
ghost use Rattle.jm_json.specs.Json.{tree_of as json_of};
ghost use Rattle.batch_lines.specs.Replies.{line_text};
ghost use Rattle.jmap_commands.specs.Read.{read_tree, read_out};

use batch_lines::append_line;
use get_args::build_wanted_for_read;
use jm_base::{Bytes, NoMemory};
use jm_json::Json;
use mail_view::view;
use std::alloc::Global;

/// Returns the line of a message: the properties that a client is shown where it asks for none, its
/// structure, and the texts that are shown as plain text. The message is dropped before the line is
/// written, so that the two are never held together.
pub(crate) fn build_message_line(alloc: Global, message: Bytes) -> Result<Bytes, NoMemory>
    ensures { IfOk result (λ b. b ≡ read_out message) }
{
    let tree = build_message_tree(alloc, message)?;
    build_json_line(alloc, &tree)
}

fn build_json_line(alloc: Global, tree: &Json) -> Result<Bytes, NoMemory>
    ensures { IfOk result (λ b. b ≡ line_text (json_of tree.now)) }
{
    let mut line = Bytes::new(alloc);
    append_line(alloc, tree, &mut line)?;
    Ok(line)
}

// Returns the value that is shown of a message.
fn build_message_tree(alloc: Global, message: Bytes) -> Result<Json, NoMemory>
    ensures { IfOk result (λ t. json_of t ≡ read_tree message) }
{
    let wanted = build_wanted_for_read(alloc)?;
    view(alloc, message.as_slice(), b"b1", None, &wanted)
}
