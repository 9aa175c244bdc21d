// Writes a tree as JSON bytes (RFC 8259), over the writer of tokens.
ghost use Rattle.std.specs.Prelude.{◌≡◌, ◌≤◌, ◌++◌, [], None, IfOk, OnOk, OnErr, length, map};
ghost use Rattle.json.specs.Print.{print};
ghost use Rattle.json.specs.Tree.{json_tokens};
ghost use Rattle.serde_json.specs.Data.{array, depth, object};
ghost use Rattle.serde_json.specs.Read.{max_depth};
ghost use Rattle.serde_json.specs.Written.{compact_text, outline};
ghost use Rattle.jm_json.specs.Integers.{first_invalid};
ghost use Rattle.jm_json.specs.Reading as reading;
ghost use Rattle.jm_json.specs.Reading.{reading_of};
ghost use Rattle.jm_json.specs.Tree.{trees_of, fields_of};
ghost use Rattle.jm_json.specs.Json.{tree_of, member_of};
ghost use Rattle.jm_json.specs.Order.{KeysRise};
ghost use Rattle.jm_json.specs.JsonValues.{data_of, items_of, members_of};
ghost use Rattle.jm_json.specs.RoundTrips.{IsReadBack};

use crate::tree::{Json, Member};
use jm_base::{Bytes, NoMemory};
use json::Writer;
use std::alloc::Global;
use std::mem;

// The bytes that are reserved for a text. Most replies fit, so one allocation is enough.
pub(crate) const INITIAL_TEXT_BYTES: usize = 256;

/// Returns the compact text of a tree, with keys in byte order (RFC 8259). It is read back as the
/// tree if that nests at most `MAX_DEPTH` deep and its numbers are below 2^53 and above -2^53.
pub fn write(alloc: Global, tree: &Json) -> Result<Bytes, NoMemory>
    ensures text { IfOk result (λ b. b ≡ compact_text (data_of (tree_of tree.now))) }
    ensures reads_back { IfOk result (λ b. depth (data_of (tree_of tree.now)) ≤ max_depth
        → first_invalid (data_of (tree_of tree.now)) ≡ None → reading_of b
        ≡ reading.whole (tree_of tree.now)) }
{
    let bytes = Vec::with_capacity(alloc, INITIAL_TEXT_BYTES)?;
    let mut out = Writer::new(bytes);
    put_tree(tree, &mut out)?;
    Ok(Bytes::from_vec(out.into_inner()))
}

/// Adds the compact text of a tree after what is there. If an allocation fails, the bytes are
/// unchanged.
///
/// A text after others is written by itself and then copied: behind many bytes a writer clears some
/// thousands ahead, and for a short text that would cost more than the text.
pub fn write_after(alloc: Global, out: &mut Bytes, tree: &Json) -> Result<(), NoMemory>
    ensures ok { OnOk result (out.new ≡ out.old ++ compact_text (data_of (tree_of tree.now))) }
    ensures err { OnErr result (out.new ≡ out.old) }
{
    if out.is_empty() {
        return write_in_place(alloc, out, tree);
    }
    let text = write(alloc, tree)?;
    out.append(text.as_slice())
}

// Adds the compact text of a tree, with no copy of it.
fn write_in_place(alloc: Global, out: &mut Bytes, tree: &Json) -> Result<(), NoMemory>
    ensures ok { OnOk result (out.new ≡ out.old ++ compact_text (data_of (tree_of tree.now))) }
    ensures err { OnErr result (out.new ≡ out.old) }
{
    let before = out.len();
    let mut writer = take_writer(alloc, out);
    let written = put_tree(tree, &mut writer);
    give_back(out, before, writer, written)
}

// Returns a writer after what is there. It takes no memory.
pub(crate) fn take_writer(alloc: Global, out: &mut Bytes) -> Writer
    ensures before { result.before ≡ out.old }
    ensures tokens { result.tokens ≡ [] }
{
    Writer::new(mem::replace(out, Bytes::new(alloc)).into_vec())
}

// Gives back what a writer has written, and if that is not the whole, only what was there before.
pub(crate) fn give_back(
    out: &mut Bytes,
    before: usize,
    writer: Writer,
    written: Result<(), NoMemory>,
) -> Result<(), NoMemory>
    requires { before ≡ length writer.before }
    ensures same { result ≡ written }
    ensures ok { OnOk result (out.new ≡ writer.before ++ print writer.tokens) }
    ensures err { OnErr result (out.new ≡ writer.before) }
{
    let mut bytes = writer.into_inner();
    match written {
        Ok(()) => {
            *out = Bytes::from_vec(bytes);
            Ok(())
        }
        Err(refused) => {
            bytes.truncate(before);
            *out = Bytes::from_vec(bytes);
            Err(refused)
        }
    }
}

// Adds the tokens of a tree. If an allocation fails, some of them were added.
#[cycle(put)]
pub(crate) fn put_tree(tree: &Json, out: &mut Writer) -> Result<(), NoMemory>
    ensures tokens { OnOk result
        (out.new.tokens ≡ out.old.tokens ++ json_tokens (outline (data_of (tree_of tree.now)))) }
    ensures before { out.new.before ≡ out.old.before }
    ensures read { OnOk result (IsReadBack (data_of (tree_of tree.now))) }
{
    match tree {
        Json::Null => Ok(out.null()?),
        Json::Bool(b) => Ok(out.boolean(*b)?),
        Json::Int(z) => Ok(out.i64(*z)?),
        Json::Text(text) => Ok(out.string(text.as_str())?),
        Json::List(items) => put_items(items.as_slice(), out),
        Json::Object(members) => put_members(members.as_slice(), out),
    }
}

#[cycle(put)]
fn put_items(items: &[Json], out: &mut Writer) -> Result<(), NoMemory>
    ensures tokens { OnOk result (out.new.tokens ≡ out.old.tokens
        ++ json_tokens (outline (array (items_of (trees_of (map tree_of items.now)))))) }
    ensures before { out.new.before ≡ out.old.before }
    ensures read { OnOk result (IsReadBack (array (items_of (trees_of (map tree_of items.now))))) }
{
    out.begin_array()?;
    for item in items {
        put_tree(item, out)?;
    }
    out.end_array()?;
    Ok(())
}

#[cycle(put)]
fn put_members(members: &[Member], out: &mut Writer) -> Result<(), NoMemory>
    requires { KeysRise (map member_of members.now) }
    ensures tokens { OnOk result (out.new.tokens ≡ out.old.tokens
        ++ json_tokens (outline (object (members_of (fields_of (map member_of members.now)))))) }
    ensures before { out.new.before ≡ out.old.before }
    ensures read { OnOk result
        (IsReadBack (object (members_of (fields_of (map member_of members.now))))) }
{
    out.begin_object()?;
    for member in members {
        out.key(member.name.as_str())?;
        put_tree(&member.value, out)?;
    }
    out.end_object()?;
    Ok(())
}
