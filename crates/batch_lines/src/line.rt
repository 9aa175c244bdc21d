// The reply to one line, and the line that is held until it ends.
ghost use Rattle.std.specs.Prelude.{◌≡◌, ◌≢◌, ◌-◌, ℕ, [], ◌∷◌, ◌++◌, length, take, true, false, IfOk, OnOk, OnErr, MatchOption};
ghost use Rattle.jm_json.specs.Json.{tree_of};
ghost use Rattle.batch_lines.specs.Lines.{IsOneLine};
ghost use Rattle.batch_lines.specs.Replies.{HasBegunLine, IsLineReply, begins_with_plus, line_text};
ghost use Rattle.batch_lines.specs.Pieces.{HasAnsweredLine, HasStopped, most_held};

use crate::limits::{MAX_HELD_REQUEST_BYTES, MAX_HELD_UPLOAD_BYTES};
use crate::upload::{UploadPort, answer_upload};
use jm_base::{Bytes, NoMemory};
use jm_json::{Json, write_after};
use memchr::memchr;
use method_batch::{write_answer, write_answer_over};
use std::alloc::Global;

/// The line that ends first, and what follows its line feed.
#[derive(Clone, Copy)]
pub(crate) struct Cut<'a> {
    pub line: &'a [u8],
    pub rest: &'a [u8],
}

/// Cuts off the line that ends first.
pub(crate) fn cut_line(bytes: &[u8]) -> Option<Cut<'_>>
    ensures { MatchOption result (IsOneLine bytes.now)
        (λ c. (bytes.now ≡ c.line.now ++ 10 ∷ c.rest.now) × IsOneLine c.line.now) }
{
    match memchr(b'\n', bytes) {
        Some(at) => {
            let (line, more) = bytes.split_at(at);
            Some(Cut {
                line,
                rest: &more[1..],
            })
        }
        None => None,
    }
}

/// Appends bytes to a held line, as far as they count.
pub(crate) fn hold(line: &mut Bytes, more: &[u8]) -> Result<(), NoMemory>
    ensures ok { OnOk result (line.new ≡ line.old
        ++ take (most_held (line.old ++ more.now) - length line.old) more.now) }
    ensures err { OnErr result (line.new ≡ line.old) }
{
    let most = choose_held_limit_of_both(line.as_slice(), more);
    let count = more.len().min(most.saturating_sub(line.len()));
    line.append(&more[..count])
}

// Returns how many bytes of a line are held, by its first bytes.
fn choose_held_limit(line: &[u8]) -> usize
    ensures { result ≡ most_held line.now }
{
    if begins_with_plus(line) {
        return MAX_HELD_UPLOAD_BYTES;
    }
    MAX_HELD_REQUEST_BYTES
}

// Returns how many bytes are held of a line of which these are, and more.
fn choose_held_limit_of_both(line: &[u8], more: &[u8]) -> usize
    ensures { result ≡ most_held (line.now ++ more.now) }
{
    if line.is_empty() {
        return choose_held_limit(more);
    }
    choose_held_limit(line)
}

/// Answers the line that is held and ends with these bytes, and begins the next line. If memory
/// runs out, the first calls of the line were performed, or all, and a prefix of the reply was
/// appended.
pub(crate) fn end_line<P: UploadPort>(
    alloc: Global,
    port: &mut P,
    line: &mut Bytes,
    last: &[u8],
    replies: &mut Bytes,
) -> Result<(), NoMemory>
    ensures ok { OnOk result (HasAnsweredLine P.answers
        P.uploads port.old port.new (line.old ++ last.now) replies.old replies.new) }
    ensures begun { OnOk result (line.new ≡ []) }
    ensures err { OnErr result (HasStopped P.answers P.uploads P.stops
        P.halts port.old port.new (line.old ++ last.now) replies.old replies.new) }
{
    if line.is_empty() {
        return answer_line(alloc, port, last, replies);
    }
    match hold(line, last) {
        Ok(()) => answer_held(alloc, port, line, replies),
        Err(refused) => Err(refused),
    }
}

fn answer_held<P: UploadPort>(
    alloc: Global,
    port: &mut P,
    line: &mut Bytes,
    replies: &mut Bytes,
) -> Result<(), NoMemory>
    ensures ok { OnOk result (HasAnsweredLine P.answers
        P.uploads port.old port.new line.old replies.old replies.new) }
    ensures begun { OnOk result (line.new ≡ []) }
    ensures err { OnErr result (HasStopped P.answers P.uploads P.stops
        P.halts port.old port.new line.old replies.old replies.new) }
{
    if line.is_empty() {
        return Ok(());
    }
    if begins_with_plus(line.as_slice()) {
        return reply_to_held_upload(alloc, port, line, replies);
    }
    reply_to_held_request(alloc, port, line, replies)
}

fn reply_to_held_upload<P: UploadPort>(
    alloc: Global,
    port: &mut P,
    line: &mut Bytes,
    replies: &mut Bytes,
) -> Result<(), NoMemory>
    requires some { line.old ≢ [] }
    requires plus { begins_with_plus line.old ≡ true }
    ensures ok { OnOk result (HasAnsweredLine P.answers
        P.uploads port.old port.new line.old replies.old replies.new) }
    ensures begun { OnOk result (line.new ≡ []) }
    ensures err { OnErr result (HasStopped P.answers P.uploads P.stops
        P.halts port.old port.new line.old replies.old replies.new) }
{
    match reply_to_upload(alloc, port, line.as_slice(), replies) {
        Ok(()) => {
            line.clear();
            Ok(())
        }
        Err(refused) => Err(refused),
    }
}

// Answers a held line that is the bytes of a request. If no reply waits, this one is written to the
// memory of the line, so that a long one does not take as much again.
fn reply_to_held_request<P: UploadPort>(
    alloc: Global,
    port: &mut P,
    line: &mut Bytes,
    replies: &mut Bytes,
) -> Result<(), NoMemory>
    requires some { line.old ≢ [] }
    requires plain { begins_with_plus line.old ≡ false }
    ensures ok { OnOk result (HasAnsweredLine P.answers
        P.uploads port.old port.new line.old replies.old replies.new) }
    ensures begun { OnOk result (line.new ≡ []) }
    ensures err { OnErr result (HasStopped P.answers P.uploads P.stops
        P.halts port.old port.new line.old replies.old replies.new) }
{
    match write_answer_over(alloc, port, line, replies) {
        Ok(()) => replies.append(b"\n"),
        Err(refused) => Err(refused),
    }
}

fn answer_line<P: UploadPort>(
    alloc: Global,
    port: &mut P,
    line: &[u8],
    replies: &mut Bytes,
) -> Result<(), NoMemory>
    ensures ok { OnOk result (HasAnsweredLine P.answers
        P.uploads port.old port.new line.now replies.old replies.new) }
    ensures err { OnErr result (HasStopped P.answers P.uploads P.stops
        P.halts port.old port.new line.now replies.old replies.new) }
{
    if line.is_empty() {
        return Ok(());
    }
    if begins_with_plus(line) {
        return reply_to_upload(alloc, port, line, replies);
    }
    reply_to_request(alloc, port, line, replies)
}

// Answers a line that begins with `+`, and appends the reply.
fn reply_to_upload<P: UploadPort>(
    alloc: Global,
    port: &mut P,
    line: &[u8],
    replies: &mut Bytes,
) -> Result<(), NoMemory>
    requires some { line.now ≢ [] }
    requires plus { begins_with_plus line.now ≡ true }
    ensures ok { OnOk result (HasAnsweredLine P.answers
        P.uploads port.old port.new line.now replies.old replies.new) }
    ensures err { OnErr result (HasStopped P.answers P.uploads P.stops
        P.halts port.old port.new line.now replies.old replies.new) }
{
    match answer_plus(alloc, port, line) {
        Ok(tree) => append_line(alloc, &tree, replies),
        Err(refused) => Err(refused),
    }
}

// Answers a line that is the bytes of a request, and appends the reply.
fn reply_to_request<P: UploadPort>(
    alloc: Global,
    port: &mut P,
    line: &[u8],
    replies: &mut Bytes,
) -> Result<(), NoMemory>
    requires some { line.now ≢ [] }
    requires plain { begins_with_plus line.now ≡ false }
    ensures ok { OnOk result (HasAnsweredLine P.answers
        P.uploads port.old port.new line.now replies.old replies.new) }
    ensures err { OnErr result (HasStopped P.answers P.uploads P.stops
        P.halts port.old port.new line.now replies.old replies.new) }
{
    match write_answer(alloc, port, line, replies) {
        Ok(()) => replies.append(b"\n"),
        Err(refused) => Err(refused),
    }
}

/// Appends the text of a JSON value and a line feed. If memory runs out, a prefix of them is
/// appended.
pub fn append_line(alloc: Global, tree: &Json, line: &mut Bytes) -> Result<(), NoMemory>
    ensures ok { OnOk result (line.new ≡ line.old ++ line_text (tree_of tree.now)) }
    ensures err { OnErr result ((n : ℕ)
        × (line.new ≡ line.old ++ take n (line_text (tree_of tree.now)))) }
{
    match write_after(alloc, line, tree) {
        Ok(()) => line.append(b"\n"),
        Err(refused) => Err(refused),
    }
}

// Answers a line that begins with `+`.
fn answer_plus<P: UploadPort>(alloc: Global, port: &mut P, line: &[u8]) -> Result<Json, NoMemory>
    requires some { line.now ≢ [] }
    requires plus { begins_with_plus line.now ≡ true }
    ensures ok { IfOk result (λ t. IsLineReply P.answers
        P.uploads port.old port.new line.now (line_text (tree_of t))) }
    ensures err { OnErr result (HasBegunLine P.answers P.uploads P.stops
        P.halts port.old port.new line.now) }
{
    answer_upload(alloc, port, &line[1..])
}

fn begins_with_plus(line: &[u8]) -> bool
    ensures { result ≡ begins_with_plus line.now }
{
    !line.is_empty() && line[0] == b'+'
}
