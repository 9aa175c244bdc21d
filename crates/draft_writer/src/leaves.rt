// The parts of a draft that are no multiparts (RFC 2045, section 6; RFC 2046, section 5.2.1).
ghost use Rattle.std.specs.Prelude.{◌≡◌, ◌++◌, OnOk, IfOk, Some, None};
ghost use Rattle.draft_writer.specs.Parts;
ghost use Rattle.draft_writer.specs.Steps;

use draft_form::Content;
use jm_base::{Bytes, NoMemory};
use mail_text::is_same_name;
use mime_codec::Coding;
use mime_writer::{PartHead, push_base64, push_head, push_quoted_printable};
use std::alloc::Global;

// Returns whether a part has the type message/rfc822, in either case.
fn is_message(head: &PartHead) -> bool
    ensures { result ≡ Parts.is_message head.now }
{
    is_same_name(head.main.as_slice(), "message".as_bytes())
        && is_same_name(head.sub.as_slice(), "rfc822".as_bytes())
}

/// Returns whether a part is a message that stands as it is.
pub fn is_raw(head: &PartHead, content: &Content) -> bool
    ensures { result ≡ Parts.is_raw head.now content.now }
{
    match content {
        Content::Value(_) => false,
        Content::Blob => is_message(head),
    }
}

// Returns the transfer encoding of a part.
fn find_coding(head: &PartHead, content: &Content) -> Coding
    ensures { result ≡ Parts.coding_of head.now content.now }
{
    match content {
        Content::Value(_) => Coding::Quoted,
        Content::Blob => if is_message(head) {
            Coding::Plain
        } else {
            Coding::Base64
        },
    }
}

// Lends the bytes of a body.
fn find_bytes<'a>(content: &'a Content, blobs: &'a [Bytes]) -> &'a [u8]
    ensures { result.now ≡ Parts.bytes_of blobs.now content.now }
{
    match content {
        Content::Value(text) => text.as_bytes(),
        Content::Blob => lend_first(blobs),
    }
}

// Lends the first of some blobs.
fn lend_first(blobs: &[Bytes]) -> &[u8]
    ensures { result.now ≡ Parts.first_blob blobs.now }
{
    match blobs.split_first() {
        Some((blob, _)) => blob.as_slice(),
        None => &[],
    }
}

// Lends all but the first of some blobs.
fn lend_others(blobs: &[Bytes]) -> &[Bytes]
    ensures { result.now ≡ Rattle.std.specs.Prelude.drop 1 blobs.now }
{
    match blobs.split_first() {
        Some((_, others)) => others,
        None => &[],
    }
}

/// Returns the blobs of the parts after this one.
pub fn find_later_blobs<'a>(content: &Content, blobs: &'a [Bytes]) -> &'a [Bytes]
    ensures { result.now ≡ Parts.blobs_after blobs.now content.now }
{
    match content {
        Content::Value(_) => blobs,
        Content::Blob => lend_others(blobs),
    }
}

// Adds a body in a transfer encoding.
fn push_encoded(out: &mut Vec<u8>, coding: Coding, bytes: &[u8]) -> Result<(), NoMemory>
    ensures { OnOk result (out.new.items ≡ out.old.items ++ Parts.encoded_body coding bytes.now) }
{
    match coding {
        Coding::Quoted => push_quoted_printable(out, bytes),
        Coding::Base64 => push_base64(out, bytes),
        Coding::Plain | Coding::Unknown => {
            out.extend_from_slice(bytes)?;
            Ok(())
        }
    }
}

/// Adds the head and the body of a part.
pub fn push_leaf(
    alloc: Global,
    out: &mut Vec<u8>,
    head: &PartHead,
    content: &Content,
    blobs: &[Bytes],
) -> Result<(), NoMemory>
    ensures { OnOk result (out.new.items ≡ out.old.items
        ++ Steps.leaf_text blobs.now head.now content.now) }
{
    let coding = find_coding(head, content);
    push_head(alloc, out, head, None, Some(coding))?;
    out.extend_from_slice("\r\n".as_bytes())?;
    push_encoded(out, coding, find_bytes(content, blobs))?;
    Ok(())
}
