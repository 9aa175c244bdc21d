// Reading a body in chunks from a link, of which nothing is kept.
ghost use Rattle.std.specs.Prelude.{◌≡◌, ◌<◌, ◌≤◌, ◌+◌, ◌++◌, length, List, ℕ, IfOk, IfErr, OnOk};
ghost use Rattle.http_parts.specs.Bodies.{BodyInvalid, BodyTooLong, BodyUnfinished, Whole};
ghost use Rattle.http_parts.specs.Chunks.{chunk_step, Settled, chunked_body};
ghost use Rattle.http_parts.specs.Parts.{Took, Halts, IsCountBelow, HasStep};
ghost use Rattle.http_parts.specs.declared.limits.TheConstants.{BODY_BYTES_LIMIT, CHUNK_BYTES_LIMIT, SEEN_BYTES_LIMIT};

use crate::body_fault::BodyFault;
use crate::dropped_bodies::drop_sized;
use crate::parts::{read_chunk_end, read_chunk_line, read_trailer};
use crate::unread::Unread;
use jm_edge::Link;

// Reads a chunk, and drops it. `left` is how many bytes the body may still have: it falls by those
// of the chunk. Returns how many bytes the chunk has with its lines; none if it is the last one,
// with the lines after it.
fn drop_chunk<L: Link>(
    link: &mut L,
    room: &mut [u8],
    left: &mut usize,
    bytes: &mut Unread,
) -> Result<Option<usize>, BodyFault>
    requires room { 0 < length room.old }
    requires small { left.old < BODY_BYTES_LIMIT }
    ensures ok { IfOk result (λ o. (limit : ℕ) (body : List ℕ) → length body + left.old ≡ limit
        → (next : List ℕ) × (length next + left.new ≡ limit)
        × Took (L.left link.old) (L.left link.new)
        (HasStep limit body next bytes.old bytes.new o)) }
    ensures err { IfErr result (λ e. (limit : ℕ) (body : List ℕ)
        → length body + left.old ≡ limit → Took (L.left link.old) (L.left link.new)
        (λ t. Halts e (chunk_step limit body (bytes.old ++ t) ≡ Settled BodyInvalid)
        (chunk_step limit body (bytes.old ++ t) ≡ Settled BodyTooLong)
        (chunk_step limit body (bytes.old ++ t) ≡ Settled BodyUnfinished)
        (length (bytes.old ++ t)) (L.left link.new) (L.read_faults link.old)
        (L.read_faults link.new))) }
    ensures below { IfErr result (IsCountBelow CHUNK_BYTES_LIMIT) }
    ensures room { length room.new ≡ length room.old }
    ensures later { L.read_faults link.old ≤ L.read_faults link.new }
    ensures held { L.held link.new ≡ L.held link.old }
    ensures put_faults { L.put_faults link.new ≡ L.put_faults link.old }
{
    let head = match read_chunk_line(link, room, bytes) {
        Ok(head) => head,
        Err(fault) => return Err(fault),
    };
    if head.size == 0 {
        return match read_trailer(link, room, bytes) {
            Ok(()) => Ok(None),
            Err(fault) => Err(fault.add_bytes_before(head.bytes)),
        };
    }
    if head.size > *left as u64 {
        return Err(BodyFault::TooLong);
    }
    let size = head.size as usize;
    match drop_sized(link, room, bytes, size) {
        Ok(()) => {}
        Err(fault) => return Err(fault.add_bytes_before(head.bytes)),
    }
    *left -= size;
    match read_chunk_end(link, room, bytes) {
        Ok(()) => Ok(Some(head.bytes + size + 2)),
        Err(fault) => Err(fault.add_bytes_before(head.bytes + size)),
    }
}

// Reads a body in chunks, and drops it.
pub(crate) fn drop_chunked<L: Link>(
    link: &mut L,
    room: &mut [u8],
    limit: usize,
    bytes: &mut Unread,
) -> Result<(), BodyFault>
    requires room { 0 < length room.old }
    requires small { limit < BODY_BYTES_LIMIT }
    ensures ok { OnOk result (Took (L.left link.old) (L.left link.new)
        (λ t. (body : List ℕ) × (chunked_body limit (bytes.old ++ t) ≡ Whole body bytes.new))) }
    ensures err { IfErr result (λ e. Took (L.left link.old) (L.left link.new)
        (λ t. Halts e (chunked_body limit (bytes.old ++ t) ≡ BodyInvalid)
        (chunked_body limit (bytes.old ++ t) ≡ BodyTooLong)
        (chunked_body limit (bytes.old ++ t) ≡ BodyUnfinished) (length (bytes.old ++ t))
        (L.left link.new) (L.read_faults link.old) (L.read_faults link.new))) }
    ensures below { IfErr result (IsCountBelow SEEN_BYTES_LIMIT) }
    ensures room { length room.new ≡ length room.old }
    ensures later { L.read_faults link.old ≤ L.read_faults link.new }
    ensures held { L.held link.new ≡ L.held link.old }
    ensures put_faults { L.put_faults link.new ≡ L.put_faults link.old }
{
    let mut left = limit;
    let mut passed = 0;
    'chunk: loop {
        match drop_chunk(link, room, &mut left, bytes) {
            Ok(None) => return Ok(()),
            Ok(Some(count)) => passed += count,
            Err(fault) => return Err(fault.add_bytes_before(passed)),
        }
    }
}
