// Reading the lines of a body in chunks from a link.
ghost use Rattle.std.specs.Prelude.{◌≡◌, ◌<◌, ◌≤◌, ◌+◌, ◌++◌, length, IfOk, IfErr, OnOk, List, ℕ};
ghost use Rattle.http_parts.specs.declared.limits.TheConstants.{MAX_CHUNK_LINE_BYTES, MAX_TRAILER_BYTES};
ghost use Rattle.http_parts.specs.Bodies.{BodyInvalid, BodyUnfinished, Whole};
ghost use Rattle.http_parts.specs.Chunks.{chunk_line, LineInvalid, LineUnfinished, chunk_end, EndInvalid, EndUnfinished, Ends, trailer};
ghost use Rattle.http_parts.specs.Parts.{Took, Halts, Grows, Breaks, IsCountBelow, HasLine, body_fault_of};

use crate::WireFault;
use crate::body_fault::BodyFault;
use crate::chunk_ends::{EndFound, find_chunk_end, find_trailer};
use crate::chunk_lines::{ChunkHead, LineFound, find_chunk_line};
use crate::pieces::read_piece;
use crate::unread::Unread;
use jm_edge::Link;

// Returns why no part of a body was read.
fn find_body_fault(fault: WireFault) -> BodyFault
    ensures { result ≡ body_fault_of fault }
{
    match fault {
        WireFault::ReadFault => BodyFault::ReadFault,
        _ => BodyFault::NoMemory,
    }
}

// Reads more bytes of the link after the unread ones, at least one.
fn read_more<L: Link>(link: &mut L, room: &mut [u8], bytes: &mut Unread) -> Result<(), BodyFault>
    requires { 0 < length room.old }
    ensures ok { OnOk result (Grows bytes.old bytes.new (L.left link.old) (L.left link.new)) }
    ensures err { IfErr result (λ e. Breaks e bytes.old (L.left link.old) (L.left link.new)
        (L.read_faults link.old) (L.read_faults link.new)) }
    ensures room { length room.new ≡ length room.old }
    ensures later { L.read_faults link.old ≤ L.read_faults link.new }
    ensures held { L.held link.new ≡ L.held link.old }
    ensures put_faults { L.put_faults link.new ≡ L.put_faults link.old }
{
    let before = bytes.len();
    let count = match read_piece(link, room, bytes) {
        Ok(count) => count,
        Err(fault) => return Err(find_body_fault(fault)),
    };
    if count == 0 {
        return Err(BodyFault::Ended(before));
    }
    Ok(())
}

// Reads the line at which a chunk begins.
pub(crate) fn read_chunk_line<L: Link>(
    link: &mut L,
    room: &mut [u8],
    bytes: &mut Unread,
) -> Result<ChunkHead, BodyFault>
    requires { 0 < length room.old }
    ensures ok { IfOk result (λ head. Took (L.left link.old) (L.left link.new) (HasLine bytes.old
        bytes.new head)) }
    ensures err { IfErr result (λ e. Took (L.left link.old) (L.left link.new) (λ t. Halts e
        (chunk_line (bytes.old ++ t) ≡ LineInvalid) ⊥ (chunk_line (bytes.old ++ t) ≡
        LineUnfinished) (length (bytes.old ++ t)) (L.left link.new) (L.read_faults link.old)
        (L.read_faults link.new))) }
    ensures below { IfErr result (IsCountBelow MAX_CHUNK_LINE_BYTES) }
    ensures room { length room.new ≡ length room.old }
    ensures later { L.read_faults link.old ≤ L.read_faults link.new }
    ensures held { L.held link.new ≡ L.held link.old }
    ensures put_faults { L.put_faults link.new ≡ L.put_faults link.old }
{
    'turn: loop {
        match find_chunk_line(bytes.as_slice()) {
            LineFound::Invalid => return Err(BodyFault::Invalid),
            LineFound::Ended(head) => {
                bytes.skip(head.bytes);
                return Ok(head);
            }
            LineFound::Unfinished => {}
        }
        match read_more(link, room, bytes) {
            Ok(()) => {}
            Err(fault) => return Err(fault),
        }
    }
}

// Reads the line end after the bytes of a chunk.
pub(crate) fn read_chunk_end<L: Link>(
    link: &mut L,
    room: &mut [u8],
    bytes: &mut Unread,
) -> Result<(), BodyFault>
    requires { 0 < length room.old }
    ensures ok { OnOk result (Took (L.left link.old) (L.left link.new) (λ t. (chunk_end (bytes.old
        ++ t) ≡ Ends bytes.new) × (2 + length bytes.new ≡ length (bytes.old ++ t)))) }
    ensures err { IfErr result (λ e. Took (L.left link.old) (L.left link.new) (λ t. Halts e
        (chunk_end (bytes.old ++ t) ≡ EndInvalid) ⊥ (chunk_end (bytes.old ++ t) ≡ EndUnfinished)
        (length (bytes.old ++ t)) (L.left link.new) (L.read_faults link.old) (L.read_faults
        link.new))) }
    ensures below { IfErr result (IsCountBelow 2) }
    ensures room { length room.new ≡ length room.old }
    ensures later { L.read_faults link.old ≤ L.read_faults link.new }
    ensures held { L.held link.new ≡ L.held link.old }
    ensures put_faults { L.put_faults link.new ≡ L.put_faults link.old }
{
    'turn: loop {
        match find_chunk_end(bytes.as_slice()) {
            EndFound::Invalid => return Err(BodyFault::Invalid),
            EndFound::Ended(count) => {
                bytes.skip(count);
                return Ok(());
            }
            EndFound::Unfinished => {}
        }
        match read_more(link, room, bytes) {
            Ok(()) => {}
            Err(fault) => return Err(fault),
        }
    }
}

// Reads the lines after the last chunk.
pub(crate) fn read_trailer<L: Link>(
    link: &mut L,
    room: &mut [u8],
    bytes: &mut Unread,
) -> Result<(), BodyFault>
    requires { 0 < length room.old }
    ensures ok { OnOk result (Took (L.left link.old) (L.left link.new) (λ t. (body : List ℕ) →
        trailer body (bytes.old ++ t) ≡ Whole body bytes.new)) }
    ensures err { IfErr result (λ e. (body : List ℕ) → Took (L.left link.old) (L.left link.new) (λ
        t. Halts e (trailer body (bytes.old ++ t) ≡ BodyInvalid) ⊥ (trailer body (bytes.old ++ t) ≡
        BodyUnfinished) (length (bytes.old ++ t)) (L.left link.new) (L.read_faults link.old)
        (L.read_faults link.new))) }
    ensures below { IfErr result (IsCountBelow MAX_TRAILER_BYTES) }
    ensures room { length room.new ≡ length room.old }
    ensures later { L.read_faults link.old ≤ L.read_faults link.new }
    ensures held { L.held link.new ≡ L.held link.old }
    ensures put_faults { L.put_faults link.new ≡ L.put_faults link.old }
{
    'turn: loop {
        match find_trailer(bytes.as_slice()) {
            EndFound::Invalid => return Err(BodyFault::Invalid),
            EndFound::Ended(count) => {
                bytes.skip(count);
                return Ok(());
            }
            EndFound::Unfinished => {}
        }
        match read_more(link, room, bytes) {
            Ok(()) => {}
            Err(fault) => return Err(fault),
        }
    }
}
