// Reading the body of a message.
ghost use Rattle.std.specs.Prelude.{◌≡◌, ◌<◌, ◌≤◌, ◌++◌, length, IfOk, IfErr, OnOk, List, ℕ};
ghost use Rattle.http_parts.specs.Bodies.{BodyInvalid, BodyTooLong, BodyUnfinished, Whole};
ghost use Rattle.http_parts.specs.Plans.{IsWithinLimit, planned};
ghost use Rattle.http_parts.specs.Parts.{Took, Halts, IsCountBelow};
ghost use Rattle.http_parts.specs.declared.limits.TheConstants.{BODY_BYTES_LIMIT, SEEN_BYTES_LIMIT};

use crate::body_fault::BodyFault;
use crate::chunks::read_chunked;
use crate::dropped_bodies::drop_sized;
use crate::dropped_chunks::drop_chunked;
use crate::sized_bodies::read_sized;
use crate::unread::Unread;
use jm_edge::Link;
use std::alloc::Global;

/// How a body is read.
#[derive(Clone, Copy, Debug, PartialEq, Eq)]
pub enum BodyPlan {
    /// The fields contradict each other or the grammar (status 400).
    Invalid,

    /// The body is longer than the limit (status 413).
    TooLong,

    /// So many bytes.
    Sized(usize),

    /// Chunks (RFC 9112, 7.1).
    Chunked,
}

/// Reads a body by its plan, of at most so many bytes. `bytes` has the bytes of the link that were
/// read before and not yet used: the body begins with them, and after the call `bytes` has those
/// after the body. `room` is where one read of the link puts bytes that are not the body's own.
///
/// A body of a size is read straight into the buffer that is returned, and no byte after it is
/// read.
///
/// Fails with `Invalid` or `TooLong` exactly by the bytes, with `Ended` and the count of bytes
/// seen if the link ends before the body does, with `ReadFault` only if the link fails, and with
/// `NoMemory` if an allocation fails.
#[tactic(auto, using(crate::proofs::SizedBody::sized_done, crate::proofs::SizedBody::sized_cut))]
pub fn read_body<L: Link>(
    alloc: Global,
    link: &mut L,
    room: &mut [u8],
    plan: BodyPlan,
    limit: usize,
    bytes: &mut Unread,
) -> Result<Vec<u8>, BodyFault>
    requires room { 0 < length room.old }
    requires small { limit < BODY_BYTES_LIMIT }
    requires within { IsWithinLimit limit plan }
    ensures ok { IfOk result (λ b. Took (L.left link.old) (L.left link.new) (λ t. planned limit
        plan (bytes.old ++ t) ≡ Whole b.items bytes.new)) }
    ensures err { IfErr result (λ e. Took (L.left link.old) (L.left link.new) (λ t. Halts e
        (planned limit plan (bytes.old ++ t) ≡ BodyInvalid) (planned limit plan (bytes.old ++ t) ≡
        BodyTooLong) (planned limit plan (bytes.old ++ t) ≡ BodyUnfinished) (length (bytes.old ++
        t)) (L.left link.new) (L.read_faults link.old) (L.read_faults link.new))) }
    ensures below { IfErr result (IsCountBelow SEEN_BYTES_LIMIT) }
    ensures room { length room.new ≡ length room.old }
    ensures later { L.read_faults link.old ≤ L.read_faults link.new }
    ensures held { L.held link.new ≡ L.held link.old }
    ensures put_faults { L.put_faults link.new ≡ L.put_faults link.old }
{
    let size = match plan {
        BodyPlan::Invalid => return Err(BodyFault::Invalid),
        BodyPlan::TooLong => return Err(BodyFault::TooLong),
        BodyPlan::Chunked => return read_chunked(alloc, link, room, limit, bytes),
        BodyPlan::Sized(size) => size,
    };
    let mut body = Vec::new(alloc);
    match read_sized(link, &mut body, bytes, size) {
        Ok(()) => Ok(body),
        Err(fault) => Err(fault),
    }
}

/// Reads a body as [`read_body`] does, and drops its bytes as they come: no memory holds them.
///
/// Fails as [`read_body`] does.
#[tactic(auto, using(crate::proofs::Dropped::sized_dropped, crate::proofs::SizedBody::sized_cut))]
pub fn drop_body<L: Link>(
    link: &mut L,
    room: &mut [u8],
    plan: BodyPlan,
    limit: usize,
    bytes: &mut Unread,
) -> Result<(), BodyFault>
    requires room { 0 < length room.old }
    requires small { limit < BODY_BYTES_LIMIT }
    requires within { IsWithinLimit limit plan }
    ensures ok { OnOk result (Took (L.left link.old) (L.left link.new)
        (λ t. (body : List ℕ) × (planned limit plan (bytes.old ++ t) ≡ Whole body bytes.new))) }
    ensures err { IfErr result (λ e. Took (L.left link.old) (L.left link.new) (λ t. Halts e
        (planned limit plan (bytes.old ++ t) ≡ BodyInvalid) (planned limit plan (bytes.old ++ t) ≡
        BodyTooLong) (planned limit plan (bytes.old ++ t) ≡ BodyUnfinished) (length (bytes.old ++
        t)) (L.left link.new) (L.read_faults link.old) (L.read_faults link.new))) }
    ensures below { IfErr result (IsCountBelow SEEN_BYTES_LIMIT) }
    ensures room { length room.new ≡ length room.old }
    ensures later { L.read_faults link.old ≤ L.read_faults link.new }
    ensures held { L.held link.new ≡ L.held link.old }
    ensures put_faults { L.put_faults link.new ≡ L.put_faults link.old }
{
    match plan {
        BodyPlan::Invalid => Err(BodyFault::Invalid),
        BodyPlan::TooLong => Err(BodyFault::TooLong),
        BodyPlan::Chunked => drop_chunked(link, room, limit, bytes),
        BodyPlan::Sized(size) => drop_sized(link, room, bytes, size),
    }
}
