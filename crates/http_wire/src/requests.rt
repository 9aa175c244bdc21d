// Reading a request from a link.
ghost use Rattle.std.specs.Prelude.{◌≡◌, ◌<◌, ◌≤◌, ◌-◌, ◌++◌, length, take, drop, true, IfErr, IfOk, OnOk, List, ℕ};
ghost use Rattle.std.specs.Io.KnownBytes.{Appends};
ghost use Rattle.jm_edge.specs.Causes.{Rose};
ghost use Rattle.http_parts.specs.declared.limits.TheConstants.{BODY_BYTES_LIMIT, MAX_HEAD_BYTES, SEEN_BYTES_LIMIT};
ghost use Rattle.http_parts.specs.Bodies.{BodyInvalid, BodyTooLong, BodyUnfinished, Whole};
ghost use Rattle.http_parts.specs.Plans.{IsWithinLimit, kept_bytes, planned};
ghost use Rattle.http_parts.specs.Views.{IsHeadAt, IsWithin};
ghost use Rattle.http_wire.specs.Responses.{continue_bytes, IsPrefixWritten};
ghost use Rattle.http_wire.specs.Requests.{ReadsRequestFrom};
ghost use Rattle.http_parts.specs.Parts.{Halts, IsCountBelow, Took};
ghost use Rattle.http_wire.specs.FramedHeads.{IsMade, continued_bytes, wire_fault_of};

use crate::connection::is_last;
use crate::framed_head::{FramedHead, frame_head};
use crate::head_parser::ParsedHead;
use crate::keeping::KeepsBody;
use crate::request::HttpRequest;
use crate::responses::put_bytes;
use http_parts::{
    BodyFault, BodyPlan, HeadSpan, Unread, WireFault, drop_body, read_body, read_head,
};
use jm_base::Bytes;
use jm_edge::Link;
use std::alloc::Global;

// Returns the bytes of a head.
pub(crate) fn find_head_bytes(bytes: &[u8], at: HeadSpan) -> &[u8]
    requires { IsWithin bytes.now at }
    ensures { result.now ≡ take (at.end - at.start) (drop at.start bytes.now) }
{
    let (_, begun) = bytes.split_at(at.start);
    let (head, _) = begun.split_at(at.end - at.start);
    head
}

// Writes the interim response, if it is due.
#[tactic(auto, using(crate::proofs::Answered::nothing_put))]
fn put_continue<L: Link>(link: &mut L, due: bool) -> Result<(), WireFault>
    ensures ok { OnOk result (Appends (L.held link.old) (L.held link.new) (continued_bytes due)) }
    ensures due { IfErr result (λ _. due ≡ true) }
    ensures err { IfErr result (λ e. IsPrefixWritten e (L.held link.old) (L.held link.new)
        continue_bytes) }
    ensures cause { IfErr result (λ _. Rose (L.put_faults link.old) (L.put_faults link.new)) }
    ensures left { L.left link.new ≡ L.left link.old }
    ensures read_faults { L.read_faults link.new ≡ L.read_faults link.old }
    ensures later { L.put_faults link.old ≤ L.put_faults link.new }
{
    if !due {
        return Ok(());
    }
    put_bytes(link, b"HTTP/1.1 100 Continue\r\n\r\n")
}

// Returns why no request was read, from why its body was not. Its head has so many bytes.
pub(crate) fn find_wire_fault(fault: BodyFault, head: usize, limit: usize) -> WireFault
    requires below { IsCountBelow SEEN_BYTES_LIMIT fault }
    requires small { head < SEEN_BYTES_LIMIT }
    ensures { result ≡ wire_fault_of head limit fault }
{
    match fault {
        BodyFault::Invalid => WireFault::BadHead,
        BodyFault::TooLong => WireFault::BodyTooLong(limit as u64),
        BodyFault::Ended(count) => WireFault::CutOff((head + count) as u64),
        BodyFault::ReadFault => WireFault::ReadFault,
        BodyFault::NoMemory => WireFault::NoMemory,
    }
}

// Returns the request with this head and this body.
fn make_request(framed: FramedHead, body: Vec<u8>) -> HttpRequest
    ensures { IsMade framed body.items result }
{
    let last = is_last(framed.head.minor, framed.head.fields.as_slice());
    let FramedHead { head, .. } = framed;
    let ParsedHead {
        method,
        target,
        fields,
        minor,
    } = head;
    HttpRequest {
        method,
        target,
        fields,
        body: Bytes::from_vec(body),
        minor,
        last,
    }
}

// Reads a body by its plan. Returns its bytes, or none of them if it is not kept.
#[tactic(auto, using(crate::proofs::Answered::took_kept, crate::proofs::Answered::took_dropped))]
fn take_body<L: Link>(
    alloc: Global,
    link: &mut L,
    room: &mut [u8],
    plan: BodyPlan,
    limit: usize,
    early: &mut Unread,
    keep: bool,
) -> Result<Vec<u8>, BodyFault>
    requires room { 0 < length room.old }
    requires small { limit < BODY_BYTES_LIMIT }
    requires within { IsWithinLimit limit plan }
    ensures ok { IfOk result (λ b. Took (L.left link.old) (L.left link.new)
        (λ t. (body : List ℕ) × (planned limit plan (early.old ++ t) ≡ Whole body early.new)
        × (b.items ≡ kept_bytes keep body))) }
    ensures err { IfErr result (λ e. Took (L.left link.old) (L.left link.new)
        (λ t. Halts e (planned limit plan (early.old ++ t) ≡ BodyInvalid)
        (planned limit plan (early.old ++ t) ≡ BodyTooLong)
        (planned limit plan (early.old ++ t) ≡ BodyUnfinished) (length (early.old ++ t))
        (L.left link.new) (L.read_faults link.old) (L.read_faults link.new))) }
    ensures below { IfErr result (IsCountBelow SEEN_BYTES_LIMIT) }
    ensures room { length room.new ≡ length room.old }
    ensures later { L.read_faults link.old ≤ L.read_faults link.new }
    ensures held { L.held link.new ≡ L.held link.old }
    ensures put_faults { L.put_faults link.new ≡ L.put_faults link.old }
{
    if keep {
        return match read_body(alloc, link, room, plan, limit, early) {
            Ok(body) => Ok(body),
            Err(fault) => Err(fault),
        };
    }
    match drop_body(link, room, plan, limit, early) {
        Ok(()) => Ok(Vec::new(alloc)),
        Err(fault) => Err(fault),
    }
}

// Reads the rest of a request whose head is at this place.
fn read_after_head<L: Link, B: KeepsBody>(
    alloc: Global,
    link: &mut L,
    room: &mut [u8],
    early: &mut Unread,
    at: HeadSpan,
    keeper: &B,
) -> Result<HttpRequest, WireFault>
    requires room { 0 < length room.old }
    requires head { IsHeadAt early.old at }
    requires small { at.end ≤ MAX_HEAD_BYTES }
    ensures read { ReadsRequestFrom (B.is_kept keeper.now) early.old early.new (L.left link.old)
        (L.left link.new) (L.held link.old) (L.held link.new) (L.read_faults link.old)
        (L.read_faults link.new) (L.put_faults link.old) (L.put_faults link.new) result }
    ensures room { length room.new ≡ length room.old }
    ensures reads_later { L.read_faults link.old ≤ L.read_faults link.new }
    ensures puts_later { L.put_faults link.old ≤ L.put_faults link.new }
{
    let framed = match frame_head(alloc, find_head_bytes(early.as_slice(), at)) {
        Ok(framed) => framed,
        Err(fault) => return Err(fault),
    };
    match put_continue(link, framed.due) {
        Ok(()) => {}
        Err(fault) => return Err(fault),
    }
    early.skip(at.end);
    let keep = keeper.keeps_body(framed.head.fields.as_slice());
    match take_body(alloc, link, room, framed.plan, framed.limit, early, keep) {
        Ok(body) => Ok(make_request(framed, body)),
        Err(fault) => Err(find_wire_fault(fault, at.end - at.start, framed.limit)),
    }
}

/// Reads a request of the link. `early` has the bytes of the link that were read before and not
/// yet used: the request begins with them, and after the call `early` has those that were read
/// after the request. What `early` has after a failure is not said: no request can be read then.
/// `room` is where one read of the link puts bytes; those of a body of a known size go straight
/// into the request. `keeper` tells by the fields whether the body is kept; the request has an
/// empty body if it is not.
///
/// The interim response 100 is written before the body is read if the client waits for it (RFC
/// 9110, 10.1.1). What is returned is a function of the bytes, however they come in pieces: the
/// request, or `HeadTooLong`, `BadHead` or `BodyTooLong` for one that is rejected, or `End` or
/// `CutOff` if the link ends before the first byte of a request or within one. Fails with
/// `ReadFault` or `WriteFault` only if the link fails, and with `NoMemory` if an allocation fails.
pub fn read_request<L: Link, B: KeepsBody>(
    alloc: Global,
    link: &mut L,
    room: &mut [u8],
    early: &mut Unread,
    keeper: &B,
) -> Result<HttpRequest, WireFault>
    requires { 0 < length room.old }
    ensures read { ReadsRequestFrom (B.is_kept keeper.now) early.old early.new (L.left link.old)
        (L.left link.new) (L.held link.old) (L.held link.new) (L.read_faults link.old)
        (L.read_faults link.new) (L.put_faults link.old) (L.put_faults link.new) result }
    ensures room { length room.new ≡ length room.old }
    ensures reads_later { L.read_faults link.old ≤ L.read_faults link.new }
    ensures puts_later { L.put_faults link.old ≤ L.put_faults link.new }
{
    match read_head(link, room, early) {
        Ok(at) => read_after_head(alloc, link, room, early, at, keeper),
        Err(fault) => Err(fault),
    }
}
