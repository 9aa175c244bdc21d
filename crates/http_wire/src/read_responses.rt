// Reading a response from a link.
ghost use Rattle.std.specs.Prelude.{◌≡◌, ◌<◌, ◌≤◌, ◌++◌, ◌||◌, length, Bool, IsTrue, IfErr, IfOk, is_none};
ghost use Rattle.std.specs.Io.KnownBytes.{IsAtEnd};
ghost use Rattle.http_parts.specs.declared.limits.TheConstants.{MAX_HEAD_BYTES, SEEN_BYTES_LIMIT};
ghost use Rattle.http_parts.specs.Bodies.{Whole};
ghost use Rattle.http_parts.specs.Views.{IsHeadAt};
ghost use Rattle.http_parts.specs.Parts.{IsCountBelow, Took};
ghost use Rattle.http_wire.specs.Fields.{is_last, pairs};
ghost use Rattle.http_wire.specs.FramedResponses.{FailsAt, IsMadeResponse, IsPlanWithin, body_by_plan};
ghost use Rattle.http_wire.specs.ReadResponses.{ReadsResponseFrom};

use crate::connection::is_last;
use crate::ended_bodies::read_to_end;
use crate::framed_response::{FramedResponse, frame_response};
use crate::limits::MAX_RESPONSE_BYTES;
use crate::requests::{find_head_bytes, find_wire_fault};
use crate::response::HttpResponse;
use http_parts::{BodyFault, BodyPlan, HeadSpan, Unread, WireFault, read_body, read_head};
use jm_base::Bytes;
use jm_edge::Link;
use std::alloc::Global;

// Returns whether the connection ends after the response with this head.
fn ends_connection(framed: &FramedResponse) -> bool
    ensures { result ≡ (is_last framed.now.head.minor (pairs framed.now.head.fields)
        || is_none framed.now.plan) }
{
    is_last(framed.head.minor, framed.head.fields.as_slice()) || framed.plan.is_none()
}

// Returns the response with this head and this body.
fn make_response(framed: FramedResponse, body: Vec<u8>) -> HttpResponse
    ensures { IsMadeResponse framed body.items result }
{
    let last = ends_connection(&framed);
    HttpResponse {
        status: framed.head.status,
        body: Bytes::from_vec(body),
        last,
    }
}

// Reads the body of a response by its plan, or to the end of the link without one.
#[tactic(auto, using(crate::proofs::ResponseRead::took_planned, crate::proofs::ResponseRead::took_to_end, crate::proofs::ResponseRead::failed_planned, crate::proofs::ResponseRead::failed_to_end))]
fn read_response_body<L: Link>(
    alloc: Global,
    link: &mut L,
    room: &mut [u8],
    plan: Option<BodyPlan>,
    early: &mut Unread,
) -> Result<Vec<u8>, BodyFault>
    requires room { 0 < length room.old }
    requires within { IsPlanWithin plan }
    ensures ok { IfOk result (λ b. Took (L.left link.old) (L.left link.new)
        (λ t. (ended : Bool) × (IsTrue ended → IsAtEnd (L.left link.new))
        × (body_by_plan plan ended (early.old ++ t) ≡ Whole b.items early.new))) }
    ensures err { IfErr result (λ e. Took (L.left link.old) (L.left link.new)
        (λ t. FailsAt e (λ ended. body_by_plan plan ended (early.old ++ t))
        (length (early.old ++ t)) (L.left link.new) (L.read_faults link.old)
        (L.read_faults link.new))) }
    ensures below { IfErr result (IsCountBelow SEEN_BYTES_LIMIT) }
    ensures room { length room.new ≡ length room.old }
    ensures later { L.read_faults link.old ≤ L.read_faults link.new }
    ensures held { L.held link.new ≡ L.held link.old }
    ensures put_faults { L.put_faults link.new ≡ L.put_faults link.old }
{
    let Some(plan) = plan else {
        return match read_to_end(alloc, link, room, early) {
            Ok(body) => Ok(body),
            Err(fault) => Err(fault),
        };
    };
    match read_body(alloc, link, room, plan, MAX_RESPONSE_BYTES, early) {
        Ok(body) => Ok(body),
        Err(fault) => Err(fault),
    }
}

// Reads the rest of a response whose head is at this place.
fn read_response_after<L: Link>(
    alloc: Global,
    link: &mut L,
    room: &mut [u8],
    early: &mut Unread,
    at: HeadSpan,
) -> Result<HttpResponse, WireFault>
    requires room { 0 < length room.old }
    requires head { IsHeadAt early.old at }
    requires small { at.end ≤ MAX_HEAD_BYTES }
    ensures read { ReadsResponseFrom early.old early.new (L.left link.old) (L.left link.new)
        (L.read_faults link.old) (L.read_faults link.new) result }
    ensures room { length room.new ≡ length room.old }
    ensures later { L.read_faults link.old ≤ L.read_faults link.new }
    ensures held { L.held link.new ≡ L.held link.old }
    ensures put_faults { L.put_faults link.new ≡ L.put_faults link.old }
{
    let framed = match frame_response(alloc, find_head_bytes(early.as_slice(), at)) {
        Ok(framed) => framed,
        Err(fault) => return Err(fault),
    };
    early.skip(at.end);
    match read_response_body(alloc, link, room, framed.plan, early) {
        Ok(body) => Ok(make_response(framed, body)),
        Err(fault) => Err(find_wire_fault(fault, at.end - at.start, MAX_RESPONSE_BYTES)),
    }
}

/// Reads a response of the link. `early` has the bytes of the link that were read before and not
/// yet used: the response begins with them, and after the call `early` has those that were read
/// after the response. What `early` has after a failure is not said: no response can be read then.
/// `room` is where one read of the link puts bytes; those of a body of a known size go straight
/// into the response.
///
/// What is returned is a function of the bytes, however they come in pieces: the response, or
/// `HeadTooLong`, `BadHead` or `BodyTooLong` for one that is rejected, or `End` or `CutOff` if the
/// link ends before the first byte of a response or within one. A status below 200 is rejected with
/// `BadHead`. A body whose length no field says goes to the end of the link (RFC 9112, section
/// 6.3). Fails with `ReadFault` only if the link fails, and with `NoMemory` if an allocation fails.
pub fn read_response<L: Link>(
    alloc: Global,
    link: &mut L,
    room: &mut [u8],
    early: &mut Unread,
) -> Result<HttpResponse, WireFault>
    requires { 0 < length room.old }
    ensures read { ReadsResponseFrom early.old early.new (L.left link.old) (L.left link.new)
        (L.read_faults link.old) (L.read_faults link.new) result }
    ensures room { length room.new ≡ length room.old }
    ensures later { L.read_faults link.old ≤ L.read_faults link.new }
    ensures held { L.held link.new ≡ L.held link.old }
    ensures put_faults { L.put_faults link.new ≡ L.put_faults link.old }
{
    match read_head(link, room, early) {
        Ok(at) => read_response_after(alloc, link, room, early, at),
        Err(fault) => Err(fault),
    }
}
