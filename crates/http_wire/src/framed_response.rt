// What the head of a response says of its body.
ghost use Rattle.std.specs.Prelude.{◌≡◌, Bool, List, ℕ, IfOk, IfErr, is_none, nat_lt};
ghost use Rattle.http_wire.specs.Fields.{pairs};
ghost use Rattle.http_wire.specs.FramedResponses.{IsFramedResponse, IsNoResponse, IsPlanWithin, body_by_plan, is_not_said};
ghost use Rattle.http_wire.specs.Framings.{Framing, framing_of};
ghost use Rattle.http_wire.specs.Lengths.{IsSaid};
ghost use Rattle.http_wire.specs.ReadResponses.{goes_to_end, has_no_body, response_body, response_framing};

use crate::lengths::{BodyLength, find_length, plan_body};
use crate::limits::MAX_RESPONSE_BYTES;
use crate::request::HttpField;
use crate::response_parser::{ParsedResponse, parse_response_head};
use http_parts::{BodyPlan, WireFault};
use std::alloc::Global;

/// A valid head, and how the body after it is read: by a plan, or to the end of the link without
/// one.
#[derive(Drop)]
pub(crate) struct FramedResponse {
    pub head: ParsedResponse,
    pub plan: Option<BodyPlan>,
}

// Returns whether a response with this status has no body, whatever its fields say.
fn has_no_body(status: u16) -> bool
    ensures { result ≡ has_no_body status }
{
    status == 204 || status == 304
}

// Returns the length of the body of a response with this status and these fields.
#[tactic(auto, using(crate::proofs::ResponseFramed::none_said, crate::proofs::ResponseFramed::some_said))]
fn find_response_length(status: u16, fields: &[HttpField]) -> BodyLength
    ensures { IsSaid (response_framing status (framing_of (pairs fields.now))) result }
{
    if has_no_body(status) {
        return BodyLength::Sized(0);
    }
    find_length(fields)
}

// Returns whether no field says the length of the body.
fn is_not_said(said: BodyLength) -> bool
    ensures { result ≡ is_not_said said }
{
    match said {
        BodyLength::Invalid => false,
        BodyLength::NotSaid => true,
        BodyLength::Chunked => false,
        BodyLength::Sized(_) => false,
    }
}

// Returns how the body of a response is read, of which the fields say this.
#[tactic(auto, using(crate::proofs::ResponseFramed::to_end_body, crate::proofs::ResponseFramed::to_end_last, crate::proofs::ResponseFramed::planned_body, crate::proofs::ResponseFramed::planned_last))]
fn plan_response_body(said: BodyLength) -> Option<BodyPlan>
    ensures plan { (framing : Framing) → IsSaid framing said → (ended : Bool) (rest : List ℕ)
        → response_body ended framing rest ≡ body_by_plan result ended rest }
    ensures within { IsPlanWithin result }
    ensures last { (framing : Framing) → IsSaid framing said
        → is_none result ≡ goes_to_end framing }
{
    if is_not_said(said) {
        return None;
    }
    Some(plan_body(said, MAX_RESPONSE_BYTES))
}

// Returns whether a response with this status is interim.
fn is_interim(status: u16) -> bool
    ensures { result ≡ nat_lt status 200 }
{
    status < 200
}

// Returns the head that these bytes are, if it is one of an answer.
#[tactic(auto, using(crate::proofs::ResponseFramed::no_head))]
pub(crate) fn frame_response(alloc: Global, bytes: &[u8]) -> Result<FramedResponse, WireFault>
    ensures ok { IfOk result (IsFramedResponse bytes.now) }
    ensures err { IfErr result (IsNoResponse bytes.now) }
{
    let head = match parse_response_head(alloc, bytes) {
        Ok(Some(head)) => head,
        Ok(None) => return Err(WireFault::BadHead),
        Err(_) => return Err(WireFault::NoMemory),
    };
    if is_interim(head.status) {
        return Err(WireFault::BadHead);
    }
    let plan = plan_response_body(find_response_length(head.status, head.fields.as_slice()));
    Ok(FramedResponse { head, plan })
}
