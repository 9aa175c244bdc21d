// What the head of a request says of its message.
ghost use Rattle.std.specs.Prelude.{◌≡◌, ◌<◌, IfOk, IfErr};
ghost use Rattle.http_parts.specs.declared.limits.TheConstants.{BODY_BYTES_LIMIT};
ghost use Rattle.http_wire.specs.Requests.{body_limit};
ghost use Rattle.http_wire.specs.FramedHeads.{IsFramed, IsRejected, refusal_of};

use crate::connection::{expects_continue, has_host};
use crate::head_parser::{ParsedHead, parse_head};
use crate::lengths::{find_length, plan_body};
use http_parts::{BodyPlan, WireFault};
use jm_base::{MAX_REQUEST_BYTES, MAX_UPLOAD_BYTES};
use std::alloc::Global;

/// A valid head, and how the body after it is read.
#[derive(Drop)]
pub(crate) struct FramedHead {
    pub head: ParsedHead,
    pub limit: usize,
    pub plan: BodyPlan,

    /// The client waits for the interim response (RFC 9110, 10.1.1).
    pub due: bool,
}

// Returns the most bytes of the body of a request to this target.
fn find_limit(target: &[u8]) -> usize
    ensures value { result ≡ body_limit target.now }
    ensures small { result < BODY_BYTES_LIMIT }
{
    if target.starts_with(b"/jmap/upload/") {
        MAX_UPLOAD_BYTES
    } else {
        MAX_REQUEST_BYTES
    }
}

// Returns why no body is read by this plan.
fn find_refusal(plan: BodyPlan, limit: usize) -> Option<WireFault>
    ensures { result ≡ refusal_of limit plan }
{
    match plan {
        BodyPlan::Invalid => Some(WireFault::BadHead),
        BodyPlan::TooLong => Some(WireFault::BodyTooLong(limit as u64)),
        BodyPlan::Sized(_) => None,
        BodyPlan::Chunked => None,
    }
}

// Returns the head that these bytes are, if it is valid, and its body is not too long.
#[tactic(auto, using(crate::proofs::Opening::opened, crate::proofs::Opening::no_head, crate::proofs::Opening::no_host, crate::proofs::Opening::refused))]
pub(crate) fn frame_head(alloc: Global, bytes: &[u8]) -> Result<FramedHead, WireFault>
    ensures ok { IfOk result (IsFramed bytes.now) }
    ensures small { IfOk result (λ o. o.limit < BODY_BYTES_LIMIT) }
    ensures err { IfErr result (IsRejected bytes.now) }
{
    let head = match parse_head(alloc, bytes) {
        Ok(Some(head)) => head,
        Ok(None) => return Err(WireFault::BadHead),
        Err(_) => return Err(WireFault::NoMemory),
    };
    if !has_host(head.fields.as_slice()) {
        return Err(WireFault::BadHead);
    }
    let limit = find_limit(head.target.as_slice());
    let plan = plan_body(find_length(head.fields.as_slice()), limit);
    match find_refusal(plan, limit) {
        Some(fault) => return Err(fault),
        None => {}
    }
    let due = expects_continue(head.minor, head.fields.as_slice());
    Ok(FramedHead {
        head,
        limit,
        plan,
        due,
    })
}
