// The answer to a request: its calls in order, each by the text and the responses up to here, or by
// the port (RFC 8620, section 3.4).
ghost use Rattle.std.specs.Prelude.{◌≡◌, [], ◌++◌, Some, IfOk, OnOk, OnErr};
ghost use Rattle.serde_json.specs.Written.{compact_text};
ghost use Rattle.jm_json.specs.Json.{tree_of};
ghost use Rattle.jm_json.specs.Reading.{reading_of};
ghost use Rattle.jm_json.specs.JsonValues.{data_of};
ghost use Rattle.method_batch.specs.Outcome.{IsOutcome, IsOutcomeBy, IsResponse, IsAnswer, IsAnswerBy, HasBegun, HasBegunBy, HasBegunRequest, HasBegunReading, HasBegunAnswer};
ghost use Rattle.method_batch.specs.Answered.{outcome_of};
ghost use Rattle.method_batch.specs.declared.outcome.Outcome.{Outcome as TheOutcome};

use crate::answered::Answered;
use crate::method::{CORE, MAIL};
use crate::outcome::{Outcome, Problem};
use crate::port::Port;
use crate::progress::Progress;
use crate::request::Request;
use crate::using::has_capability;
use jm_base::{Bytes, MAX_REQUEST_BYTES, NoMemory};
use jm_json::{Json, ReadFault, copy, read};
use std::alloc::Global;
use std::mem;

/// Answers the tree of a request, whose methods the port performs. If memory runs out, the first
/// calls were performed, the port stopped at the next one, and no other was performed.
pub fn answer_tree<P: Port>(
    alloc: Global,
    port: &mut P,
    request: &Json,
) -> Result<Outcome, NoMemory>
    ensures outcome { IfOk result
        (λ o. IsOutcome P.answers port.old port.new (tree_of request.now) o) }
    ensures begun { OnErr result
        (HasBegun P.answers P.stops port.old port.new (tree_of request.now)) }
{
    let tree = copy(alloc, request)?;
    match perform_tree(alloc, port, tree) {
        Ok(answered) => answered.into_outcome(alloc),
        Err(refused) => Err(refused),
    }
}

/// Answers the bytes of a request, of which there may be [`MAX_REQUEST_BYTES`]. If memory runs out,
/// the first calls were performed, the port stopped at the next one, and no other was performed.
pub fn answer_request<P: Port>(
    alloc: Global,
    port: &mut P,
    request: &[u8],
) -> Result<Outcome, NoMemory>
    ensures outcome { IfOk result (λ o. IsAnswer P.answers port.old port.new request.now o) }
    ensures begun { OnErr result (HasBegunAnswer P.answers P.stops port.old port.new request.now) }
{
    match perform_request(alloc, port, request) {
        Ok(answered) => answered.into_outcome(alloc),
        Err(refused) => Err(refused),
    }
}

/// Answers the bytes of a request like `answer_request`, and adds the compact text of the
/// outcome's tree after what is there. If memory runs out, the bytes are unchanged; the first calls
/// were performed, the port stopped at the next one, and no other was performed.
pub fn write_answer<P: Port>(
    alloc: Global,
    port: &mut P,
    request: &[u8],
    out: &mut Bytes,
) -> Result<(), NoMemory>
    ensures written { OnOk result
        ((o : TheOutcome) × IsAnswer P.answers port.old port.new request.now o
        × (out.new ≡ out.old ++ compact_text (data_of (tree_of o.tree)))) }
    ensures begun { OnErr result (HasBegunAnswer P.answers P.stops port.old port.new request.now) }
    ensures err { OnErr result (out.new ≡ out.old) }
{
    match perform_request(alloc, port, request) {
        Ok(answered) => answered.write(alloc, out),
        Err(refused) => Err(refused),
    }
}

/// Answers the bytes of a request like `write_answer`, and takes them away. If nothing is there to
/// add to, the text is written to the memory that held them. If memory runs out, they may be taken
/// away or not.
pub fn write_answer_over<P: Port>(
    alloc: Global,
    port: &mut P,
    request: &mut Bytes,
    out: &mut Bytes,
) -> Result<(), NoMemory>
    ensures written { OnOk result
        ((o : TheOutcome) × IsAnswer P.answers port.old port.new request.old o
        × (out.new ≡ out.old ++ compact_text (data_of (tree_of o.tree)))) }
    ensures taken { OnOk result (request.new ≡ []) }
    ensures begun { OnErr result (HasBegunAnswer P.answers P.stops port.old port.new request.old) }
    ensures err { OnErr result (out.new ≡ out.old) }
{
    match perform_request(alloc, port, request.as_slice()) {
        Ok(answered) => {
            hand_over(request, out);
            answered.write(alloc, out)
        }
        Err(refused) => Err(refused),
    }
}

// Takes bytes away that are not needed any more. If there are no others, these get their memory.
fn hand_over(used: &mut Bytes, out: &mut Bytes)
    ensures used { used.new ≡ [] }
    ensures out { out.new ≡ out.old }
{
    used.clear();
    if !out.is_empty() {
        return;
    }
    mem::swap(used, out);
}

/// Answers the bytes of a request like `answer_request`, and returns the answer before it is a
/// tree or a text.
pub fn perform_request<P: Port>(
    alloc: Global,
    port: &mut P,
    request: &[u8],
) -> Result<Answered, NoMemory>
    ensures outcome { IfOk result
        (λ a. IsAnswer P.answers port.old port.new request.now (outcome_of a)) }
    ensures begun { OnErr result (HasBegunAnswer P.answers P.stops port.old port.new request.now) }
{
    if request.len() > MAX_REQUEST_BYTES {
        return Ok(Answered::Rejected(Problem::TooLarge));
    }
    answer_reading(alloc, port, request)
}

// Answers the bytes of a request by their tree.
#[inline(never)]
fn answer_reading<P: Port>(
    alloc: Global,
    port: &mut P,
    request: &[u8],
) -> Result<Answered, NoMemory>
    ensures outcome { IfOk result
        (λ a. IsAnswerBy P.answers port.old port.new (reading_of request.now) (outcome_of a)) }
    ensures begun { OnErr result
        (HasBegunReading P.answers P.stops port.old port.new (reading_of request.now)) }
{
    match read(alloc, request) {
        Ok(tree) => perform_tree(alloc, port, tree),
        Err(ReadFault::NotJson) => Ok(Answered::Rejected(Problem::NotJson)),
        Err(ReadFault::NotWhole(_)) => Ok(Answered::Rejected(Problem::NotRequest)),
        Err(ReadFault::NoMemory) => Err(NoMemory),
    }
}

/// Answers the tree of a request like `answer_tree`, but takes it away, and returns the answer
/// before it is a tree or a text.
pub fn perform_tree<P: Port>(
    alloc: Global,
    port: &mut P,
    request: Json,
) -> Result<Answered, NoMemory>
    ensures outcome { IfOk result
        (λ a. IsOutcome P.answers port.old port.new (tree_of request) (outcome_of a)) }
    ensures begun { OnErr result (HasBegun P.answers P.stops port.old port.new (tree_of request)) }
{
    match Request::of_tree(alloc, request) {
        Ok(request) => answer_if_request(alloc, port, request),
        Err(refused) => Err(refused),
    }
}

fn answer_if_request<P: Port>(
    alloc: Global,
    port: &mut P,
    request: Option<Request>,
) -> Result<Answered, NoMemory>
    ensures outcome { IfOk result
        (λ a. IsOutcomeBy P.answers port.old port.new request (outcome_of a)) }
    ensures begun { OnErr result (HasBegunBy P.answers P.stops port.old port.new request) }
{
    match request {
        Some(request) => answer_form(alloc, port, request),
        None => Ok(Answered::Rejected(Problem::NotRequest)),
    }
}

fn answer_form<P: Port>(alloc: Global, port: &mut P, request: Request) -> Result<Answered, NoMemory>
    ensures outcome { IfOk result
        (λ a. IsOutcomeBy P.answers port.old port.new (Some request) (outcome_of a)) }
    ensures begun { OnErr result (HasBegunBy P.answers P.stops port.old port.new (Some request)) }
{
    match request.find_problem() {
        Some(problem) => Ok(Answered::Rejected(problem)),
        None => answer_calls(alloc, port, request),
    }
}

fn answer_calls<P: Port>(
    alloc: Global,
    port: &mut P,
    request: Request,
) -> Result<Answered, NoMemory>
    ensures outcome { IfOk result
        (λ a. IsResponse P.answers port.old port.new request (outcome_of a)) }
    ensures begun { OnErr result (HasBegunRequest P.answers P.stops port.old port.new request) }
{
    let Request {
        using,
        calls,
        created,
    } = request;
    let core = has_capability(using.as_slice(), CORE);
    let mail = has_capability(using.as_slice(), MAIL);
    let shows = created.is_some();
    let begun = Progress::begin(alloc, created);
    match begun.perform_calls(alloc, port, core, mail, calls) {
        Ok(after) => Ok(Answered::Performed(shows, after)),
        Err(refused) => Err(refused),
    }
}
