// The reply to one call: by the responses up to here, by its text alone, or by the port.
ghost use Rattle.std.specs.Prelude.{◌≡◌, ◌+◌, ◌≤◌, List, [], ◌∷◌, IfOk, OnErr};
ghost use Rattle.jm_json.specs.Invocations.{call_of};
ghost use Rattle.method_batch.specs.Prepared.{preparation_of, ready, taken_by};
ghost use Rattle.method_batch.specs.Answer.{Asked, Runs, RepliesOne, RepliesPrepared, StopsOne, StopsPrepared, is_echo};

use crate::port::Port;
use crate::prepare::Prepared;
use crate::progress::Progress;
use jm_base::NoMemory;
use jm_json::{Invocation, Invocations, Made, Replied};
use std::alloc::Global;

/// Returns the reply to a call of a request. What its references make is taken from the room, which
/// is what is left for the request.
///
/// The request uses the capabilities of the core and of mail, or not, and has come this far.
pub(crate) fn reply<P: Port>(
    alloc: Global,
    port: &mut P,
    room: &mut u64,
    core: bool,
    mail: bool,
    call: Invocation,
    before: &Progress,
) -> Result<Replied, NoMemory>
    ensures replied { IfOk result
        (λ r. (asked : List Asked) × Runs P.answers port.old asked port.new
        × RepliesOne core mail (call_of call) before.now asked r) }
    ensures room { IfOk result
        (λ _. taken_by core mail (call_of call) before.now.responses + room.new ≤ room.old) }
    ensures stopped { OnErr result
        (StopsOne P.stops port.old port.new core mail (call_of call) before.now) }
{
    let prepared = Prepared::of_call(alloc, room, core, mail, call, before.responses.as_slice())?;
    reply_prepared(alloc, port, prepared, &before.made)
}

fn reply_prepared<P: Port>(
    alloc: Global,
    port: &mut P,
    prepared: Prepared,
    made: &Made,
) -> Result<Replied, NoMemory>
    ensures replied { IfOk result
        (λ r. (asked : List Asked) × Runs P.answers port.old asked port.new
        × RepliesPrepared (preparation_of prepared) made.now asked r) }
    ensures stopped { OnErr result
        (StopsPrepared P.stops port.old port.new (preparation_of prepared) made.now) }
{
    match prepared {
        Prepared::Refused(response) => build_single_reply(alloc, response),
        Prepared::Ready(call) => reply_ready(alloc, port, call, made),
    }
}

fn reply_ready<P: Port>(
    alloc: Global,
    port: &mut P,
    call: Invocation,
    made: &Made,
) -> Result<Replied, NoMemory>
    ensures replied { IfOk result
        (λ r. (asked : List Asked) × Runs P.answers port.old asked port.new
        × RepliesPrepared (ready (call_of call)) made.now asked r) }
    ensures stopped { OnErr result
        (StopsPrepared P.stops port.old port.new (ready (call_of call)) made.now) }
{
    if is_echo(&call) {
        return build_single_reply(alloc, call);
    }
    port.call(alloc, call, made)
}

fn is_echo(call: &Invocation) -> bool
    ensures { result ≡ is_echo (call_of call.now) }
{
    call.name.as_str() == "Core/echo"
}

// Returns the reply that is one response and created nothing.
fn build_single_reply(alloc: Global, response: Invocation) -> Result<Replied, NoMemory>
    ensures { IfOk result (λ r. r ≡ record { responses = call_of response ∷ []; made = [] }) }
{
    let mut responses = Invocations::new(alloc);
    responses.push(response)?;
    Ok(Replied {
        responses,
        made: Made::new(alloc),
    })
}
