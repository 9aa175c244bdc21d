// What the definitions of requests come to.
ghost use Rattle.std.specs.Prelude.{◌≡◌, ◌≤◌, List, length, ℕ};
ghost use Rattle.jm_base.specs.declared.limits.TheConstants.{MAX_REQUEST_BYTES};
ghost use Rattle.jm_json.specs.Call.{Call};
ghost use Rattle.jm_json.specs.Reading.{reading_of, whole};
ghost use Rattle.method_batch.specs.OneCall.{AnswersSingle, IsPlain, single_request};
ghost use Rattle.method_batch.specs.Outcome.{IsAnswer, IsOutcome};
ghost use Rattle.method_batch.specs.declared.outcome.Outcome.{Outcome as TheOutcome};

use crate::port::Port;

/// Shows that a request of one call, whose method the server has and whose arguments refer to no
/// other call, is answered with status 200 and the port's reply to the call alone; `Core/echo` is
/// its own reply (RFC 8620, sections 3.3, 3.4 and 4).
pub fn show_that_a_single_call_is_answered_by_the_port<P: Port>()
    ensures tree { (call : Call) (old new : P) (outcome : TheOutcome) → IsPlain call
        → IsOutcome P.answers old new (single_request call) outcome
        → AnswersSingle P.answers old new call outcome }
    ensures bytes { (call : Call) (request : List ℕ) (old new : P) (outcome : TheOutcome)
        → IsPlain call → reading_of request ≡ whole (single_request call)
        → length request ≤ MAX_REQUEST_BYTES → IsAnswer P.answers old new request outcome
        → AnswersSingle P.answers old new call outcome }
{}
