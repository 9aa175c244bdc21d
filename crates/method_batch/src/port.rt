// What answers the methods of a request.
ghost use Rattle.std.specs.Prelude.{◌≡◌, List, IfOk, OnErr};
ghost use Rattle.jm_json.specs.Call.{Call};
ghost use Rattle.jm_json.specs.Invocations.{call_of};
ghost use Rattle.jm_json.specs.declared.invocation.Created.{Created};
ghost use Rattle.jm_json.specs.declared.invocation.Replied.{Replied};

use jm_base::NoMemory;
use jm_json::{Invocation, Made, Replied};
use std::alloc::Global;

/// What answers the methods of a request. Its meaning is two relations between states: one for a
/// call that is answered, and one for a call that ends out of memory.
pub trait Port: Drop {
    /// In the first state this call, with what the request has created up to here, may be answered
    /// by this reply, which leaves the second state.
    ghost answers: { Self → Call → List Created → Replied → Self → Type 0 };

    /// In the first state this call, with what the request has created up to here, may end out of
    /// memory, which leaves the second state.
    ghost stops: { Self → Call → List Created → Self → Type 0 };

    /// Performs a call, and takes it away. If it ends out of memory, the port is in a state in
    /// which `stops` allows such a call to leave it.
    fn call(&mut self, alloc: Global, call: Invocation, made: &Made) -> Result<Replied, NoMemory>
        ensures answer { IfOk result
            (λ r. answers self.old (call_of call) made.now r self.new) }
        ensures stopped { OnErr result (stops self.old (call_of call) made.now self.new) };

    /// A call that ends out of memory may leave the state as it was.
    ghost stays: { (s : Self) (c : Call) (made : List Created) → stops s c made s };
}
