// How far a request has come: its calls are performed one after the other.
ghost use Rattle.std.specs.Prelude.{◌≡◌, ◌+◌, ◌≤◌, ℕ, List, IfOk, OnOk, OnErr};
ghost use Rattle.jm_json.specs.Invocations.{call_of};

use crate::port::Port;
use crate::reply::reply;
use jm_base::NoMemory;
use jm_json::{Invocation, Invocations, Made, Replied};
use result_refs::MAX_REFERENCE_BYTES;
use std::alloc::Global;
use std::collections::VecDeque;

/// How far a request has come: its responses, and the records that count as created.
#[derive(Drop)]
pub struct Progress {
    pub responses: Invocations,
    pub made: Made,
}

impl Progress {
    ghost use Rattle.result_refs.specs.declared.room.TheConstants.{MAX_REFERENCE_BYTES};
    ghost use Rattle.method_batch.specs.Prepared.{taken_by};
    ghost use Rattle.method_batch.specs.Answer.{Asked, Runs, Answers, after_reply, HasPerformed, StopsOrPerforms, HasBegunCalls};
    ghost use Rattle.method_batch.specs.Outcome.{beginning};

    /// Returns the beginning of a request, which may have `createdIds`.
    pub(crate) fn begin(alloc: Global, created: Option<Made>) -> Progress
        ensures { result ≡ beginning created }
    {
        Progress {
            responses: Invocations::new(alloc),
            made: created.unwrap_or(Made::new(alloc)),
        }
    }

    /// Performs calls in order. If memory runs out, the first ones were performed, the port stopped
    /// at the next one, and no other was performed. Their references take at most
    /// [`MAX_REFERENCE_BYTES`] together; past that the request ends out of memory.
    pub(crate) fn perform_calls<P: Port>(
        self,
        alloc: Global,
        port: &mut P,
        core: bool,
        mail: bool,
        calls: Invocations,
    ) -> Result<Progress, NoMemory>
        ensures done { IfOk result
            (λ after. (asked : List Asked) × (taken : ℕ) × Runs P.answers port.old asked port.new
            × Answers core mail calls self asked after taken × (taken ≤ MAX_REFERENCE_BYTES)) }
        ensures begun { OnErr result
            (HasBegunCalls P.answers P.stops port.old port.new core mail calls self) }
    {
        let mut progress = self;
        let mut room = MAX_REFERENCE_BYTES;
        let mut rest = VecDeque::from_vec(calls.into_vec());
        while let Some(call) = rest.pop_front() {
            match progress.go_on(alloc, port, &mut room, core, mail, call) {
                Ok(()) => {}
                Err(refused) => return Err(refused),
            }
        }
        Ok(progress)
    }

    fn go_on<P: Port>(
        &mut self,
        alloc: Global,
        port: &mut P,
        room: &mut u64,
        core: bool,
        mail: bool,
        call: Invocation,
    ) -> Result<(), NoMemory>
        ensures ok { OnOk result
            (HasPerformed P.answers port.old port.new core mail (call_of call) self.old self.new) }
        ensures room { OnOk result
            (taken_by core mail (call_of call) self.old.responses + room.new ≤ room.old) }
        ensures err { OnErr result
            (StopsOrPerforms P.answers P.stops port.old port.new core mail
            (call_of call) self.old room.old) }
    {
        match reply(alloc, port, room, core, mail, call, self) {
            Ok(replied) => self.take(replied),
            Err(refused) => Err(refused),
        }
    }

    fn take(&mut self, replied: Replied) -> Result<(), NoMemory>
        ensures { OnOk result (self.new ≡ after_reply self.old replied) }
    {
        self.responses.append(replied.responses)?;
        self.made.append(replied.made)?;
        Ok(())
    }
}
