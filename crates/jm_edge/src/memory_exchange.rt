// An exchange in memory, with a list of the calls that fail.
ghost use Rattle.std.specs.Prelude.{◌≡◌, ◌∷◌, ◌++◌, [], Some, IfOk, OnOk, OnErr, drop, option_map};
ghost use Rattle.jm_edge.specs.Causes.{IsCounted};
ghost use Rattle.jm_edge.specs.Exchanges.{Tells};
ghost use Rattle.jm_edge.specs.Schedules.{not_called};

use crate::{Answer, Asked, Calls, EdgeFault, Exchange};
use jm_base::{Bytes, NoMemory, Numbers, Sequence};
use std::alloc::Global;
use std::collections::VecDeque;

/// An exchange in memory: it answers by its script, one answer a request, and keeps what it was
/// asked. Once no answer is left, each request is answered with the status 503 and no body
/// (RFC 9110, section 15.6.4). It fails at the listed calls, counted from 1. A call that runs out
/// of memory changes nothing and is not counted.
#[derive(Drop)]
pub struct MemoryExchange {
    coming: VecDeque<Answer>,
    asked: Sequence<Asked>,
    calls: Calls,
}

impl MemoryExchange {
    ghost use Rattle.jm_edge.specs.MemoryExchanges.{next_answer};

    /// Returns an exchange of these answers that never fails.
    pub fn new(alloc: Global, coming: VecDeque<Answer>) -> MemoryExchange
        ensures coming { result.coming.items ≡ coming.items }
        ensures asked { result.asked ≡ [] }
        ensures calls { result.calls ≡ not_called [] }
    {
        MemoryExchange::build_failing(alloc, coming, Numbers::new(alloc))
    }

    /// Returns an exchange of these answers that fails at the listed calls. A call that fails takes
    /// no answer from the script.
    pub fn build_failing(alloc: Global, coming: VecDeque<Answer>, fails: Numbers) -> MemoryExchange
        ensures coming { result.coming.items ≡ coming.items }
        ensures asked { result.asked ≡ [] }
        ensures calls { result.calls ≡ not_called fails }
    {
        MemoryExchange {
            coming,
            asked: Sequence::new(alloc),
            calls: Calls::new(fails),
        }
    }

    /// Lends what was asked and answered, in order.
    pub fn asked(&self) -> &[Asked]
        ensures { result.now ≡ self.now.asked }
    {
        self.asked.as_slice()
    }

    /// Lends the counts of its calls.
    pub fn calls(&self) -> &Calls
        ensures { result.now ≡ self.now.calls }
    {
        &self.calls
    }

    // Returns a copy of the next answer.
    fn copy_next(&self, alloc: Global) -> Result<Answer, NoMemory>
        ensures { IfOk result (λ a. a ≡ next_answer self.now) }
    {
        match self.coming.front() {
            Some(answer) => answer.copy(alloc),
            None => Ok(build_unavailable(alloc)),
        }
    }

    // Keeps a request with its answer, which is the next one.
    fn keep(&mut self, alloc: Global, path: &[u8], body: Option<&[u8]>) -> Result<(), NoMemory>
        ensures ok { OnOk result (self.new.asked ≡ self.old.asked ++ record {
          path = path.now;
          body = option_map (λ b. b.now) body.entry;
          answer = next_answer self.old;
        } ∷ []) }
        ensures err { OnErr result (self.new.asked ≡ self.old.asked) }
        ensures coming { self.new.coming ≡ self.old.coming }
        ensures calls { self.new.calls ≡ self.old.calls }
    {
        let asked = Asked {
            path: Bytes::from_slice(alloc, path)?,
            body: copy_body(alloc, body)?,
            answer: self.copy_next(alloc)?,
        };
        self.asked.push(asked)
    }

    // Takes the next answer from the script.
    fn take_next(&mut self, alloc: Global) -> Answer
        ensures answer { result ≡ next_answer self.old }
        ensures coming { self.new.coming.items ≡ drop 1 self.old.coming.items }
        ensures asked { self.new.asked ≡ self.old.asked }
        ensures calls { self.new.calls ≡ self.old.calls }
    {
        match self.coming.pop_front() {
            Some(answer) => answer,
            None => build_unavailable(alloc),
        }
    }
}

// Returns the answer of an exchange that has none left.
fn build_unavailable(alloc: Global) -> Answer
    ensures status { result.status ≡ 503 }
    ensures body { result.body ≡ [] }
{
    Answer {
        status: 503,
        body: Bytes::new(alloc),
    }
}

fn copy_body(alloc: Global, body: Option<&[u8]>) -> Result<Option<Bytes>, NoMemory>
    ensures { IfOk result (λ b. b ≡ option_map (λ s. s.now) body.entry) }
{
    match body {
        Some(bytes) => Ok(Some(Bytes::from_slice(alloc, bytes)?)),
        None => Ok(None),
    }
}

impl Exchange for MemoryExchange {
    ghost use Rattle.std.specs.Prelude.{Some};
    ghost use Rattle.jm_edge.specs.MemoryExchanges.{Answers};

    ghost told = { λ e. Some e.asked };

    ghost faults = { λ e. e.calls.faults };

    fn ask(&mut self, alloc: Global, path: &[u8], body: Option<&[u8]>) -> Result<Answer, EdgeFault>
        ensures told { Tells (Some self.old.asked) (Some self.new.asked) path.now
            (option_map (λ b. b.now) body.entry) result }
        ensures cause { IsCounted self.old.calls.faults self.new.calls.faults result }
        ensures does { Answers self.old self.new result }
    {
        if self.calls.fails_next() {
            self.calls.fail();
            return Err(EdgeFault::Failed);
        }
        if self.keep(alloc, path, body).is_err() {
            return Err(EdgeFault::NoMemory);
        }
        self.calls.pass();
        Ok(self.take_next(alloc))
    }
}
