// A WebSocket connection in memory.
ghost use Rattle.std.specs.Prelude.{◌≡◌, Some, MatchResult, is_err, IsTrue};
ghost use Rattle.jm_edge.specs.declared.arrival.Sent.TheVariants.{Text as text_sent, Close as close_sent};
ghost use Rattle.jm_edge.specs.Causes.{IsCounted};
ghost use Rattle.jm_edge.specs.Schedules.{not_called, fails_next};
ghost use Rattle.jm_edge.specs.Sockets.{Arrives, Sends};

use crate::{Arrival, Calls, EdgeFault, MemorySink, MemorySource, MessageLink, Sent};
use jm_base::{Bytes, Numbers, Sequence};
use std::alloc::Global;
use std::collections::VecDeque;

/// What a socket in memory is going to show, and which of its calls fail, counted from 1
/// separately for looks and for what is sent.
#[derive(Drop)]
pub struct Script {
    pub coming: VecDeque<Arrival>,
    pub look_fails: Numbers,
    pub send_fails: Numbers,
}

/// A WebSocket connection in memory: it shows the arrivals of its script, one a look, keeps what is
/// sent, and fails at the listed calls. A call that runs out of memory is not counted.
#[derive(Drop)]
pub struct MemorySocket {
    input: MemorySource,
    output: MemorySink,
    early: Bytes,
    coming: VecDeque<Arrival>,
    sent: Sequence<Sent>,
    looks: Calls,
    sends: Calls,
}

impl MemorySocket {
    // Returns the socket of a link's two directions, with the early bytes, before its first call.
    pub(crate) fn new(
        alloc: Global,
        input: MemorySource,
        output: MemorySink,
        early: Bytes,
        script: Script,
    ) -> MemorySocket
        ensures input { result.input ≡ input }
        ensures output { result.output ≡ output }
        ensures early { result.early ≡ early }
        ensures coming { result.coming.items ≡ script.coming.items }
        ensures looks { result.looks ≡ not_called script.look_fails }
        ensures sends { result.sends ≡ not_called script.send_fails }
    {
        let Script {
            coming,
            look_fails,
            send_fails,
        } = script;
        MemorySocket {
            input,
            output,
            early,
            coming,
            sent: Sequence::new(alloc),
            looks: Calls::new(look_fails),
            sends: Calls::new(send_fails),
        }
    }

    /// Lends the bytes that were written to the link before it became this socket.
    pub fn link_bytes(&self) -> &[u8]
        ensures { result.now ≡ self.now.output.held }
    {
        self.output.bytes()
    }

    /// Lends the early bytes.
    pub fn early(&self) -> &[u8]
        ensures { result.now ≡ self.now.early }
    {
        self.early.as_slice()
    }

    /// Lends what was sent.
    pub fn sent(&self) -> &[Sent]
        ensures { result.now ≡ self.now.sent }
    {
        self.sent.as_slice()
    }

    // Sends one item, unless this call is one of those that fail.
    fn put(&mut self, item: Sent) -> Result<(), EdgeFault>
        ensures sent { Sends (Some self.old.sent) (Some self.new.sent) item result }
        ensures cause { IsCounted self.old.sends.faults self.new.sends.faults result }
        ensures coming { self.new.coming ≡ self.old.coming }
        ensures looks { self.new.looks ≡ self.old.looks }
        ensures input { self.new.input ≡ self.old.input }
        ensures output { self.new.output ≡ self.old.output }
        ensures early { self.new.early ≡ self.old.early }
        ensures fails { IsTrue (fails_next self.old.sends)
            → IsTrue (is_err result) }
    {
        if self.sends.fails_next() {
            self.sends.fail();
            return Err(EdgeFault::Failed);
        }
        match self.sent.push(item) {
            Ok(()) => {
                self.sends.pass();
                Ok(())
            }
            Err(_) => Err(EdgeFault::NoMemory),
        }
    }
}

impl MessageLink for MemorySocket {
    ghost use Rattle.std.specs.Prelude.{Some};
    ghost use Rattle.jm_edge.specs.MemorySockets.{origin_of};

    ghost coming = { λ s. Some s.coming.items };

    ghost sent = { λ s. Some s.sent };

    ghost origin = { origin_of };

    ghost read_faults = { λ s. s.looks.faults };

    ghost send_faults = { λ s. s.sends.faults };

    fn next(&mut self, _alloc: Global) -> Result<Arrival, EdgeFault>
        ensures arrival { MatchResult result
            (λ a. Arrives (Some self.old.coming.items) (Some self.new.coming.items) a)
            (λ _. Some self.new.coming.items ≡ Some self.old.coming.items) }
        ensures cause { IsCounted self.old.looks.faults self.new.looks.faults result }
        ensures sent { Some self.new.sent ≡ Some self.old.sent }
        ensures send_faults { self.new.sends.faults ≡ self.old.sends.faults }
        ensures origin { origin_of self.new ≡ origin_of self.old }

        // It fails at the listed calls and at no other.
        ensures fails { is_err result ≡ fails_next self.old.looks }
    {
        if self.looks.fails_next() {
            self.looks.fail();
            return Err(EdgeFault::Failed);
        }
        self.looks.pass();
        match self.coming.pop_front() {
            Some(arrival) => Ok(arrival),
            None => Ok(Arrival::Closed),
        }
    }

    fn send(&mut self, alloc: Global, text: &[u8]) -> Result<(), EdgeFault>
        ensures sent { Sends (Some self.old.sent) (Some self.new.sent) (text_sent text.now)
            result }
        ensures cause { IsCounted self.old.sends.faults self.new.sends.faults result }
        ensures coming { Some self.new.coming.items ≡ Some self.old.coming.items }
        ensures read_faults { self.new.looks.faults ≡ self.old.looks.faults }
        ensures origin { origin_of self.new ≡ origin_of self.old }

        // It fails at the listed calls.
        ensures fails { IsTrue (fails_next self.old.sends)
            → IsTrue (is_err result) }
    {
        match Bytes::from_slice(alloc, text) {
            Ok(bytes) => self.put(Sent::Text(bytes)),
            Err(_) => Err(EdgeFault::NoMemory),
        }
    }

    fn close(&mut self, _alloc: Global, code: u16) -> Result<(), EdgeFault>
        ensures sent { Sends (Some self.old.sent) (Some self.new.sent) (close_sent code) result }
        ensures cause { IsCounted self.old.sends.faults self.new.sends.faults result }
        ensures coming { Some self.new.coming.items ≡ Some self.old.coming.items }
        ensures read_faults { self.new.looks.faults ≡ self.old.looks.faults }
        ensures origin { origin_of self.new ≡ origin_of self.old }

        // It fails at the listed calls.
        ensures fails { IsTrue (fails_next self.old.sends)
            → IsTrue (is_err result) }
    {
        self.put(Sent::Close(code))
    }
}
