// A link in memory.
ghost use Rattle.std.specs.Prelude.{◌≡◌, ◌<◌, [], min, Some, IsTrue, is_err, IfOk, OnOk, length};
ghost use Rattle.std.specs.Io.{ReadsAtMost, WritesAtMost};
ghost use Rattle.std.specs.Io.KnownBytes.{ReadConsumes, WriteAppends};
ghost use Rattle.jm_edge.specs.Causes.{HasCause};
ghost use Rattle.jm_edge.specs.Memory.{size_at};
ghost use Rattle.jm_edge.specs.Schedules.{one_on, not_called, fails_next, counted};

use crate::{Failed, Link, MemorySink, MemorySocket, MemorySource, Script, Sink, Source};
use jm_base::{Bytes, NoMemory, Numbers};
use std::alloc::Global;
use std::collections::VecDeque;
use std::marker::Model;

/// A link in memory: a source of the bytes to be read, a sink of the bytes that are written, and
/// the script of the socket that it can become.
#[derive(Drop)]
pub struct MemoryLink {
    input: MemorySource,
    output: MemorySink,
    script: Script,
}

impl Model for MemoryLink {
    ghost use Rattle.jm_edge.specs.Memory.{Traffic};

    ghost Value = { Traffic };

    ghost view = { λ l. record {
      input = l.input;
      output = l.output;
      coming = l.script.coming.items;
      look_fails = l.script.look_fails;
      send_fails = l.script.send_fails;
    } };
}

impl MemoryLink {
    /// Returns a link that reads from this source and writes to this sink. The lists of failing
    /// calls and of the sizes of reads are theirs. Nothing arrives at a socket made from it.
    pub fn new(input: MemorySource, output: MemorySink) -> MemoryLink
        ensures { result ≡ record {
          input = input;
          output = output;
          coming = [];
          look_fails = [];
          send_fails = [];
        } }
    {
        let alloc = output.allocator();
        let script = Script {
            coming: VecDeque::new(alloc),
            look_fails: Numbers::new(alloc),
            send_fails: Numbers::new(alloc),
        };
        MemoryLink::with_script(input, output, script)
    }

    /// Returns a link as `new` does, of which a socket with this script is made.
    pub fn with_script(input: MemorySource, output: MemorySink, script: Script) -> MemoryLink
        ensures { result ≡ record {
          input = input;
          output = output;
          coming = script.coming.items;
          look_fails = script.look_fails;
          send_fails = script.send_fails;
        } }
    {
        MemoryLink {
            input,
            output,
            script,
        }
    }

    /// Returns a link from which these bytes are read, that never fails unless an allocation fails.
    pub fn from_vec(alloc: Global, bytes: Vec<u8>) -> MemoryLink
        ensures input { result.input.left ≡ bytes.items }
        ensures reads { result.input.calls ≡ not_called [] }
        ensures output { result.output.held ≡ [] }
        ensures writes { result.output.calls ≡ not_called [] }
    {
        MemoryLink::new(MemorySource::new(alloc, bytes), MemorySink::new(alloc))
    }

    /// Lends the bytes that were written.
    pub fn bytes(&self) -> &[u8]
        ensures { result.now ≡ self.now.output.held }
    {
        self.output.bytes()
    }
}

impl Link for MemoryLink {
    ghost use Rattle.std.specs.Prelude.{Some};
    ghost use Rattle.jm_edge.specs.MemorySockets.{origin_of};
    ghost use Rattle.jm_edge.specs.Sockets.{IsKnownOrigin};

    type Socket = MemorySocket;

    ghost left = { λ l. Some l.input.left };

    ghost held = { λ l. Some l.output.held };

    ghost read_faults = { λ l. l.input.calls.faults };

    ghost put_faults = { λ l. l.output.calls.faults };

    fn read(&mut self, room: &mut [u8]) -> Result<usize, Failed>
        ensures bound { ReadsAtMost result room.new }
        ensures bytes { ReadConsumes (Some self.old.input.left) (Some self.new.input.left) result
            room.new }
        ensures cause { HasCause self.old.input.calls.faults self.new.input.calls.faults result }
        ensures ok_count { OnOk result (self.new.input.calls.faults ≡ self.old.input.calls.faults) }
        ensures held { Some self.new.output.held ≡ Some self.old.output.held }
        ensures put_faults { self.new.output.calls.faults ≡ self.old.output.calls.faults }

        // It fails at the listed calls and at no other.
        ensures fails { is_err result ≡ fails_next self.old.input.calls }
        ensures calls { self.new.input.calls ≡ counted (is_err result) self.old.input.calls }
        ensures output { self.new.output ≡ self.old.output }
    {
        self.input.read(room)
    }

    fn put(&mut self, piece: &[u8]) -> Result<usize, Failed>
        ensures bound { WritesAtMost result piece.now }
        ensures some { IfOk result (λ n. 0 < length piece.now → 0 < n) }
        ensures bytes { WriteAppends (Some self.old.output.held) (Some self.new.output.held) result
            piece.now }
        ensures cause { HasCause self.old.output.calls.faults self.new.output.calls.faults result }
        ensures ok_count { OnOk result (self.new.output.calls.faults
            ≡ self.old.output.calls.faults) }
        ensures left { Some self.new.input.left ≡ Some self.old.input.left }
        ensures read_faults { self.new.input.calls.faults ≡ self.old.input.calls.faults }

        // It fails at the listed calls.
        ensures fails { IsTrue (fails_next self.old.output.calls) → IsTrue (is_err result) }
        ensures calls { self.new.output.calls ≡ counted (is_err result) self.old.output.calls }
        ensures count { IfOk result (λ n. n ≡ min (length piece.now) (size_at
            self.old.output.sizes self.old.output.most (one_on self.old.output.calls.made))) }
        ensures input { self.new.input ≡ self.old.input }
    {
        self.output.put(piece)
    }

    fn finish(&mut self)
        ensures left { Some self.new.input.left ≡ Some self.old.input.left }
        ensures held { Some self.new.output.held ≡ Some self.old.output.held }
        ensures read_faults { self.new.input.calls.faults ≡ self.old.input.calls.faults }
        ensures put_faults { self.new.output.calls.faults ≡ self.old.output.calls.faults }

        // It does nothing.
        ensures same { self.new ≡ self.old }
    {}

    fn upgrade(self, alloc: Global, early: Bytes) -> Result<MemorySocket, NoMemory>
        ensures reads { IfOk result (λ s. s.looks.faults ≡ 0) }
        ensures sends { IfOk result (λ s. s.sends.faults ≡ 0) }
        ensures origin { IfOk result (λ s. IsKnownOrigin (Some self.input.left)
            (Some self.output.held) early (origin_of s)) }

        // The socket follows the script.
        ensures coming { IfOk result (λ s. s.coming.items ≡ self.coming) }
        ensures look_fails { IfOk result (λ s. s.looks ≡ not_called self.look_fails) }
        ensures send_fails { IfOk result (λ s. s.sends ≡ not_called self.send_fails) }
    {
        let MemoryLink {
            input,
            output,
            script,
        } = self;
        Ok(MemorySocket::new(alloc, input, output, early, script))
    }
}
