// A source and a sink in memory, with a list of the calls that fail.
ghost use Rattle.std.specs.Prelude.{◌≡◌, ◌<◌, [], min, is_err, IfOk, OnOk, length};
ghost use Rattle.std.specs.Io.{ReadsAtMost, WritesAtMost};
ghost use Rattle.std.specs.Io.KnownBytes.{ReadConsumes, WriteAppends};
ghost use Rattle.jm_edge.specs.Causes.{HasCause};
ghost use Rattle.jm_edge.specs.Memory.{size_at};
ghost use Rattle.jm_edge.specs.Schedules.{one_on, not_called, fails_next, counted};

use crate::{Calls, Failed, Sink, Source};
use jm_base::Numbers;
use std::alloc::Global;
use std::marker::Model;

/// Bytes in memory that are read in pieces of given sizes. The calls of the list, counted from 1,
/// fail.
#[derive(Drop)]
pub struct MemorySource {
    bytes: Vec<u8>,
    at: usize,
    sizes: Numbers,
    most: usize,
    calls: Calls,
}

impl Model for MemorySource {
    ghost use Rattle.std.specs.Prelude.{◌≤◌, ◌<◌, drop, vec_len};
    ghost use Rattle.jm_edge.specs.Memory.{Input};

    ghost Value = { Input };

    ghost view = { λ s. record {
      left = drop s.at s.bytes.items;
      sizes = s.sizes;
      most = s.most;
      calls = s.calls;
    } };

    ghost invariant = { λ s. s.at ≤ vec_len s.bytes };
}

impl MemorySource {
    /// Returns a source of these bytes that never fails.
    pub fn new(alloc: Global, bytes: Vec<u8>) -> MemorySource
        ensures left { result.left ≡ bytes.items }
        ensures calls { result.calls ≡ not_called [] }
    {
        MemorySource::build_in_pieces(bytes, usize::MAX, Numbers::new(alloc))
    }

    /// Returns a source of these bytes of which each call reads at most so many, at least one. The
    /// source fails at the listed calls.
    pub fn build_in_pieces(bytes: Vec<u8>, most: usize, fails: Numbers) -> MemorySource
        ensures { result ≡ record {
          left = bytes.items;
          sizes = [];
          most = most;
          calls = not_called fails;
        } }
    {
        let sizes = Numbers::new(*bytes.allocator());
        MemorySource::build_in_sizes(bytes, sizes, most, fails)
    }

    /// Returns a source of these bytes of which each call reads at most as many as its size says,
    /// at least one. The sizes are those of the calls in turn, failed ones too; after these the
    /// size is `most`. The source fails at the listed calls.
    pub fn build_in_sizes(
        bytes: Vec<u8>,
        sizes: Numbers,
        most: usize,
        fails: Numbers,
    ) -> MemorySource
        ensures { result ≡ record {
          left = bytes.items;
          sizes = sizes;
          most = most;
          calls = not_called fails;
        } }
    {
        MemorySource {
            bytes,
            at: 0,
            sizes,
            most,
            calls: Calls::new(fails),
        }
    }
}

// Returns how many bytes the call with this number, from 1, reads or writes at most.
fn find_size(sizes: &[u64], most: usize, call: u64) -> usize
    ensures { result ≡ size_at sizes.now most call }
{
    match sizes.get(call.saturating_sub(1) as usize) {
        Some(size) => 1.max(*size as usize),
        None => 1.max(most),
    }
}

impl Source for MemorySource {
    ghost use Rattle.std.specs.Prelude.{Some};

    ghost left = { λ s. Some s.left };

    ghost faults = { λ s. s.calls.faults };

    fn read(&mut self, room: &mut [u8]) -> Result<usize, Failed>
        ensures bound { ReadsAtMost result room.new }
        ensures bytes { ReadConsumes (Some self.old.left) (Some self.new.left) result room.new }
        ensures cause { HasCause self.old.calls.faults self.new.calls.faults result }
        ensures ok_count { OnOk result (self.new.calls.faults ≡ self.old.calls.faults) }

        // It fails at the listed calls and at no other.
        ensures fails { is_err result ≡ fails_next self.old.calls }
        ensures calls { self.new.calls ≡ counted (is_err result) self.old.calls }
        ensures count { IfOk result (λ n. n ≡ min (min (length room.new) (length self.old.left))
            (size_at self.old.sizes self.old.most (one_on self.old.calls.made))) }
        ensures sizes { self.new.sizes ≡ self.old.sizes }
        ensures most { self.new.most ≡ self.old.most }
    {
        if self.calls.fails_next() {
            self.calls.fail();
            return Err(Failed);
        }
        let size = find_size(self.sizes.as_slice(), self.most, self.calls.next());
        let count = room.len().min(self.bytes.len() - self.at).min(size);
        let end = self.at + count;
        room[..count].copy_from_slice(&self.bytes[self.at..end]);
        self.at = end;
        self.calls.pass();
        Ok(count)
    }
}

/// Bytes that are kept in memory, and are taken in pieces of given sizes. The calls of the list,
/// counted from 1, fail, and so does a call that finds no memory.
#[derive(Drop)]
pub struct MemorySink {
    bytes: Vec<u8>,
    sizes: Numbers,
    most: usize,
    calls: Calls,
}

impl Model for MemorySink {
    ghost use Rattle.jm_edge.specs.Memory.{Output};

    ghost Value = { Output };

    ghost view = { λ s. record {
      held = s.bytes.items;
      sizes = s.sizes;
      most = s.most;
      calls = s.calls;
    } };
}

impl MemorySink {
    /// Returns a sink that takes whatever it is given, and fails only if an allocation fails.
    pub fn new(alloc: Global) -> MemorySink
        ensures { result ≡ record {
          held = [];
          sizes = [];
          most = usize.MAX;
          calls = not_called [];
        } }
    {
        MemorySink::build_failing(alloc, Numbers::new(alloc))
    }

    /// Returns a sink as `new` does that also fails at the listed calls.
    pub fn build_failing(alloc: Global, fails: Numbers) -> MemorySink
        ensures { result ≡ record {
          held = [];
          sizes = [];
          most = usize.MAX;
          calls = not_called fails;
        } }
    {
        MemorySink::build_in_pieces(alloc, usize::MAX, fails)
    }

    /// Returns a sink of which each call takes at most so many bytes, at least one. The sink fails
    /// at the listed calls, and if an allocation fails.
    pub fn build_in_pieces(alloc: Global, most: usize, fails: Numbers) -> MemorySink
        ensures { result ≡ record {
          held = [];
          sizes = [];
          most = most;
          calls = not_called fails;
        } }
    {
        MemorySink::build_in_sizes(alloc, Numbers::new(alloc), most, fails)
    }

    /// Returns a sink of which each call takes at most as many bytes as its size says, at least
    /// one. The sizes are those of the calls in turn, failed ones too; after these the size is
    /// `most`. The sink fails at the listed calls, and if an allocation fails.
    pub fn build_in_sizes(alloc: Global, sizes: Numbers, most: usize, fails: Numbers) -> MemorySink
        ensures { result ≡ record {
          held = [];
          sizes = sizes;
          most = most;
          calls = not_called fails;
        } }
    {
        MemorySink {
            bytes: Vec::new(alloc),
            sizes,
            most,
            calls: Calls::new(fails),
        }
    }

    // Returns the allocator of the bytes.
    pub(crate) fn allocator(&self) -> Global {
        *self.bytes.allocator()
    }

    /// Lends the bytes that were written.
    pub fn bytes(&self) -> &[u8]
        ensures { result.now ≡ self.now.held }
    {
        self.bytes.as_slice()
    }
}

impl Sink for MemorySink {
    ghost use Rattle.std.specs.Prelude.{Some, IsTrue};

    ghost held = { λ s. Some s.held };

    ghost faults = { λ s. s.calls.faults };

    fn put(&mut self, piece: &[u8]) -> Result<usize, Failed>
        ensures bound { WritesAtMost result piece.now }
        ensures some { IfOk result (λ n. 0 < length piece.now → 0 < n) }
        ensures bytes { WriteAppends (Some self.old.held) (Some self.new.held) result piece.now }
        ensures cause { HasCause self.old.calls.faults self.new.calls.faults result }
        ensures ok_count { OnOk result (self.new.calls.faults ≡ self.old.calls.faults) }

        // It fails at the listed calls.
        ensures fails { IsTrue (fails_next self.old.calls) → IsTrue (is_err result) }
        ensures calls { self.new.calls ≡ counted (is_err result) self.old.calls }
        ensures count { IfOk result (λ n. n ≡ min (length piece.now)
            (size_at self.old.sizes self.old.most (one_on self.old.calls.made))) }
        ensures sizes { self.new.sizes ≡ self.old.sizes }
        ensures most { self.new.most ≡ self.old.most }
    {
        let size = find_size(self.sizes.as_slice(), self.most, self.calls.next());
        let count = piece.len().min(size);
        if self.calls.fails_next() || self.bytes.extend_from_slice(&piece[..count]).is_err() {
            self.calls.fail();
            return Err(Failed);
        }
        self.calls.pass();
        Ok(count)
    }
}
