// A connection: bytes that are read, and bytes that are written.
ghost use Rattle.std.specs.Prelude.{◌≡◌, List, ℕ, Option, ◌<◌, length, IfOk, OnOk, OnErr, take};
ghost use Rattle.std.specs.Io.{ReadsAtMost, WritesAtMost};
ghost use Rattle.std.specs.Io.KnownBytes.{ReadConsumes, WriteAppends, Appends};
ghost use Rattle.jm_edge.specs.Causes.{HasCause};
ghost use Rattle.jm_edge.specs.Sockets.{IsKnownOrigin};

use crate::{Failed, MessageLink};
use jm_base::{Bytes, NoMemory};
use std::alloc::Global;

/// A connection. Reading and writing have counts of faults of their own, and neither changes what
/// is known of the other.
pub trait Link: Drop + Send {
    /// The WebSocket connection that this one can become.
    type Socket: MessageLink;

    /// The bytes that are still to be read, if the link exposes them.
    ghost left: { Self → Option (List ℕ) };

    /// The bytes that were written, if the link exposes them.
    ghost held: { Self → Option (List ℕ) };

    /// How often reading has failed. The count never falls, and rises only in a call that fails.
    ghost read_faults: { Self → ℕ };

    /// How often writing has failed. The count never falls, and rises only in a call that fails.
    ghost put_faults: { Self → ℕ };

    /// Reads the next bytes into the beginning of the room, and returns how many. A count of 0 for
    /// a room that is not empty is the end of the input. After `Failed` nothing was read.
    fn read(&mut self, room: &mut [u8]) -> Result<usize, Failed>
        ensures bound { ReadsAtMost result room.new }
        ensures bytes { ReadConsumes (left self.old) (left self.new) result room.new }
        ensures cause { HasCause (read_faults self.old) (read_faults self.new) result }
        ensures ok_count { OnOk result (read_faults self.new ≡ read_faults self.old) }
        ensures held { held self.new ≡ held self.old }
        ensures put_faults { put_faults self.new ≡ put_faults self.old };

    /// Writes a prefix of the piece, at least a byte of a piece that is not empty, and returns how
    /// many bytes. After `Failed` nothing of the piece was written.
    fn put(&mut self, piece: &[u8]) -> Result<usize, Failed>
        ensures bound { WritesAtMost result piece.now }
        ensures some { IfOk result (λ n. 0 < length piece.now → 0 < n) }
        ensures bytes { WriteAppends (held self.old) (held self.new) result piece.now }
        ensures cause { HasCause (put_faults self.old) (put_faults self.new) result }
        ensures ok_count { OnOk result (put_faults self.new ≡ put_faults self.old) }
        ensures left { left self.new ≡ left self.old }
        ensures read_faults { read_faults self.new ≡ read_faults self.old };

    /// Tells the other side that nothing more will be written. What contracts see of the link stays
    /// as it is, and a fault is not counted.
    fn finish(&mut self)
        ensures left { left self.new ≡ left self.old }
        ensures held { held self.new ≡ held self.old }
        ensures read_faults { read_faults self.new ≡ read_faults self.old }
        ensures put_faults { put_faults self.new ≡ put_faults self.old };

    /// Turns the connection into a WebSocket connection, after the handshake was written (RFC 6455,
    /// section 4.2.2). The early bytes were read past the request, and come before those that are
    /// still to be read. The socket's counts of faults are 0. If memory runs out, the connection is
    /// dropped.
    fn upgrade(self, alloc: Global, early: Bytes) -> Result<Self::Socket, NoMemory>
        ensures reads { IfOk result (λ s. Self.Socket.read_faults s ≡ 0) }
        ensures sends { IfOk result (λ s. Self.Socket.send_faults s ≡ 0) }
        ensures origin { IfOk result
            (λ s. IsKnownOrigin (left self) (held self) early (Self.Socket.origin s)) };
}

/// Writes the whole piece to a link, or a prefix of the piece if the link fails.
pub fn put_to_link<L: Link>(link: &mut L, piece: &[u8]) -> Result<(), Failed>
    ensures ok { OnOk result (Appends (L.held link.old) (L.held link.new) piece.now) }
    ensures err { OnErr result ((n : ℕ) × Appends (L.held link.old) (L.held link.new)
        (take n piece.now)) }
    ensures cause { HasCause (L.put_faults link.old) (L.put_faults link.new) result }
    ensures ok_count { OnOk result (L.put_faults link.new ≡ L.put_faults link.old) }
    ensures left { L.left link.new ≡ L.left link.old }
    ensures read_faults { L.read_faults link.new ≡ L.read_faults link.old }
{
    let mut at = 0;
    'put: while at < piece.len() {
        let count = link.put(&piece[at..])?;
        at += count;
    }
    Ok(())
}
