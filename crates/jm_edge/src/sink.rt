// What bytes are written to.
ghost use Rattle.std.specs.Prelude.{◌≡◌, List, ℕ, Option, ◌<◌, length, IfOk, OnOk, OnErr, take};
ghost use Rattle.std.specs.Io.{WritesAtMost};
ghost use Rattle.std.specs.Io.KnownBytes.{WriteAppends, Appends};
ghost use Rattle.jm_edge.specs.Causes.{HasCause};

use crate::Failed;

/// What bytes are written to.
pub trait Sink: Drop {
    /// The bytes that were written, if the sink exposes them to contracts.
    ghost held: { Self → Option (List ℕ) };

    /// How often writing has failed. It never falls, and rises only in a call that fails.
    ghost faults: { Self → ℕ };

    /// Writes a prefix of the piece, at least a byte of one that is not empty, and returns how
    /// many bytes. After `Failed` nothing of the piece was written.
    fn put(&mut self, piece: &[u8]) -> Result<usize, Failed>
        ensures bound { WritesAtMost result piece.now }
        ensures some { IfOk result (λ n. 0 < length piece.now → 0 < n) }
        ensures bytes { WriteAppends (held self.old) (held self.new) result piece.now }
        ensures cause { HasCause (faults self.old) (faults self.new) result }
        ensures ok_count { OnOk result (faults self.new ≡ faults self.old) };
}

/// Writes the whole piece, or a prefix of it if the sink fails.
pub fn put_all<K: Sink>(sink: &mut K, piece: &[u8]) -> Result<(), Failed>
    ensures ok { OnOk result (Appends (K.held sink.old) (K.held sink.new) piece.now) }
    ensures err { OnErr result ((n : ℕ) × Appends (K.held sink.old) (K.held sink.new)
        (take n piece.now)) }
    ensures cause { HasCause (K.faults sink.old) (K.faults sink.new) result }
    ensures ok_count { OnOk result (K.faults sink.new ≡ K.faults sink.old) }
{
    let mut at = 0;
    'put: while at < piece.len() {
        let count = sink.put(&piece[at..])?;
        at += count;
    }
    Ok(())
}
