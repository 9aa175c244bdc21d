// What bytes are read from.
ghost use Rattle.std.specs.Prelude.{◌≡◌, List, ℕ, Option, OnOk};
ghost use Rattle.std.specs.Io.{ReadsAtMost};
ghost use Rattle.std.specs.Io.KnownBytes.{ReadConsumes};
ghost use Rattle.jm_edge.specs.Causes.{HasCause};

use crate::Failed;

/// What bytes are read from.
pub trait Source: Drop {
    /// The bytes that are left, if the source exposes them to contracts.
    ghost left: { Self → Option (List ℕ) };

    /// How often reading has failed. It never falls, and rises only in a call that fails.
    ghost faults: { Self → ℕ };

    /// Reads the next bytes into the start of the room, and returns how many. A count of 0 for a
    /// room that is not empty is the end of the input. After `Failed` nothing was read.
    fn read(&mut self, room: &mut [u8]) -> Result<usize, Failed>
        ensures bound { ReadsAtMost result room.new }
        ensures bytes { ReadConsumes (left self.old) (left self.new) result room.new }
        ensures cause { HasCause (faults self.old) (faults self.new) result }
        ensures ok_count { OnOk result (faults self.new ≡ faults self.old) };
}
