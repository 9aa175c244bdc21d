// What keeps a client's cache.
ghost use Rattle.std.specs.Prelude.{◌≡◌, ℕ, List, Option, Some, IfOk};
ghost use Rattle.jm_edge.specs.Causes.{IsCounted};
ghost use Rattle.jm_edge.specs.Contents.{IsContent, IsUnknownOr, content_after, content_loaded};

use crate::EdgeFault;
use jm_base::Bytes;
use std::alloc::Global;

/// Keeps the bytes of one file, which may not exist.
///
/// Contracts see the content as far as the shelf knows it: after each call it is unknown, or
/// exactly what the call makes of the content before. An unknown content becomes known only by a
/// call that returns `Ok`.
///
/// Each call returns `Failed` only if its own count of faults rose in that call. `Ok` and
/// `NoMemory` raise no count. An error leaves the content as it was.
pub trait Shelf: Drop {
    /// The content, if the shelf knows it: none where the file does not exist, or its bytes.
    ghost kept: { Self → Option (Option (List ℕ)) };

    /// How often `load` has failed. It never falls.
    ghost load_faults: { Self → ℕ };

    /// How often `save` has failed. It never falls.
    ghost save_faults: { Self → ℕ };

    /// Returns the bytes, or none if the file does not exist. The content stays as it is. What is
    /// returned is the content after the call, if that is known then.
    fn load(&mut self, alloc: Global) -> Result<Option<Bytes>, EdgeFault>
        ensures loaded { IfOk result (IsContent (kept self.new)) }
        ensures kept { IsUnknownOr (content_loaded result (kept self.old)) (kept self.new) }
        ensures cause { IsCounted (load_faults self.old) (load_faults self.new) result }
        ensures save_count { save_faults self.new ≡ save_faults self.old };

    /// Keeps these bytes in place of what was kept.
    fn save(&mut self, alloc: Global, bytes: &[u8]) -> Result<(), EdgeFault>
        ensures kept { IsUnknownOr (content_after result (Some (Some bytes.now))
            (kept self.old)) (kept self.new) }
        ensures cause { IsCounted (save_faults self.old) (save_faults self.new) result }
        ensures load_count { load_faults self.new ≡ load_faults self.old };
}
