// The port to what keeps the rows of an account.
ghost use Rattle.std.specs.Prelude.{◌≡◌, ◌⊎◌, ℕ, Option, Some, IfOk};
ghost use Rattle.keep_port.specs.declared.kept.Kept.{Kept};
ghost use Rattle.jm_edge.specs.Causes.{IsCounted};
ghost use Rattle.keep_port.specs.Keeping.{IsContent, IsUnknownOr, content_after, content_loaded, with_row_if, MayLeave};

use crate::Kept;
use jm_edge::EdgeFault;
use std::alloc::Global;

/// Keeps the rows of an account over restarts and crashes.
///
/// Contracts see the content as far as the keeper knows it. A keeper over a disk knows its content
/// only while the disk has had no fault. So after each call the content is unknown, or exactly what
/// the call makes of the content before. An unknown content becomes known only by a `load` or a
/// `replace` that returns `Ok`.
///
/// Each call returns `Failed` only if its own count of faults rose in that call. `Ok` and
/// `NoMemory` raise no count. An error leaves the content as it was.
///
/// Contracts also see what a crash may leave, as an upper bound: nothing else may be left. The
/// bound holds however much a keeper knows. A keeper that leaves it empty promises nothing of a
/// crash; how much at least is in it is for each keeper to promise.
///
/// Whoever opens an account over a keeper (`Book::start` of account_book) loads it once, and relies
/// on what a crash may leave. It assumes that since the last `append` or `replace` that returned
/// `Ok` no `append` or `replace` was refused; or that whatever else a crash may leave is the
/// content with one more row, which is the next commit of that account. The second is so of a
/// keeper that a book hands back, however many of its appends were refused. A row that was refused
/// and is no such commit may be there after a crash, and the account is damaged then.
pub trait Keeper: Drop + Send {
    /// The content, if the keeper knows it.
    ghost kept: { Self → Option Kept };

    /// What a crash may leave now.
    ghost image: { Self → Kept → Type 0 };

    /// How often `load` has failed. It never falls.
    ghost load_faults: { Self → ℕ };

    /// How often `append` has failed. It never falls.
    ghost append_faults: { Self → ℕ };

    /// How often `replace` has failed. It never falls.
    ghost replace_faults: { Self → ℕ };

    /// Returns the content. The content stays as it is.
    ///
    /// What is returned is the content after the call, if that is known then: a disk whose fault
    /// shows in this call may have returned something else.
    fn load(&mut self, alloc: Global) -> Result<Kept, EdgeFault>
        ensures loaded { IfOk result (IsContent (kept self.new)) }
        ensures kept { IsUnknownOr (content_loaded result (kept self.old)) (kept self.new) }
        ensures image { (k : Kept) → image self.new k → image self.old k
            ⊎ (kept self.new ≡ Some k) }
        ensures cause { IsCounted (load_faults self.old) (load_faults self.new) result }
        ensures append_count { append_faults self.new ≡ append_faults self.old }
        ensures replace_count { replace_faults self.new ≡ replace_faults self.old };

    /// Adds a row after those of the content. After an error a crash may leave the content with the
    /// row or without it, until the next `append` or `replace` that returns `Ok`.
    fn append(&mut self, alloc: Global, row: &[u8]) -> Result<(), EdgeFault>
        ensures kept { IsUnknownOr (content_after result (with_row_if row.now (kept self.old))
            (kept self.old)) (kept self.new) }
        ensures image { MayLeave result (with_row_if row.now (kept self.old)) (image self.old)
            (image self.new) }
        ensures cause { IsCounted (append_faults self.old) (append_faults self.new) result }
        ensures load_count { load_faults self.new ≡ load_faults self.old }
        ensures replace_count { replace_faults self.new ≡ replace_faults self.old };

    /// Keeps this content in place of the one before. After an error a crash may leave the one or
    /// the other, until the next `append` or `replace` that returns `Ok`.
    fn replace(&mut self, alloc: Global, whole: &Kept) -> Result<(), EdgeFault>
        ensures kept { IsUnknownOr (content_after result (Some whole.now) (kept self.old))
            (kept self.new) }
        ensures image { MayLeave result (Some whole.now) (image self.old) (image self.new) }
        ensures cause { IsCounted (replace_faults self.old) (replace_faults self.new) result }
        ensures load_count { load_faults self.new ≡ load_faults self.old }
        ensures append_count { append_faults self.new ≡ append_faults self.old };
}
