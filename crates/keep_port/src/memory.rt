// A keeper in memory, with lists of the calls that fail.
ghost use Rattle.std.specs.Prelude.{◌≡◌, ◌⊎◌, Some, IfOk};
ghost use Rattle.keep_port.specs.declared.kept.Kept.{Kept};
ghost use Rattle.jm_edge.specs.Causes.{IsCounted};
ghost use Rattle.keep_port.specs.Keeping.{IsContent, IsUnknownOr, content_after, content_loaded, with_row_if, MayLeave, MustLeave};

use crate::{Keeper, Kept};
use jm_base::{Bytes, Numbers, Rows, Sequence};
use jm_edge::{Calls, EdgeFault};
use std::alloc::Global;

/// Keeps rows in memory. Its content is always known, and so is what a crash may leave: exactly the
/// content; the content with the row of one refused `append`; and what one refused `replace` was to
/// keep. Refused are the calls since the last `append` or `replace` that returned `Ok`.
///
/// The listed calls fail, counted from 1 separately for `load`, `append` and `replace`. A call that
/// runs out of memory changes nothing and is not counted: if it was a listed one, the next call of
/// its kind fails.
#[derive(Drop)]
pub struct MemoryKeeper {
    kept: Kept,
    refused_rows: Rows,
    refused_wholes: Sequence<Kept>,
    loads: Calls,
    appends: Calls,
    replaces: Calls,
}

impl MemoryKeeper {
    ghost use Rattle.keep_port.specs.Keeping.{LeavesContent};
    ghost use Rattle.keep_port.specs.Memory.{opened, may_be_left};
    ghost use Rattle.std.specs.Prelude.{[]};

    /// Returns a keeper of this content that never fails.
    pub fn new(alloc: Global, kept: Kept) -> MemoryKeeper
        ensures opened { result ≡ opened kept [] [] [] }
        ensures clean { LeavesContent (Some result.kept) (may_be_left result) }
    {
        let none = Numbers::new(alloc);
        MemoryKeeper::build_failing(alloc, kept, none, Numbers::new(alloc), Numbers::new(alloc))
    }

    #[tactic(auto, using(crate::proofs::Left::nothing_refused, crate::proofs::Left::kept_is_left))]
    /// Returns a keeper of this content that fails at the listed calls of `load`, `append` and
    /// `replace`.
    pub fn build_failing(
        alloc: Global,
        kept: Kept,
        loads: Numbers,
        appends: Numbers,
        replaces: Numbers,
    ) -> MemoryKeeper
        ensures opened { result ≡ opened kept loads appends replaces }
        ensures clean { LeavesContent (Some result.kept) (may_be_left result) }
    {
        MemoryKeeper {
            kept,
            refused_rows: Rows::new(alloc),
            refused_wholes: Sequence::new(alloc),
            loads: Calls::new(loads),
            appends: Calls::new(appends),
            replaces: Calls::new(replaces),
        }
    }

    /// Lends the content.
    pub fn kept(&self) -> &Kept
        ensures { result.now ≡ self.now.kept }
    {
        &self.kept
    }

    /// Lends the counts of the calls of `load`.
    pub fn loads(&self) -> &Calls
        ensures { result.now ≡ self.now.loads }
    {
        &self.loads
    }

    /// Lends the counts of the calls of `append`.
    pub fn appends(&self) -> &Calls
        ensures { result.now ≡ self.now.appends }
    {
        &self.appends
    }

    /// Lends the counts of the calls of `replace`.
    pub fn replaces(&self) -> &Calls
        ensures { result.now ≡ self.now.replaces }
    {
        &self.replaces
    }
}

impl Keeper for MemoryKeeper {
    ghost use Rattle.keep_port.specs.Memory.{may_be_left, Loads, Appends, Replaces};

    ghost kept = { λ m. Some m.kept };

    ghost image = { may_be_left };

    ghost load_faults = { λ m. m.loads.faults };

    ghost append_faults = { λ m. m.appends.faults };

    ghost replace_faults = { λ m. m.replaces.faults };

    fn load(&mut self, alloc: Global) -> Result<Kept, EdgeFault>
        ensures does { Loads self.old self.new result }
        ensures loaded { IfOk result (IsContent (Some self.new.kept)) }
        ensures kept { IsUnknownOr (content_loaded result (Some self.old.kept))
            (Some self.new.kept) }
        ensures image { (k : Kept) → may_be_left self.new k → may_be_left self.old k
            ⊎ (Some self.new.kept ≡ Some k) }
        ensures cases { (k : Kept) → may_be_left self.old k → may_be_left self.new k }
        ensures cause { IsCounted self.old.loads.faults self.new.loads.faults result }
        ensures append_count { self.new.appends.faults ≡ self.old.appends.faults }
        ensures replace_count { self.new.replaces.faults ≡ self.old.replaces.faults }
    {
        if self.loads.fails_next() {
            self.loads.fail();
            return Err(EdgeFault::Failed);
        }
        let Ok(copy) = self.kept.copy(alloc) else {
            return Err(EdgeFault::NoMemory);
        };
        self.loads.pass();
        Ok(copy)
    }

    fn append(&mut self, alloc: Global, row: &[u8]) -> Result<(), EdgeFault>
        ensures does { Appends row.now self.old self.new result }
        ensures kept { IsUnknownOr (content_after result (with_row_if row.now
            (Some self.old.kept)) (Some self.old.kept)) (Some self.new.kept) }
        ensures image { MayLeave result (with_row_if row.now (Some self.old.kept))
            (may_be_left self.old) (may_be_left self.new) }
        ensures cases { MustLeave result (with_row_if row.now (Some self.old.kept))
            (may_be_left self.old) (may_be_left self.new) }
        ensures cause { IsCounted self.old.appends.faults self.new.appends.faults result }
        ensures load_count { self.new.loads.faults ≡ self.old.loads.faults }
        ensures replace_count { self.new.replaces.faults ≡ self.old.replaces.faults }
    {
        let Ok(copy) = Bytes::from_slice(alloc, row) else {
            return Err(EdgeFault::NoMemory);
        };
        if self.appends.fails_next() {
            if self.refused_rows.push(copy).is_err() {
                return Err(EdgeFault::NoMemory);
            }
            self.appends.fail();
            return Err(EdgeFault::Failed);
        }
        if self.kept.rows.push(copy).is_err() {
            return Err(EdgeFault::NoMemory);
        }
        self.refused_rows = Rows::new(alloc);
        self.refused_wholes = Sequence::new(alloc);
        self.appends.pass();
        Ok(())
    }

    fn replace(&mut self, alloc: Global, whole: &Kept) -> Result<(), EdgeFault>
        ensures does { Replaces whole.now self.old self.new result }
        ensures kept { IsUnknownOr (content_after result (Some whole.now) (Some self.old.kept))
            (Some self.new.kept) }
        ensures image { MayLeave result (Some whole.now) (may_be_left self.old)
            (may_be_left self.new) }
        ensures cases { MustLeave result (Some whole.now) (may_be_left self.old)
            (may_be_left self.new) }
        ensures cause { IsCounted self.old.replaces.faults self.new.replaces.faults result }
        ensures load_count { self.new.loads.faults ≡ self.old.loads.faults }
        ensures append_count { self.new.appends.faults ≡ self.old.appends.faults }
    {
        let Ok(copy) = whole.copy(alloc) else {
            return Err(EdgeFault::NoMemory);
        };
        if self.replaces.fails_next() {
            if self.refused_wholes.push(copy).is_err() {
                return Err(EdgeFault::NoMemory);
            }
            self.replaces.fail();
            return Err(EdgeFault::Failed);
        }
        self.kept = copy;
        self.refused_rows = Rows::new(alloc);
        self.refused_wholes = Sequence::new(alloc);
        self.replaces.pass();
        Ok(())
    }
}
