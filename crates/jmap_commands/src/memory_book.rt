// A book of an account in memory.
ghost use Rattle.std.specs.Prelude.{◌≡◌, [], Some, IfOk};
ghost use Rattle.keep_port.specs.Keeping.{LeavesContent};
ghost use Rattle.keep_port.specs.Memory.{may_be_left, opened};
ghost use Rattle.mail_records.specs.Histories.{empty_history};
ghost use Rattle.account_book.specs.declared.faults.StartFault.TheVariants as TheFault;

use account_book::{Book, Rules, StartFault, kept_accounts_open_again};
use jm_base::{NoMemory, Rows};
use jm_edge::EdgeFault;
use keep_port::{Keeper, Kept, MemoryKeeper};
use std::alloc::Global;
use std::marker::Model;

/// Keeps the rows of an account in memory, and never fails. Contracts see it as the keeper in
/// memory that it is.
#[derive(Drop)]
pub struct UnfailingKeeper {
    memory: MemoryKeeper,
}

impl Model for UnfailingKeeper {
    ghost use Rattle.std.specs.Prelude.{◌≡◌, []};
    ghost use Rattle.keep_port.specs.declared.memory.MemoryKeeper.{MemoryKeeper as TheMemory};

    ghost Value = { TheMemory };

    ghost view = { λ k. k.memory };

    ghost invariant = { λ k. (k.memory.loads.fails ≡ []) × (k.memory.appends.fails ≡ [])
        × (k.memory.replaces.fails ≡ []) };
}

impl UnfailingKeeper {
    ghost use Rattle.std.specs.Prelude.{[]};

    /// Returns a keeper of this content.
    pub fn new(alloc: Global, kept: Kept) -> UnfailingKeeper
        ensures opened { result ≡ opened kept [] [] [] }
        ensures clean { LeavesContent (Some result.kept) (may_be_left result) }
    {
        UnfailingKeeper {
            memory: MemoryKeeper::new(alloc, kept),
        }
    }
}

impl Keeper for UnfailingKeeper {
    ghost kept = { λ m. Some m.kept };

    ghost image = { may_be_left };

    ghost load_faults = { λ m. 0 };

    ghost append_faults = { λ m. 0 };

    ghost replace_faults = { λ m. 0 };

    fn load(&mut self, alloc: Global) -> Result<Kept, EdgeFault> {
        self.memory.load(alloc)
    }

    fn append(&mut self, alloc: Global, row: &[u8]) -> Result<(), EdgeFault> {
        self.memory.append(alloc, row)
    }

    fn replace(&mut self, alloc: Global, whole: &Kept) -> Result<(), EdgeFault> {
        self.memory.replace(alloc, whole)
    }
}

// Returns the fault of an allocation, which is the only one where nothing is kept in memory.
fn convert_start_fault(fault: StartFault) -> NoMemory
    requires only { fault ≡ TheFault.NoMemory }
{
    let _fault = fault;
    NoMemory
}

/// Opens an account in which nothing has been yet, over a keeper in memory that never fails. Fails
/// only if an allocation fails.
pub fn begin_book<R: Rules>(alloc: Global, rules: R) -> Result<Book<UnfailingKeeper, R>, NoMemory>
    ensures opened { IfOk result (λ b. b.opened ≡ empty_history) }
    ensures fresh { IfOk result (λ b. b.since ≡ []) }
{
    kept_accounts_open_again(&rules);
    let kept = Kept {
        base: None,
        rows: Rows::new(alloc),
    };
    match Book::start(alloc, UnfailingKeeper::new(alloc, kept), rules) {
        Ok(book) => Ok(book),
        Err((fault, _)) => Err(convert_start_fault(fault)),
    }
}
