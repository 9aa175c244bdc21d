// A world that gives nothing, for the commands that need none.
use jm_base::{Bytes, Numbers, Text};
use jm_edge::{EdgeFault, MemoryClock, MemoryLink, NoGate};
use jmap_server::{Finished, World};
use keep_port::{Keeper, Kept};
use std::alloc::Global;

// A keeper that keeps nothing, of which none is made.
#[derive(Drop)]
pub(crate) struct NoKeeper;

impl Keeper for NoKeeper {
    ghost use Rattle.std.specs.Prelude.{None};

    ghost kept = { λ _. None };

    ghost image = { λ _ _. ⊥ };

    ghost load_faults = { λ _. 0 };

    ghost append_faults = { λ _. 0 };

    ghost replace_faults = { λ _. 0 };

    fn load(&mut self, _alloc: Global) -> Result<Kept, EdgeFault> {
        Err(EdgeFault::NoMemory)
    }

    fn append(&mut self, _alloc: Global, _row: &[u8]) -> Result<(), EdgeFault> {
        Err(EdgeFault::NoMemory)
    }

    fn replace(&mut self, _alloc: Global, _whole: &Kept) -> Result<(), EdgeFault> {
        Err(EdgeFault::NoMemory)
    }
}

#[derive(Drop)]
pub(crate) struct NoWorld {
    pub(crate) alloc: Global,
}

impl World for NoWorld {
    ghost use Rattle.std.specs.Prelude.{None, ◌≡◌, ◌∷◌, [], ℕ};
    ghost use Rattle.jmap_server.specs.Deeds.{GotLine, IsTold};

    type Keep = NoKeeper;

    type Line = MemoryLink;

    type Time = MemoryClock;

    type Hold = NoGate;

    ghost told = { λ _. None };

    ghost faults = { λ _. 0 };

    ghost load_faults = { λ _. 0 };

    fn text(&mut self, _alloc: Global, _name: &Text) -> Result<Bytes, EdgeFault> {
        Err(EdgeFault::NoMemory)
    }

    fn keeper(
        &mut self,
        _alloc: Global,
        _folder: &Text,
        _account: &Text,
    ) -> Result<NoKeeper, EdgeFault> {
        Err(EdgeFault::NoMemory)
    }

    fn listen(&mut self, _alloc: Global, _port: u16) -> Result<(), EdgeFault> {
        Err(EdgeFault::NoMemory)
    }

    fn line(&mut self, _alloc: Global) -> Result<MemoryLink, EdgeFault> {
        Err(EdgeFault::NoMemory)
    }

    fn clock(&mut self) -> MemoryClock {
        MemoryClock::new(Numbers::new(self.alloc), 0)
    }

    fn gate(&mut self) -> NoGate {
        NoGate
    }

    fn return_line(&mut self, finished: Finished<MemoryLink>)
        ensures told { IsTold {K = Unit {0}} {C = Unit {0}} None None (GotLine finished ∷ []) }
        ensures count { ◌≡◌ {A = ℕ} 0 0 }
        ensures load_count { ◌≡◌ {A = ℕ} 0 0 }
    {
        drop(finished);
    }

    fn return_keeper(&mut self, _account: &Text, keeper: NoKeeper) {
        drop(keeper);
    }
}
