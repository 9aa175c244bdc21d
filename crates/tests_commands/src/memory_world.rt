// A world in memory.
ghost use Rattle.std.specs.Prelude.{◌≡◌};

use jm_base::{Bytes, NoMemory, Numbers, Text};
use jm_edge::{EdgeFault, MemoryClock, MemoryLink, NoGate};
use jmap_server::{Finished, World};
use keep_port::{Keeper, Kept, MemoryKeeper};
use std::alloc::Global;

// A configuration of one user with one account.
pub(crate) const CONFIG: &str =
    "{\"users\":[{\"accounts\":[{\"id\":\"A1\",\"name\":\"Mail\",\"readOnly\":false}],\"name\":\"ann\",\"token\":\"t\"}]}";

// The configuration, and what each connection asks.
#[derive(Clone, Copy)]
pub(crate) struct Setting {
    pub(crate) config: &'static str,
    pub(crate) request: &'static str,
}

// A keeper in memory that counts how often its `load` has failed. Contracts don't know what it
// keeps.
#[derive(Drop)]
pub(crate) struct RowKeeper {
    memory: MemoryKeeper,
    pub(crate) load_faults: u64,
}

impl RowKeeper {
    // Returns a keeper of nothing.
    pub(crate) fn new(alloc: Global) -> RowKeeper
        ensures { result.load_faults ≡ 0 }
    {
        RowKeeper {
            memory: MemoryKeeper::new(alloc, Kept::new(alloc)),
            load_faults: 0,
        }
    }
}

impl Keeper for RowKeeper {
    ghost use Rattle.std.specs.Prelude.{None};

    ghost kept = { λ _. None };

    ghost image = { λ _ _. ⊥ };

    ghost load_faults = { λ k. k.load_faults };

    ghost append_faults = { λ k. k.memory.appends.faults };

    ghost replace_faults = { λ k. k.memory.replaces.faults };

    fn load(&mut self, alloc: Global) -> Result<Kept, EdgeFault> {
        match self.memory.load(alloc) {
            Ok(kept) => Ok(kept),
            Err(EdgeFault::Failed) => {
                self.load_faults = self.load_faults.saturating_add(1);
                Err(EdgeFault::Failed)
            }
            Err(EdgeFault::NoMemory) => Err(EdgeFault::NoMemory),
        }
    }

    fn append(&mut self, alloc: Global, row: &[u8]) -> Result<(), EdgeFault> {
        self.memory.append(alloc, row)
    }

    fn replace(&mut self, alloc: Global, whole: &Kept) -> Result<(), EdgeFault> {
        self.memory.replace(alloc, whole)
    }
}

// A world of this setting, the points of the sessions of the connections that came back, and how
// often keepers failed to load.
#[derive(Drop)]
pub(crate) struct MemoryWorld {
    alloc: Global,
    setting: Setting,
    points: Numbers,
    load_faults: u64,
}

impl MemoryWorld {
    pub(crate) fn new(alloc: Global, setting: Setting) -> MemoryWorld {
        MemoryWorld {
            alloc,
            setting,
            points: Numbers::new(alloc),
            load_faults: 0,
        }
    }

    // Lends of each point of their sessions the account's index, and how many entries it had before
    // and after.
    pub(crate) fn points(&self) -> &[u64] {
        self.points.as_slice()
    }
}

// Adds the points of the session that served a connection. Where memory runs out, numbers are
// missing.
fn add_points(points: &mut Numbers, finished: &Finished<MemoryLink>) {
    for point in finished.trail.as_slice() {
        let _ = points.push(point.account);
        let _ = points.push(point.before);
        let _ = points.push(point.after);
    }
}

fn line_of(alloc: Global, request: &str) -> Result<MemoryLink, NoMemory> {
    let bytes = Bytes::from_slice(alloc, request.as_bytes())?;
    Ok(MemoryLink::from_vec(alloc, bytes.into_vec()))
}

impl World for MemoryWorld {
    ghost use Rattle.std.specs.Prelude.{None, ◌≡◌, ◌∷◌, [], ℕ};
    ghost use Rattle.jmap_server.specs.Deeds.{GotLine, IsTold};

    type Keep = RowKeeper;

    type Line = MemoryLink;

    type Time = MemoryClock;

    type Hold = NoGate;

    ghost told = { λ _. None };

    ghost faults = { λ _. 0 };

    ghost load_faults = { λ w. w.load_faults };

    fn text(&mut self, alloc: Global, _name: &Text) -> Result<Bytes, EdgeFault> {
        Ok(Bytes::from_slice(alloc, self.setting.config.as_bytes())?)
    }

    fn keeper(
        &mut self,
        alloc: Global,
        _folder: &Text,
        _account: &Text,
    ) -> Result<RowKeeper, EdgeFault> {
        Ok(RowKeeper::new(alloc))
    }

    fn listen(&mut self, _alloc: Global, _port: u16) -> Result<(), EdgeFault> {
        Ok(())
    }

    fn line(&mut self, alloc: Global) -> Result<MemoryLink, EdgeFault> {
        Ok(line_of(alloc, self.setting.request)?)
    }

    fn clock(&mut self) -> MemoryClock {
        MemoryClock::new(Numbers::new(self.alloc), 0)
    }

    fn gate(&mut self) -> NoGate {
        NoGate
    }

    fn return_line(&mut self, finished: Finished<MemoryLink>)
        ensures told { IsTold {K = Unit {0}} {C = Unit {0}} None None (GotLine finished ∷ []) }
        ensures count { ◌≡◌ {A = ℕ} 0 0 }
        ensures load_count { self.new.load_faults ≡ self.old.load_faults }
    {
        add_points(&mut self.points, &finished);
    }

    fn return_keeper(&mut self, _account: &Text, keeper: RowKeeper) {
        self.load_faults = self.load_faults.saturating_add(keeper.load_faults);
    }
}
