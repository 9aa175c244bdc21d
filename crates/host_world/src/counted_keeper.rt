// A keeper that says how often its `load` has failed.
ghost use Rattle.std.specs.Prelude.{◌≡◌};

use jm_base::Text;
use jm_edge::EdgeFault;
use keep_port::{Keeper, Kept};
use std::alloc::Global;

/// A keeper that counts how often its `load` has failed. Whoever makes one begins with a count
/// of 0.
#[derive(Drop)]
pub struct CountedKeeper<K: Keeper> {
    /// The keeper of which the loads are counted.
    pub inner: K,
    /// The path of what it keeps the account in.
    pub path: Text,
    /// How often its `load` has failed.
    pub load_faults: u64,
}

impl<K: Keeper> Keeper for CountedKeeper<K> {
    ghost kept = { λ c. K.kept c.inner };

    ghost image = { λ c. K.image c.inner };

    ghost load_faults = { λ c. c.load_faults };

    ghost append_faults = { λ c. K.append_faults c.inner };

    ghost replace_faults = { λ c. K.replace_faults c.inner };

    fn load(&mut self, alloc: Global) -> Result<Kept, EdgeFault> {
        match self.inner.load(alloc) {
            Ok(kept) => Ok(kept),
            Err(EdgeFault::Failed) => {
                self.load_faults = self.load_faults.saturating_add(1);
                Err(EdgeFault::Failed)
            }
            Err(EdgeFault::NoMemory) => Err(EdgeFault::NoMemory),
        }
    }

    fn append(&mut self, alloc: Global, row: &[u8]) -> Result<(), EdgeFault> {
        self.inner.append(alloc, row)
    }

    fn replace(&mut self, alloc: Global, whole: &Kept) -> Result<(), EdgeFault> {
        self.inner.replace(alloc, whole)
    }
}
