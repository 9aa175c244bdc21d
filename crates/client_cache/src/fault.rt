// Why a text is not read as a cache.
use jm_base::{NoMemory, Text};

/// Why a text is not read as a cache. `BadCache` has the JSON Pointer of the value that is not of
/// its form: of several the least in byte order.
#[derive(Debug, Drop)]
pub enum CacheFault {
    BadCache(Text),
    NoMemory,
}

impl From<NoMemory> for CacheFault {
    ghost use Rattle.std.specs.Prelude.{◌≡◌};
    ghost use Rattle.client_cache.specs.declared.fault.CacheFault.TheVariants as cache_fault;

    ghost from_gives = { λ _ e. e ≡ cache_fault.NoMemory };

    fn from(_refused: NoMemory) -> CacheFault {
        CacheFault::NoMemory
    }
}
