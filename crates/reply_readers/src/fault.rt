// Why a response is not read.
use jm_base::{NoMemory, Text};

/// Why a response is not read.
#[derive(Debug, Drop)]
pub enum PlaceFault {
    /// The value at this JSON Pointer (RFC 6901) is not of its form, or is missing: of several the
    /// least pointer in byte order.
    InvalidAt(Text),
    /// An allocation failed.
    NoMemory,
}

impl From<NoMemory> for PlaceFault {
    ghost use Rattle.std.specs.Prelude.{◌≡◌};
    ghost use Rattle.reply_readers.specs.declared.fault.PlaceFault.TheVariants.{NoMemory};

    ghost from_gives = { λ _ e. e ≡ NoMemory };

    fn from(_refused: NoMemory) -> PlaceFault {
        PlaceFault::NoMemory
    }
}
