// Why a cache is not brought up to date.
use client_cache::{CacheFault, ReplyFault};
use jm_base::{NoMemory, Text};

/// Why a cache is not brought up to date.
#[derive(Debug, Drop)]
pub enum SyncFault {
    /// A reply is not of its form, or its status is not 200: the JSON Pointer of the place.
    BadReply(Text),
    /// The file that is kept is not of its form: the JSON Pointer of the place.
    BadCache(Text),
    /// The state of the account changed eight times during the round: the state that the round had
    /// last, and the one that was shown.
    Moved { had: Text, shown: Text },
    /// The round took as many replies as it may.
    TooLong,
    /// The exchange failed.
    ExchangeFault,
    /// The shelf failed.
    ShelfFault,
    /// An allocation failed.
    NoMemory,
}

impl From<NoMemory> for SyncFault {
    ghost use Rattle.std.specs.Prelude.{◌≡◌};
    ghost use Rattle.client_sync.specs.declared.fault.SyncFault.TheVariants.{NoMemory};

    ghost from_gives = { λ _ e. e ≡ NoMemory };

    fn from(_refused: NoMemory) -> SyncFault {
        SyncFault::NoMemory
    }
}
