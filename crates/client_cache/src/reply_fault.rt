// Why a reply is not taken.
use jm_base::{NoMemory, Text};

/// Why a reply is not taken, or ends its round.
#[derive(Debug, Drop)]
pub enum ReplyFault {
    /// The value at this JSON Pointer (RFC 6901) is not of its form, or is missing: of several the
    /// least pointer in byte order.
    BadReply(Text),
    /// The reply is the eighth of the round that showed another state than it should: the state
    /// that the round had, and the one that the reply showed.
    Moved { had: Text, shown: Text },
    /// The round has taken as many replies as it may.
    TooLong,
    /// An allocation failed.
    NoMemory,
}

/// The state that a round had, and another one that a reply showed.
#[derive(Debug, Drop)]
pub struct MovedStates {
    pub had: Text,
    pub shown: Text,
}

impl From<NoMemory> for ReplyFault {
    ghost use Rattle.std.specs.Prelude.{◌≡◌};
    ghost use Rattle.client_cache.specs.declared.reply_fault.ReplyFault.TheVariants.{NoMemory};

    ghost from_gives = { λ _ e. e ≡ NoMemory };

    fn from(_refused: NoMemory) -> ReplyFault {
        ReplyFault::NoMemory
    }
}
