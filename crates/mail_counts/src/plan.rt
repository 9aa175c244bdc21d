// What a set of records is planned to do, and why one is refused (RFC 8620, section 5.3).
use jm_base::{Blobs, NoMemory, Text};
use jm_json::{Json, Made};
use mail_records::Edits;

/// What a set, an import or a copy does: the arguments of its response, its edits in order, the
/// records that it makes, each with its creation id, and the blobs that it brings.
#[derive(Drop)]
pub struct SetPlan {
    pub reply: Json,
    pub edits: Edits,
    pub made: Made,
    /// The bytes of the new blobs, which are numbered on from those of the account.
    pub blobs: Blobs,
}

/// A set is refused as a whole, and changes nothing.
#[derive(Debug, Drop)]
pub enum SetFault {
    /// The argument of this name is missing or has a wrong form; with an empty name the arguments
    /// are no object.
    Invalid(Text),
    /// It names more than `MAX_OBJECTS_PER_CALL` objects.
    TooLarge,
    /// `ifInState` isn't the present state.
    StateMismatch,
    NoMemory,
}

impl From<NoMemory> for SetFault {
    ghost use Rattle.std.specs.Prelude.{◌≡◌};
    ghost use Rattle.mail_counts.specs.declared.plan.SetFault.TheVariants.{NoMemory};

    ghost from_gives = { λ _ e. e ≡ NoMemory };

    fn from(_refused: NoMemory) -> SetFault {
        SetFault::NoMemory
    }
}
