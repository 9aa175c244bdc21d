// Why a call has no query (RFC 8620, section 5.5).
use jm_base::{NoMemory, Text};

/// The arguments of a call have no query.
#[derive(Debug, Drop)]
pub enum QueryFault {
    /// The argument, the condition or the member of a comparator with this name is missing or of a
    /// wrong kind; with an empty name the tree of an argument is: `invalidArguments`.
    Invalid(Text),
    /// No filter has a condition or member of this name: `unsupportedFilter`.
    UnsupportedFilter(Text),
    /// No sort has this member of a comparator: `unsupportedSort`.
    UnsupportedSort(Text),
    /// An allocation failed.
    NoMemory,
}

impl From<NoMemory> for QueryFault {
    ghost use Rattle.std.specs.Prelude.{◌≡◌};
    ghost use Rattle.query_engine.specs.declared.faults.QueryFault.TheVariants.{NoMemory};

    ghost from_gives = { λ _ e. e ≡ NoMemory };

    fn from(_refused: NoMemory) -> QueryFault {
        QueryFault::NoMemory
    }
}
