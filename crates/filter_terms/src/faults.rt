// Why a tree is no filter.
use jm_base::{NoMemory, Text};

/// A tree is not a filter.
#[derive(Debug, Drop)]
pub enum TermFault {
    /// The value of the condition of this name is of a wrong kind, or the argument of this name is
    /// missing or wrong; with an empty name the tree itself is: `invalidArguments`.
    Invalid(Text),
    /// There is no condition or member of this name: `unsupportedFilter`.
    Unsupported(Text),
    /// An allocation failed.
    NoMemory,
}

impl From<NoMemory> for TermFault {
    ghost use Rattle.std.specs.Prelude.{◌≡◌};
    ghost use Rattle.filter_terms.specs.declared.faults.TermFault.TheVariants.{NoMemory};

    ghost from_gives = { λ _ e. e ≡ NoMemory };

    fn from(_refused: NoMemory) -> TermFault {
        TermFault::NoMemory
    }
}
