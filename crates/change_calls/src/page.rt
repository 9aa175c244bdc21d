// A page of changes, and why there is none (RFC 8620, section 5.2).
use jm_base::{NoMemory, Numbers};

/// A page of changes: what happened to the records of a kind between a state and the position at
/// which the page ends (RFC 8620, section 5.2).
#[derive(Drop)]
pub struct ChangePage {
    /// The numbers of the records that were absent at the state and are present where the page
    /// ends, in number order.
    pub created: Numbers,
    /// The numbers of the records that are present at both, and that an edit in between names, in
    /// number order.
    pub updated: Numbers,
    /// The numbers of the records that were present at the state and are absent where the page
    /// ends, in number order.
    pub destroyed: Numbers,
    /// The state of the kind where the page ends: `newState`.
    pub new_state: u64,
    /// Whether the page ends before the last position: `hasMoreChanges`.
    pub more: bool,
    /// Whether there are updated records, and each edit of them within the page changes only the
    /// counts of a mailbox (RFC 8621, section 2.2: `updatedProperties`).
    pub counts_only: bool,
}

/// Why a call for changes has no page.
#[derive(Clone, Copy, Debug, PartialEq, Eq)]
pub enum ChangeFault {
    /// The text is not the text of a state from which all edits of the kind are known (RFC 8620,
    /// section 5.2: `cannotCalculateChanges`).
    CannotCalculate,
    /// The maximum is below 1 (RFC 8620, section 5.2: `invalidArguments`).
    BadMaximum,
    /// An allocation failed.
    NoMemory,
}

impl From<NoMemory> for ChangeFault {
    ghost use Rattle.std.specs.Prelude.{◌≡◌};
    ghost use Rattle.change_calls.specs.declared.page.ChangeFault.TheVariants.{NoMemory};

    ghost from_gives = { λ _ e. e ≡ NoMemory };

    fn from(_refused: NoMemory) -> ChangeFault {
        ChangeFault::NoMemory
    }
}
