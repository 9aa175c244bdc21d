// How the result list of a query changed, and why there is no answer (RFC 8620, section 5.6).
use jm_base::{AddedItem, NoMemory, Numbers, Sequence};

/// A list of added records, each with its index.
pub type Added = Sequence<AddedItem>;

/// How the result list of a query changed since a state (RFC 8620, section 5.6).
#[derive(Drop)]
pub struct Delta {
    /// The numbers of the records that may have changed their place in the list, in number order.
    /// They include records that are in neither list.
    pub removed: Numbers,
    /// Those of these records that are in the present list, each with its index there, rising.
    pub added: Added,
    /// The present state of the query's kind: `newQueryState`.
    pub new_state: u64,
    /// The length of the present list.
    pub total: u64,
}

/// Why the changes of a result list are not returned.
#[derive(Clone, Copy, Debug, PartialEq, Eq)]
pub enum DeltaFault {
    /// The text is not the text of a state from which all edits of the kind are known (RFC 8620,
    /// section 5.6: `cannotCalculateChanges`).
    CannotCalculate,
    /// Both lists together have this many items, which is more than the maximum (RFC 8620, section
    /// 5.6: `tooManyChanges`).
    TooMany(u64),
    /// An allocation failed.
    NoMemory,
}

impl From<NoMemory> for DeltaFault {
    ghost use Rattle.std.specs.Prelude.{◌≡◌};
    ghost use Rattle.query_changes.specs.declared.delta.DeltaFault.TheVariants.{NoMemory};

    ghost from_gives = { λ _ e. e ≡ NoMemory };

    fn from(_refused: NoMemory) -> DeltaFault {
        DeltaFault::NoMemory
    }
}
