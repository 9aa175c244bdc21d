// Which part of a result list is asked for, and which one is shown (RFC 8620, section 5.5).
use jm_base::{NoMemory, Numbers, Text};

/// Which part of a result list is asked for.
#[derive(Drop)]
pub struct Frame {
    /// The index at which the part begins if there is no anchor; below 0 it counts from the end.
    pub position: i64,
    /// The id of the record from which the part begins, moved by the offset.
    pub anchor: Option<Text>,
    /// How far after the anchor the part begins, or before it if below 0.
    pub offset: i64,
    /// How many ids there are at most.
    pub limit: Option<i64>,
}

/// A part of a result list.
#[derive(Drop)]
pub struct Shown {
    /// The index at which the part begins, which may be past the end of the list.
    pub position: u64,
    /// The numbers of the records in the part, in the order of the list.
    pub ids: Numbers,
    /// The limit that counts, if it is not the one that was asked for.
    pub limit: Option<u64>,
}

/// There is no such part of a result list.
#[derive(Clone, Copy, Debug, PartialEq, Eq)]
pub enum WindowFault {
    /// The anchor is not in the list: `anchorNotFound`.
    AnchorNotFound,
    /// The limit is below 0: `invalidArguments`.
    BadLimit,
    /// An allocation failed.
    NoMemory,
}

impl From<NoMemory> for WindowFault {
    ghost use Rattle.std.specs.Prelude.{◌≡◌};
    ghost use Rattle.query_engine.specs.declared.frame.WindowFault.TheVariants.{NoMemory};

    ghost from_gives = { λ _ e. e ≡ NoMemory };

    fn from(_refused: NoMemory) -> WindowFault {
        WindowFault::NoMemory
    }
}
