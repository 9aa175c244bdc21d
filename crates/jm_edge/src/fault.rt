// Why a call on the outside fails.
use jm_base::NoMemory;

/// The outside failed.
#[derive(Clone, Copy, Debug, PartialEq, Eq)]
pub struct Failed;

/// The outside failed, or no memory was left.
#[derive(Clone, Copy, Debug, PartialEq, Eq)]
pub enum EdgeFault {
    Failed,
    NoMemory,
}

impl From<Failed> for EdgeFault {
    ghost use Rattle.std.specs.Prelude.{◌≡◌};
    ghost use Rattle.jm_edge.specs.declared.fault.EdgeFault.TheVariants as edge_fault;

    ghost from_gives = { λ _ e. e ≡ edge_fault.Failed };

    fn from(_refused: Failed) -> EdgeFault {
        EdgeFault::Failed
    }
}

impl From<NoMemory> for EdgeFault {
    ghost use Rattle.std.specs.Prelude.{◌≡◌};
    ghost use Rattle.jm_edge.specs.declared.fault.EdgeFault.TheVariants as edge_fault;

    ghost from_gives = { λ _ e. e ≡ edge_fault.NoMemory };

    fn from(_refused: NoMemory) -> EdgeFault {
        EdgeFault::NoMemory
    }
}
