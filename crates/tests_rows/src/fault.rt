// Why a row can't be run.
use jm_base::NoMemory;
use std::alloc::{AllocError, AllocFailed};

/// Why a row can't be run.
#[derive(Clone, Copy, Debug)]
pub(crate) enum Fault {
    /// Memory ran out.
    NoMemory,
    /// The line with this number is not of the format, and why.
    Line(u64, &'static str),
}

impl From<NoMemory> for Fault {
    fn from(_refused: NoMemory) -> Fault {
        Fault::NoMemory
    }
}

impl From<AllocError> for Fault {
    fn from(_refused: AllocError) -> Fault {
        Fault::NoMemory
    }
}

impl<T: Drop> From<AllocFailed<T>> for Fault {
    fn from(_refused: AllocFailed<T>) -> Fault {
        Fault::NoMemory
    }
}
