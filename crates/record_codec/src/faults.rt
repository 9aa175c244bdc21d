// The errors of decoding.
ghost use Rattle.std.specs.Prelude.{◌≡◌};
ghost use Rattle.record_codec.specs.declared.faults.Misread.TheVariants.{NoMemory as OutOfMemory};

use jm_base::NoMemory as MemoryFault;
use std::alloc::{AllocError, AllocFailed};

/// Why bytes were not decoded as a commit.
#[derive(Clone, Copy, Debug, PartialEq, Eq)]
pub enum CodecFault {
    /// The bytes are no commit's encoding. The number is the byte offset of the first byte at which
    /// no commit's encoding continues as the bytes do: their length where they end early.
    NotACommit(u64),
    /// An allocation failed; nothing is said of the bytes.
    NoMemory,
}

/// Why a field was not decoded.
#[derive(Clone, Copy, Debug, PartialEq, Eq)]
pub enum Misread {
    /// No encoding of the field continues as the bytes do where so many bytes are left.
    Stuck(usize),
    NoMemory,
}

impl From<MemoryFault> for Misread {
    ghost from_gives = { λ _ e. e ≡ OutOfMemory };

    fn from(_refused: MemoryFault) -> Misread {
        Misread::NoMemory
    }
}

impl From<AllocError> for Misread {
    ghost from_gives = { λ _ e. e ≡ OutOfMemory };

    fn from(_refused: AllocError) -> Misread {
        Misread::NoMemory
    }
}

impl<T: Drop> From<AllocFailed<T>> for Misread {
    ghost from_gives = { λ _ e. e ≡ OutOfMemory };

    fn from(_refused: AllocFailed<T>) -> Misread {
        Misread::NoMemory
    }
}
