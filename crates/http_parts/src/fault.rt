// Why no request could be read, or no response written.
use jm_base::NoMemory;

/// Why no request could be read, or no response written.
#[derive(Clone, Copy, Debug, PartialEq, Eq)]
pub enum WireFault {
    /// The bytes ended before the first byte of a request.
    End,

    /// The link failed to read.
    ReadFault,

    /// The link failed to write.
    WriteFault,

    /// The head or the length of the body is invalid (status 400).
    BadHead,

    /// The head is too long, or has too many lines (status 431).
    HeadTooLong,

    /// The body is longer than this limit in bytes (status 413).
    BodyTooLong(u64),

    /// The bytes ended after so many bytes of a request.
    CutOff(u64),

    /// An allocation failed.
    NoMemory,
}

impl From<NoMemory> for WireFault {
    ghost use Rattle.std.specs.Prelude.{◌≡◌};
    ghost use Rattle.http_parts.specs.declared.fault.WireFault.TheVariants as wire_fault;

    ghost from_gives = { λ _ e. e ≡ wire_fault.NoMemory };

    fn from(_refused: NoMemory) -> WireFault {
        WireFault::NoMemory
    }
}
