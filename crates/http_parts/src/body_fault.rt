// Why a body could not be read.
ghost use Rattle.std.specs.Prelude.{◌≡◌, ◌<◌, ◌+◌};
ghost use Rattle.http_parts.specs.Parts.{IsCountBelow, counted_after};
ghost use Rattle.http_parts.specs.declared.limits.TheConstants.{BUFFER_BYTES_LIMIT};

/// Why a body, or a part of one, could not be read.
#[derive(Clone, Copy, Debug, PartialEq, Eq)]
pub enum BodyFault {
    /// The bytes break the grammar.
    Invalid,

    /// The body is longer than its limit.
    TooLong,

    /// The link ended after so many bytes of the part.
    Ended(usize),

    /// The link failed to read.
    ReadFault,

    /// An allocation failed.
    NoMemory,
}

impl BodyFault {
    // Returns the fault of a longer part that has so many bytes before this one.
    pub(crate) fn add_bytes_before(self, count: usize) -> BodyFault
        requires below { IsCountBelow BUFFER_BYTES_LIMIT self }
        requires small { count < BUFFER_BYTES_LIMIT }
        ensures { result ≡ counted_after count self }
    {
        match self {
            BodyFault::Ended(more) => BodyFault::Ended(count + more),
            fault => fault,
        }
    }
}
