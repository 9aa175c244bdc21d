// Why lines were not all written.

/// Why lines were not all written: the sink failed, or an allocation failed. A prefix of the lines
/// was written.
#[derive(Clone, Copy, Debug, PartialEq, Eq)]
pub enum PrintFault {
    WriteFault,
    NoMemory,
}
