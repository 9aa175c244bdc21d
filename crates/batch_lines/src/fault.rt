// Why lines were not all answered.

/// Why lines were not all answered: reading or writing failed, memory ran out, or the input has
/// more bytes than it may have.
#[derive(Clone, Copy, Debug, PartialEq, Eq)]
pub enum LinesFault {
    ReadFault,
    WriteFault,
    NoMemory,
    TooLong,
}
