// The size of a buffer.

/// Lines are written as soon as this many bytes of them wait.
pub(crate) const PRINT_BUFFER_BYTES: usize = 65_536;
