// How a connection ended.
use jm_base::Bytes;

/// How a connection ended.
#[derive(Debug, Drop)]
pub enum Served {
    /// The bytes ended between two requests, or a request that asks for the end was answered.
    End,

    /// The bytes ended after so many bytes of a request.
    CutOff(u64),

    /// The link failed to read.
    ReadFault,

    /// The link failed to write.
    WriteFault,

    /// The last request that a connection may have was answered.
    Limit,

    /// An allocation failed. The response 503 was written, or a prefix of it if the link failed.
    NoMemory,

    /// A message was refused with this status: 400, 413 or 431.
    Refused(u16),

    /// A request of the user with this index was answered by the switch to WebSocket (RFC 6455,
    /// section 4.2.2). The early bytes were read past it.
    Upgraded { user: u64, early: Bytes },
}
