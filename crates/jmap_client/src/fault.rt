// Why a command of a client ends before all its text is printed.
use client_cache::MovedStates;
use jm_base::Text;

/// Why a command of a client ends before all its text is printed.
#[derive(Debug, Drop)]
pub enum ClientFault {
    /// The output failed. A prefix of the text was printed.
    WriteFault,
    /// A reply is not of its form, or its status is not 200: the JSON Pointer of the least bad
    /// place in byte order (RFC 6901).
    BadReply(Text),
    /// The state of the account changed eight times during the round: the state that the round had
    /// last, and the one that was shown.
    Moved(MovedStates),
    /// The exchange with the server failed.
    ExchangeFault,
    /// The shelf of the file failed.
    ShelfFault,
    /// The file is not of its form: the JSON Pointer of the least bad place. Or its cache has no
    /// list of the name: then it is `/lists`.
    BadCache(Text),
    /// The world failed: it could not give an exchange or a shelf.
    DeskFault,
    /// The round took as many replies as it may.
    TooLong,
    /// Memory ran out.
    NoMemory,
}
