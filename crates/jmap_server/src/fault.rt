// Why a server ended before it had served all its lines.
use account_book::Reason;
use jm_base::{NoMemory, Text};

/// Why a server ended before it had served all its lines.
#[derive(Debug, Drop)]
pub enum ServeFault {
    /// The configuration is not of its form. This is the JSON Pointer of the least bad place in
    /// byte order (RFC 6901).
    BadConfig(Text),
    /// The keeper of an account could not load what it keeps.
    KeeperFault,
    /// What the keeper of an account keeps is damaged, in this row.
    Damaged { row: u64, reason: Reason },
    /// The world failed: it could not read the configuration, give a keeper, listen, or give a
    /// line.
    DeskFault,
    /// Memory ran out.
    NoMemory,
}
