// What accounts answer to the server.

/// What an account answers to an upload.
#[derive(Clone, Copy, Debug, PartialEq, Eq)]
pub enum Stored {
    /// The blob with this number holds the bytes.
    Kept(u64),
    /// There is no room for one more blob of that size.
    Full,
    /// The blob could not be kept.
    Failed,
}

/// The states of an account: a number for each kind of record, which rises with each change of
/// that kind (RFC 8620, section 7.1).
#[derive(Clone, Copy, Debug, PartialEq, Eq)]
pub struct AccountStates {
    pub mailbox: u64,
    pub email: u64,
    pub thread: u64,
}
