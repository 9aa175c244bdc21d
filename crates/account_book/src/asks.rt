// What an account is asked.
use jm_base::{Blobs, Bytes, Text};
use jm_json::{Invocation, Items, Made};

/// What is asked of one account.
#[derive(Drop)]
pub enum Ask {
    /// A method of JMAP (RFC 8620, section 3.2), with its references resolved.
    Method(Invocation),
    /// Asks to keep these bytes as a blob (RFC 8620, section 6.1).
    Upload(Bytes),
    /// Asks for the bytes of the blob, or of the part of a message, that has this id (RFC 8620,
    /// section 6.2).
    Blob(Text),
    /// Asks for the emails or blobs to be copied: the side that reads of an Email/copy or a
    /// Blob/copy (RFC 8621, section 4.7; RFC 8620, section 6.3).
    Fetch(Invocation),
    /// Asks to create what the other side read: the side that writes of an Email/copy or Blob/copy.
    Place(Invocation, Carried),
    /// Asks for the present state of each kind of record.
    States,
}

/// What is carried from one account to another by an Email/copy or a Blob/copy.
#[derive(Drop)]
pub struct Carried {
    /// The emails, each as an object.
    pub emails: Items,
    /// The message of each.
    pub blobs: Blobs,
}

/// A call on one account.
#[derive(Drop)]
pub struct Call {
    pub ask: Ask,
    /// What the request has made up to here.
    pub made: Made,
    /// Whether the user may only read the account.
    pub read_only: bool,
}
