// Addresses, and groups of them.
use jm_base::{Sequence, Text};

/// An address of a message's header (RFC 8621, section 4.1.2.3).
#[derive(Drop)]
pub struct Address {
    /// The address itself (addr-spec; RFC 5322, section 3.4.1) as it is written; it isn't empty.
    pub email: Text,
    /// The name next to it: the display-name before its bracket, else the text of a comment. It
    /// isn't empty.
    pub name: Option<Text>,
}

/// A list of addresses.
pub type Addresses = Sequence<Address>;

/// A group of addresses (RFC 8621, section 4.1.2.4).
#[derive(Drop)]
pub struct Group {
    /// The name, which may be empty; addresses outside groups have none.
    pub name: Option<Text>,
    /// The addresses of the group in order; a group with a name may have none.
    pub addresses: Addresses,
}

/// A list of groups.
pub type Groups = Sequence<Group>;
